//! The plan of a configuration with a ring.

use conf_text::{Ini, Settings};
use rewrite_rules::RewriteRules;
use router::Plan;
use std::alloc::Global;

/// The settings of a configuration; `None` if they have a fault, or out of memory.
pub fn settings_of(alloc: Global, config: &str) -> Option<Settings> {
    let ini = Ini::read(alloc, config).ok()?;
    let settings = Settings::read(alloc, &ini).ok();
    drop(ini);
    settings
}

/// The plan of a configuration with a ring, and of these rewrite rules; `None` if a file has a fault, or out of memory.
///
/// It is made by a function that borrows the settings, since their drop is dear to prove beside other calls.
pub fn ring_plan(alloc: Global, config: &str, rewrite: &str) -> Option<Plan> {
    let settings = settings_of(alloc, config)?;
    let plan = plan_by(alloc, &settings, rewrite);
    drop(settings);
    plan
}

fn plan_by(alloc: Global, settings: &Settings, rewrite: &str) -> Option<Plan> {
    let rewrite = RewriteRules::read(alloc, rewrite).ok()?;
    Plan::new(alloc, settings, rewrite, None).ok()
}
