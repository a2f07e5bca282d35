//! Where a running relay sends a metric.

ghost use Rattle.std.specs.Prelude.{◌≡◌, false, IfOk, MatchOption};
ghost use Rattle.std.specs.String.{string_bytes};
ghost use Rattle.line_text.specs.Name.{is_name};
ghost use Rattle.relay_commands.specs.LiveRoute.{live_line, live_answer, configured_answer};

use crate::route_command::{push_sent, routed_by};
use conf_text::Dest;
use relay_base::{NoMemory, put};
use relay_files::RunConfiguration;
use router::{Plan, Sent};
use std::alloc::Global;
use std::marker::Model;

/// The routes of a running relay: its configuration, and a plan of it, which is made when the first name is asked for.
///
/// In clauses it is the configuration.
#[derive(Drop)]
pub struct LiveRoutes<'c> {
    configuration: &'c RunConfiguration,
    plan: Option<Plan>,
}

impl<'c> Model for LiveRoutes<'c> {
    ghost use Rattle.std.specs.Prelude.{◌≡◌, IfSome};
    ghost use Rattle.relay_files.specs.Configuration.{Configuration};

    ghost Value = { Configuration };

    ghost view = { λ r. r.configuration.now };

    ghost invariant = { λ r. IfSome r.plan (λ plan. plan ≡ r.configuration.now.plan) };
}

impl<'c> LiveRoutes<'c> {
    /// The routes of a configuration. Takes no memory yet.
    pub fn new(configuration: &'c RunConfiguration) -> LiveRoutes<'c>
        ensures { result ≡ configuration.now }
    {
        LiveRoutes {
            configuration,
            plan: None,
        }
    }

    /// The answer to `route` and a name: `route `, the rewritten name and its destinations, separated by one space, or
    /// `dropped`; and byte 10. `None` if the text is not a metric name.
    ///
    /// Refuses if out of memory, also if the kit's `regex` now refuses a pattern that it had accepted before.
    pub fn answer(&mut self, alloc: Global, name: &[u8]) -> Result<Option<String>, NoMemory>
        ensures answer { IfOk result (λ said. MatchOption said (is_name name.now ≡ false)
            (λ answer. string_bytes answer ≡ configured_answer self.old name.now)) }
        ensures same { self.new ≡ self.old }
    {
        if self.plan.is_none() {
            let Ok(plan) = self.configuration.plan(alloc) else {
                return Err(NoMemory);
            };
            put(&mut self.plan, Some(plan));
        }
        let dests = self.configuration.settings().destinations();
        match &mut self.plan {
            Some(plan) => answer_by(alloc, plan, dests, name),
            None => Err(NoMemory),
        }
    }
}

/// The answer of a plan, of these destinations; `None` if the text is not a metric name.
fn answer_by(
    alloc: Global,
    plan: &mut Plan,
    dests: &[Dest],
    name: &[u8],
) -> Result<Option<String>, NoMemory>
    ensures answer { IfOk result (λ said. MatchOption said (is_name name.now ≡ false)
        (λ answer. string_bytes answer ≡ live_answer plan.old dests.now name.now)) }
    ensures same { plan.new ≡ plan.old }
{
    match routed_by(alloc, plan, name)? {
        Some(routed) => Ok(Some(live_line(alloc, dests, &routed.sent)?)),
        None => Ok(None),
    }
}

/// The answer for what is sent.
fn live_line(alloc: Global, dests: &[Dest], sent: &Sent) -> Result<String, NoMemory>
    ensures { IfOk result (λ answer. string_bytes answer ≡ live_line dests.now sent.now) }
{
    let mut answer = String::new(alloc);
    if sent.point.is_some() {
        answer.push_str("route ")?;
    }
    push_sent(&mut answer, dests, sent)?;
    Ok(answer)
}
