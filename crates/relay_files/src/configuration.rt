//! A configuration, read from its files.

ghost use Rattle.std.specs.Prelude.{◌≡◌, Ok, Err, true, length, IfOk, IfErr};
ghost use Rattle.relay_rules.specs.Answers.{none_refused};
ghost use Rattle.router.specs.Plan.{are_read_for};
ghost use Rattle.relay_rules.specs.Rules.{names_below};
ghost use Rattle.relay_files.specs.Files.{Bytes, ReadAs, GivenReadAs, AllReadAs};
ghost use Rattle.relay_files.specs.Configuration.{OtherFilesReadAs, text_in, ini_in, settings_in, rules_in, rules_given, rewrite_in, rewrite_given, configuration_of, file_of, files_of, plan_from};
ghost use Rattle.relay_files.specs.Faults.{Fails, FailsRules, FailsRewrite, FailsRulesGiven, FailsRewriteGiven, EndsAt};

use crate::fault::RelayFault;
use crate::role::Role;
use crate::source::{Source, Sources, read_source};
use conf_text::{Dest, Ini, Settings};
use relay_rules::RelayRules;
use rewrite_rules::RewriteRules;
use router::Plan;
use std::alloc::Global;
use std::str;

/// A configuration that was read.
#[derive(Drop)]
pub struct Configuration {
    /// The settings.
    pub settings: Settings,
    /// The plan made from the settings and both files of rules.
    pub plan: Plan,
    /// The bytes of the configuration file.
    pub config: Vec<u8>,
    /// The bytes of the file of relay rules, if there is one.
    pub rules: Option<Vec<u8>>,
    /// The bytes of the rewrite file, if there is one.
    pub rewrite: Option<Vec<u8>>,
}

impl Configuration {
    /// Reads a configuration from its files: the settings, the relay rules if there is a file of them (even if
    /// the method does not use them), the rewrite rules if there is a file of them, and then the plan. It ends
    /// at the first fault, and opens no file after it. For each file it checks first that it can be read
    /// (`CannotRead`), then that it is UTF-8 (`NotText`), and then what it says.
    pub fn read<S: Source>(
        alloc: Global,
        sources: &mut Sources<S>,
    ) -> Result<Configuration, RelayFault>
        ensures ok { IfOk result (λ c. AllReadAs S.bytes sources.old
            (λ files. configuration_of files ≡ Ok (record {
              settings = c.settings;
              plan = c.plan;
              files = files_of (λ v. v.items) c.config c.rules c.rewrite;
            }))) }
        ensures made { IfOk result (λ c. plan_from c.settings
            (file_of (λ v. v.items) c.rules) (file_of (λ v. v.items) c.rewrite) ≡ Ok c.plan) }
        ensures destinations { IfOk result (λ c.
            c.plan.destinations ≡ length c.settings.routing.destinations) }
        ensures err { IfErr result (λ fault. AllReadAs S.bytes sources.old
            (λ files. EndsAt sources.old sources.new files fault)) }
    {
        let (settings, config) = settings_from(alloc, &mut sources.config)?;
        match plan_from(alloc, &settings, sources) {
            Ok((plan, rules, rewrite)) => Ok(Configuration {
                settings,
                plan,
                config,
                rules,
                rewrite,
            }),
            Err(fault) => {
                drop((settings, config));
                Err(fault)
            }
        }
    }
}

/// Reads both files of rules and makes the plan, with these settings of the configuration file: the plan, and the
/// bytes of each file of rules, if there is one.
fn plan_from<S: Source>(
    alloc: Global,
    settings: &Settings,
    sources: &mut Sources<S>,
) -> Result<(Plan, Option<Vec<u8>>, Option<Vec<u8>>), RelayFault>
    ensures ok { IfOk result (λ read. OtherFilesReadAs S.bytes sources.old settings.now
        (λ files. configuration_of files ≡ Ok (record {
          settings = settings.now;
          plan = read.0;
          files = record {
            config = files.config;
            rules = file_of (λ v. v.items) read.1;
            rewrite = file_of (λ v. v.items) read.2;
          };
        }))) }
    ensures made { IfOk result (λ read. plan_from settings.now
        (file_of (λ v. v.items) read.1) (file_of (λ v. v.items) read.2) ≡ Ok read.0) }
    ensures destinations { IfOk result (λ read.
        read.0.destinations ≡ length settings.now.routing.destinations) }
    ensures err { IfErr result (λ fault. OtherFilesReadAs S.bytes sources.old settings.now
        (λ files. EndsAt sources.old sources.new files fault)) }
{
    let (rules, relay_rules) = rules_from(alloc, settings.destinations(), &mut sources.rules)?;
    match rewrite_from(alloc, &mut sources.rewrite) {
        Ok((rewrite, rewrite_rules)) => {
            let plan = Plan::new(alloc, settings, rewrite_rules, relay_rules)?;
            Ok((plan, rules, rewrite))
        }
        Err(fault) => {
            drop((rules, relay_rules));
            Err(fault)
        }
    }
}

// ---- files

/// Reads the settings from the configuration file: the settings, and its bytes.
fn settings_from<S: Source>(
    alloc: Global,
    source: &mut S,
) -> Result<(Settings, Vec<u8>), RelayFault>
    ensures ok { IfOk result (λ read. ReadAs (S.bytes source.old)
        (λ file. (settings_in file ≡ Ok read.0) × (file ≡ Bytes read.1.items))) }
    ensures err { IfErr result
        (λ fault. ReadAs (S.bytes source.old) (λ file. Fails (settings_in file) fault)) }
{
    let bytes = read_source(alloc, Role::Config, source)?;
    let settings = settings_in(alloc, &bytes)?;
    Ok((settings, bytes))
}

/// Reads the relay rules from their file, if there is one: its bytes, and the rules.
fn rules_from<S: Source>(
    alloc: Global,
    dests: &[Dest],
    source: &mut Option<S>,
) -> Result<(Option<Vec<u8>>, Option<RelayRules>), RelayFault>
    ensures ok { IfOk result (λ read. GivenReadAs S.bytes source.old
        (λ file. (rules_given none_refused dests.now file ≡ Ok read.1)
        × (file ≡ file_of (λ v. v.items) read.0))) }
    ensures of_bytes { IfOk result (λ read.
        rules_given none_refused dests.now (file_of (λ v. v.items) read.0) ≡ Ok read.1) }
    ensures read_for { IfOk result (λ read. are_read_for (length dests.now) read.1 ≡ true) }
    ensures err { IfErr result
        (λ fault. GivenReadAs S.bytes source.old (λ file. FailsRulesGiven dests.now file fault)) }
{
    let Some(source) = source else {
        return Ok((None, None));
    };
    let bytes = read_source(alloc, Role::Rules, source)?;
    let rules = rules_in(alloc, dests, &bytes)?;
    Ok((Some(bytes), Some(rules)))
}

/// Reads the rewrite rules from their file, if there is one: its bytes, and the rules; no file gives no rules.
fn rewrite_from<S: Source>(
    alloc: Global,
    source: &mut Option<S>,
) -> Result<(Option<Vec<u8>>, RewriteRules), RelayFault>
    ensures ok { IfOk result (λ read. GivenReadAs S.bytes source.old
        (λ file. (rewrite_given file ≡ Ok read.1) × (file ≡ file_of (λ v. v.items) read.0))) }
    ensures of_bytes { IfOk result (λ read.
        rewrite_given (file_of (λ v. v.items) read.0) ≡ Ok read.1) }
    ensures err { IfErr result
        (λ fault. GivenReadAs S.bytes source.old (λ file. FailsRewriteGiven file fault)) }
{
    let Some(source) = source else {
        return Ok((None, RewriteRules::none(alloc)));
    };
    let bytes = read_source(alloc, Role::Rewrite, source)?;
    let rules = rewrite_in(alloc, &bytes)?;
    Ok((Some(bytes), rules))
}

// ---- bytes of files

fn settings_in(alloc: Global, bytes: &[u8]) -> Result<Settings, RelayFault>
    ensures ok { IfOk result (λ settings. settings_in (Bytes bytes.now) ≡ Ok settings) }
    ensures err { IfErr result (Fails (settings_in (Bytes bytes.now))) }
{
    let ini = ini_in(alloc, Role::Config, bytes)?;
    Ok(Settings::read(alloc, &ini)?)
}

pub(crate) fn rules_in(
    alloc: Global,
    dests: &[Dest],
    bytes: &[u8],
) -> Result<RelayRules, RelayFault>
    ensures ok { IfOk result
        (λ rules. rules_in none_refused dests.now (Bytes bytes.now) ≡ Ok rules) }
    ensures read_for { IfOk result (λ rules. names_below (length dests.now) rules ≡ true) }
    ensures err { IfErr result (FailsRules dests.now (Bytes bytes.now)) }
{
    let ini = ini_in(alloc, Role::Rules, bytes)?;
    Ok(RelayRules::read(alloc, &ini, dests)?)
}

pub(crate) fn rewrite_in(alloc: Global, bytes: &[u8]) -> Result<RewriteRules, RelayFault>
    ensures ok { IfOk result (λ rules. rewrite_in (Bytes bytes.now) ≡ Ok rules) }
    ensures err { IfErr result (FailsRewrite (Bytes bytes.now)) }
{
    let text = text_in(Role::Rewrite, bytes)?;
    Ok(RewriteRules::read(alloc, text)?)
}

/// The sections of a file.
fn ini_in(alloc: Global, role: Role, bytes: &[u8]) -> Result<Ini, RelayFault>
    ensures ok { IfOk result (λ ini. ini_in role (Bytes bytes.now) ≡ Ok ini) }
    ensures err { IfErr result (Fails (ini_in role (Bytes bytes.now))) }
{
    let text = text_in(role, bytes)?;
    match Ini::read(alloc, text) {
        Ok(ini) => Ok(ini),
        Err(fault) => Err(RelayFault::of_line(role, fault)),
    }
}

/// The text of a file with this role, or `NotText` if its bytes are not UTF-8.
pub fn text_in(role: Role, bytes: &[u8]) -> Result<&str, RelayFault>
    ensures ok { IfOk result (λ text. text_in role (Bytes bytes.now) ≡ Ok text.now) }
    ensures err { IfErr result (λ fault. text_in role (Bytes bytes.now) ≡ Err fault) }
{
    match str::from_utf8(bytes) {
        Ok(text) => Ok(text),
        Err(_) => Err(RelayFault::NotText { role }),
    }
}
