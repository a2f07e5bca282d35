//! A configuration that gives several plans.

ghost use Rattle.std.specs.Prelude.{◌≡◌, ◌↔◌, Ok, true, length, IfOk, IfErr, IsTrue};
ghost use Rattle.relay_rules.specs.Answers.{none_refused};
ghost use Rattle.router.specs.Plan.{are_read_for, stays_below};
ghost use Rattle.relay_files.specs.Checksum.{bytes_given, sum_of};
ghost use Rattle.relay_files.specs.Files.{AllReadAs};
ghost use Rattle.relay_files.specs.Faults.{EndsAt, FailsRulesGiven, FailsRewriteGiven, IsRemakingFault};
ghost use Rattle.relay_files.specs.Configuration.{configuration_of, file_of, rules_given, rewrite_given};

use crate::checksum::configuration_sum;
use crate::configuration::{Configuration, rewrite_in, rules_in};
use crate::fault::RelayFault;
use crate::source::{Source, Sources};
use conf_text::{Dest, Settings};
use md5::DIGEST_LEN;
use relay_rules::RelayRules;
use rewrite_rules::RewriteRules;
use router::Plan;
use std::alloc::Global;
use std::marker::Model;

/// The settings of a configuration, and its files as they were read: each receiver has its own plan, made from the same
/// texts.
///
/// In clauses it is the settings, the plan that all of them are, and the files.
#[derive(Drop)]
pub struct RunConfiguration {
    settings: Settings,
    config: Vec<u8>,
    rules: Option<Vec<u8>>,
    rewrite: Option<Vec<u8>>,
}

impl Model for RunConfiguration {
    ghost use Rattle.relay_files.specs.Configuration.{Configuration, plan_made, file_of, files_of};

    ghost Value = { Configuration };

    ghost view = { λ c. record {
      settings = c.settings;
      plan = plan_made c.settings (file_of (λ v. v.items) c.rules)
          (file_of (λ v. v.items) c.rewrite);
      files = files_of (λ v. v.items) c.config c.rules c.rewrite;
    } };

    ghost use Rattle.relay_files.specs.Configuration.{HavePlan};

    ghost invariant = { λ c. HavePlan c.settings (file_of (λ v. v.items) c.rules)
        (file_of (λ v. v.items) c.rewrite) };
}

impl RunConfiguration {
    /// Reads a configuration from its files, as `check` does: each is opened once, when its turn comes, and none
    /// after the first fault. It makes a plan once, so that a fault of the plan is reported here.
    pub fn read<S: Source>(
        alloc: Global,
        sources: &mut Sources<S>,
    ) -> Result<RunConfiguration, RelayFault>
        // It is what the files say; or the fault is the first that they have, and the files after it are not opened.
        ensures ok { IfOk result (λ c. AllReadAs S.bytes sources.old
            (λ files. configuration_of files ≡ Ok c)) }
        ensures err { IfErr result (λ fault. AllReadAs S.bytes sources.old
            (λ files. EndsAt sources.old sources.new files fault)) }

        ensures destinations { IfOk result (λ c.
            c.plan.destinations ≡ length c.settings.routing.destinations) }
        ensures routes { IfOk result (λ c. stays_below c.plan.destinations c.plan.routing ≡ true) }
    {
        let Configuration {
            settings,
            plan,
            config,
            rules,
            rewrite,
        } = Configuration::read(alloc, sources)?;
        drop_plan(plan);
        Ok(RunConfiguration {
            settings,
            config,
            rules,
            rewrite,
        })
    }

    /// The settings.
    pub fn settings(&self) -> &Settings
        ensures { result.now ≡ self.now.settings }
    {
        &self.settings
    }

    /// The checksum of its files ([`configuration_sum`]); one that is not there has no bytes.
    pub fn sum(&self) -> [u8; DIGEST_LEN]
        ensures { result ≡ sum_of self.now.files }
    {
        configuration_sum(
            self.config.as_slice(),
            bytes_of(&self.rules),
            bytes_of(&self.rewrite),
        )
    }

    /// Whether another configuration has the same relay rules, byte by byte; a file that is not there has no bytes.
    pub fn has_same_rules(&self, other: &RunConfiguration) -> bool
        ensures { IsTrue result ↔ (bytes_given self.now.files.rules ≡ bytes_given other.now.files.rules) }
    {
        bytes_of(&self.rules) == bytes_of(&other.rules)
    }

    /// Whether another configuration has the same rewrite file, with the same limit on names, which is its last line.
    pub fn has_same_rewriting(&self, other: &RunConfiguration) -> bool
        ensures { IsTrue result ↔ (bytes_given self.now.files.rewrite ≡ bytes_given other.now.files.rewrite) }
    {
        bytes_of(&self.rewrite) == bytes_of(&other.rewrite)
    }

    /// A plan of the configuration. The texts have no fault, since a plan was made from them before; so it returns
    /// `NoMemory` if memory runs out, and else the fault of a pattern that the kit's `regex` now refuses.
    pub fn plan(&self, alloc: Global) -> Result<Plan, RelayFault>
        ensures plan { IfOk result (λ plan. plan ≡ self.now.plan) }
        ensures destinations { IfOk result (λ plan.
            plan.destinations ≡ length self.now.settings.routing.destinations) }
        ensures err { IfErr result IsRemakingFault }
    {
        let rules = rules_of(alloc, self.settings.destinations(), &self.rules)?;
        match rewrite_of(alloc, &self.rewrite) {
            Ok(rewrite) => Ok(Plan::new(alloc, &self.settings, rewrite, rules)?),
            Err(fault) => {
                drop(rules);
                Err(fault)
            }
        }
    }
}

/// The bytes of a file, if there is one, and else none.
fn bytes_of(file: &Option<Vec<u8>>) -> &[u8]
    ensures { result.now ≡ bytes_given (file_of (λ v. v.items) file.now) }
{
    match file {
        Some(bytes) => bytes.as_slice(),
        None => &[],
    }
}

/// Drops a plan, whose routes name only its destinations.
fn drop_plan(plan: Plan)
    ensures { stays_below plan.destinations plan.routing ≡ true }
{}

/// The relay rules of their file's bytes, if there is one.
fn rules_of(
    alloc: Global,
    dests: &[Dest],
    bytes: &Option<Vec<u8>>,
) -> Result<Option<RelayRules>, RelayFault>
    ensures ok { IfOk result (λ rules.
        rules_given none_refused dests.now (file_of (λ v. v.items) bytes.now) ≡ Ok rules) }
    ensures read_for { IfOk result (λ rules. are_read_for (length dests.now) rules ≡ true) }
    ensures err { IfErr result (λ fault.
        FailsRulesGiven dests.now (file_of (λ v. v.items) bytes.now) fault) }
{
    let Some(bytes) = bytes else {
        return Ok(None);
    };
    Ok(Some(rules_in(alloc, dests, bytes)?))
}

/// The rewrite rules of their file's bytes; none if there is no file.
fn rewrite_of(alloc: Global, bytes: &Option<Vec<u8>>) -> Result<RewriteRules, RelayFault>
    ensures ok { IfOk result (λ rules.
        rewrite_given (file_of (λ v. v.items) bytes.now) ≡ Ok rules) }
    ensures err { IfErr result (λ fault.
        FailsRewriteGiven (file_of (λ v. v.items) bytes.now) fault) }
{
    let Some(bytes) = bytes else {
        return Ok(RewriteRules::none(alloc));
    };
    rewrite_in(alloc, bytes)
}
