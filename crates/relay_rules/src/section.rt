//! The sections of a file of rules.

ghost use Rattle.std.specs.Prelude.{◌≡◌, true, false, None, IfOk, IfErr, OnOk, option_copied, ok_or};
ghost use Rattle.conf_text.specs.TruthWord.{truth_of};
ghost use Rattle.relay_rules.specs.Sections.{destinations_in, is_on};
ghost use Rattle.relay_rules.specs.Faults.{section_fault, destinations_fault, continue_fault, rule_fault, default_fault, RefusesPattern};
ghost use Rattle.patterns.specs.declared.case.Case.TheVariants.{Ignored};
ghost use Rattle.patterns.specs.Pattern.{is_pattern, IsRefused};
ghost use Rattle.relay_rules.specs.Answers.{IsPatternFault};
ghost use Rattle.relay_rules.specs.Parts.{IsPartOf, IsRulePart, IsDefaultPart, FailsAt};
ghost use Rattle.relay_rules.specs.Destinations.{ids_of};

use crate::destinations::ids_of;
use crate::fault::RuleFault;
use crate::rule::Rule;
use conf_text::{Dest, DestFault, Section, truth};
use patterns::{Case, Pattern, PatternFault};
use relay_base::DestId;
use std::alloc::Global;

/// What a section is.
#[derive(Drop)]
pub(crate) enum Part {
    Rule(Rule),
    /// The default rule, and where it sends.
    Default(Vec<DestId>),
    /// Neither.
    Skipped,
}

/// Reads the section with this number; `had_default` says whether a section before it is the default
/// rule.
pub(crate) fn read_section(
    alloc: Global,
    number: usize,
    section: &Section,
    dests: &[Dest],
    had_default: bool,
) -> Result<Part, RuleFault>
    ensures sound { OnOk result (section_fault false had_default number section.now ≡ None) }
    ensures part { IfOk result (IsPartOf dests.now had_default section.now) }
    ensures fault { IfErr result (FailsAt number (RefusesPattern section.now)
        (λ refused. section_fault refused had_default number section.now)) }
{
    let ids = read_destinations(alloc, number, section.get("destinations"), dests)?;
    match (section.get("pattern"), section.get("default")) {
        (Some(_), Some(_)) => Err(RuleFault::PatternAndDefault { section: number }),
        (Some(pattern), None) => read_rule(alloc, number, pattern, section.get("continue"), ids),
        (None, Some(text)) => read_default(number, text, had_default, ids),
        (None, None) => Ok(Part::Skipped),
    }
}

/// The indices of the destinations that a section names.
fn read_destinations(
    alloc: Global,
    number: usize,
    text: Option<&str>,
    dests: &[Dest],
) -> Result<Vec<DestId>, RuleFault>
    ensures sound { OnOk result (destinations_fault number (option_copied text.entry) ≡ None) }
    ensures ids { IfOk result (λ ids.
        ids.items ≡ ids_of dests.now (destinations_in (option_copied text.entry))) }
    ensures fault { IfErr result (FailsAt number ⊥
        (λ _. destinations_fault number (option_copied text.entry))) }
{
    let Some(text) = text else {
        return Err(RuleFault::NoDestinations { section: number });
    };
    match Dest::read_list(alloc, text) {
        Ok(named) => Ok(ids_of(alloc, dests, named.as_slice())?),
        Err(DestFault::BadDestination) => Err(RuleFault::BadDestination { section: number }),
        Err(DestFault::NoMemory) => Err(RuleFault::NoMemory),
    }
}

/// A section with a pattern.
fn read_rule(
    alloc: Global,
    number: usize,
    pattern: &str,
    continues: Option<&str>,
    ids: Vec<DestId>,
) -> Result<Part, RuleFault>
    ensures sound { OnOk result
        (rule_fault false number pattern.now (option_copied continues.entry) ≡ None) }
    ensures part { IfOk result
        (IsRulePart pattern.now ids.items (is_on (option_copied continues.entry))) }
    ensures fault { IfErr result (FailsAt number (IsRefused Ignored pattern.now)
        (λ refused. rule_fault refused number pattern.now (option_copied continues.entry))) }
{
    let pattern = read_pattern(alloc, number, pattern)?;
    let continues = read_continues(number, continues)?;
    Ok(Part::Rule(Rule::new(pattern, ids, continues)))
}

/// Compiles the pattern of a section, without regard to case.
fn read_pattern(alloc: Global, number: usize, text: &str) -> Result<Pattern, RuleFault>
    ensures text { IfOk result (λ pattern. pattern ≡ record { text = text.now; case = Ignored }) }
    ensures pattern { IfOk result (λ _. is_pattern Ignored text.now ≡ true) }
    ensures fault { IfErr result (IsPatternFault number text.now) }
{
    match Pattern::read(alloc, Case::Ignored, text) {
        Ok(pattern) => Ok(pattern),
        Err(PatternFault::Refused) => Err(RuleFault::BadPattern { section: number }),
        Err(PatternFault::NoMemory) => Err(RuleFault::NoMemory),
    }
}

/// A section without a pattern, but with a `default`.
fn read_default(
    number: usize,
    text: &str,
    had_default: bool,
    ids: Vec<DestId>,
) -> Result<Part, RuleFault>
    ensures sound { OnOk result (default_fault had_default number text.now ≡ None) }
    ensures part { IfOk result (IsDefaultPart ids.items had_default text.now) }
    ensures fault { IfErr result
        (FailsAt number ⊥ (λ _. default_fault had_default number text.now)) }
{
    if !read_truth(number, text)? {
        return Ok(Part::Skipped);
    }
    if had_default {
        return Err(RuleFault::SecondDefault { section: number });
    }
    Ok(Part::Default(ids))
}

/// Whether the rules after a rule are tried too: not unless it says so.
fn read_continues(number: usize, text: Option<&str>) -> Result<bool, RuleFault>
    ensures sound { OnOk result (continue_fault number (option_copied text.entry) ≡ None) }
    ensures value { IfOk result (λ continues. continues ≡ is_on (option_copied text.entry)) }
    ensures fault { IfErr result (FailsAt number ⊥
        (λ _. continue_fault number (option_copied text.entry))) }
{
    match text {
        Some(text) => read_truth(number, text),
        None => Ok(false),
    }
}

fn read_truth(number: usize, text: &str) -> Result<bool, RuleFault>
    ensures { result ≡ ok_or (truth_of text.now) (RuleFault.BadTruth number) }
{
    truth(text).ok_or(RuleFault::BadTruth { section: number })
}
