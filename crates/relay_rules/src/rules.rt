//! The rules of a file.

ghost use Rattle.std.specs.Prelude.{◌≡◌, true, length, IfOk, OnOk};
ghost use Rattle.relay_rules.specs.Reading.{relay_rules};
ghost use Rattle.relay_rules.specs.Rules.{names_below};
ghost use Rattle.relay_rules.specs.Route.{rule_route};
ghost use Rattle.relay_rules.specs.Answers.{GivesReading};
ghost use Rattle.relay_rules.specs.Faults.{RefusesPatternAt};

use crate::destinations::mention;
use crate::fault::RuleFault;
use crate::route::follow;
use crate::rule::Rule;
use crate::section::{Part, read_section};
use conf_text::{Dest, Ini};
use line_text::Name;
use relay_base::{DestId, NoMemory};
use std::alloc::Global;
use std::marker::Model;

/// Relay rules with their compiled patterns.
///
/// In clauses they are the rules in the order of the file, and where the default rule sends.
#[derive(Drop)]
pub struct RelayRules {
    alloc: Global,
    rules: Vec<Rule>,
    default: Vec<DestId>,
}

impl Model for RelayRules {
    ghost use Rattle.relay_rules.specs.Rules.{RuleList};

    ghost Value = { RuleList };

    ghost view = { λ r. record { rules = r.rules.items; default = r.default.items } };
}

impl RelayRules {
    /// Reads the rules of a file, whose sections are those of `ini`, for the destinations of DESTINATIONS.
    ///
    /// Each section must have `destinations`, a list of destinations. One with a `pattern` is a rule; its
    /// `continue` says whether the rules after it are tried too (a truth word, false unless set). One with a
    /// true `default` in place of a pattern is the default rule; there must be one, anywhere.
    /// Sections with neither are skipped, and so are those whose `default` is false. Destinations that
    /// DESTINATIONS does not have are skipped.
    ///
    /// The fault is that of the first section that has one, and then that there is no default rule
    /// (`docs/ROUTING.md`; the form of the file is that of the carbon documentation, the order of the checks
    /// and what is refused are this project's profile). A pattern has the syntax of the kit's `regex`, and is
    /// `BadPattern` if `regex` refuses it for a reason other than memory. What `regex` made of a pattern
    /// stays in memory until the program ends.
    pub fn read(alloc: Global, ini: &Ini, dests: &[Dest]) -> Result<RelayRules, RuleFault>
        ensures rules { GivesReading (RefusesPatternAt ini.now) result
            (λ refused. relay_rules refused dests.now ini.now) }
        ensures places { IfOk result (λ list. names_below (length dests.now) list ≡ true) }
    {
        let mut rules = Vec::new(alloc);
        let mut default = None;
        for (number, section) in ini.sections().iter().enumerate() {
            match read_section(alloc, number, section, dests, default.is_some())? {
                Part::Rule(rule) => rules.push(rule)?,
                Part::Default(ids) => default = Some(ids),
                Part::Skipped => {}
            }
        }
        let Some(default) = default else {
            return Err(RuleFault::NoDefault {
                section: ini.sections().len(),
            });
        };
        Ok(RelayRules {
            alloc,
            rules,
            default,
        })
    }

    /// The destinations of a name, each once, in the order of their first mention.
    ///
    /// The rules are tried in the order of the file. One whose pattern is found anywhere in the name, without
    /// regard to case, gives its destinations, and ends the search unless it continues. The default rule is
    /// tried last, wherever it is (the carbon documentation; the order of the destinations is this project's
    /// profile). Takes memory only for the result; `NoMemory` leaves the rules unchanged.
    pub fn route(&mut self, name: &Name) -> Result<Vec<DestId>, NoMemory>
        ensures route { IfOk result (λ route. route.items ≡ rule_route self.old name.now) }
        ensures same { self.new ≡ self.old }
    {
        let mut route = Vec::new(self.alloc);
        self.route_into(name, &mut route)?;
        Ok(route)
    }

    /// Like [`RelayRules::route`], for a caller that calls it often and lends the room: the destinations
    /// replace what `route` had. `NoMemory` leaves the rules unchanged, and some of the destinations in
    /// `route`.
    pub fn route_into(&mut self, name: &Name, route: &mut Vec<DestId>) -> Result<(), NoMemory>
        ensures route { OnOk result (route.new.items ≡ rule_route self.old name.now) }
        ensures same { self.new ≡ self.old }
    {
        route.clear();
        if follow(&mut self.rules, name.text(), route)? {
            mention(route, self.default.as_slice())?;
        }
        Ok(())
    }
}
