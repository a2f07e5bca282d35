//! A rule: a pattern, and where names go if it is found in them.

ghost use Rattle.std.specs.Prelude.{◌≡◌};
ghost use Rattle.patterns.specs.declared.case.Case.TheVariants.{Ignored};
ghost use Rattle.patterns.specs.Pattern.{is_found};
ghost use Rattle.relay_rules.specs.Rules.{pattern_of};

use patterns::Pattern;
use relay_base::DestId;
use std::marker::Model;

/// A rule with its compiled pattern.
#[derive(Drop)]
pub(crate) struct Rule {
    pattern: Pattern,
    destinations: Vec<DestId>,
    continues: bool,
}

impl Model for Rule {
    ghost use Rattle.std.specs.Prelude.{◌≡◌};
    ghost use Rattle.patterns.specs.declared.case.Case.TheVariants.{Ignored};
    ghost use Rattle.relay_rules.specs.Rules.{RelayRule};

    ghost Value = { RelayRule };

    ghost view = { λ r. record {
      pattern = r.pattern.text;
      destinations = r.destinations.items;
      continues = r.continues;
    } };

    ghost invariant = { λ r. r.pattern.case ≡ Ignored };
}

impl Rule {
    pub(crate) fn new(pattern: Pattern, destinations: Vec<DestId>, continues: bool) -> Rule
        requires { pattern.case ≡ Ignored }
        ensures { result ≡ record {
          pattern = pattern.text;
          destinations = destinations.items;
          continues = continues;
        } }
    {
        Rule {
            pattern,
            destinations,
            continues,
        }
    }

    /// Whether its pattern is found in a name.
    pub(crate) fn is_found(&mut self, name: &str) -> bool
        ensures found { result ≡ is_found (pattern_of self.old) name.now }
        ensures same { self.new ≡ self.old }
    {
        self.pattern.is_found(name)
    }

    /// Where it sends.
    pub(crate) fn destinations(&self) -> &[DestId]
        ensures { result.now ≡ self.now.destinations }
    {
        self.destinations.as_slice()
    }

    /// Whether the rules after it are tried too.
    pub(crate) fn continues(&self) -> bool
        ensures { result ≡ self.now.continues }
    {
        self.continues
    }
}
