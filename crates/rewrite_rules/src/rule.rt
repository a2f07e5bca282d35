//! One rewrite rule.
ghost use Rattle.std.specs.Prelude.{◌≡◌, Some, IfOk, IfErr, is_none};
ghost use Rattle.patterns.specs.declared.case.Case.TheVariants.{Observed};
ghost use Rattle.patterns.specs.Replacement.{text_or};
ghost use Rattle.rewrite_rules.specs.ReadLine.{rule_seen};
ghost use Rattle.rewrite_rules.specs.Rule.{rule_of, text_after, matches_nothing};
ghost use Rattle.rewrite_rules.specs.Faults.{IsRuleFault, IsPatternFault};

use crate::fault::RewriteReadFault;
use crate::line::TextOfRule;
use crate::replacement::replacement_of;
use patterns::{Case, Part, Pattern, PatternFault};
use std::alloc::{AllocError, Global};
use std::marker::Model;

/// A rule: its compiled pattern, and its replacement.
#[derive(Drop)]
pub(crate) struct Rule {
    pattern: Pattern,
    replacement: Vec<Part>,
}

impl Model for Rule {
    ghost use Rattle.std.specs.Prelude.{◌≡◌};
    ghost use Rattle.patterns.specs.declared.case.Case.TheVariants.{Observed};
    ghost use Rattle.rewrite_rules.specs.Rule.{RewriteRule};

    ghost Value = { RewriteRule };

    ghost view = { λ r. record { pattern = r.pattern.text; replacement = r.replacement.items } };

    ghost invariant = { λ r. r.pattern.case ≡ Observed };
}

impl Rule {
    /// Reads a rule in the line with this number: its pattern, and then its replacement.
    pub(crate) fn read(
        alloc: Global,
        line: usize,
        text: TextOfRule<'_>,
    ) -> Result<Rule, RewriteReadFault>
        ensures ok { IfOk result (λ rule. rule_of (rule_seen text.entry) ≡ Some rule) }
        ensures err { IfErr result (IsRuleFault line (rule_seen text.entry)) }
    {
        let pattern = read_pattern(alloc, line, text.pattern)?;
        let groups = pattern.group_count();
        let Some(replacement) = replacement_of(alloc, groups, text.replacement)? else {
            return Err(RewriteReadFault::BadReplacement { line });
        };
        Ok(Rule {
            pattern,
            replacement,
        })
    }

    /// The text after the rule, or `None` if nothing matches and the text does not change.
    pub(crate) fn rewrite(
        &mut self,
        alloc: Global,
        text: &str,
    ) -> Result<Option<String>, AllocError>
        ensures text { IfOk result (λ new. text_or text.now new ≡ text_after self.old text.now) }
        ensures none { IfOk result (λ new. is_none new ≡ matches_nothing text.now self.old) }
        ensures same { self.new ≡ self.old }
    {
        self.pattern.replace(alloc, text, &self.replacement)
    }
}

/// Compiles the pattern of the line with this number, case-sensitive.
fn read_pattern(alloc: Global, line: usize, text: &str) -> Result<Pattern, RewriteReadFault>
    ensures ok { IfOk result (λ pattern. pattern ≡ record { text = text.now; case = Observed }) }
    ensures err { IfErr result (IsPatternFault line text.now) }
{
    match Pattern::read(alloc, Case::Observed, text) {
        Ok(pattern) => Ok(pattern),
        Err(PatternFault::Refused) => Err(RewriteReadFault::BadPattern { line }),
        Err(PatternFault::NoMemory) => Err(RewriteReadFault::NoMemory),
    }
}
