//! Compiled patterns.

ghost use Rattle.std.specs.Prelude.{◌≡◌, true, Some, IfOk, IfErr, MatchResult, is_some, option_map};
ghost use Rattle.patterns.specs.Pattern.{pattern_in, is_pattern, is_found, fault_of, IsPatternFault};
ghost use Rattle.patterns.specs.Compiled.{IsReadOf};
ghost use Rattle.patterns.specs.Replacement.{replaced_text, text_or};

use crate::case::{Case, is_ignored};
use crate::fault::PatternFault;
use crate::part::Part;
use crate::replacing::replace_all;
use regex::{Matcher, Regex, RegexBuilder};
use std::alloc::{AllocError, Global};
use std::marker::Model;
use std::mem::ManuallyDrop;

/// A compiled pattern, with what a search for it writes to.
///
/// In clauses it is its text, with whether case counts.
#[derive(Drop)]
pub struct Pattern {
    case: Case,
    // What the matcher borrows from. Both stay in memory until the program ends.
    regex: &'static Regex,
    matcher: ManuallyDrop<Matcher<'static>>,
}

impl Model for Pattern {
    ghost use Rattle.regex.specs.Strings.{regex_source};
    ghost use Rattle.patterns.specs.Pattern.{PatternText};
    ghost use Rattle.std.specs.Mem.{manually_drop_value};
    ghost use Rattle.patterns.specs.Compiled.{IsCompiled};

    ghost Value = { PatternText };

    ghost view = { λ p. record { text = regex_source p.regex.now; case = p.case } };

    ghost invariant = { λ p. IsCompiled p.case p.regex.now (manually_drop_value p.matcher) };
}

impl Pattern {
    /// Compiles a pattern, in the syntax of the kit's `regex`. Returns `Refused` if `regex` refuses the text for
    /// a reason other than memory, and `NoMemory` if a growth was refused.
    ///
    /// What `regex` makes of the text, with the caches of searches, stays in memory until the program ends.
    pub fn read(alloc: Global, case: Case, text: &str) -> Result<Pattern, PatternFault>
        ensures text { IfOk result (λ pattern. pattern ≡ record { text = text.now; case = case }) }
        ensures pattern { IfOk result (λ _. is_pattern case text.now ≡ true) }
        ensures refused { IfErr result (IsPatternFault case text.now) }
    {
        let regex = compile(alloc, case, text)?;
        let regex: &'static Regex = Box::leak(Box::new(alloc, regex)?);
        let matcher = regex.matcher(alloc)?;
        Ok(Pattern {
            case,
            regex,
            matcher: ManuallyDrop::new(matcher),
        })
    }

    /// The number of its groups, including group 0, the match.
    pub fn group_count(&self) -> usize
        ensures { option_map (λ pattern. pattern.groups) (pattern_in self.now.case self.now.text)
            ≡ Some result }
    {
        self.regex.captures_len()
    }

    /// Whether it is found anywhere in a text. Takes memory only for the caches of `regex`, and never fails.
    pub fn is_found(&mut self, text: &str) -> bool
        ensures found { result ≡ is_found self.old text.now }
        ensures same { self.new ≡ self.old }
    {
        self.matcher.is_match(text)
    }

    /// The text with the replacement in the place of each match, or `None` if there is no match and the text does
    /// not change. One search goes from match to match, and writes nothing before the first.
    pub fn replace(
        &mut self,
        alloc: Global,
        text: &str,
        parts: &[Part],
    ) -> Result<Option<String>, AllocError>
        ensures text { IfOk result (λ new.
            text_or text.now new ≡ replaced_text self.old parts.now text.now) }
        ensures some { IfOk result (λ new. is_some new ≡ is_found self.old text.now) }
        ensures same { self.new ≡ self.old }
    {
        replace_all(alloc, &mut self.matcher, text, parts)
    }
}

/// Compiles the text of a pattern.
fn compile(alloc: Global, case: Case, text: &str) -> Result<Regex, PatternFault>
    ensures { MatchResult result (IsReadOf case text.now) (IsPatternFault case text.now) }
{
    let builder = RegexBuilder::new(text).case_insensitive(is_ignored(case));
    match builder.build(alloc) {
        Ok(regex) => Ok(regex),
        Err(error) => Err(fault_of(error)),
    }
}

/// The fault for a refusal of `regex`.
fn fault_of(error: regex::Error) -> PatternFault
    ensures { result ≡ fault_of error }
{
    match error {
        regex::Error::OutOfMemory => PatternFault::NoMemory,
        _ => PatternFault::Refused,
    }
}
