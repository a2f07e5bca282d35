//! Laws of the definitions, each the contract of a function that does nothing.

ghost use Rattle.rewrite_rules.specs.Laws.{RewritingKeepsBetween};

/// A rule keeps the text between the matches of its pattern, in its order: a text is the pieces before, between and
/// after them, with what matched in between, and after the rule it is the same pieces with what the replacement
/// writes.
pub fn rewriting_keeps_between()
    ensures { RewritingKeepsBetween }
{}
