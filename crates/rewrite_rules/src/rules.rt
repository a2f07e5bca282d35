//! The rewrite rules of a relay.
ghost use Rattle.std.specs.Prelude.{◌≡◌, ℕ, List, [], false, Ok, IfOk, IfErr, IsErrOf, IsTrue, is_none};
ghost use Rattle.line_text.specs.Name.{is_name};
ghost use Rattle.patterns.specs.Replacement.{text_or};
ghost use Rattle.rewrite_rules.specs.Rule.{text_after_all, none_match};
ghost use Rattle.rewrite_rules.specs.File.{meanings_of, rewrite_rules_of};
ghost use Rattle.rewrite_rules.specs.Faults.{IsFileFault};
ghost use Rattle.rewrite_rules.specs.Name.{IsNewName, is_unchanged};

use crate::fault::{RewriteFault, RewriteReadFault};
use crate::line::read_line;
use crate::rule::Rule;
use crate::sections::Sections;
use line_text::{Name, NameFault};
use relay_base::NoMemory;
use std::alloc::{AllocError, Global};
use std::marker::Model;

/// The rules of a rewrite file, in the order in which a name goes through them: those of `[pre]`, then those of
/// `[post]`.
///
/// In clauses they are the list of the rules.
#[derive(Drop)]
pub struct RewriteRules {
    rules: Vec<Rule>,
}

impl Model for RewriteRules {
    ghost use Rattle.std.specs.Prelude.{List};
    ghost use Rattle.rewrite_rules.specs.Rule.{RewriteRule};

    ghost Value = { List RewriteRule };

    ghost view = { λ r. r.rules.items };
}

/// What rewriting makes of a name.
#[derive(Drop)]
pub enum NewName {
    /// No rule matches it, and it does not change.
    Unchanged,
    /// The name that the rules make of it.
    Changed(Name),
    /// The rules leave nothing of it.
    Emptied,
    /// What the rules leave is not a metric name, and not empty.
    Invalid,
}

impl RewriteRules {
    /// No rules: no name changes. This takes no memory.
    pub fn none(alloc: Global) -> RewriteRules
        ensures { result ≡ [] }
    {
        RewriteRules {
            rules: Vec::new(alloc),
        }
    }

    /// Reads a rewrite file (the form of carbon's `rewrite-rules.conf`; this project's profile, `docs/REWRITING.md`).
    ///
    /// The text is cut at byte 10, and each line is stripped of bytes 9, 11, 12, 13 and 32. A line that is empty or
    /// begins with `#` is skipped. One that begins with `[` and ends with `]` is a header, `pre` or `post` in any
    /// ASCII case. Any other line is a rule, cut at its first `=` into a pattern and a replacement, both stripped.
    ///
    /// The fault is that of the first line that has one, with its number from 1. A line is checked for `NoSection`,
    /// `NoEquals`, `BadPattern` and `BadReplacement` in this order. It returns `NoMemory` if a growth was refused.
    pub fn read(alloc: Global, text: &str) -> Result<RewriteRules, RewriteReadFault>
        ensures ok { IfOk result (λ rules. rewrite_rules_of text.now ≡ Ok rules) }
        ensures err { IfErr result (IsFileFault (meanings_of text.now)) }
    {
        let mut sections = Sections::new(alloc);
        let mut number = 0;
        for line in text.split('\n') {
            number += 1;
            sections.add_line(alloc, number, read_line(line))?;
        }
        let Sections {
            section: _,
            pre: mut rules,
            mut post,
        } = sections;
        rules.append(&mut post)?;
        Ok(RewriteRules { rules })
    }

    /// The name that the rules make of a name, in turn: each replaces every match of its pattern.
    ///
    /// Only the name after all rules is checked: it returns `BadResult` if that is not a metric name (1 to 16,384
    /// bytes of UTF-8, each above 32 and none 127), and `NoMemory` if a growth was refused. The rules do not change,
    /// and the caller may call it again.
    pub fn apply(&mut self, name: &Name) -> Result<Name, RewriteFault>
        ensures ok { IfOk result (λ new.
            (new ≡ text_after_all self.old name.now) × IsTrue (is_name new)) }
        ensures bad { IsErrOf result RewriteFault.BadResult
            → is_name (text_after_all self.old name.now) ≡ false }
        ensures same { self.new ≡ self.old }
    {
        match self.rewrite(name)? {
            NewName::Unchanged => name_of(*self.rules.allocator(), name.text()),
            NewName::Changed(new) => Ok(new),
            NewName::Emptied | NewName::Invalid => Err(RewriteFault::BadResult),
        }
    }

    /// Like `apply`, for a caller that shares the name, or wants to know what is wrong with the new one: it returns
    /// `Unchanged` if no rule matches, so that the caller can keep its own.
    ///
    /// No text is built for a rule that does not match.
    pub fn rewrite(&mut self, name: &Name) -> Result<NewName, NoMemory>
        ensures new { IfOk result (IsNewName name.now (text_after_all self.old name.now)) }
        ensures unchanged { IfOk result (λ new. is_unchanged new ≡ none_match self.old name.now) }
        ensures same { self.new ≡ self.old }
    {
        let alloc = *self.rules.allocator();
        match rewrite_text(alloc, &mut self.rules, name.text())? {
            None => Ok(NewName::Unchanged),
            Some(text) => new_name(alloc, text.as_str()),
        }
    }
}

/// The new name that a text is, which rules made of another.
fn new_name(alloc: Global, text: &str) -> Result<NewName, NoMemory>
    ensures new { IfOk result (λ new. (given : List ℕ) → IsNewName given text.now new) }
    ensures changed { IfOk result (λ new. is_unchanged new ≡ false) }
{
    if text.is_empty() {
        return Ok(NewName::Emptied);
    }
    match Name::read(alloc, text.as_bytes()) {
        Ok(name) => Ok(NewName::Changed(name)),
        Err(NameFault::BadName) => Ok(NewName::Invalid),
        Err(NameFault::NoMemory) => Err(NoMemory),
    }
}

/// A text after all rules, or `None` if none of them matches and the text does not change.
fn rewrite_text(
    alloc: Global,
    rules: &mut Vec<Rule>,
    text: &str,
) -> Result<Option<String>, AllocError>
    ensures text { IfOk result (λ new.
        text_or text.now new ≡ text_after_all rules.old.items text.now) }
    ensures none { IfOk result (λ new. is_none new ≡ none_match rules.old.items text.now) }
    ensures same { rules.new.items ≡ rules.old.items }
{
    let mut new: Option<String> = None;
    for rule in rules.iter_mut() {
        let before = match &new {
            Some(changed) => changed.as_str(),
            None => text,
        };
        if let Some(changed) = rule.rewrite(alloc, before)? {
            new = Some(changed);
        }
    }
    Ok(new)
}

/// The name that a text is.
fn name_of(alloc: Global, text: &str) -> Result<Name, RewriteFault>
    ensures ok { IfOk result (λ name. (name ≡ text.now) × IsTrue (is_name text.now)) }
    ensures bad { IsErrOf result RewriteFault.BadResult → is_name text.now ≡ false }
{
    Name::read(alloc, text.as_bytes()).map_err(|fault| match fault {
        NameFault::BadName => RewriteFault::BadResult,
        NameFault::NoMemory => RewriteFault::NoMemory,
    })
}
