//! The rules of a rewrite file while its lines are read.
ghost use Rattle.std.specs.Prelude.{◌≡◌, ◌++◌, ◌∷◌, [], None, Some, option_map, OnOk, IfErr};
ghost use Rattle.std.specs.Option.{option_or};
ghost use Rattle.rewrite_rules.specs.declared.line.Section.TheVariants.{Pre, Post};
ghost use Rattle.rewrite_rules.specs.Line as spec;
ghost use Rattle.rewrite_rules.specs.ReadLine.{rule_seen, meaning_seen};
ghost use Rattle.rewrite_rules.specs.File.{section_begun, fault_at, rules_at};
ghost use Rattle.rewrite_rules.specs.Faults.{IsLineFault};

use crate::fault::RewriteReadFault;
use crate::line::{Line, Section, TextOfRule};
use crate::rule::Rule;
use std::alloc::Global;

/// The rules of both sections so far, and the section that the last header began.
#[derive(Drop)]
pub(crate) struct Sections {
    pub(crate) section: Option<Section>,
    pub(crate) pre: Vec<Rule>,
    pub(crate) post: Vec<Rule>,
}

impl Sections {
    pub(crate) fn new(alloc: Global) -> Sections
        ensures section { result.section ≡ None }
        ensures pre { result.pre.items ≡ [] }
        ensures post { result.post.items ≡ [] }
    {
        Sections {
            section: None,
            pre: Vec::new(alloc),
            post: Vec::new(alloc),
        }
    }

    /// Adds the line with this number.
    pub(crate) fn add_line(
        &mut self,
        alloc: Global,
        number: usize,
        line: Line<'_>,
    ) -> Result<(), RewriteReadFault>
        ensures fine { OnOk result
            (fault_at number self.old.section (meaning_seen line.entry) ≡ None) }
        ensures section { OnOk result (self.new.section
            ≡ option_or (section_begun (meaning_seen line.entry)) self.old.section) }
        ensures pre { OnOk result (self.new.pre.items
            ≡ self.old.pre.items ++ rules_at Pre self.old.section (meaning_seen line.entry)) }
        ensures post { OnOk result (self.new.post.items
            ≡ self.old.post.items ++ rules_at Post self.old.section (meaning_seen line.entry)) }

        ensures err { IfErr result (IsLineFault number self.old.section (meaning_seen line.entry)) }
    {
        match line {
            Line::Skipped => Ok(()),
            Line::Header(None) => Err(RewriteReadFault::NoSection { line: number }),
            Line::Header(Some(section)) => {
                self.section = Some(section);
                Ok(())
            }
            Line::Rule(text) => self.add_rule(alloc, number, text),
        }
    }

    fn add_rule(
        &mut self,
        alloc: Global,
        number: usize,
        text: Option<TextOfRule<'_>>,
    ) -> Result<(), RewriteReadFault>
        ensures fine { OnOk result (fault_at number self.old.section
            (spec.Rule (option_map rule_seen text.entry)) ≡ None) }
        ensures section { OnOk result (self.new.section ≡ self.old.section) }
        ensures pre { OnOk result (self.new.pre.items
            ≡ self.old.pre.items
            ++ rules_at Pre self.old.section (spec.Rule (option_map rule_seen text.entry))) }
        ensures post { OnOk result (self.new.post.items
            ≡ self.old.post.items
            ++ rules_at Post self.old.section (spec.Rule (option_map rule_seen text.entry))) }

        ensures err { IfErr result
            (IsLineFault number self.old.section (spec.Rule (option_map rule_seen text.entry))) }
    {
        let Some(section) = self.section else {
            return Err(RewriteReadFault::NoSection { line: number });
        };
        let Some(text) = text else {
            return Err(RewriteReadFault::NoEquals { line: number });
        };
        let rule = Rule::read(alloc, number, text)?;
        match section {
            Section::Pre => self.pre.push(rule)?,
            Section::Post => self.post.push(rule)?,
        }
        Ok(())
    }
}
