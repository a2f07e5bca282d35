//! Configuration files: sections of keys with their values.

ghost use Rattle.std.specs.Prelude.{◌≡◌, Some, Ok, OnOk, IfErr, map, option_map, option_copied};
ghost use Rattle.conf_text.specs.declared.ini.IniFault.TheVariants.{NoMemory as OutOfMemory};
ghost use Rattle.conf_text.specs.Sections.{section_named, value_in};
ghost use Rattle.conf_text.specs.Lines.{Header, Setting};
ghost use Rattle.conf_text.specs.ReadLine.{pair_view, meaning_view};
ghost use Rattle.conf_text.specs.IniText.{ini_of};
ghost use Rattle.conf_text.specs.IniSteps.{line_gives};
ghost use Rattle.relay_base.specs.Memory.{Fails, Gives};

use crate::line::{KeyValueText, Line, read_line};
use crate::places::put;
use crate::section::Section;
use relay_base::NoMemory;
use std::alloc::Global;
use std::collections::HashMap;
use std::marker::Model;
use thiserror::Error;

/// Why a text is not a configuration file: the first fault, with the number of its line, from 1.
#[derive(Clone, Copy, Debug, Error)]
pub enum IniFault {
    /// A key is before the first header.
    #[error("line {line}: NoSection")]
    NoSection { line: usize },
    /// A header has the name of an earlier section.
    #[error("line {line}: DuplicateSection")]
    DuplicateSection { line: usize },
    /// A key is in its section already.
    #[error("line {line}: DuplicateKey")]
    DuplicateKey { line: usize },
    /// A header has no name or no `]` at its end, or a line has no `=` or `:`, or no key before it.
    #[error("line {line}: BadLine")]
    BadLine { line: usize },
    /// A growth was refused.
    #[error("no memory")]
    NoMemory,
}

impl<E: Into<NoMemory> + Drop> From<E> for IniFault {
    ghost from_gives = { λ _ fault. fault ≡ OutOfMemory };

    fn from(_error: E) -> IniFault {
        IniFault::NoMemory
    }
}

/// The contents of a configuration file.
#[derive(Drop)]
pub struct Ini {
    sections: Vec<Section>,
    // The place of each name in `sections`.
    places: HashMap<String, usize>,
}

impl Model for Ini {
    ghost use Rattle.std.specs.Prelude.{List, map};
    ghost use Rattle.conf_text.specs.Sections.{SectionText};
    ghost use Rattle.conf_text.specs.Places.{IsIndexOf};

    ghost Value = { List SectionText };

    ghost view = { λ i. i.sections.items };

    ghost invariant = { λ i. IsIndexOf (map (λ s. s.name) i.sections.items) i.places };
}

impl Ini {
    /// Reads a configuration file.
    ///
    /// The text is cut at newlines, and each line is stripped of white space at its ends. A line that is empty
    /// or begins with `#` or `;` is skipped. `[name]` begins a section. Any other line is cut at its first `=`
    /// or `:` into a key and a value, without white space at their ends. The fault is that of the first line
    /// that has one; a line before any header is `NoSection` even if it is malformed (this project's profile,
    /// `docs/CONFIGURATION.md`).
    pub fn read(alloc: Global, text: &str) -> Result<Ini, IniFault>
        ensures { Gives IniFault.NoMemory (λ ini. ini) result (ini_of text.now) }
    {
        let mut ini = Ini {
            sections: Vec::new(alloc),
            places: HashMap::new(alloc),
        };
        let mut number = 0;
        for line in text.split('\n') {
            number += 1;
            ini.add_line(alloc, number, read_line(line))?;
        }
        Ok(ini)
    }

    /// The sections, in the order of the file.
    pub fn sections(&self) -> &[Section]
        ensures { result.now ≡ self.now }
    {
        self.sections.as_slice()
    }

    /// The section with this name, or `None` if there is none. Names are case-sensitive.
    pub fn section(&self, name: &str) -> Option<&Section>
        ensures { option_copied result ≡ section_named name.now self.now }
    {
        let place = *self.places.get(name)?;
        Some(&self.sections[place])
    }

    /// The value of a key in the section with this name, or `None` if either does not exist. Both are
    /// case-sensitive.
    pub fn get(&self, section: &str, key: &str) -> Option<&str>
        ensures { option_copied result ≡ value_in section.now key.now self.now }
    {
        self.section(section)?.get(key)
    }

    fn add_line(&mut self, alloc: Global, number: usize, line: Line<'_>) -> Result<(), IniFault>
        ensures ok { OnOk result
            (line_gives self.old number (meaning_view line.entry) ≡ Ok self.new) }
        ensures err { IfErr result
            (Fails IniFault.NoMemory (line_gives self.old number (meaning_view line.entry))) }
    {
        match line {
            Line::Skipped => Ok(()),
            Line::Header(None) => Err(IniFault::BadLine { line: number }),
            Line::Header(Some(name)) => self.add_section(alloc, number, name),
            Line::Setting(pair) => add_to_last(&mut self.sections, alloc, number, pair),
        }
    }

    fn add_section(&mut self, alloc: Global, number: usize, name: &str) -> Result<(), IniFault>
        ensures ok { OnOk result
            (line_gives self.old number (Header (Some name.now)) ≡ Ok self.new) }
        ensures err { IfErr result
            (Fails IniFault.NoMemory (line_gives self.old number (Header (Some name.now)))) }
    {
        if self.places.contains_key(name) {
            return Err(IniFault::DuplicateSection { line: number });
        }
        let section = Section::new(alloc, name)?;
        self.sections.reserve(1)?;
        put(&mut self.places, alloc, name, self.sections.len())?;
        self.sections.push_reserved(section);
        Ok(())
    }
}

// Adds a key to the last section.
fn add_to_last(
    sections: &mut Vec<Section>,
    alloc: Global,
    number: usize,
    pair: Option<KeyValueText<'_>>,
) -> Result<(), IniFault>
    ensures ok { OnOk result
        (line_gives sections.old.items number (Setting (option_map pair_view pair.entry))
        ≡ Ok sections.new.items) }
    ensures err { IfErr result (Fails IniFault.NoMemory
        (line_gives sections.old.items number (Setting (option_map pair_view pair.entry)))) }
    ensures names { map (λ s. s.name) sections.new.items ≡ map (λ s. s.name) sections.old.items }
{
    if sections.is_empty() {
        return Err(IniFault::NoSection { line: number });
    }
    let Some(pair) = pair else {
        return Err(IniFault::BadLine { line: number });
    };
    let last = sections.len() - 1;
    if sections[last].contains_key(pair.key) {
        return Err(IniFault::DuplicateKey { line: number });
    }
    sections[last].push(alloc, pair.key, pair.value)?;
    Ok(())
}
