//! A section of a file, as notes name it.

use crate::escaped::EscapedText;
use crate::file_line::{FileLine, header_of, line_of_key};
use crate::text_file::TextFile;
use conf_text::Section;
use std::fmt;

/// The section that settings are read from.
pub const RELAY: &str = "relay";

/// A section of a file, its number from 0 and its name: the line of its header, or of a key in it.
#[derive(Clone, Copy)]
pub struct SectionAt<'a> {
    pub path: &'a str,
    pub line: usize,
    pub number: usize,
    pub name: &'a str,
}

impl<'a> SectionAt<'a> {
    /// The section of a number, at the line of its header.
    pub fn new(file: TextFile<'a>, number: usize, section: &'a Section) -> SectionAt<'a> {
        SectionAt {
            path: file.path,
            line: number_of(header_of(file.text, number), 0),
            number,
            name: section.name(),
        }
    }

    /// The section, at the line of a key in it.
    pub fn at_key(self, text: &str, key: &str) -> SectionAt<'a> {
        SectionAt {
            path: self.path,
            line: number_of(line_of_key(text, self.number, key), self.line),
            number: self.number,
            name: self.name,
        }
    }
}

/// The number of a line, or another if there is no such line.
fn number_of(line: Option<FileLine<'_>>, other: usize) -> usize {
    match line {
        Some(line) => line.number,
        None => other,
    }
}

impl fmt::Display for SectionAt<'_> {
    fn fmt<W: fmt::Write>(&self, f: &mut fmt::Formatter<W>) -> fmt::Result {
        let SectionAt {
            path,
            line,
            number,
            name,
        } = *self;
        write!(
            f,
            "{} line {line}, section {number} [{}]",
            EscapedText(path),
            EscapedText(name)
        )
    }
}
