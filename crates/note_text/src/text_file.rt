//! Files that are text, and those whose lines have no fault.

use crate::section_at::SectionAt;
use conf_text::{Ini, Section};

/// A file that is text.
#[derive(Clone, Copy)]
pub struct TextFile<'a> {
    pub path: &'a str,
    pub text: &'a str,
}

/// A file of sections that has no fault in its lines.
#[derive(Drop)]
pub struct IniFile<'a> {
    pub file: TextFile<'a>,
    pub ini: Ini,
}

impl IniFile<'_> {
    /// The line of the section of a number, from 0.
    pub fn section_at<'s>(&'s self, number: usize, section: &'s Section) -> SectionAt<'s> {
        SectionAt::new(self.file, number, section)
    }
}
