//! Notes of faults in relay rules.

use crate::cause::{Cause, add_cure};
use crate::cure::Cure;
use crate::list_faults::add_bad_item;
use crate::pattern_faults::{PatternText, add_bad_pattern};
use crate::setting_faults::{TRUTH_WORDS, add_near_key, comment_in, section_named};
use conf_text::{Ini, Section, truth};
use note_text::{
    EscapedText, FileLine, Notes, RELAY, RULE_KEYS, SectionAt, TextFile, add_passed_over,
    header_of, key_value, line_of_key, why_passed_over,
};
use relay_rules::RuleFault;
use std::alloc::Global;

/// Notes of a fault in relay rules: the section's name, its line with carets under what is wrong, and the cure.
pub(crate) fn add_rule_fault(
    alloc: Global,
    notes: &mut Notes,
    file: TextFile<'_>,
    ini: &Ini,
    fault: RuleFault,
) {
    if let RuleFault::NoDefault { .. } = fault {
        add_sections_passed_over(notes, file, ini);
        return add_cure(notes, cause_of_rules(ini), Cure::ADD_DEFAULT);
    }
    let Some((number, cure)) = section_of(fault) else {
        return notes.cut();
    };
    let Some(section) = ini.sections().get(number) else {
        return;
    };
    notes.add(format_args!(
        "section {number}, counted from 0, is [{}]",
        EscapedText(section.name())
    ));
    let Some(line) = line_at_fault(file.text, section, number, fault) else {
        return;
    };
    match fault {
        RuleFault::BadDestination { .. } => add_bad_item(alloc, notes, file, line),
        RuleFault::BadPattern { .. } => add_bad_value(alloc, notes, file, line, true),
        RuleFault::BadTruth { .. } => add_bad_value(alloc, notes, file, line, false),
        _ => {
            notes.add_line(file.path, line);
            add_near_fault(alloc, notes, file, ini, number, fault);
            add_cure(notes, cause_of_rules(ini), cure)
        }
    }
}

/// The section of a fault, and its cure.
fn section_of(fault: RuleFault) -> Option<(usize, Cure)> {
    match fault {
        RuleFault::NoDestinations { section } => Some((section, Cure::RULE_DESTINATIONS)),
        RuleFault::BadDestination { section } => Some((section, Cure::HOST_AND_PORT)),
        RuleFault::PatternAndDefault { section } => Some((section, Cure::PATTERN_OR_DEFAULT)),
        RuleFault::BadPattern { section } => Some((section, Cure::ESCAPE)),
        RuleFault::BadTruth { section } => Some((section, Cure::WRITE_TRUTH)),
        RuleFault::SecondDefault { section } => Some((section, Cure::ONE_DEFAULT)),
        RuleFault::NoDefault { .. } | RuleFault::NoMemory => None,
    }
}

/// Notes of a value that is no pattern, or no truth word.
fn add_bad_value(
    alloc: Global,
    notes: &mut Notes,
    file: TextFile<'_>,
    line: FileLine<'_>,
    is_pattern: bool,
) {
    let Some(pair) = key_value(line.text) else {
        return;
    };
    if is_pattern {
        let pattern = PatternText::of_value(pair);
        return add_bad_pattern(alloc, notes, file.path, line, pattern);
    }
    let end = pair.start.saturating_add(pair.value.len());
    notes.add_place(file.path, line, pair.start, end);
    notes.add_found(pair.value, TRUTH_WORDS);
    add_cure(notes, comment_in(pair.value), Cure::WRITE_TRUTH)
}

/// Notes of what may explain a fault: a key that is nearly `destinations`, or the first default rule.
fn add_near_fault(
    alloc: Global,
    notes: &mut Notes,
    file: TextFile<'_>,
    ini: &Ini,
    number: usize,
    fault: RuleFault,
) {
    match (fault, ini.sections().get(number)) {
        (RuleFault::NoDestinations { .. }, Some(section)) => {
            let is_near = add_near_key(alloc, notes, file, section, number, "destinations");
            if !is_near && cause_of_rules(ini).is_none() {
                add_other_keys(notes, file.text, section, number);
            }
        }
        (RuleFault::SecondDefault { .. }, _) => add_first_default(notes, file, ini),
        _ => {}
    }
}

/// Notes of the keys of a section that are none of a rule.
fn add_other_keys(notes: &mut Notes, text: &str, section: &Section, number: usize) {
    for pair in section.pairs() {
        let key = pair.key();
        if RULE_KEYS.contains(&key) {
            continue;
        }
        if let Some(line) = line_of_key(text, number, key) {
            notes.add_key(line, key, ", which is not a key that relayd reads");
        }
    }
}

/// Notes of the sections that are no rule.
fn add_sections_passed_over(notes: &mut Notes, file: TextFile<'_>, ini: &Ini) {
    for (number, section) in ini.sections().iter().enumerate() {
        if let Some(why) = why_passed_over(section) {
            let at = SectionAt::new(file, number, section);
            add_passed_over(notes, at, why);
        }
    }
}

/// The line at which a section has a fault.
fn line_at_fault<'a>(
    text: &'a str,
    section: &Section,
    number: usize,
    fault: RuleFault,
) -> Option<FileLine<'a>> {
    let key = match fault {
        RuleFault::BadDestination { .. } => "destinations",
        RuleFault::BadPattern { .. } => "pattern",
        RuleFault::BadTruth { .. } if section.contains_key("pattern") => "continue",
        RuleFault::PatternAndDefault { .. }
        | RuleFault::SecondDefault { .. }
        | RuleFault::BadTruth { .. } => "default",
        _ => return header_of(text, number),
    };
    line_of_key(text, number, key)
}

/// What the file looks like, if it is not one of relay rules.
fn cause_of_rules(ini: &Ini) -> Option<Cause> {
    if section_named(ini, "pre").is_some() || section_named(ini, "post").is_some() {
        Some(Cause::REWRITE_FILE_AS_RULES)
    } else if section_named(ini, RELAY).is_some() {
        Some(Cause::CONFIG_FILE_AS_OTHER)
    } else {
        cause_of_keys(ini)
    }
}

/// What keys the file has of those that carbon-cache reads.
fn cause_of_keys(ini: &Ini) -> Option<Cause> {
    for section in ini.sections() {
        if section.contains_key("retentions") || section.contains_key("aggregationMethod") {
            return Some(Cause::STORAGE_FILE);
        }
    }
    None
}

/// A note of the line of the first default rule.
fn add_first_default(notes: &mut Notes, file: TextFile<'_>, ini: &Ini) {
    for (number, section) in ini.sections().iter().enumerate() {
        if is_default(section) {
            if let Some(line) = line_of_key(file.text, number, "default") {
                notes.add_same_before(line);
            }
            return;
        }
    }
}

fn is_default(section: &Section) -> bool {
    match section.get("default") {
        Some(text) => !section.contains_key("pattern") && truth(text) == Some(true),
        None => false,
    }
}
