//! Notes of the first fault of the files of a configuration.

use crate::cure::Cure;
use crate::line_faults::add_line_fault;
use crate::not_text::add_not_text;
use crate::rewrite_faults::add_rewrite_fault;
use crate::rule_faults::add_rule_fault;
use crate::setting_faults::{add_no_rules, add_setting_fault};
use crate::system_notes::add_unreadable;
use conf_text::{Dest, Ini, RelayMethod, Settings};
use note_text::{IniFile, Notes, Source, SourceText, Sources, TextFile};
use relay_base::NoMemory;
use relay_rules::RelayRules;
use rewrite_rules::RewriteRules;
use std::alloc::Global;
use std::str;

/// Notes of the first fault of a configuration; `None` if it has none.
///
/// It looks at the files in the order in which the relay reads them, so that the fault is the one that the relay
/// reports. `NoMemory` means that memory ran out.
pub fn notes_of_fault(alloc: Global, files: &Sources<'_>) -> Result<Option<Notes>, NoMemory> {
    let mut notes = Notes::new(alloc);
    let is_good = are_good(alloc, &mut notes, files);
    let notes = notes.finish()?;
    if is_good {
        drop(notes);
        return Ok(None);
    }
    Ok(Some(notes))
}

/// Whether no file has a fault; the notes of the first one are added.
fn are_good(alloc: Global, notes: &mut Notes, files: &Sources<'_>) -> bool {
    let Some(config) = ini_of(alloc, notes, files.config, Cure::RELAY_HEADER) else {
        return false;
    };
    let is_good = is_good_with_config(alloc, notes, files, &config);
    drop(config);
    is_good
}

/// The same, where the lines of the configuration have no fault.
fn is_good_with_config(
    alloc: Global,
    notes: &mut Notes,
    files: &Sources<'_>,
    config: &IniFile<'_>,
) -> bool {
    match Settings::read(alloc, &config.ini) {
        Ok(settings) => {
            let is_good = is_good_with_settings(alloc, notes, files, config, &settings);
            drop(settings);
            is_good
        }
        Err(fault) => {
            add_setting_fault(alloc, notes, config.file, &config.ini, fault);
            false
        }
    }
}

/// The same, where the settings have no fault: the relay rules, the rewrite file, and that rules are there if the method
/// is `rules`.
fn is_good_with_settings(
    alloc: Global,
    notes: &mut Notes,
    files: &Sources<'_>,
    config: &IniFile<'_>,
    settings: &Settings,
) -> bool {
    if let Some(source) = files.rules {
        if !are_good_rules(alloc, notes, source, settings.destinations()) {
            return false;
        }
    }
    if let Some(source) = files.rewrite {
        if !is_good_rewrite(alloc, notes, source) {
            return false;
        }
    }
    if settings.relay_method() == RelayMethod::Rules && files.rules.is_none() {
        add_no_rules(alloc, notes, config.file, &config.ini);
        return false;
    }
    true
}

/// Whether the relay rules of a file have no fault; the notes of the first one are added.
fn are_good_rules(alloc: Global, notes: &mut Notes, source: Source<'_>, dests: &[Dest]) -> bool {
    let Some(rules) = ini_of(alloc, notes, source, Cure::RULE_HEADER) else {
        return false;
    };
    let fault = RelayRules::read(alloc, &rules.ini, dests).err();
    let is_good = fault.is_none();
    if let Some(fault) = fault {
        add_rule_fault(alloc, notes, rules.file, &rules.ini, fault);
    }
    drop(rules);
    is_good
}

/// Whether a rewrite file has no fault; the notes of the first one are added.
fn is_good_rewrite(alloc: Global, notes: &mut Notes, source: Source<'_>) -> bool {
    let Some(file) = text_of(notes, source) else {
        return false;
    };
    match RewriteRules::read(alloc, file.text).err() {
        None => true,
        Some(fault) => {
            add_rewrite_fault(alloc, notes, file, fault);
            false
        }
    }
}

/// The sections of a file, or `None` if it has a fault, whose notes are added.
fn ini_of<'a>(
    alloc: Global,
    notes: &mut Notes,
    source: Source<'a>,
    header: Cure,
) -> Option<IniFile<'a>> {
    let Some(file) = text_of(notes, source) else {
        return None;
    };
    match Ini::read(alloc, file.text) {
        Ok(ini) => Some(IniFile { file, ini }),
        Err(fault) => {
            add_line_fault(notes, file, fault, header);
            None
        }
    }
}

/// The text of a file, or `None`, and notes, if it cannot be read or is not UTF-8.
fn text_of<'a>(notes: &mut Notes, source: Source<'a>) -> Option<TextFile<'a>> {
    let path = source.path;
    match source.text {
        SourceText::Unreadable { reason } => {
            add_unreadable(notes, path, reason);
            None
        }
        SourceText::Bytes(bytes) => match str::from_utf8(bytes) {
            Ok(text) => Some(TextFile { path, text }),
            Err(error) => {
                add_not_text(notes, path, bytes, error.valid_up_to());
                None
            }
        },
    }
}
