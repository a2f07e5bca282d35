//! All notes of the files of a configuration that have no fault.

use crate::configuration::add_configuration_notes;
use crate::hardening_notes::{add_long_name_note, add_white_note};
use crate::memory_notes::add_memory_note;
use crate::rewrite_notes::add_rewrite_notes;
use crate::wanted::{NotesWanted, RunLimits};
use conf_text::{Ini, IniFault, RelayMethod, SettingFault, Settings};
use note_text::{IniFile, Notes, Source, SourceText, Sources, TextFile};
use relay_base::{NoMemory, utf8_text};
use std::alloc::Global;

/// The files of a configuration without a fault, as they are read.
#[derive(Drop)]
struct GoodFiles<'a> {
    config: IniFile<'a>,
    settings: Settings,
    rules: Option<IniFile<'a>>,
    rewrite: Option<TextFile<'a>>,
}

/// Notes of a configuration of which `notes_of_fault` of `fault_notes` has none; there is no note of a configuration
/// file with a fault.
///
/// `NoMemory` means that memory ran out.
pub fn notes_of_files(
    alloc: Global,
    files: &Sources<'_>,
    limits: RunLimits,
    wanted: NotesWanted,
) -> Result<Notes, NoMemory> {
    let mut notes = Notes::new(alloc);
    if let Some(files) = good_files(alloc, &mut notes, files) {
        add_notes(alloc, &mut notes, &files, limits, wanted);
        drop(files);
    }
    notes.finish()
}

fn add_notes(
    alloc: Global,
    notes: &mut Notes,
    files: &GoodFiles<'_>,
    limits: RunLimits,
    wanted: NotesWanted,
) {
    let settings = &files.settings;
    add_configuration_notes(
        alloc,
        notes,
        &files.config,
        settings,
        files.rules.as_ref(),
        wanted,
    );
    add_memory_note(notes, settings, limits.memory);
    if let Some(file) = files.rewrite {
        add_rewrite_notes(notes, file);
    }
    if wanted == NotesWanted::All {
        add_hardening_notes(alloc, notes, files, limits);
    }
}

/// Notes of what is missing that would keep one producer from harming others.
fn add_hardening_notes(alloc: Global, notes: &mut Notes, files: &GoodFiles<'_>, limits: RunLimits) {
    let used = match files.settings.relay_method() {
        RelayMethod::Rules => files.rules.as_ref(),
        RelayMethod::ConsistentHashing => None,
    };
    add_white_note(alloc, notes, used, files.rewrite);
    if limits.lacks_longest_name {
        add_long_name_note(notes);
    }
}

/// The files, or `None` if the configuration file has a fault.
fn good_files<'a>(alloc: Global, notes: &mut Notes, files: &Sources<'a>) -> Option<GoodFiles<'a>> {
    let Some(config) = ini_of(alloc, notes, files.config) else {
        return None;
    };
    let Some(settings) = settings_of(alloc, notes, &config) else {
        drop(config);
        return None;
    };
    let rules = match files.rules {
        Some(source) => ini_of(alloc, notes, source),
        None => None,
    };
    let rewrite = match files.rewrite {
        Some(source) => text_of(source),
        None => None,
    };
    Some(GoodFiles {
        config,
        settings,
        rules,
        rewrite,
    })
}

fn settings_of(alloc: Global, notes: &mut Notes, config: &IniFile<'_>) -> Option<Settings> {
    match Settings::read(alloc, &config.ini) {
        Ok(settings) => Some(settings),
        Err(fault) => {
            if let SettingFault::NoMemory = fault {
                notes.cut();
            }
            None
        }
    }
}

/// The sections of a file, if it has no fault.
fn ini_of<'a>(alloc: Global, notes: &mut Notes, source: Source<'a>) -> Option<IniFile<'a>> {
    let Some(file) = text_of(source) else {
        return None;
    };
    match Ini::read(alloc, file.text) {
        Ok(ini) => Some(IniFile { file, ini }),
        Err(fault) => {
            if let IniFault::NoMemory = fault {
                notes.cut();
            }
            None
        }
    }
}

/// The text of a file, if it was read and is UTF-8.
fn text_of(source: Source<'_>) -> Option<TextFile<'_>> {
    match source.text {
        SourceText::Unreadable { .. } => None,
        SourceText::Bytes(bytes) => match utf8_text(bytes) {
            Some(text) => Some(TextFile {
                path: source.path,
                text,
            }),
            None => None,
        },
    }
}
