//! Notes of faults in settings.

use crate::cause::{Cause, add_cure};
use crate::cure::Cure;
use crate::items::{is_variable, names_key};
use crate::list_faults::{add_bad_item, add_repeated_item, goes_on};
use conf_text::{Ini, Section, Setting, SettingFault};
use note_text::{
    EscapedText, FileLine, Notes, RELAY, TextFile, header_of, is_misspelt, key_value, line_of_key,
};
use relay_base::strip;
use std::alloc::Global;

/// The words that may be there instead, for a truth word.
pub(crate) const TRUTH_WORDS: &str = "one of 1, yes, true, on, 0, no, false, off";

/// What begins a value in quotes, straight or curly.
const QUOTES: [char; 6] = ['"', '\'', '\u{201c}', '\u{201d}', '\u{201e}', '\u{2018}'];

/// Notes of a fault in a setting: its line with carets under what is wrong, what may be there, and the cure.
pub(crate) fn add_setting_fault(
    alloc: Global,
    notes: &mut Notes,
    file: TextFile<'_>,
    ini: &Ini,
    fault: SettingFault,
) {
    let Some(section) = section_named(ini, RELAY) else {
        return add_no_relay(notes, file, ini);
    };
    let Some((setting, cure)) = setting_of(fault) else {
        return notes.cut();
    };
    // DuplicateDestination is reported for the method, and is in the list.
    let key = match fault {
        SettingFault::DuplicateDestination { .. } => Setting::Destinations,
        _ => setting,
    };
    let Some(line) = line_of_key(file.text, section, key.name()) else {
        return add_missing(alloc, notes, file, ini, section, setting);
    };
    match fault {
        SettingFault::BadDestination { .. } => add_bad_item(alloc, notes, file, line),
        SettingFault::DuplicateDestination { .. } => {
            add_repeated_item(alloc, notes, file, line, is_ring(ini))
        }
        _ => add_value(notes, file, line, fault, setting, cure),
    }
}

fn is_ring(ini: &Ini) -> bool {
    matches!(
        ini.get(RELAY, Setting::RelayMethod.name()),
        Some("consistent-hashing")
    )
}

/// The setting of a fault, and its cure.
fn setting_of(fault: SettingFault) -> Option<(Setting, Cure)> {
    match fault {
        SettingFault::Missing { setting } => Some((setting, cure_of_missing(setting))),
        SettingFault::BadNumber { setting } => Some((setting, Cure::WRITE_NUMBER)),
        SettingFault::BadTruth {
            setting: Setting::UseFlowControl,
        } => { Some((Setting::UseFlowControl, Cure::FLOW_CONTROL_OFF)) }
        SettingFault::BadTruth { setting } => Some((setting, Cure::WRITE_TRUTH)),
        SettingFault::BadDestination { setting } => Some((setting, Cure::HOST_AND_PORT)),
        SettingFault::DuplicateDestination { setting } => Some((setting, Cure::NAME_ONCE)),
        SettingFault::FlowControl { setting } => Some((setting, Cure::FLOW_CONTROL_OFF)),
        SettingFault::Protocol { setting } => Some((setting, Cure::LINE_PROTOCOL)),
        SettingFault::Method { setting } => Some((setting, Cure::WRITE_METHOD)),
        SettingFault::TooMany { setting } => Some((setting, Cure::AT_MOST_64)),
        SettingFault::NoMemory => None,
    }
}

fn cure_of_missing(setting: Setting) -> Cure {
    match setting {
        Setting::Destinations => Cure::WRITE_DESTINATIONS,
        Setting::UseFlowControl => Cure::WRITE_FLOW_CONTROL,
        Setting::DestinationProtocol => Cure::WRITE_PROTOCOL,
        _ => Cure::WRITE_IN_RELAY,
    }
}

/// Notes of a setting whose value is wrong.
fn add_value(
    notes: &mut Notes,
    file: TextFile<'_>,
    line: FileLine<'_>,
    fault: SettingFault,
    setting: Setting,
    cure: Cure,
) {
    let Some(pair) = key_value(line.text) else {
        return;
    };
    let end = pair.start.saturating_add(pair.value.len());
    notes.add_place(file.path, line, pair.start, end);
    if let SettingFault::TooMany { .. } = fault {
        let count = pair.value.split(',').count();
        notes.add(format_args!("the list has {count} items"));
    } else {
        notes.add_found(pair.value, expected_of(setting));
    }
    let cause = if pair.value.is_empty() && goes_on(file.text, line) {
        Some(Cause::LIST_GOES_ON)
    } else {
        cause_of_value(fault, pair.value)
    };
    add_cure(notes, cause, cure)
}

/// Why the value of a fault is refused, if its text says so.
fn cause_of_value(fault: SettingFault, value: &str) -> Option<Cause> {
    if names_key(value) {
        return Some(Cause::VALUE_OF_OTHER_KEY);
    }
    if is_variable(value) {
        return Some(Cause::VARIABLE);
    }
    match (fault, value) {
        (
            SettingFault::Method { .. },
            "aggregated-consistent-hashing" | "fast-hashing" | "fast-aggregated-hashing",
        ) => Some(Cause::METHOD_OF_CARBON),
        _ if value.starts_with(QUOTES) => Some(Cause::VALUE_IN_QUOTES),
        _ if value.starts_with(['=', ':']) => Some(Cause::SECOND_SIGN),
        _ => comment_in(value).or(beyond_ascii(value)),
    }
}

/// A character beyond ASCII in a value, if it has one.
fn beyond_ascii(value: &str) -> Option<Cause> {
    (!value.is_ascii()).then_some(Cause::BEYOND_ASCII)
}

/// A comment on the line of a value, if it has one.
pub(crate) fn comment_in(value: &str) -> Option<Cause> {
    let has_sign = value.contains('#') || value.contains(';');
    has_sign.then_some(Cause::COMMENT_AFTER_VALUE)
}

/// Notes of a setting that `[relay]` lacks: a key that is nearly it, or a section that has it.
fn add_missing(
    alloc: Global,
    notes: &mut Notes,
    file: TextFile<'_>,
    ini: &Ini,
    relay: usize,
    setting: Setting,
) {
    let (key, expected) = (setting.name(), expected_of(setting));
    notes.add(format_args!("{key} is missing; expected: {expected}"));
    for (number, section) in ini.sections().iter().enumerate() {
        if number == relay {
            let _ = add_near_key(alloc, notes, file, section, number, key);
        } else if section.contains_key(key) {
            notes.add(format_args!(
                "[{}] has {key}: relayd reads settings from [relay] only",
                EscapedText(section.name())
            ));
        }
    }
    notes.add(cure_of_missing(setting))
}

/// Notes of relay rules that are missing: the key that RELAY_METHOD may be meant by, if that is missing too.
pub(crate) fn add_no_rules(alloc: Global, notes: &mut Notes, file: TextFile<'_>, ini: &Ini) {
    let key = Setting::RelayMethod.name();
    for (number, section) in ini.sections().iter().enumerate() {
        if section.name() == RELAY && !section.contains_key(key) {
            notes.add("RELAY_METHOD is missing, so it is `rules`");
            if add_near_key(alloc, notes, file, section, number, key) {
                return notes.add(Cure::CORRECT_KEY);
            }
        }
    }
    notes.add(Cure::GIVE_RULES)
}

/// Adds a note of the first key of a section that differs from a name by case alone, or otherwise by a few letters, and
/// returns whether there is one.
pub(crate) fn add_near_key(
    alloc: Global,
    notes: &mut Notes,
    file: TextFile<'_>,
    section: &Section,
    number: usize,
    name: &'static str,
) -> bool {
    for pair in section.pairs() {
        let key = pair.key();
        if let Some(line) = line_of_key(file.text, number, key) {
            if key.eq_ignore_ascii_case(name) {
                notes.add_key(line, key, ": names are case-sensitive");
                return true;
            }
            if is_misspelt(alloc, notes, key, name) {
                notes.add_key(line, key, format_args!("; did you mean {name}?"));
                return true;
            }
        }
    }
    false
}

/// Notes of a file that has no section `[relay]`.
fn add_no_relay(notes: &mut Notes, file: TextFile<'_>, ini: &Ini) {
    for (number, section) in ini.sections().iter().enumerate() {
        if let Some(cause) = cause_of_section(section) {
            if let Some(header) = header_of(file.text, number) {
                notes.add_line(file.path, header);
            }
            return add_cure(notes, Some(cause), Cure::WRITE_DESTINATIONS);
        }
    }
    let cause = if ini.sections().is_empty() {
        Cause::NO_SECTION
    } else {
        Cause::NO_RELAY_SECTION
    };
    add_cure(notes, Some(cause), Cure::WRITE_DESTINATIONS)
}

fn cause_of_section(section: &Section) -> Option<Cause> {
    let name = section.name();
    if strip(name).eq_ignore_ascii_case(RELAY) {
        Some(Cause::SECTION_IN_OTHER_CASE)
    } else if name.starts_with("relay:") {
        Some(Cause::INSTANCE_SECTION)
    } else if section.contains_key("destinations") {
        Some(Cause::RULES_FILE_AS_CONFIG)
    } else if matches!(name, "[route]" | "[rewriter]" | "[aggregation]") {
        Some(Cause::RELAY_NG_FILE)
    } else if matches!(name, "pre" | "post") {
        Some(Cause::REWRITE_FILE_AS_CONFIG)
    } else if name.contains(RELAY) {
        Some(Cause::SECTION_LIKE_RELAY)
    } else {
        None
    }
}

/// The place of the section of a name.
pub(crate) fn section_named(ini: &Ini, name: &str) -> Option<usize> {
    for (number, section) in ini.sections().iter().enumerate() {
        if section.name() == name {
            return Some(number);
        }
    }
    None
}

/// What may be in a setting.
fn expected_of(setting: Setting) -> &'static str {
    match setting {
        Setting::Destinations => "1 to 64 of host:port or host:port:instance, separated by commas",
        Setting::RelayMethod => "rules or consistent-hashing",
        Setting::ReplicationFactor => "1 to 64 in decimal digits",
        Setting::MaxQueueSize => "1 to 1000000 in decimal digits",
        Setting::MaxDatapointsPerMessage => "1 to 10000 in decimal digits",
        Setting::UseFlowControl => "one of 0, no, false, off",
        Setting::DestinationProtocol => "line",
        Setting::DiverseReplicas | Setting::EnableUdpListener => TRUTH_WORDS,
        Setting::LineReceiverPort | Setting::PickleReceiverPort | Setting::UdpReceiverPort => {
            "0 to 65535 in decimal digits, 0 for none"
        }
        Setting::LineReceiverInterface
        | Setting::PickleReceiverInterface
        | Setting::UdpReceiverInterface => "any text",
    }
}
