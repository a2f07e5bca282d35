//! Notes of a configuration that has no fault.

use crate::carbon_effects::add_effect;
use crate::carbon_keys::is_carbon_key;
use crate::receiver_notes::add_receiver_notes;
use crate::replicas::add_ring_notes;
use crate::rule_notes::add_rule_notes;
use crate::wanted::NotesWanted;
use conf_text::{Dest, KeyValue, RelayMethod, Section, Setting, Settings};
use note_text::{
    EscapedText, IniFile, NearestKey, Notes, RELAY, SectionAt, TextFile, is_indented, line_of_key,
};
use std::alloc::Global;
use std::fmt::Write as _;

/// The port where carbon's stores receive pickles, unless they are configured otherwise.
const PICKLE_PORT: u16 = 2004;

/// All settings, each a key of `[relay]`.
const SETTINGS: [Setting; 15] = [
    Setting::Destinations,
    Setting::RelayMethod,
    Setting::ReplicationFactor,
    Setting::DiverseReplicas,
    Setting::MaxQueueSize,
    Setting::MaxDatapointsPerMessage,
    Setting::UseFlowControl,
    Setting::DestinationProtocol,
    Setting::LineReceiverInterface,
    Setting::LineReceiverPort,
    Setting::PickleReceiverInterface,
    Setting::PickleReceiverPort,
    Setting::EnableUdpListener,
    Setting::UdpReceiverInterface,
    Setting::UdpReceiverPort,
];

/// The section `[relay]` of a file, where it stands, and the path of the relay rules, if they are used.
#[derive(Clone, Copy)]
struct RelaySection<'a> {
    file: TextFile<'a>,
    at: SectionAt<'a>,
    rules: Option<&'a str>,
}

/// Notes of what a configuration says without effect, or may not intend.
pub(crate) fn add_configuration_notes(
    alloc: Global,
    notes: &mut Notes,
    config: &IniFile<'_>,
    settings: &Settings,
    rules: Option<&IniFile<'_>>,
    wanted: NotesWanted,
) {
    for (number, section) in config.ini.sections().iter().enumerate() {
        let at = config.section_at(number, section);
        if at.name == RELAY {
            let relay = RelaySection {
                file: config.file,
                at,
                rules: path_of_rules(settings, rules),
            };
            add_unknown_settings(alloc, notes, relay, section, wanted);
            add_receiver_notes(notes, section, settings);
        } else if at.name.starts_with("relay:") || at.name == "DEFAULT" {
            notes.add(format_args!("{at}: relayd reads settings from [relay] only"));
        }
    }
    add_pickle_ports(notes, settings.destinations());
    add_method_notes(alloc, notes, settings, rules);
}

/// The path of the relay rules, if the method is `rules`.
fn path_of_rules<'a>(settings: &Settings, rules: Option<&IniFile<'a>>) -> Option<&'a str> {
    match (settings.relay_method(), rules) {
        (RelayMethod::Rules, Some(rules)) => Some(rules.file.path),
        _ => None,
    }
}

/// Notes of the destinations at the port where carbon receives pickles.
fn add_pickle_ports(notes: &mut Notes, dests: &[Dest]) {
    for dest in dests {
        if dest.port == PICKLE_PORT {
            notes.add(format_args!(
                "{dest}: 2004 is the port where carbon's stores usually receive pickles, and relayd writes lines (usually 2003)"
            ));
        }
    }
}

/// Notes of the relay rules, if any, and of the copies that the method makes.
fn add_method_notes(
    alloc: Global,
    notes: &mut Notes,
    settings: &Settings,
    rules: Option<&IniFile<'_>>,
) {
    let is_ring = settings.relay_method() == RelayMethod::ConsistentHashing;
    if let Some(rules) = rules {
        if is_ring {
            notes.add("the relay rules are not used: RELAY_METHOD is consistent-hashing");
        }
        add_rule_notes(alloc, notes, rules, settings.destinations());
    }
    let factor = settings.replication_factor();
    if is_ring {
        add_ring_notes(alloc, notes, settings);
    } else if factor > 1 {
        notes.add(format_args!(
            "REPLICATION_FACTOR is {factor}, and has no effect: with relay rules each destination of a rule gets one copy"
        ));
    }
}

/// Notes of the keys of `[relay]` that are no setting: one of each that makes carbon receive or send something else, one
/// of all others of carbon, if it is wanted, and one of each key that carbon does not have either.
fn add_unknown_settings(
    alloc: Global,
    notes: &mut Notes,
    relay: RelaySection<'_>,
    section: &Section,
    wanted: NotesWanted,
) {
    let mut keys = String::new(alloc);
    for pair in section.pairs() {
        look_at_key(alloc, notes, relay, pair, &mut keys);
    }
    if !keys.is_empty() && wanted == NotesWanted::All {
        notes.add(format_args!(
            "{} [relay]: these keys of carbon have no effect in relayd: {}",
            EscapedText(relay.file.path),
            EscapedText(keys.as_str())
        ));
    }
}

/// Adds a key of `[relay]` to those of carbon that change nothing, if it is one of them, and otherwise a note of it if it
/// is no setting.
fn look_at_key(
    alloc: Global,
    notes: &mut Notes,
    relay: RelaySection<'_>,
    pair: &KeyValue,
    carbon_keys: &mut String,
) {
    let key = pair.key();
    let Some(upper) = notes.answer(key.to_ascii_uppercase(alloc)) else {
        return;
    };
    let at = relay.at.at_key(relay.file.text, key);
    if add_effect(notes, at, upper.as_str(), pair.value(), relay.rules) {
        return;
    }
    if is_carbon_key(upper.as_str()) {
        let comma = if carbon_keys.is_empty() { "" } else { ", " };
        notes.answer(write!(carbon_keys, "{comma}{key}"));
    } else {
        add_unknown_setting(alloc, notes, relay, key, upper.as_str());
    }
}

/// A note of a key of `[relay]`, also in capitals, if it is no setting.
fn add_unknown_setting(
    alloc: Global,
    notes: &mut Notes,
    relay: RelaySection<'_>,
    key: &str,
    upper: &str,
) {
    let Some(nearest) = nearest_setting(alloc, notes, key, upper) else {
        return;
    };
    let at = relay.at.at_key(relay.file.text, key);
    match line_of_key(relay.file.text, at.number, key) {
        Some(line) if is_indented(line.text) => notes.add(format_args!(
            "{at}: `{}` is read as a key: carbon adds the line to the value above, and relayd reads each line by itself, so an item of a list may be missing; write the list on one line",
            EscapedText(key)
        )),
        _ => nearest.add_note(notes, at, key),
    }
}

/// The setting that is nearest to a key, also in capitals, or `None` if the key is a setting.
fn nearest_setting<'k>(
    alloc: Global,
    notes: &mut Notes,
    key: &str,
    upper: &'k str,
) -> Option<NearestKey<'k>> {
    let mut nearest = NearestKey::new(upper);
    for setting in SETTINGS {
        if setting.name() == key {
            return None;
        }
        nearest.offer(alloc, notes, setting.name());
    }
    Some(nearest)
}
