//! How the text of each setting is read.

ghost use Rattle.std.specs.Prelude.{◌≡◌, ◌≤◌, false, length, IfOk, option_copied, string_bytes};
ghost use Rattle.std.specs.List.{list_any};
ghost use Rattle.relay_base.specs.Memory.{Gives};
ghost use Rattle.conf_text.specs.SettingRules.{setting_text, value_or_default, required_value, number_in, truth_word, method_name, flow_control, protocol_name, destination_list, any_text, has_repeat, same_by, check_distinct};

use crate::dest::{Dest, DestFault};
use crate::ini::Ini;
use crate::limits::MOST_DIGITS;
use crate::method::RelayMethod;
use crate::protocol::DestinationProtocol;
use crate::setting::{Setting, SettingFault};
use crate::truth_word;
use relay_base::{MOST_DESTINATIONS, short_whole_number};
use std::alloc::Global;

fn setting_text(ini: &Ini, setting: Setting) -> Option<&str>
    ensures { option_copied result ≡ setting_text ini.now setting }
{
    ini.get("relay", setting.name())
}

/// A number of one to ten digits, from `low` to `high`.
pub(crate) fn number_in(
    ini: &Ini,
    setting: Setting,
    default: &str,
    low: u64,
    high: u64,
) -> Result<u64, SettingFault>
    ensures gives { result ≡ value_or_default ini.now setting default.now (number_in low high) }
    ensures within { IfOk result (λ n. (low ≤ n) × (n ≤ high)) }
{
    let text = setting_text(ini, setting).unwrap_or(default);
    match short_whole_number(text, MOST_DIGITS) {
        Some(n) if low <= n && n <= high => Ok(n),
        _ => Err(SettingFault::BadNumber { setting }),
    }
}

/// A truth word.
pub(crate) fn truth(ini: &Ini, setting: Setting, default: &str) -> Result<bool, SettingFault>
    ensures { result ≡ value_or_default ini.now setting default.now truth_word }
{
    let text = setting_text(ini, setting).unwrap_or(default);
    truth_word::truth(text).ok_or(SettingFault::BadTruth { setting })
}

/// `rules` or `consistent-hashing`.
pub(crate) fn method(
    ini: &Ini,
    setting: Setting,
    default: &str,
) -> Result<RelayMethod, SettingFault>
    ensures { result ≡ value_or_default ini.now setting default.now method_name }
{
    match setting_text(ini, setting).unwrap_or(default) {
        "rules" => Ok(RelayMethod::Rules),
        "consistent-hashing" => Ok(RelayMethod::ConsistentHashing),
        _ => Err(SettingFault::Method { setting }),
    }
}

/// Any text.
pub(crate) fn any_text(
    alloc: Global,
    ini: &Ini,
    setting: Setting,
    default: &str,
) -> Result<String, SettingFault>
    ensures { Gives SettingFault.NoMemory string_bytes result
        (value_or_default ini.now setting default.now any_text) }
{
    let text = setting_text(ini, setting).unwrap_or(default);
    Ok(String::from_str(alloc, text)?)
}

/// Whether flow control is on; it must be given, and on is refused.
pub(crate) fn flow_control(ini: &Ini, setting: Setting) -> Result<bool, SettingFault>
    ensures gives { result ≡ required_value ini.now setting flow_control }
    ensures off { IfOk result (λ on. on ≡ false) }
{
    let Some(text) = setting_text(ini, setting) else {
        return Err(SettingFault::Missing { setting });
    };
    match truth_word::truth(text) {
        Some(false) => Ok(false),
        Some(true) => Err(SettingFault::FlowControl { setting }),
        None => Err(SettingFault::BadTruth { setting }),
    }
}

/// The protocol, which must be given: `line`.
pub(crate) fn protocol(ini: &Ini, setting: Setting) -> Result<DestinationProtocol, SettingFault>
    ensures { result ≡ required_value ini.now setting protocol_name }
{
    match setting_text(ini, setting) {
        None => Err(SettingFault::Missing { setting }),
        Some("line") => Ok(DestinationProtocol::Line),
        Some(_) => Err(SettingFault::Protocol { setting }),
    }
}

/// One to [`MOST_DESTINATIONS`] destinations.
pub(crate) fn destinations(
    alloc: Global,
    ini: &Ini,
    setting: Setting,
) -> Result<Vec<Dest>, SettingFault>
    ensures gives { Gives SettingFault.NoMemory (λ dests. dests.items) result
        (required_value ini.now setting destination_list) }
    ensures count { IfOk result (λ dests.
        (1 ≤ length dests.items) × (length dests.items ≤ MOST_DESTINATIONS)) }
{
    let text = setting_text(ini, setting).unwrap_or("");
    if text.is_empty() {
        return Err(SettingFault::Missing { setting });
    }
    let dests = match Dest::read_list(alloc, text) {
        Ok(dests) => dests,
        Err(DestFault::BadDestination) => return Err(SettingFault::BadDestination { setting }),
        Err(DestFault::NoMemory) => return Err(SettingFault::NoMemory),
    };
    if dests.len() > MOST_DESTINATIONS {
        return Err(SettingFault::TooMany { setting });
    }
    Ok(dests)
}

/// No two destinations are the same, in the sense of the method.
pub(crate) fn check_distinct(
    method: RelayMethod,
    dests: &[Dest],
    setting: Setting,
) -> Result<(), SettingFault>
    ensures { result ≡ check_distinct method dests.now setting }
{
    if has_repeat(method, dests) {
        Err(SettingFault::DuplicateDestination { setting })
    } else {
        Ok(())
    }
}

fn has_repeat(method: RelayMethod, dests: &[Dest]) -> bool
    ensures { result ≡ has_repeat (same_by method) dests.now }
{
    let mut rest = dests;
    while let Some((first, others)) = rest.split_first() {
        if is_among(method, first, others) {
            return true;
        }
        rest = others;
    }
    false
}

fn is_among(method: RelayMethod, dest: &Dest, others: &[Dest]) -> bool
    ensures { result ≡ list_any (same_by method dest.now) others.now }
{
    others.iter().any(|other| is_same(method, dest, other))
}

fn is_same(method: RelayMethod, dest: &Dest, other: &Dest) -> bool
    ensures { result ≡ same_by method dest.now other.now }
{
    match method {
        RelayMethod::Rules => dest == other,
        RelayMethod::ConsistentHashing => dest.is_same_node(other),
    }
}
