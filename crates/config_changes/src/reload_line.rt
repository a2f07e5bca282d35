//! The line of the log on a reload.

ghost use Rattle.std.specs.Prelude.{◌≡◌, [], ◌∷◌, ◌++◌, OnOk};
ghost use Rattle.std.specs.String.{string_bytes};
ghost use Rattle.config_changes.specs.Kept.{place_of, is_missing};
ghost use Rattle.config_changes.specs.ReloadLine.{reload_line, listed, dest_words, dest_name, port_words, words_if, other_words};

use crate::kept::first_equal;
use crate::ports::ChangedPorts;
use conf_text::Dest;
use std::alloc::AllocError;
use std::fmt::Write as _;

/// What else is not as it was.
#[derive(Clone, Copy)]
pub struct OtherChanges {
    /// The ports of receivers.
    pub ports: ChangedPorts,
    /// The file of relay rules.
    pub rules: bool,
    /// The rewrite file, or the limit on names.
    pub rewriting: bool,
}

/// Adds the line on a reload: the destinations that came and those that are gone, each in the order of its list, the ports of
/// receivers that changed, and what else did. Fails when out of memory; the text may have a part of the line then.
pub fn push_reload_line(
    text: &mut String,
    old: &[Dest],
    new: &[Dest],
    others: OtherChanges,
) -> Result<(), AllocError>
    ensures { OnOk result (string_bytes text.new
        ≡ string_bytes text.old ++ reload_line old.now new.now others) }
{
    text.push_str("relay reloaded:")?;
    push_lacked(text, old, new, " added")?;
    push_lacked(text, new, old, " gone")?;
    push_ports(text, others.ports)?;
    push_others(text, others)
}

/// Adds the destinations of a list that another one does not have, each with these words.
fn push_lacked(
    text: &mut String,
    other: &[Dest],
    dests: &[Dest],
    words: &str,
) -> Result<(), AllocError>
    ensures { OnOk result (string_bytes text.new
        ≡ string_bytes text.old ++ listed other.now words.now dests.now) }
{
    for dest in dests {
        push_if_lacked(text, other, dest, words)?;
    }
    Ok(())
}

/// Adds a destination with these words, if the list does not have it.
fn push_if_lacked(
    text: &mut String,
    other: &[Dest],
    dest: &Dest,
    words: &str,
) -> Result<(), AllocError>
    ensures { OnOk result (string_bytes text.new
        ≡ string_bytes text.old ++ listed other.now words.now (dest.now ∷ [])) }
{
    if is_lacked(dest, other) {
        push_dest(text, dest, words)
    } else {
        Ok(())
    }
}

/// Whether a list does not have the destination.
fn is_lacked(dest: &Dest, other: &[Dest]) -> bool
    ensures { result ≡ is_missing (place_of dest.now other.now) }
{
    first_equal(dest, other).is_none()
}

/// Adds a destination with these words.
fn push_dest(text: &mut String, dest: &Dest, words: &str) -> Result<(), AllocError>
    ensures { OnOk result (string_bytes text.new
        ≡ string_bytes text.old ++ dest_words words.now dest.now) }
{
    push_name(text, dest)?;
    text.push_str(words)?;
    text.push_str(",")
}

/// Adds a destination by its name.
fn push_name(text: &mut String, dest: &Dest) -> Result<(), AllocError>
    ensures { OnOk result (string_bytes text.new ≡ string_bytes text.old ++ dest_name dest.now) }
{
    write!(text, " destination {dest}")
}

/// Adds the ports of receivers that changed, by what `relayd: listen: ..` calls them.
fn push_ports(text: &mut String, ports: ChangedPorts) -> Result<(), AllocError>
    ensures { OnOk result (string_bytes text.new ≡ string_bytes text.old ++ port_words ports) }
{
    push_if(text, ports.lines, " line port changed,")?;
    push_if(text, ports.pickles, " pickle port changed,")?;
    push_if(text, ports.datagrams, " udp port changed,")
}

/// Adds these words if this is so.
fn push_if(text: &mut String, is_so: bool, words: &str) -> Result<(), AllocError>
    ensures { OnOk result (string_bytes text.new ≡ string_bytes text.old ++ words_if is_so words.now) }
{
    if is_so { text.push_str(words) } else { Ok(()) }
}

/// Adds what else changed, and ends the line.
fn push_others(text: &mut String, others: OtherChanges) -> Result<(), AllocError>
    ensures { OnOk result (string_bytes text.new ≡ string_bytes text.old ++ other_words others) }
{
    match (others.rules, others.rewriting) {
        (true, true) => text.push_str(" rules and rewriting changed\n"),
        (true, false) => text.push_str(" rules changed\n"),
        (false, true) => text.push_str(" rewriting changed\n"),
        (false, false) => text.push_str(" same rules and rewriting\n"),
    }
}
