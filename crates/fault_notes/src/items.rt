//! The items of a list of destinations, and why a text is none.

use crate::cause::Cause;
use conf_text::Dest;
use note_text::{KeyLine, Notes, white_before};
use relay_base::strip;
use std::alloc::Global;

/// An item of a list: its text, and how many bytes of the line precede it.
#[derive(Clone, Copy)]
pub(crate) struct Item<'a> {
    pub(crate) text: &'a str,
    pub(crate) start: usize,
}

/// The item of a number, from 0.
pub(crate) fn item_numbered(list: KeyLine<'_>, number: usize) -> Option<Item<'_>> {
    let mut start = list.start;
    for text in list.value.split(',').take(number) {
        start = start.saturating_add(text.len()).saturating_add(1);
    }
    let text = list.value.split(',').nth(number)?;
    Some(Item {
        text: strip(text),
        start: start.saturating_add(white_before(text)),
    })
}

/// Why a text that is no destination is none.
pub(crate) fn cause_of_item(alloc: Global, notes: &mut Notes, text: &str) -> Cause {
    if text.is_empty() {
        Cause::EMPTY_ITEM
    } else if text.contains('\u{a0}') {
        Cause::NO_BREAK_SPACE
    } else if names_key(text) {
        Cause::VALUE_OF_OTHER_KEY
    } else if is_variable(text) {
        Cause::VARIABLE
    } else if is_of_ipv6(text) {
        Cause::ADDRESS_OF_IPV6
    } else if text.ends_with('\\') {
        Cause::CONTINUED_BY_BACKSLASH
    } else if text.starts_with(['[', '(', '{', '"', '\'']) {
        Cause::LIST_IN_BRACKETS
    } else if text.contains(';') {
        Cause::SEMICOLON_BETWEEN_ITEMS
    } else if text.starts_with(['=', ':']) {
        Cause::SECOND_SIGN
    } else if text.contains('=') {
        Cause::INSTANCE_AFTER_EQUALS
    } else if text.contains("://") {
        Cause::SCHEME
    } else if text.contains(' ') || text.contains('\t') {
        Cause::WHITE_IN_ITEM
    } else {
        cause_of_parts(alloc, notes, text)
    }
}

/// Whether carbon replaces a part of a value by the value of another key.
pub(crate) fn names_key(value: &str) -> bool {
    value.contains("%(")
}

/// Whether a text has a variable of a shell, or a place of a template.
pub(crate) fn is_variable(text: &str) -> bool {
    text.starts_with('$') || text.contains("${") || text.contains("{{")
}

/// Whether a text has an address of IPv6.
fn is_of_ipv6(text: &str) -> bool {
    text.contains("::") || (text.starts_with('[') && text.contains("]:"))
}

/// Which part of a text is wrong that should be a host, a port and perhaps an instance.
fn cause_of_parts(alloc: Global, notes: &mut Notes, text: &str) -> Cause {
    let Some((_, rest)) = text.split_once(':') else {
        return Cause::NO_PORT;
    };
    let (port, instance) = match rest.split_once(':') {
        Some((port, instance)) => (port, instance),
        None => (rest, ""),
    };
    if !is_port(alloc, notes, port) {
        Cause::BAD_PORT
    } else if instance.contains(':') {
        Cause::TWO_INSTANCES
    } else {
        Cause::BAD_HOST
    }
}

/// Whether a text is read as a port after a good host.
fn is_port(alloc: Global, notes: &mut Notes, text: &str) -> bool {
    match notes.answer(format!(in alloc; "h:{text}")) {
        Some(dest) => Dest::read(alloc, dest.as_str()).ok().is_some(),
        None => false,
    }
}
