//! Notes of faults in lists of destinations.

use crate::cause::{Cause, add_cure};
use crate::cure::Cure;
use crate::items::{Item, cause_of_item, item_numbered};
use conf_text::Dest;
use note_text::{FileLine, KeyLine, Notes, TextFile, is_indented, key_value, line_numbered};
use relay_base::strip;
use std::alloc::Global;

/// Notes of the first item of a list that is no destination.
pub(crate) fn add_bad_item(
    alloc: Global,
    notes: &mut Notes,
    file: TextFile<'_>,
    line: FileLine<'_>,
) {
    let Some(list) = key_value(line.text) else {
        return;
    };
    for (number, text) in list.value.split(',').enumerate() {
        if Dest::read(alloc, strip(text)).err().is_some() {
            return add_item_fault(alloc, notes, file, line, list, number);
        }
    }
}

/// Notes of the item of a number that is no destination.
fn add_item_fault(
    alloc: Global,
    notes: &mut Notes,
    file: TextFile<'_>,
    line: FileLine<'_>,
    list: KeyLine<'_>,
    number: usize,
) {
    let Some(item) = item_numbered(list, number) else {
        return;
    };
    add_item(notes, file, line, item);
    let cause = if item.text.is_empty() && goes_on(file.text, line) {
        Cause::LIST_GOES_ON
    } else {
        cause_of_item(alloc, notes, item.text)
    };
    add_cure(notes, Some(cause), Cure::HOST_AND_PORT)
}

/// Notes of the first item of a list that is the same destination as one before it.
pub(crate) fn add_repeated_item(
    alloc: Global,
    notes: &mut Notes,
    file: TextFile<'_>,
    line: FileLine<'_>,
    is_ring: bool,
) {
    let Some(list) = key_value(line.text) else {
        return;
    };
    if let Some(number) = first_repeated(alloc, list.value, is_ring) {
        if let Some(item) = item_numbered(list, number) {
            add_item(notes, file, line, item);
        }
        add_cure(notes, Some(cause_of_repeat(is_ring)), Cure::NAME_ONCE);
    }
}

fn cause_of_repeat(is_ring: bool) -> Cause {
    if is_ring {
        Cause::SAME_NODE
    } else {
        Cause::SAME_DESTINATION
    }
}

/// The place of the first destination of a list that is the same as one before it.
fn first_repeated(alloc: Global, list: &str, is_ring: bool) -> Option<usize> {
    match Dest::read_list(alloc, list) {
        Ok(dests) => first_same(&dests, is_ring),
        Err(_) => None,
    }
}

fn first_same(dests: &[Dest], is_ring: bool) -> Option<usize> {
    for (number, dest) in dests.iter().enumerate() {
        for other in dests.iter().take(number) {
            if is_same(other, dest, is_ring) {
                return Some(number);
            }
        }
    }
    None
}

fn is_same(dest: &Dest, other: &Dest, is_ring: bool) -> bool {
    dest.is_same_node(other) && (is_ring || dest.port == other.port)
}

fn add_item(notes: &mut Notes, file: TextFile<'_>, line: FileLine<'_>, item: Item<'_>) {
    let end = item.start.saturating_add(item.text.len());
    notes.add_place(file.path, line, item.start, end);
    notes.add_found(item.text, "host:port or host:port:instance")
}

/// Whether the line after this one begins with white space, as a continued list does in carbon.
pub(crate) fn goes_on(text: &str, line: FileLine<'_>) -> bool {
    is_indented(line_numbered(text, line.number.saturating_add(1)).text)
}
