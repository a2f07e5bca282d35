//! `route_names` over files in memory that cannot be read, and outputs that fail.

use crate::tests::configurations::{FileContents, GOOD, file, sources};
use crate::tests::streams::{ALL, Sink};
use relay_commands::route_names;
use relay_files::{RelayFault, Role, Status};
use std::alloc::Global;

fn route(
    alloc: Global,
    names: FileContents,
    output: &mut Sink,
    notes: &mut Sink,
) -> Result<Status, RelayFault> {
    let mut sources = sources(&GOOD);
    let ended = route_names(alloc, &mut sources, &mut file(names), output, notes);
    drop(sources);
    ended
}

// How the names end if the output and the notes have this much room, after a first part of both; none for other
// outputs.
fn end_after_part(
    alloc: Global,
    names: FileContents,
    room: usize,
    noted: usize,
) -> Option<Result<Status, RelayFault>> {
    let mut output = Sink::new(alloc, 5, room);
    let mut notes = Sink::new(alloc, 3, noted);
    let ended = route(alloc, names, &mut output, &mut notes);
    let is_part = b"b.mem h:3003\nc.mem h:3003\n".starts_with(output.taken.as_slice())
        && b"relayd: name: line 2: BadName\n".starts_with(notes.taken.as_slice());
    drop(output);
    drop(notes);
    if is_part { Some(ended) } else { None }
}

// Whether they cannot be read.
fn is_unreadable(alloc: Global, names: FileContents, room: usize) -> bool {
    match end_after_part(alloc, names, room, room) {
        Some(Err(RelayFault::CannotRead { role })) => role == Role::Names,
        _ => false,
    }
}

// Whether the output fails with this much room, or the notes.
fn is_output_fault(alloc: Global, room: usize, noted: usize) -> bool {
    let ended = end_after_part(alloc, TWO, room, noted);
    matches!(ended, Some(Err(RelayFault::Output)))
}

const TWO: FileContents = FileContents::Text("b.mem\nbad name\nc.mem\n");

#[test]
fn names_that_cannot_be_read_are_a_fault(rt: HostRuntime) {
    assert!(rt; is_unreadable(rt.alloc(), FileContents::Unreadable, ALL));
    assert!(rt; is_unreadable(rt.alloc(), FileContents::Broken("b.mem\nc.mem\n", 8), 0));
}

#[test]
fn an_output_that_fails_ends_the_names(rt: HostRuntime) {
    for room in 0..26 {
        assert!(rt; is_output_fault(rt.alloc(), room, ALL), "with room {room}");
    }
    assert!(rt; is_output_fault(rt.alloc(), ALL, 29));
}
