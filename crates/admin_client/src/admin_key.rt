//! The key of an admin port, and the commands that come with one.

ghost use Rattle.std.specs.Prelude.{◌≡◌, ◌<◌, ◌≤◌, ◌⊎◌, None, Some, length, option_map, IfOk, MatchOption};
ghost use Rattle.std.specs.Str.{bytes_eq};
ghost use Rattle.admin_client.specs.AdminCommand.{command_text};
ghost use Rattle.admin_client.specs.AdminKey.{after_line, key_given, behind_key, asked_of, without_key, asked_in, request_of};

use crate::admin_command::{AdminCommand, command_in, first_line_of, first_newline};
use crate::reload_answer::behind;
use relay_base::NoMemory;
use std::alloc::Global;

/// How many bytes a key has, at least and at most.
pub const LEAST_KEY: usize = 16;

/// The most.
pub const LONGEST_KEY: usize = 128;

/// The words before a key.
const KEY: &[u8] = b"key ";

/// The answer to a connection that does not know the key.
pub const WRONG_KEY: &[u8] = b"wrong key\n";

/// What a connection asks for.
#[derive(Clone, Copy)]
pub enum Asked {
    /// This command.
    Command(AdminCommand),
    /// What is no command.
    Unknown,
    /// A command, without the key that it needs.
    WithoutKey,
}

/// The key in a file: its first line, without one byte 13 at the end; `None` if that has not as many bytes as a key.
pub fn key_in(file: &[u8]) -> Option<&[u8]>
    ensures { MatchOption result
        ((length (command_text file.now) < LEAST_KEY) ⊎ (LONGEST_KEY < length (command_text file.now)))
        (λ key. (key.now ≡ command_text file.now) × (LEAST_KEY ≤ length key.now) × (length key.now ≤ LONGEST_KEY)) }
{
    let line = first_line_of(file);
    if line.len() < LEAST_KEY || line.len() > LONGEST_KEY {
        return None;
    }
    Some(line)
}

/// What a connection asks for that has sent this, at a port with this key, or without one.
pub fn asked_in(key: Option<&[u8]>, sent: &[u8]) -> Asked
    ensures { result ≡ asked_in (option_map (λ k. k.now) key.entry) sent.now }
{
    let Some(key) = key else {
        return asked_of(command_in(sent));
    };
    match key_given(sent) {
        Some(given) if is_same(given, key) => asked_of(command_in(after_line(sent))),
        Some(_) => Asked::WithoutKey,
        None => without_key(command_in(sent)),
    }
}

/// What a command asks for that comes without a key at a port with one, if it is one.
fn without_key(command: Option<AdminCommand>) -> Asked
    ensures { result ≡ without_key command }
{
    match command {
        Some(_) => Asked::WithoutKey,
        None => Asked::Unknown,
    }
}

/// What a command asks for, if it is one.
fn asked_of(command: Option<AdminCommand>) -> Asked
    ensures { result ≡ asked_of command }
{
    match command {
        Some(command) => Asked::Command(command),
        None => Asked::Unknown,
    }
}

/// The part of what was sent that has the command: what follows the line of a key, if there is one.
pub fn behind_key(sent: &[u8]) -> &[u8]
    ensures { result.now ≡ behind_key sent.now }
{
    match key_given(sent) {
        Some(_) => after_line(sent),
        None => sent,
    }
}

/// The key in the first line of what was sent, if there is one.
fn key_given(sent: &[u8]) -> Option<&[u8]>
    ensures { MatchOption result (key_given sent.now ≡ None)
        (λ key. key_given sent.now ≡ Some key.now) }
{
    behind(KEY, first_line_of(sent))
}

/// What follows the first line.
fn after_line(sent: &[u8]) -> &[u8]
    ensures { result.now ≡ after_line sent.now }
{
    match first_newline(sent) {
        Some(place) => &sent[place + 1..],
        None => &[],
    }
}

/// Whether a key that was given is this one. It takes as long wherever the two differ.
fn is_same(given: &[u8], key: &[u8]) -> bool
    ensures { result ≡ bytes_eq given.now key.now }
{
    if given.len() != key.len() {
        return false;
    }
    let mut is_same = true;
    for place in 0..key.len() {
        is_same &= given[place] == key[place];
    }
    is_same
}

/// What a client sends for a command and the name that it asks for, or an empty one, with this key, or without one. Refuses if
/// out of memory.
pub(crate) fn request_of(
    alloc: Global,
    key: Option<&[u8]>,
    command: AdminCommand,
    name: &[u8],
) -> Result<Vec<u8>, NoMemory>
    ensures { IfOk result (λ sent. sent.items
        ≡ request_of (option_map (λ k. k.now) key.entry) command name.now) }
{
    let mut sent = Vec::new(alloc);
    if let Some(key) = key {
        sent.extend_from_slice(KEY)?;
        sent.extend_from_slice(key)?;
        sent.extend_from_slice(b"\n")?;
    }
    sent.extend_from_slice(command.words())?;
    sent.extend_from_slice(name)?;
    sent.extend_from_slice(b"\n")?;
    Ok(sent)
}
