//! The lines of the log.

ghost use Rattle.std.specs.Prelude.{◌≡◌, ◌++◌, Some, OnOk};
ghost use Rattle.std.specs.String.{string_bytes};
ghost use Rattle.log_lines.specs.Line.{dest_line, dest_words, receiver_line, receiver_words};

use crate::logged_dest::DestEvent;
use crate::receiver_notes::ReceiverState;
use crate::why::Why;
use conf_text::Dest;
use std::alloc::AllocError;
use std::fmt::Write as _;
use std::net::SocketAddr;

/// Adds the line for an event of a destination, with the name that the report gives it. Fails when out of memory; the
/// text may have a part of the line then.
pub fn push_dest_line(text: &mut String, dest: &Dest, event: DestEvent) -> Result<(), AllocError>
    ensures { OnOk result
        (string_bytes text.new ≡ string_bytes text.old ++ dest_line dest.now event) }
{
    write!(text, "destination {dest} ")?;
    push_dest_words(text, event)?;
    text.push('\n')
}

/// Adds what happened to a destination.
fn push_dest_words(text: &mut String, event: DestEvent) -> Result<(), AllocError>
    ensures { OnOk result (string_bytes text.new ≡ string_bytes text.old ++ dest_words event) }
{
    match event {
        DestEvent::Connected => text.push_str("connected"),
        DestEvent::ConnectedAgain { why } => write!(text, "connected again, was lost: {why}"),
        DestEvent::Lost { why } => write!(text, "lost: {why}"),
        DestEvent::CannotConnect { why, to } => push_cannot_connect(text, why, to),
        DestEvent::BeginsToDrop => text.push_str("queue full, dropping"),
        DestEvent::DropsNoMore { dropped } => write!(text, "stopped dropping, dropped {dropped}"),
    }
}

/// Adds that a destination cannot be connected, at this address if one was tried.
fn push_cannot_connect(
    text: &mut String,
    why: Why,
    to: Option<SocketAddr>,
) -> Result<(), AllocError>
    ensures { OnOk result
        (string_bytes text.new ≡ string_bytes text.old ++ dest_words (DestEvent.CannotConnect why to)) }
{
    match to {
        Some(address) => push_cannot_connect_to(text, why, address),
        None => write!(text, "cannot connect: {why}"),
    }
}

/// Adds that a destination cannot be connected at an address.
fn push_cannot_connect_to(
    text: &mut String,
    why: Why,
    address: SocketAddr,
) -> Result<(), AllocError>
    ensures { OnOk result (string_bytes text.new
        ≡ string_bytes text.old ++ dest_words (DestEvent.CannotConnect why (Some address))) }
{
    write!(text, "cannot connect to {address}: {why}")
}

/// Adds the line for the state of a receiver of a name. Fails when out of memory; the text may have a part of the line
/// then.
pub fn push_receiver_line(
    text: &mut String,
    name: &str,
    state: ReceiverState,
) -> Result<(), AllocError>
    ensures { OnOk result
        (string_bytes text.new ≡ string_bytes text.old ++ receiver_line name.now state) }
{
    write!(text, "receiver {name} ")?;
    push_receiver_words(text, state)?;
    text.push('\n')
}

/// Adds the state of a receiver.
fn push_receiver_words(text: &mut String, state: ReceiverState) -> Result<(), AllocError>
    ensures { OnOk result (string_bytes text.new ≡ string_bytes text.old ++ receiver_words state) }
{
    match state {
        ReceiverState::Open => text.push_str("accepting again"),
        ReceiverState::Paused { why } => write!(text, "paused: {why}"),
        ReceiverState::Failed { why } => write!(text, "failed: {why}"),
    }
}
