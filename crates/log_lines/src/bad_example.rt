//! An example of bad input, with the address of its producer.

ghost use Rattle.std.specs.Prelude.{◌≡◌, ◌++◌, ◌&&◌, None, OnOk};
ghost use Rattle.std.specs.String.{string_bytes};
ghost use Rattle.log_lines.specs.BadExample.{example_line, example_logged_after, kind_words, opcode_words, pickle_words, quoted_words, wrong_words};
ghost use Rattle.log_lines.specs.LoggedCounts.{is_minute_over};

use crate::counts_line::plural;
use crate::logged_counts::is_minute_over;
use crate::noted_address::NotedAddress;
use std::alloc::AllocError;
use std::fmt::Write as _;
use std::net::IpAddr;
use std::sync::atomic::{AtomicBool, AtomicU64, Ordering};

/// What was wrong with bad input.
#[derive(Clone, Copy, Debug, PartialEq)]
pub enum BadInput {
    /// A line has this number of fields, and not three.
    Fields { count: u64 },
    /// The name of a line is not a metric name.
    Name,
    /// The value of a line is not a value.
    Value,
    /// The time of a line is not a time.
    Time,
    /// A pickle could not be read, for this reason.
    Pickle { why: BadPickle },
    /// A row of a pickle is no datapoint.
    Row,
    /// The new name of a datapoint, after rewriting, is not a metric name.
    NewName,
}

/// Why a pickle could not be read.
#[derive(Clone, Copy, Debug, PartialEq)]
pub enum BadPickle {
    /// It was not looked at whole.
    Unknown,
    /// It does not begin as a pickle.
    NoPickle,
    /// Its protocol is not read.
    Protocol { protocol: u8 },
    /// An opcode of its protocol is not read.
    Opcode { byte: u8, protocol: u8 },
    /// It ends before STOP, or inside an argument.
    CutOff,
    /// It is not a list of rows.
    NoRows,
    /// It takes from the memo what is not there.
    Memo,
    /// A text is not UTF-8.
    Text,
}

/// An example of bad input, and the address of the producer that sent it.
#[derive(Clone, Copy, Debug, PartialEq)]
pub struct BadExample {
    pub input: BadInput,
    pub from: IpAddr,
}

/// Adds the line for an example of a receiver of a name, as in `receiver line: bad line from 10.1.2.3: 4 fields`. It has
/// nothing of what was sent. Fails when out of memory; the text may have a part of the line then.
pub fn push_example_line(
    text: &mut String,
    name: &str,
    example: &BadExample,
) -> Result<(), AllocError>
    ensures { OnOk result
        (string_bytes text.new ≡ string_bytes text.old ++ example_line name.now example.now) }
{
    write!(
        text,
        "receiver {name}: {} from {}: ",
        kind_words(example.input),
        example.from
    )?;
    push_wrong(text, example.input)?;
    text.push('\n')
}

/// What is bad.
fn kind_words(input: BadInput) -> &'static str
    ensures { result.now ≡ kind_words input }
{
    match input {
        BadInput::Pickle { .. } => "bad pickle",
        BadInput::Row => "bad row",
        BadInput::NewName => "bad name",
        _ => "bad line",
    }
}

/// Adds what is wrong with it.
fn push_wrong(text: &mut String, input: BadInput) -> Result<(), AllocError>
    ensures { OnOk result (string_bytes text.new ≡ string_bytes text.old ++ wrong_words input) }
{
    match input {
        BadInput::Fields { count } => write!(text, "{count} field{}", plural(count)),
        BadInput::Name => text.push_str("not a metric name"),
        BadInput::Value => text.push_str("not a value"),
        BadInput::Time => text.push_str("not a time"),
        BadInput::Pickle { why } => push_pickle(text, why),
        BadInput::Row => text.push_str("not a datapoint"),
        BadInput::NewName => text.push_str("not a metric name after rewriting"),
    }
}

/// Adds why a pickle could not be read.
fn push_pickle(text: &mut String, why: BadPickle) -> Result<(), AllocError>
    ensures { OnOk result (string_bytes text.new ≡ string_bytes text.old ++ pickle_words why) }
{
    match why {
        BadPickle::Unknown => text.push_str("cannot be read"),
        BadPickle::NoPickle => text.push_str("not a pickle"),
        BadPickle::Protocol { protocol } => write!(text, "protocol {protocol}"),
        BadPickle::Opcode { byte, protocol } => push_opcode(text, byte, protocol),
        BadPickle::CutOff => text.push_str("ends too early"),
        BadPickle::NoRows => text.push_str("not a list of rows"),
        BadPickle::Memo => text.push_str("a memo entry that is not there"),
        BadPickle::Text => text.push_str("a text that is not UTF-8"),
    }
}

/// Adds an opcode as a character, as in `opcode 'L' of protocol 1`, or as a number if it is none that prints.
fn push_opcode(text: &mut String, byte: u8, protocol: u8) -> Result<(), AllocError>
    ensures { OnOk result (string_bytes text.new ≡ string_bytes text.old ++ opcode_words byte protocol) }
{
    if byte <= b' ' || 127 <= byte {
        write!(text, "opcode {byte} of protocol {protocol}")
    } else {
        push_quoted_opcode(text, byte, protocol)
    }
}

/// Adds an opcode as a character.
fn push_quoted_opcode(text: &mut String, byte: u8, protocol: u8) -> Result<(), AllocError>
    ensures { OnOk result (string_bytes text.new ≡ string_bytes text.old ++ quoted_words byte protocol) }
{
    text.push_str("opcode '")?;
    text.push(char::from(byte))?;
    write!(text, "' of protocol {protocol}")
}

/// When the log has written its last example of a receiver.
#[derive(Clone, Copy)]
pub struct LoggedExample {
    pub(crate) at: Option<u64>,
}

impl LoggedExample {
    /// It has written none.
    pub fn new() -> LoggedExample
        ensures { result.at ≡ None }
    {
        LoggedExample { at: None }
    }

    /// Returns whether a line is due at these milliseconds of a clock that never falls: an example is there, and the last
    /// line is a minute old, or there is none. If so, the caller writes the line.
    pub fn look(&mut self, is_there: bool, millis: u64) -> bool
        ensures due { result ≡ (is_there && is_minute_over self.old.at millis) }
        ensures logged { self.new ≡ example_logged_after self.old millis result }
    {
        if !is_there || !is_minute_over(self.at, millis) {
            return false;
        }
        self.at = Some(millis);
        true
    }
}

/// The place for one example. A receiver puts one there while it is empty; the thread that writes the log empties it.
#[derive(Drop)]
pub(crate) struct ExamplePlace {
    is_full: AtomicBool,
    // The number of what was wrong, and another one that belongs to it, as that of fields.
    input: AtomicU64,
    fields: AtomicU64,
    from: NotedAddress,
}

impl ExamplePlace {
    /// An empty place.
    pub(crate) fn new() -> ExamplePlace {
        ExamplePlace {
            is_full: AtomicBool::new(false),
            input: AtomicU64::new(0),
            fields: AtomicU64::new(0),
            from: NotedAddress::new(),
        }
    }

    /// Whether it is empty.
    pub(crate) fn is_empty(&self) -> bool {
        !self.is_full.load(Ordering::SeqCst)
    }

    /// Puts an example there, if it is empty. One thread alone does so.
    pub(crate) fn put(&self, example: &BadExample) {
        if !self.is_empty() {
            return;
        }
        let (input, fields) = code_of(example.input);
        self.input.store(input, Ordering::SeqCst);
        self.fields.store(fields, Ordering::SeqCst);
        self.from.store(example.from);
        self.is_full.store(true, Ordering::SeqCst);
    }

    /// The example that is there, if any. It stays.
    pub(crate) fn example(&self) -> Option<BadExample> {
        if self.is_empty() {
            return None;
        }
        Some(BadExample {
            input: input_of(
                self.input.load(Ordering::SeqCst),
                self.fields.load(Ordering::SeqCst),
            ),
            from: self.from.load(),
        })
    }

    /// Empties it.
    pub(crate) fn clear(&self) {
        self.is_full.store(false, Ordering::SeqCst);
    }
}

/// The number of what was wrong, and another one, as that of fields.
fn code_of(input: BadInput) -> (u64, u64) {
    match input {
        BadInput::Fields { count } => (0, count),
        BadInput::Name => (1, 0),
        BadInput::Value => (2, 0),
        BadInput::Time => (3, 0),
        BadInput::Row => (5, 0),
        BadInput::NewName => (6, 0),
        BadInput::Pickle { why } => pickle_code(why),
    }
}

/// The number of why a pickle could not be read, and another one: its protocol, and of an opcode 256 times its byte more.
fn pickle_code(why: BadPickle) -> (u64, u64) {
    match why {
        BadPickle::Unknown => (10, 0),
        BadPickle::NoPickle => (11, 0),
        BadPickle::Protocol { protocol } => (12, u64::from(protocol)),
        BadPickle::Opcode { byte, protocol } => {
            (13, u64::from(byte) * 256 + u64::from(protocol))
        }
        BadPickle::CutOff => (14, 0),
        BadPickle::NoRows => (15, 0),
        BadPickle::Memo => (16, 0),
        BadPickle::Text => (17, 0),
    }
}

/// What was wrong, by its number and the other one.
fn input_of(code: u64, fields: u64) -> BadInput {
    match code {
        0 => BadInput::Fields { count: fields },
        1 => BadInput::Name,
        2 => BadInput::Value,
        3 => BadInput::Time,
        5 => BadInput::Row,
        6 => BadInput::NewName,
        _ => BadInput::Pickle {
            why: pickle_of(code, fields),
        },
    }
}

/// Why a pickle could not be read, by its number and the other one.
fn pickle_of(code: u64, other: u64) -> BadPickle {
    let [_, _, _, _, _, _, byte, protocol] = other.to_be_bytes();
    match code {
        11 => BadPickle::NoPickle,
        12 => BadPickle::Protocol { protocol },
        13 => BadPickle::Opcode { byte, protocol },
        14 => BadPickle::CutOff,
        15 => BadPickle::NoRows,
        16 => BadPickle::Memo,
        17 => BadPickle::Text,
        _ => BadPickle::Unknown,
    }
}
