//! `relayd pass`: lines in, lines out.

ghost use Rattle.std.specs.Prelude.{◌≡◌, ◌≢◌, ℕ, List, [], ◌++◌, length, ◌<◌, true, Option, IfOk, IfErr, IfSome, IfNone, OnOk, MatchOption};
ghost use Rattle.std.specs.Io.KnownBytes.{Appends, Keeps, IsAtEnd};
ghost use Rattle.line_text.specs.Reader.{Represents, GivesNoMore, is_too_long};
ghost use Rattle.line_text.specs.Connection.{arrivals};
ghost use Rattle.relay_files.specs.Output.{GrowsByPart};
ghost use Rattle.pass_lines.specs.Pass.{pass_text, notes_text, note_of_end, too_long_note, bad_lines_note, IsPassFault, HasPassed};

use crate::relay::Relay;
use itoa::Buffer;
use line_text::{FeedEnd, Moment, NoMemory, laws};
use relay_files::{OutputFailed, PIECE, RelayFault, Status, flush, read_piece, write_all};
use std::alloc::Global;
use std::io::{Read, Write};

/// Reads `input` as one connection of lines, all of one moment, and writes the line of each datapoint to
/// `output`, in order, through a queue of one. Then `notes` gets the line `line too long` if a long line closed
/// the connection, and the line `bad lines n` if n lines were bad and n is not 0.
///
/// The output is flushed before each read and at the end. Reads and writes that are interrupted or would block
/// are repeated. Returns `Input` if a read failed, `Output` if a write or a flush failed, of the notes too, and
/// `NoMemory` if a growth was refused; the output then has a first part of its lines. The reads are counted, and
/// for each line its drives of at most 16 writes; one more than 18,446,744,073,709,551,615 is a failure.
pub fn pass<R: Read, W: Write, N: Write>(
    alloc: Global,
    input: &mut R,
    output: &mut W,
    notes: &mut N,
    moment: Moment,
) -> Result<Status, RelayFault>
    ensures status { IfOk result (λ status. status ≡ Status.Done) }
    ensures fault { IfErr result IsPassFault }

    // For streams whose bytes a contract can name: at the end the output has gained the lines of all datapoints,
    // and `notes` all notes.
    ensures output { OnOk result (IfSome (R.remaining input.old)
        (λ bytes. Appends (W.contents output.old) (W.contents output.new)
        (pass_text bytes moment))) }
    ensures notes { OnOk result (IfSome (R.remaining input.old)
        (λ bytes. Appends (N.contents notes.old) (N.contents notes.new)
        (notes_text bytes moment))) }

    // At any end each has gained a first part of that; after a fault other than `Output`, `notes` has gained nothing.
    ensures part { IfSome (R.remaining input.old)
        (λ bytes. GrowsByPart (W.contents output.old) (W.contents output.new)
        (pass_text bytes moment)) }
    ensures notes_part { IfSome (R.remaining input.old)
        (λ bytes. GrowsByPart (N.contents notes.old) (N.contents notes.new)
        (notes_text bytes moment)) }
    ensures no_notes { IfErr result (λ fault. fault ≢ RelayFault.Output
        → Keeps (N.contents notes.old) (N.contents notes.new)) }
{
    let mut piece = vec![in alloc; 0u8; PIECE].map_err(|_| NoMemory)?;
    let mut relay = Relay::new(alloc)?;
    let ended = pass_pieces(&mut relay, &mut piece, input, output, moment);
    drop((relay, piece));
    let ended = ended?;
    flush(output)?;
    write_notes(notes, ended)?;
    Ok(Status::Done)
}

/// How a connection ended.
#[derive(Clone, Copy)]
struct Ended {
    too_long: bool,
    bad_lines: u64,
}

impl Ended {
    /// The end of the connection that a relay has read, with whether a line was too long.
    fn of(relay: &Relay, too_long: bool) -> Ended
        ensures too_long { result.too_long ≡ too_long }
        ensures bad_lines { result.bad_lines ≡ relay.now.reader.bad }
    {
        Ended {
            too_long,
            bad_lines: relay.bad_lines(),
        }
    }
}

/// Writes the lines of the input through a relay that has read nothing, piece by piece; `piece` is the buffer of a read.
fn pass_pieces<R: Read, W: Write>(
    relay: &mut Relay,
    piece: &mut [u8],
    input: &mut R,
    output: &mut W,
    moment: Moment,
) -> Result<Ended, RelayFault>
    requires nothing_came { Represents relay.old.reader [] }
    requires room { 0 < length piece.old }
    ensures output { OnOk result (IfSome (R.remaining input.old)
        (λ bytes. Appends (W.contents output.old) (W.contents output.new)
        (pass_text bytes moment))) }
    ensures ended { IfOk result (λ ended. IfSome (R.remaining input.old)
        (λ bytes. note_of_end ended.too_long ended.bad_lines ≡ notes_text bytes moment)) }
    ensures part { IfSome (R.remaining input.old)
        (λ bytes. GrowsByPart (W.contents output.old) (W.contents output.new)
        (pass_text bytes moment)) }
    ensures fault { IfErr result IsPassFault }
{
    // No effect at run time: the proof reads the law.
    laws::accepted_grows();
    for _turn in 0..u64::MAX {
        let Some(end) = pass_piece(relay, piece, input, output, moment)? else {
            return Ok(Ended::of(relay, false));
        };
        match end {
            FeedEnd::Open => {}
            FeedEnd::LineTooLong => {
                return Ok(Ended::of(relay, true));
            }
        }
    }
    Err(RelayFault::Input)
}

/// Flushes the output, makes one read, and writes the lines that it completes. Returns whether the connection is
/// open then, or `None` at the end of the input.
fn pass_piece<R: Read, W: Write>(
    relay: &mut Relay,
    piece: &mut [u8],
    input: &mut R,
    output: &mut W,
    moment: Moment,
) -> Result<Option<FeedEnd>, RelayFault>
    requires { 0 < length piece.old }
    ensures passes { IfOk result (λ turn. (r w : Option (List ℕ)) (before : List ℕ)
        → HasPassed r (R.remaining input.old) w
        (W.contents output.old) relay.old.reader moment before
        → (after : List ℕ) × HasPassed r (R.remaining input.new) w
        (W.contents output.new) relay.new.reader moment after
        × IfSome turn (λ end. is_too_long end ≡ true → GivesNoMore (arrivals after moment))) }
    ensures closed { IfOk result (λ turn. MatchOption turn (relay.new ≡ relay.old)
        (λ end. is_too_long end ≡ relay.new.reader.closed)) }
    ensures at_end { IfOk result (λ turn. IfNone turn (IsAtEnd (R.remaining input.new))) }
    ensures part { (r w : Option (List ℕ)) (before : List ℕ)
        → HasPassed r (R.remaining input.old) w
        (W.contents output.old) relay.old.reader moment before
        → IfSome r (λ all. GrowsByPart w (W.contents output.new) (pass_text all moment)) }
    ensures fault { IfErr result IsPassFault }
{
    // No effect at run time: the proof reads the law.
    laws::accepted_grows();
    flush(output)?;
    let count = read_piece(input, piece)?;
    if count == 0 {
        return Ok(None);
    }
    let (given, _) = piece.split_at(count);
    Ok(Some(relay.take(given, moment, output)?))
}

/// Writes the notes of a connection.
fn write_notes<N: Write>(notes: &mut N, ended: Ended) -> Result<(), OutputFailed>
    ensures ok { OnOk result (Appends (N.contents notes.old) (N.contents notes.new)
        (note_of_end ended.too_long ended.bad_lines)) }
    ensures part { GrowsByPart (N.contents notes.old) (N.contents notes.new)
        (note_of_end ended.too_long ended.bad_lines) }
{
    write_too_long(notes, ended.too_long)?;
    write_bad_lines(notes, ended.bad_lines)
}

/// Writes the note that a line was too long, if one was.
fn write_too_long<N: Write>(notes: &mut N, too_long: bool) -> Result<(), OutputFailed>
    ensures ok { OnOk result
        (Appends (N.contents notes.old) (N.contents notes.new) (too_long_note too_long)) }
    ensures part { GrowsByPart (N.contents notes.old) (N.contents notes.new)
        (too_long_note too_long) }
{
    let note = if too_long { "line too long\n" } else { "" };
    write_all(notes, note.as_bytes())
}

/// Writes the note of how many lines were bad, if any were.
fn write_bad_lines<N: Write>(notes: &mut N, count: u64) -> Result<(), OutputFailed>
    ensures ok { OnOk result
        (Appends (N.contents notes.old) (N.contents notes.new) (bad_lines_note count)) }
    ensures part { GrowsByPart (N.contents notes.old) (N.contents notes.new)
        (bad_lines_note count) }
{
    if count == 0 {
        return write_all(notes, b"");
    }
    write_three(
        notes,
        b"bad lines ",
        Buffer::new().format(count).as_bytes(),
        b"\n",
    )
}

/// Writes three texts, one after another.
fn write_three<N: Write>(
    notes: &mut N,
    first: &[u8],
    second: &[u8],
    third: &[u8],
) -> Result<(), OutputFailed>
    ensures ok { OnOk result (Appends (N.contents notes.old) (N.contents notes.new)
        (first.now ++ (second.now ++ third.now))) }
    ensures part { GrowsByPart (N.contents notes.old) (N.contents notes.new)
        (first.now ++ (second.now ++ third.now)) }
{
    write_all(notes, first)?;
    write_all(notes, second)?;
    write_all(notes, third)
}
