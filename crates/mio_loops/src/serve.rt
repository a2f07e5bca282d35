//! One connection is served.
ghost use Rattle.std.specs.Prelude.{◌≡◌, ◌≢◌, ◌⊎◌, ◌+◌, ◌<◌, ◌≤◌, List, [], length, true, false, IfSome, IfNone, Some, None};
ghost use Rattle.std.specs.Io.KnownBytes.{IsAtEnd};
ghost use Rattle.dest_writer.specs.Counting.{Rose, counts_of, stream_of, raised_by, outcome_of_kind};
ghost use Rattle.reader_core.specs.Configuration.{Dispatch};
ghost use Rattle.reader_core.specs.Entries.{InputEntry};
ghost use Rattle.reader_core.specs.Reader.{is_closed};
ghost use Rattle.queue_records.specs.Offers.{IsRefusedBy};
ghost use Rattle.mio_loops.specs.Reading.{ReaderProgress, AreMadeOrRefused};
ghost use Rattle.mio_loops.specs.Serving.{ConnectionServed, WasRead, IsFedAs, are_reads, fits_last, served_of, served_after, stays, with_end};

use crate::input_log::InputLog;
use crate::offers::make_offers;
use crate::read_room::ReadRoom;
use crate::reader_turn::ReaderTurn;
use crate::served::Served;
use dest_writer::Counting;
use line_text::Moment;
use queue_records::Door;
use reader_core::Reader;
use router::Plan;
use std::io::{ErrorKind, Read};

/// The greatest number of reads that one turn makes of a connection.
pub const MOST_READS: usize = 16;

/// The greatest number of bytes that one read gives.
pub const MOST_READ: usize = 4_096;

/// Serves a connection: makes the offers that wait, and then at most [`MOST_READS`] reads. Each piece is fed,
/// and all its offers are made, before the next read. If the connection leaves, its reader has ended.
pub(crate) fn serve<S: Read, D: Door>(
    source: &mut Counting<S>,
    room: &mut ReadRoom,
    reader: &mut Reader,
    turn: ReaderTurn,
    plan: &mut Plan,
    door: &mut D,
) -> Served
    requires room { length room.old.buffer.items ≡ MOST_READ }
    requires open { is_closed reader.old ≡ false }
    requires dests { plan.old.destinations ≤ length (D.record_of door.old).totals }
    ensures went { (pieces : List InputEntry) × (made : List Dispatch)
        × ReaderProgress plan.old turn.number (with_end result pieces) made reader.old reader.new
        (D.record_of door.old) (D.record_of door.new) room.old.log room.new.log
        × ConnectionServed S.remaining plan.old turn.moment result pieces made (Some reader.old)
        reader.new.waiting source.old source.new }
    ensures waits { AreMadeOrRefused (IsRefusedBy D.may_refuse turn.number) plan.old.destinations
        reader.new.waiting }
    ensures open { is_closed reader.new ≡ false }
    ensures room { length room.new.buffer.items ≡ MOST_READ }
    ensures dests { plan.old.destinations ≤ length (D.record_of door.new).totals }
    ensures plan { plan.new ≡ plan.old }
{
    let number = turn.number;
    let served = serve_reads(source, room, reader, turn, plan, door);
    if stays(served) {
        return served;
    }
    reader.end();
    room.log.end(number);
    served
}

/// [`serve`] without the end of the reader.
fn serve_reads<S: Read, D: Door>(
    source: &mut Counting<S>,
    room: &mut ReadRoom,
    reader: &mut Reader,
    turn: ReaderTurn,
    plan: &mut Plan,
    door: &mut D,
) -> Served
    requires room { length room.old.buffer.items ≡ MOST_READ }
    requires open { is_closed reader.old ≡ false }
    requires dests { plan.old.destinations ≤ length (D.record_of door.old).totals }
    ensures went { (pieces : List InputEntry) × (made : List Dispatch)
        × ReaderProgress plan.old turn.number pieces made reader.old reader.new
        (D.record_of door.old) (D.record_of door.new) room.old.log room.new.log
        × ConnectionServed S.remaining plan.old turn.moment result pieces made (Some reader.old)
        reader.new.waiting source.old source.new }
    ensures waits { AreMadeOrRefused (IsRefusedBy D.may_refuse turn.number) plan.old.destinations
        reader.new.waiting }
    ensures open { stays result ≡ true → is_closed reader.new ≡ false }
    ensures room { length room.new.buffer.items ≡ MOST_READ }
    ensures dests { plan.old.destinations ≤ length (D.record_of door.new).totals }
    ensures plan { plan.new ≡ plan.old }
{
    // No effect at run time: the proof reads the law.
    reader_core::laws::closed_as_read();
    let ReaderTurn { number, moment } = turn;
    if !make_offers(reader, number, plan.destinations(), door) {
        return Served::Refused;
    }
    for _ in 0..MOST_READS {
        let turn = ReaderTurn { number, moment };
        match read_once(source, room, reader, turn, plan, door) {
            None => {}
            Some(served) => return served,
        }
    }
    Served::Again
}

/// Makes one read of a connection, feeds its piece, and makes its offers. Returns how the connection is served,
/// if no further read is to be made.
fn read_once<S: Read, D: Door>(
    source: &mut Counting<S>,
    room: &mut ReadRoom,
    reader: &mut Reader,
    turn: ReaderTurn,
    plan: &mut Plan,
    door: &mut D,
) -> Option<Served>
    requires room { length room.old.buffer.items ≡ MOST_READ }
    requires nothing_waits { reader.old.waiting ≡ [] }
    requires open { is_closed reader.old ≡ false }
    requires dests { plan.old.destinations ≤ length (D.record_of door.old).totals }
    ensures went { (pieces : List InputEntry) × (made : List Dispatch)
        × ReaderProgress plan.old turn.number pieces made reader.old reader.new
        (D.record_of door.old) (D.record_of door.new) room.old.log room.new.log
        × WasRead (S.remaining (stream_of source.old)) (S.remaining (stream_of source.new)) pieces
        (served_of result)
        × (are_reads turn.moment pieces ≡ true) }
    ensures waits { AreMadeOrRefused (IsRefusedBy D.may_refuse turn.number) plan.old.destinations
        reader.new.waiting }
    ensures stays { stays (served_of result) ≡ true → is_closed reader.new ≡ false }
    ensures ended { served_of result ≡ Served.Ended
        → IsAtEnd (S.remaining (stream_of source.new)) ⊎ (is_closed reader.new ≡ true) }
    ensures offered { served_of result ≢ Served.Refused → reader.new.waiting ≡ [] }
    ensures refused { served_of result ≡ Served.Refused → 0 < length reader.new.waiting }
    ensures calls { (counts_of source.new).calls ≡ raised_by 1 (counts_of source.old).calls }
    ensures not_again { IfSome result (λ served. served ≢ Served.Again) }
    ensures outcome { fits_last (served_of result) (counts_of source.new).last ≡ true }
    ensures not_failed { served_of result ≢ Served.Failed
        → (counts_of source.new).failures ≡ (counts_of source.old).failures }
    ensures failed { served_of result ≡ Served.Failed
        → Rose (counts_of source.old).failures (counts_of source.new).failures }
    ensures room { length room.new.buffer.items ≡ MOST_READ }
    ensures dests { plan.old.destinations ≤ length (D.record_of door.new).totals }
    ensures plan { plan.new ≡ plan.old }
{
    let ReaderTurn { number, moment } = turn;
    let buffer = room.buffer.as_mut_slice();
    match source.read(buffer) {
        Ok(0) => Some(Served::Ended),
        Ok(count) => {
            let (piece, _) = buffer.split_at(count);
            let log = &mut room.log;
            feed_piece(reader, number, plan, door, log, piece, moment)
        }
        Err(error) => served_after(error.kind()),
    }
}

/// Feeds a piece to a reader with no offers waiting, and makes its offers. Returns how the connection leaves,
/// if it does.
pub fn feed_piece<D: Door>(
    reader: &mut Reader,
    number: usize,
    plan: &mut Plan,
    door: &mut D,
    log: &mut InputLog,
    piece: &[u8],
    moment: Moment,
) -> Option<Served>
    requires nothing_waits { reader.old.waiting ≡ [] }
    requires open { is_closed reader.old ≡ false }
    requires dests { plan.old.destinations ≤ length (D.record_of door.old).totals }
    ensures went { (pieces : List InputEntry) × (made : List Dispatch)
        × ReaderProgress plan.old number pieces made reader.old reader.new
        (D.record_of door.old) (D.record_of door.new) log.old log.new
        × IsFedAs piece.now moment pieces result }
    ensures waits { AreMadeOrRefused (IsRefusedBy D.may_refuse number) plan.old.destinations
        reader.new.waiting }
    ensures stays { stays (served_of result) ≡ true → is_closed reader.new ≡ false }
    ensures ended { served_of result ≡ Served.Ended → is_closed reader.new ≡ true }
    ensures offered { served_of result ≢ Served.Refused → reader.new.waiting ≡ [] }
    ensures refused { served_of result ≡ Served.Refused → 0 < length reader.new.waiting }
    ensures dests { plan.old.destinations ≤ length (D.record_of door.new).totals }
    ensures plan { plan.new ≡ plan.old }
{
    // No effect at run time: the proof reads the laws.
    reader_core::laws::configuration_of_plan();
    reader_core::laws::closed_as_read();
    let Ok(_end) = reader.feed(plan, piece, moment) else {
        return Some(Served::Starved);
    };
    log.piece(number, piece, moment);
    if !make_offers(reader, number, plan.destinations(), door) {
        return Some(Served::Refused);
    }
    if reader.is_closed() {
        return Some(Served::Ended);
    }
    None
}

/// How a connection is served after a read with an error of this kind.
fn served_after(kind: ErrorKind) -> Option<Served>
    ensures { result ≡ served_after (outcome_of_kind kind) }
{
    match kind {
        ErrorKind::WouldBlock => Some(Served::Drained),
        ErrorKind::Interrupted => None,
        _ => Some(Served::Failed),
    }
}

/// Whether the connection stays.
pub(crate) fn stays(served: Served) -> bool
    ensures { result ≡ stays served }
{
    matches!(served, Served::Drained | Served::Again)
}
