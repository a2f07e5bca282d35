//! One turn of one destination.
ghost use Rattle.std.specs.Prelude.{◌≡◌, ℕ, ◌≤◌, ◌-◌, [], ◌∷◌, true, false, List, Option};
ghost use Rattle.line_text.specs.Datapoint.{Datapoint};
ghost use Rattle.dest_writer.specs.Counting.{stream_of, counts_of};
ghost use Rattle.dest_writer.specs.Writer.{left};
ghost use Rattle.queue_records.specs.Takes.{TakesMade, IsHandedBy};
ghost use Rattle.mio_loops.specs.OutgoingState.{IsSoundOutgoing};
ghost use Rattle.mio_loops.specs.WriterSteps.{DownStep, LeadTo, HoldsOnlyUnwritten};
ghost use Rattle.mio_loops.specs.WriteServe.{Moved, IsHanded, IsServed, EndsAs, steps_of_batch, steps_of_write, is_failed};

use crate::logged_writer::LoggedWriter;
use crate::write_log::{WriteLog, WriterEntry};
use dest_queue::Hand;
use dest_writer::{Counting, DriveReport, Driven, GatherBuf, Writer};
use queue_records::Supply;
use relay_base::{DestId, LARGEST_MESSAGE};
use std::io::Write;

/// Takes a batch, if one is wanted, and drives the writer once. A connection that failed goes down.
/// The log keeps each step, while there is room.
pub(crate) fn serve_connection<W: Write, S: Supply>(
    dest: DestId,
    logged: &mut LoggedWriter,
    sink: &mut Counting<W>,
    gathered: &mut GatherBuf,
    supply: &mut S,
) -> Driven
    requires up { logged.old.writer.writer.up ≡ true }
    requires owned { S.is_owned supply.old dest.0 ≡ true }
    requires sound { IsSoundOutgoing logged.old.limit logged.old.writer logged.old.hand }
    ensures served { (moved : Moved)
        × IsServed (IsHandedBy S.record_of S.may_hand) dest.0 logged.old.limit moved result
        (record {
          writer = logged.old.writer.writer;
          log = logged.old.log;
          made = S.record_of supply.old;
          reported = W.contents (stream_of sink.old);
        })
        (record {
          writer = logged.new.writer.writer;
          log = logged.new.log;
          made = S.record_of supply.new;
          reported = W.contents (stream_of sink.new);
        })
        (counts_of sink.old) (counts_of sink.new) }
    ensures up { is_failed result ≡ true → logged.new.writer.writer.up ≡ false }
    ensures stays { is_failed result ≡ false → logged.new.writer.writer.up ≡ true }
    ensures limit { logged.new.limit ≡ logged.old.limit }
    ensures sound { IsSoundOutgoing logged.new.limit logged.new.writer logged.new.hand }
    ensures owners { (dest : ℕ) → S.is_owned supply.new dest ≡ S.is_owned supply.old dest }
{
    let limit = logged.limit;
    let writer = &mut logged.writer;
    let log = &mut logged.log;
    let hand = &mut logged.hand;
    take_batch(dest, limit, writer, log, hand, supply);
    let report = drive_connection(writer, gathered, sink, log);
    if is_failed(report.driven) {
        lose_connection(writer, log);
    }
    report.driven
}

/// Takes a batch in hand, if one is wanted and the queue has some datapoints.
fn take_batch<S: Supply>(
    dest: DestId,
    limit: usize,
    writer: &mut Writer,
    log: &mut WriteLog,
    hand: &mut Hand,
    supply: &mut S,
)
    requires owned { S.is_owned supply.old dest.0 ≡ true }
    requires limit { (1 ≤ limit) × (limit ≤ LARGEST_MESSAGE) }
    requires fits { writer.old.limit ≡ limit }
    requires empty { hand.old.points ≡ [] }
    requires room { limit ≤ hand.old.room }
    ensures took { (batch : List Datapoint)
        × IsHanded (IsHandedBy S.record_of S.may_hand) (S.record_of supply.old) dest.0 limit batch
        × ((reported : Option (List ℕ)) → LeadTo dest.0 (steps_of_batch limit batch)
        (record {
          writer = writer.old.writer;
          log = log.old;
          made = S.record_of supply.old;
          reported = reported;
        })
        (record {
          writer = writer.new.writer;
          log = log.new;
          made = S.record_of supply.new;
          reported = reported;
        })) }
    ensures up { writer.new.writer.up ≡ writer.old.writer.up }
    ensures limit { writer.new.limit ≡ writer.old.limit }
    ensures emptied { hand.new.points ≡ [] }
    ensures room { hand.new.room ≡ hand.old.room }
    ensures owners { (dest : ℕ) → S.is_owned supply.new dest ≡ S.is_owned supply.old dest }
{
    if !writer.wants_batch() {
        return;
    }
    let taken = supply.take(dest, limit, hand);
    if taken > 0 {
        writer.fill(hand);
        log.add(WriterEntry::Take {
            limit: limit as u16,
            taken: taken as u16,
        });
    }
}

/// Drives the writer once, many lines a write.
fn drive_connection<W: Write>(
    writer: &mut Writer,
    gathered: &mut GatherBuf,
    sink: &mut Counting<W>,
    log: &mut WriteLog,
) -> DriveReport
    requires up { writer.old.writer.up ≡ true }
    requires unwritten { HoldsOnlyUnwritten writer.old.writer }
    ensures wrote { (dest : ℕ) (made : TakesMade)
        → LeadTo dest (steps_of_write result.wrote)
        (record {
          writer = writer.old.writer;
          log = log.old;
          made = made;
          reported = W.contents (stream_of sink.old);
        })
        (record {
          writer = writer.new.writer;
          log = log.new;
          made = made;
          reported = W.contents (stream_of sink.new);
        }) }
    ensures ends { EndsAs result.driven (left writer.new.writer) (counts_of sink.old)
        (counts_of sink.new) }
    ensures up { writer.new.writer.up ≡ true }
    ensures limit { writer.new.limit ≡ writer.old.limit }
{
    let report = writer.drive_gathered(gathered, sink);
    if report.wrote > 0 {
        log.add(WriterEntry::Wrote {
            count: report.wrote,
        });
    }
    report
}

/// The connection goes down.
fn lose_connection(writer: &mut Writer, log: &mut WriteLog)
    requires up { writer.old.writer.up ≡ true }
    ensures lost { (dest : ℕ) (made : TakesMade) (reported : Option (List ℕ))
        → LeadTo dest (DownStep ∷ [])
        (record { writer = writer.old.writer; log = log.old; made = made; reported = reported })
        (record { writer = writer.new.writer; log = log.new; made = made; reported = reported }) }
    ensures down { writer.new.writer.up ≡ false }
    ensures limit { writer.new.limit ≡ writer.old.limit }
{
    let _ = writer.down();
    log.add(WriterEntry::Down);
}

pub(crate) fn is_failed(driven: Driven) -> bool
    ensures { result ≡ is_failed driven }
{
    matches!(driven, Driven::Failed)
}
