//! The reader of a receiver of datagrams, and what it works with.
ghost use Rattle.std.specs.Prelude.{◌≡◌, ◌*◌, ◌<◌, [], ◌∷◌, false, IfOk};
ghost use Rattle.reader_counts.specs.Counts.{totals_of};
ghost use Rattle.router.specs.Plan.{Plan as PlanValue};
ghost use Rattle.reader_core.specs.Input.{fresh_input};
ghost use Rattle.reader_core.specs.Reader.{Represents};
ghost use Rattle.reader_core.specs.declared.kind.ReaderKind.TheVariants.{Datagram};
ghost use Rattle.queue_records.specs.Offers.{IsRefusedBy};
ghost use Rattle.receivers.specs.Datagrams.{DatagramsProgress, IsReady, is_at};
ghost use Rattle.receivers.specs.Record.{begun_log};

use crate::bad_input::has_more;
use crate::datagrams::Datagrams;
use crate::input_counts::InputCounts;
use line_text::Moment;
use mio_loops::{InputLog, ReadTotals, Served, feed_piece, make_offers};
use queue_records::{Door, MOST_RECEIVERS, READERS_EACH};
use reader_core::{Reader, ReaderKind};
use relay_base::NoMemory;
use router::Plan;
use std::alloc::Global;
use std::io::ErrorKind;

/// The greatest number of datagrams that are taken in one turn, all of one moment.
pub const MOST_DATAGRAMS: usize = 64;

/// The greatest number of bytes of a datagram that is fed. Over IPv6 longer ones may arrive: they are dropped whole.
pub const MOST_DATAGRAM: usize = 65_507;

/// The room for a datagram: a longer one fills it.
const DATAGRAM_ROOM: usize = MOST_DATAGRAM + 1;

/// The outcome of a try to take a datagram.
#[derive(Clone, Copy)]
pub(crate) enum DatagramOutcome {
    /// A datagram was fed or dropped, or the try was interrupted. There may be more.
    Fed,
    /// There was none.
    Drained,
    /// An offer was refused.
    Refused,
    /// The socket failed.
    Failed,
}

/// The one reader of a receiver of datagrams, under its number, with the log of what it was fed and the room for
/// a datagram.
#[derive(Drop)]
pub(crate) struct DatagramLoop {
    number: usize,
    reader: Reader,
    log: InputLog,
    buffer: Vec<u8>,
}

impl DatagramLoop {
    /// The loop of a receiver, which is below [`MOST_RECEIVERS`]. Its reader is the first one of the receiver's
    /// number, and was fed nothing. Answers `NoMemory` when out of memory.
    pub(crate) fn new(alloc: Global, receiver: usize) -> Result<DatagramLoop, NoMemory>
        requires receiver { receiver < MOST_RECEIVERS }
        ensures number { IfOk result (λ loop. loop.number ≡ READERS_EACH * receiver) }
        ensures fresh { IfOk result (λ loop. (plan : PlanValue)
            → Represents loop.reader Datagram plan (fresh_input Datagram) []) }
        ensures log { IfOk result (λ loop. loop.log ≡ begun_log false) }
    {
        let log = InputLog::new(alloc)?;
        let buffer = vec![in alloc; 0; DATAGRAM_ROOM]?;
        Ok(DatagramLoop {
            number: READERS_EACH * receiver,
            reader: Reader::new(alloc, ReaderKind::Datagram),
            log,
            buffer,
        })
    }

    /// Makes the offers that wait, takes one datagram, feeds it, and makes its offers.
    pub(crate) fn receive_one<A: Datagrams, D: Door>(
        &mut self,
        socket: &mut A,
        plan: &mut Plan,
        door: &mut D,
        moment: Moment,
    ) -> DatagramOutcome
        requires { IsReady plan.old self.old (D.record_of door.old) }
        ensures { DatagramsProgress (IsRefusedBy D.may_refuse) (is_at moment) plan.old plan.new self.old self.new
            (D.record_of door.old) (D.record_of door.new) }
    {
        // No effect at run time: the proof reads the law.
        reader_core::laws::closed_as_read();
        let number = self.number;
        let reader = &mut self.reader;
        if !make_offers(reader, number, plan.destinations(), door) {
            return DatagramOutcome::Refused;
        }
        let buffer = self.buffer.as_mut_slice();
        match socket.receive(buffer) {
            Ok(count) => {
                let (datagram, _) = buffer.split_at(count);
                let log = &mut self.log;
                let before = counts_of(reader, plan);
                let fed = feed_piece(reader, number, plan, door, log, datagram, moment);
                note_served(socket, before, counts_of(reader, plan), datagram);
                received_of(fed)
            }
            Err(error) => received_after(error.kind()),
        }
    }

    /// What the reader has counted. There are no connections.
    pub(crate) fn totals(&self) -> ReadTotals
        ensures { result ≡ record {
          readers = totals_of (self.now.reader.totals ∷ []);
          connections = 0;
        } }
    {
        ReadTotals::new(0).with(&self.reader)
    }

    /// Ends the loop, and returns what the reader was fed.
    pub(crate) fn close(self) -> InputLog
        ensures { result ≡ self.log }
    {
        self.log
    }
}

/// What the reader has counted by now.
fn counts_of(reader: &Reader, plan: &Plan) -> InputCounts {
    InputCounts {
        totals: reader.totals(),
        emptied: plan.emptied(),
    }
}

/// Tells the socket what a datagram held, and whether that was bad: its reader had counted this before and counts that now.
fn note_served<A: Datagrams>(
    socket: &mut A,
    before: InputCounts,
    now: InputCounts,
    datagram: &[u8],
) {
    socket.note_served(now.since(&before));
    let faults = now.faults_since(&before);
    if has_more(before.totals.faults, faults) {
        socket.note_bad(before.totals.faults, faults, datagram);
    }
}

/// The outcome of a datagram, by the answer to its feed.
fn received_of(fed: Option<Served>) -> DatagramOutcome {
    match fed {
        Some(Served::Refused) => DatagramOutcome::Refused,
        _ => DatagramOutcome::Fed,
    }
}

/// The outcome of a try with an error of this kind.
fn received_after(kind: ErrorKind) -> DatagramOutcome {
    match kind {
        ErrorKind::WouldBlock => DatagramOutcome::Drained,
        ErrorKind::Interrupted => DatagramOutcome::Fed,
        _ => DatagramOutcome::Failed,
    }
}
