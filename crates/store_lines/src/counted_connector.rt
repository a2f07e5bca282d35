//! Connections that count the datapoints that they took.

ghost use Rattle.std.specs.Prelude.{◌≡◌, IfErr};

use mio_loops::{LeftWriter, ReadinessFault};
use relay_base::{DestId, MOST_DESTINATIONS};
use run_state::{BeginNote, EndState};
use senders::{Connect, HandOver, KeptSocket};
use spool::lines_in;
use std::io;
use std::io::Write;
use std::sync::atomic::{AtomicU64, Ordering};

/// Connects through another connector, and notes when the sender first connects or waits: it has begun then. Unless what is
/// queued at the end is lost, it counts for each destination the datapoints that its connections took to the last byte.
///
/// Once the receivers stop, a wait then reports all destinations as ready. The system reports a connection only when a third
/// of its buffer is free, and a drain is to see each datapoint that a slow store takes.
#[derive(Drop)]
pub(crate) struct CountedConnector<'c, 's, N> {
    connector: N,
    end: Option<&'c EndState>,
    note: BeginNote<'s>,
    all: [DestId; MOST_DESTINATIONS],
}

impl<'c, 's, N: Connect> CountedConnector<'c, 's, N> {
    /// Connects through `connector`, counts for this end, if there is one, and notes here that the sender has begun.
    pub(crate) fn new(
        connector: N,
        end: Option<&'c EndState>,
        note: BeginNote<'s>,
    ) -> CountedConnector<'c, 's, N> {
        CountedConnector {
            connector,
            end,
            note,
            all: all_destinations(),
        }
    }
}

impl<'c, 's, N: Connect> CountedConnector<'c, 's, N> {
    /// The counters of the destinations; none if what is queued at the end is lost.
    fn counters(&self) -> &'c [AtomicU64] {
        match self.end {
            Some(end) => end.taken(),
            None => &[],
        }
    }

    /// Waits once receiving is over, and then has each destination tried: the system reports a slow one late.
    fn wait_for_all(&mut self, millis: u64) -> Result<&[DestId], ReadinessFault>
        ensures device { IfErr result (λ fault. fault ≡ ReadinessFault.Device) }
    {
        let _ready = self.connector.wait(millis)?;
        let count = self.counters().len().min(MOST_DESTINATIONS);
        Ok(&self.all[..count])
    }
}

impl<'c, 's, N: Connect> Connect for CountedConnector<'c, 's, N> {
    type Sink = CountedSink<'c, N::Sink>;

    type Stores = N::Stores;

    fn stores(&mut self) -> &mut N::Stores {
        self.connector.stores()
    }

    fn wait(&mut self, millis: u64) -> Result<&[DestId], ReadinessFault> {
        self.note.note_wait();
        if self.note.is_receiving_over() {
            return self.wait_for_all(millis);
        }
        self.connector.wait(millis)
    }

    fn connect(&mut self, dest: DestId, millis: u64) -> Option<CountedSink<'c, N::Sink>> {
        // It may wait for a disk, and nobody is to wait for it meanwhile.
        self.note.note_wait();
        let sink = self.connector.connect(dest, millis)?;
        Some(CountedSink {
            sink,
            taken: self.counters().get(dest.0),
        })
    }

    fn has_closed(&self, dest: DestId) -> bool {
        self.connector.has_closed(dest)
    }

    fn take_back(&mut self, dest: DestId, sink: CountedSink<'c, N::Sink>) -> Option<KeptSocket> {
        self.connector.take_back(dest, sink.into_sink())
    }

    fn end(&mut self) {
        self.connector.end();
    }
}

impl<'c, 's, N: HandOver> HandOver for CountedConnector<'c, 's, N> {
    fn hands_over(&self) -> bool {
        self.connector.hands_over()
    }

    fn hand_over(&mut self, dest: DestId, left: LeftWriter<CountedSink<'c, N::Sink>>) {
        let LeftWriter { batch, sink } = left;
        let sink = match sink {
            Some(sink) => Some(sink.into_sink()),
            None => None,
        };
        self.connector.hand_over(dest, LeftWriter { batch, sink });
    }
}

/// The greatest number of destinations, in order.
fn all_destinations() -> [DestId; MOST_DESTINATIONS] {
    let mut all = [DestId(0); MOST_DESTINATIONS];
    for place in 0..MOST_DESTINATIONS {
        all[place] = DestId(place);
    }
    all
}

/// A connection that counts the datapoints that it took to the last byte, if there is a counter: each is a line, and its
/// last byte is the only byte 10.
#[derive(Drop)]
pub(crate) struct CountedSink<'c, W> {
    sink: W,
    taken: Option<&'c AtomicU64>,
}

impl<W> CountedSink<'_, W> {
    /// The connection alone.
    fn into_sink(self) -> W {
        let CountedSink { sink, taken: _ } = self;
        sink
    }
}

impl<W: Write> Write for CountedSink<'_, W> {
    fn write(&mut self, buf: &[u8]) -> io::Result<usize> {
        let result = self.sink.write(buf);
        if let (Ok(count), Some(taken)) = (&result, self.taken) {
            let (bytes, _) = buf.split_at(*count);
            let _before = taken.fetch_add(lines_in(bytes), Ordering::SeqCst);
        }
        result
    }

    fn flush(&mut self) -> io::Result<()> {
        self.sink.flush()
    }
}
