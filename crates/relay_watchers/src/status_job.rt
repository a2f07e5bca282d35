//! The work of the status server's thread.

ghost use Rattle.std.specs.Prelude.{◌≡◌, ◌↔◌, ◌<◌, length, IsSome};

use crate::dest_track::{DestTrack, FileLook};
use crate::process::SystemFacts;
use crate::receiver_log::WatchedReceiver;
use crate::status_history::{CountedReceiver, NO_RATES, SAMPLE_SECONDS, StatusHistory, Totals};
use conf_text::Dest;
use dest_queue::Counts;
use locked_queues::{Queues, Set};
use log_lines::DestWrites;
use md5::DIGEST_LEN;
use mio_loops::{SystemTimes, TimeSource};
use relay_base::DestId;
use run_state::{DestSources, Signals, ThreadWork};
use spool::{Waiting, clock_seconds};
use status_page::{
    ConnectionCounts, DestSnapshot, ReceiverSnapshot, Snapshot, SpoolSnapshot, WatchedAt,
    push_json, push_metrics, push_page,
};
use status_server::{Page, StatusListener, StatusTexts};
use std::alloc::{AllocError, Global};
use std::hash::RandomState;
use std::random::RandomSource;
use std::rt::Clock;
use std::sync::Wait;
use std::time::Instant;

/// How many milliseconds a turn waits at most for a connection: so late the thread sees that it is to stop.
const MOST_WAIT_MS: u64 = 20;

/// How many milliseconds the thread sleeps before it asks again for random keys.
const KEYS_PAUSE_MS: u64 = 1_000;

/// How many bytes of the configuration's checksum the status shows, each in two digits.
const SUM_BYTES: usize = 6;

/// What the status shows: these destinations, all of them, with this size of their queues, and these receivers; the version
/// of the program, the checksum of its configuration, and how datapoints are watched.
#[derive(Drop)]
pub(crate) struct StatusWatch<'x, B: Set> {
    pub(crate) queues: &'x Queues<B>,
    pub(crate) noted: DestSources<'x>,
    pub(crate) size: usize,
    pub(crate) receivers: Vec<WatchedReceiver>,
    pub(crate) version: &'static str,
    pub(crate) configuration: [u8; DIGEST_LEN],
    pub(crate) watched_at: WatchedAt,
    ghost all: { length noted.dests.now ≡ B.dests },
}

impl<'x, B: Set> StatusWatch<'x, B> {
    /// What the queues of a destination, which exists, have counted in all runs.
    fn counts_at<R: Wait>(&self, rt: &R, place: usize) -> Counts
        requires place { place < length self.now.noted.dests.now }
    {
        self.noted
            .counts_at(place, self.queues.counts(rt, DestId(place)))
    }

    /// The counts of all.
    fn totals<R: Wait>(&self, rt: &R, alloc: Global) -> Result<Totals, AllocError> {
        let mut totals = Totals {
            queues: Vec::new(alloc),
            dests: Vec::new(alloc),
            files: Vec::new(alloc),
            receivers: Vec::new(alloc),
        };
        for place in 0..self.noted.dests.len() {
            let counts = self.counts_at(rt, place);
            totals.queues.push(counts)?;
            totals.files.push(FileLook {
                passed: self.noted.passed_at(place),
                bytes: self.noted.waiting_at(place).bytes,
            })?;
            if let Some(notes) = self.noted.notes.get(place) {
                totals.dests.push(notes.status(counts.dropped, true))?;
            }
        }
        for receiver in self.receivers.as_slice() {
            totals.receivers.push(CountedReceiver {
                place: receiver.place(),
                counts: receiver.counts(),
            })?;
        }
        Ok(totals)
    }

    /// Has the history see what producers have sent.
    fn take_producers(&self, history: &mut StatusHistory, millis: u64) {
        for receiver in self.receivers.as_slice() {
            if let Some(window) = receiver.take_producers() {
                history.put_producers(receiver.place(), window, millis);
            }
        }
    }

    /// The state of a destination, which exists.
    fn dest_at<R: Wait>(
        &self,
        rt: &R,
        history: &StatusHistory,
        place: usize,
        times: &ViewTimes,
    ) -> Result<DestSnapshot, AllocError>
        requires place { place < length self.now.noted.dests.now }
    {
        let dest = self.noted.dests[place].clone()?;
        let counts = self.counts_at(rt, place);
        let mut snapshot = unseen_dest(dest, counts, self.size as u64, times);
        if let Some(notes) = self.noted.notes.get(place) {
            let status = notes.status(counts.dropped, true);
            snapshot.is_up = status.is_up;
            snapshot.is_starting = status.is_starting;
            snapshot.since = times.age(status.since);
            snapshot.changed_at = times.second_of(status.since);
            snapshot.last_error = status.last_error;
            snapshot.connections.made = status.made;
            snapshot.connections.lost = status.losses;
            snapshot.connections.failed_tries = status.failures;
            snapshot.writes = notes.writes();
        }
        snapshot.spool = spool_of(self.noted.waiting_at(place), times);
        let (room, is_full) = self.noted.room_at(place);
        snapshot.spool.room = room;
        snapshot.spool.is_full = is_full;
        if let Some(track) = history.dest(place) {
            add_track(&mut snapshot, track, times);
        }
        Ok(snapshot)
    }

    /// The state of each destination.
    fn dests<R: Wait>(
        &self,
        rt: &R,
        alloc: Global,
        history: &StatusHistory,
        times: &ViewTimes,
    ) -> Result<Vec<DestSnapshot>, AllocError> {
        let mut dests = Vec::new(alloc);
        for place in 0..self.noted.dests.len() {
            dests.push(self.dest_at(rt, history, place, times)?)?;
        }
        Ok(dests)
    }

    /// The state of each receiver.
    fn receivers(
        &self,
        alloc: Global,
        history: &StatusHistory,
        times: &ViewTimes,
    ) -> Result<Vec<ReceiverSnapshot>, AllocError> {
        let mut receivers = Vec::new(alloc);
        for receiver in self.receivers.as_slice() {
            let mut snapshot = receiver.snapshot(alloc)?;
            if let Some(track) = history.receiver(receiver.place()) {
                snapshot.rate = track.rate();
                snapshot.bad_rate = track.bad_rate();
                snapshot.bad_age = track.bad_age(times.millis);
            }
            receivers.push(snapshot)?;
        }
        Ok(receivers)
    }
}

/// The moment that a status is of.
#[derive(Clone, Copy)]
struct ViewTimes {
    // The milliseconds since the start, the second since 1970 of the start, and that of now.
    millis: u64,
    started: u64,
    clock: u64,
}

impl ViewTimes {
    /// How many seconds have passed since these milliseconds.
    fn age(&self, millis: u64) -> u64 {
        self.millis.saturating_sub(millis) / 1_000
    }

    /// The second since 1970 of these milliseconds.
    fn second_of(&self, millis: u64) -> u64 {
        self.started.saturating_add(millis / 1_000)
    }
}

/// A destination of which only its queue was seen.
fn unseen_dest(dest: Dest, counts: Counts, size: u64, times: &ViewTimes) -> DestSnapshot {
    DestSnapshot {
        dest,
        counts,
        is_up: false,
        is_starting: true,
        since: times.millis / 1_000,
        rates: NO_RATES,
        last_error: None,
        error_age: 0,
        changed_at: times.started,
        size,
        connections: ConnectionCounts {
            made: 0,
            lost: 0,
            lost_lately: 0,
            failed_tries: 0,
        },
        writes: DestWrites {
            writes: 0,
            bytes: 0,
        },
        written_at: 0,
        stalled: 0,
        oldest: 0,
        drop_age: None,
        spool: spool_of(Waiting::nothing(), times),
    }
}

/// What waits in the file of a destination, at a moment.
fn spool_of(waiting: Waiting, times: &ViewTimes) -> SpoolSnapshot {
    SpoolSnapshot {
        datapoints: waiting.datapoints,
        bytes: waiting.bytes,
        age: waiting.age(times.clock),
        rate: 0,
        growth: 0,
        room: 0,
        is_full: false,
    }
}

/// Adds what several looks at a destination showed.
fn add_track(snapshot: &mut DestSnapshot, track: &DestTrack, times: &ViewTimes) {
    snapshot.rates = track.rates();
    snapshot.error_age = track.error_age(times.millis);
    snapshot.connections.lost_lately = track.lost_lately();
    snapshot.stalled = track.stalled(times.millis);
    snapshot.oldest = track.oldest(&snapshot.counts, times.millis);
    snapshot.drop_age = track.drop_age(times.millis);
    snapshot.spool.rate = track.spool_rate();
    snapshot.spool.growth = track.spool_growth();
    if track.written_at() > 0 {
        snapshot.written_at = times.second_of(track.written_at());
    }
}

/// How many datapoints all queues hold.
fn queued_in(dests: &[DestSnapshot]) -> u64 {
    let mut queued: u64 = 0;
    for dest in dests {
        queued = queued.saturating_add(dest.counts.queued);
    }
    queued
}

/// The texts of the status at a moment.
#[derive(Drop)]
struct StatusView<'v, 'x, B: Set, R> {
    rt: &'v R,
    alloc: Global,
    watch: &'v StatusWatch<'x, B>,
    history: &'v StatusHistory,
    signals: &'v Signals,
    times: ViewTimes,
}

impl<B: Set, R: Wait + SystemFacts> StatusView<'_, '_, B, R> {
    /// The state of all.
    fn snapshot(&self) -> Result<Snapshot, AllocError> {
        let (watch, times) = (self.watch, self.times);
        let dests = watch.dests(self.rt, self.alloc, self.history, &times)?;
        let receivers = watch.receivers(self.alloc, self.history, &times)?;
        let queued = queued_in(dests.as_slice());
        let producers = self.history.producers(self.alloc, times.millis)?;
        Ok(Snapshot {
            version: String::from_str(self.alloc, watch.version)?,
            configuration: hex::encode(self.alloc, &watch.configuration[..SUM_BYTES])?,
            host: self.rt.host_name(self.alloc)?,
            clock: times.clock,
            started: times.started,
            uptime: times.millis / 1_000,
            is_stopping: self.is_ending(),
            queue_size: watch.size as u64,
            queued,
            rates: self.history.rates(),
            silence: times.age(self.history.input_at()),
            input_at: times.second_of(self.history.input_at()),
            process: self.rt.process_counts(),
            dests,
            receivers,
            producers: producers.greatest,
            other_producers: producers.others,
            sample_seconds: SAMPLE_SECONDS,
            samples: self.history.samples(self.alloc)?,
            watched_at: watch.watched_at,
        })
    }
}

impl<B: Set, R: Wait + SystemFacts> StatusTexts for StatusView<'_, '_, B, R> {
    fn push_text(&self, page: Page, text: &mut String) -> Result<(), AllocError> {
        match page {
            Page::Health => text.push_str(if self.is_ending() { "ending\n" } else { "up\n" }),
            Page::Html => push_page(text, &self.snapshot()?),
            Page::Json => push_json(text, &self.snapshot()?),
            Page::Metrics => push_metrics(text, &self.snapshot()?),
        }
    }

    fn is_ending(&self) -> bool {
        self.signals.is_relay_ending()
    }
}

/// The status server: its listener with its connections, and what was seen of the relay. It goes from one run to the next.
#[derive(Drop)]
pub struct StatusServer {
    listener: StatusListener,
    history: StatusHistory,
}

impl StatusServer {
    /// The server of a listener, which has seen nothing.
    pub fn new(alloc: Global, listener: StatusListener) -> StatusServer {
        StatusServer {
            listener,
            history: StatusHistory::new(alloc),
        }
    }

    /// The next run has other destinations: at each of these places is what was seen of the one that was at that place, if it
    /// was there.
    pub fn keep_dests(&mut self, alloc: Global, kept: &[Option<DestId>]) {
        self.history.keep_dests(alloc, kept);
    }
}

/// The status server that is to run, and what it shows; since when the milliseconds of a run count.
#[derive(Drop)]
pub struct StatusJob<'x, B: Set> {
    server: StatusServer,
    watch: StatusWatch<'x, B>,
    began: Option<Instant>,
}

impl<'x, B: Set, R: Wait + Clock + RandomSource + SystemFacts> ThreadWork<R, StatusServer>
    for StatusJob<'x, B> {
    fn name(&self, alloc: Global) -> Result<String, AllocError> {
        String::from_str(alloc, "status")
    }

    /// Serves until receivers and senders have ended, or another run follows. Returns the server.
    fn work(self, rt: &R, alloc: Global, signals: &Signals) -> StatusServer {
        let StatusJob {
            mut server,
            watch,
            began,
        } = self;
        let clock = SystemTimes::since(rt, began);
        serve_until_stopped(rt, alloc, signals, &clock, &mut server, &watch);
        drop(watch);
        server
    }
}

/// Serves the connections, and takes the samples that are due, until receivers and senders have ended, or another run follows.
fn serve_until_stopped<B: Set, R: Wait + Clock + RandomSource + SystemFacts>(
    rt: &R,
    alloc: Global,
    signals: &Signals,
    clock: &SystemTimes<'_, R>,
    server: &mut StatusServer,
    watch: &StatusWatch<'_, B>,
) {
    let StatusServer { listener, history } = server;
    let started = clock_seconds(rt).saturating_sub(clock.millis() / 1_000);
    let Some(keys) = keys_until_stopped(rt, signals) else {
        return;
    };
    for _ in rt.forever() {
        if signals.status_stops() {
            return;
        }
        let millis = clock.millis();
        look_when_due(rt, alloc, watch, history, millis);
        let times = ViewTimes {
            millis,
            started,
            clock: clock_seconds(rt),
        };
        let view = StatusView {
            rt,
            alloc,
            watch,
            history,
            signals,
            times,
        };
        listener.take_turn(rt, keys, &view, millis, MOST_WAIT_MS);
    }
    unreachable!()
}

/// Random keys for the table of connections. While the system has none, tries again each second; `None` if the server is to stop
/// meanwhile.
fn keys_until_stopped<R: Wait + RandomSource>(rt: &R, signals: &Signals) -> Option<RandomState> {
    for _ in rt.forever() {
        let seen = signals.stops();
        if signals.status_stops() {
            return None;
        }
        if let Ok(keys) = RandomState::new(rt) {
            return Some(keys);
        }
        signals.sleep(rt, seen, KEYS_PAUSE_MS);
    }
    unreachable!()
}

/// Looks at all if that is due, at these milliseconds.
fn look_when_due<B: Set, R: Wait>(
    rt: &R,
    alloc: Global,
    watch: &StatusWatch<'_, B>,
    history: &mut StatusHistory,
    millis: u64,
) {
    if history.is_due(millis) {
        watch.take_producers(history, millis);
        if let Ok(totals) = watch.totals(rt, alloc) {
            history.look(alloc, &totals, millis);
        }
    }
}

/// The work of a status server that shows these, if there is one.
pub(crate) fn status_at<'x, B: Set>(
    server: Option<StatusServer>,
    watch: StatusWatch<'x, B>,
    began: Option<Instant>,
) -> Option<StatusJob<'x, B>>
    ensures { IsSome result ↔ IsSome server }
{
    match server {
        Some(server) => Some(StatusJob {
            server,
            watch,
            began,
        }),
        None => None,
    }
}
