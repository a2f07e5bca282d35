//! What the first thread does at the end of a run: it has files keep what destinations that are away are not sent, and answers
//! commands until what it waits for is over.

ghost use Rattle.std.specs.Prelude.{◌≡◌};

use crate::admin_desk::AdminDesk;
use crate::relay::Relay;
use crate::reload_source::ReloadSource;
use admin_port::AdminListener;
use locked_queues::Set;
use mio_loops::{SystemTimes, TimeSource};
use relay_base::MOST_DESTINATIONS;
use run_state::{EndState, Signals, Unsent};
use run_threads::{ClosingWait, Drain, GoneDrain, SpoolWait};
use std::alloc::Global;
use std::net::Net;
use std::rt::Clock;
use std::sync::Wait;
use std::time::Duration;
use store_lines::GoneDests;

/// How many milliseconds a turn waits at most at the end of a run: so late is seen what it waits for.
const END_PAUSE_MS: u64 = 1;

/// The milliseconds between two looks at the sender to destinations that are gone.
const LOOK_MS: u64 = 1;

/// If files keep what is not sent, has the senders begin with the files of destinations that are not connected. So most of what
/// waits for these is written while the ports are open.
pub(crate) fn spool_away<B: Set>(relay: &Relay<B>) {
    if relay.shape.is_spooled {
        relay.state.stopper().spool_to(away_of(relay));
        relay.gate.wake_all();
    }
}

/// The destinations that are not connected, a bit each.
fn away_of<B: Set>(relay: &Relay<B>) -> u64 {
    let mut away: u64 = 0;
    let mut bit: u64 = 1;
    for notes in relay.noted().notes {
        if !notes.status(0, true).is_up {
            away |= bit;
        }
        bit = bit.wrapping_mul(2);
    }
    away
}

/// Answers commands until the senders have sent as much as they are to, and the files have the rest.
pub(crate) fn answer_until_drained<R: Wait + Clock + Net, B: Set, F: ReloadSource>(
    rt: &R,
    alloc: Global,
    desk: &mut AdminDesk<'_, B, F>,
    end: &EndState,
) {
    let relay = desk.relay;
    let millis = SystemTimes::since(rt, relay.began).millis();
    answer_until_over(rt, alloc, desk, DrainWait::begin(relay, end, millis));
    if end.is_spooled() {
        relay.state.stopper().begin_spooling();
        relay.gate.wake_all();
        let millis = SystemTimes::since(rt, relay.began).millis();
        answer_until_over(rt, alloc, desk, FilesWait::begin(relay, end, millis));
    }
}

/// Answers commands until what a run waits for at its end is over.
pub(crate) fn answer_until_over<
    R: Wait + Clock + Net,
    B: Set,
    F: ReloadSource,
    E: EndWait<R> + Drop,
>(rt: &R, alloc: Global, desk: &mut AdminDesk<'_, B, F>, wait: E) {
    let mut wait = wait;
    let relay = desk.relay;
    let times = SystemTimes::since(rt, relay.began);
    for _ in rt.forever() {
        let millis = times.millis();
        if wait.is_over(rt, millis) {
            return;
        }
        let admin = &mut desk.ports.admin;
        let _is_stopped = admin.take_turn(rt, alloc, &mut desk.source, millis, END_PAUSE_MS);
        if !relay.state.signals().is_handing() {
            refuse_reload(admin, millis);
        }
    }
    unreachable!()
}

/// Refuses a reload, if a connection has asked for one: a relay that stops takes no new configuration.
fn refuse_reload(listener: &mut AdminListener, millis: u64) {
    if let Some(connection) = listener.next_reload() {
        listener.refuse_reload(connection, millis);
    }
}

/// Something that a run waits for at its end.
pub(crate) trait EndWait<R> {
    /// Looks at these milliseconds. Returns whether it is over.
    fn is_over(&mut self, rt: &R, millis: u64) -> bool;
}

impl<R> EndWait<R> for ClosingWait<'_> {
    /// The receivers read what was sent to them, for half a second at most.
    fn is_over(&mut self, _rt: &R, millis: u64) -> bool {
        self.look(millis)
    }
}

/// The senders send what is left, also to destinations that are gone.
#[derive(Drop)]
struct DrainWait<'x, B: Set> {
    drain: Drain,
    gone_drain: GoneDrain,
    unsent: Unsent<'x, B>,
    signals: &'x Signals,
    gone: &'x GoneDests,
}

impl<'x, B: Set> DrainWait<'x, B> {
    /// The drain of a relay with this end begins at these milliseconds.
    fn begin(relay: &'x Relay<B>, end: &'x EndState, millis: u64) -> DrainWait<'x, B> {
        DrainWait {
            drain: Drain::new(millis, end.drain_seconds(), end.is_spooled()),
            gone_drain: GoneDrain::new(millis, end.is_spooled()),
            unsent: unsent_of(relay, end),
            signals: relay.state.signals(),
            gone: &relay.gone,
        }
    }
}

impl<R: Wait, B: Set> EndWait<R> for DrainWait<'_, B> {
    fn is_over(&mut self, rt: &R, millis: u64) -> bool {
        let is_over = self.drain.look(rt, &self.unsent, self.signals, millis);
        let are_waited_for = are_waited_for(&mut self.gone_drain, self.gone, millis);
        is_over && !are_waited_for
    }
}

/// Looks at each destination that is gone at these milliseconds. Returns whether a stop waits for one.
fn are_waited_for(drain: &mut GoneDrain, gone: &GoneDests, millis: u64) -> bool {
    let mut are = false;
    for place in 0..gone.dests.len().min(MOST_DESTINATIONS) {
        if let Some(seen) = gone.seen_at(place, millis) {
            are = drain.look(place, seen.left, millis, seen.until) || are;
        }
    }
    are
}

/// The sender to destinations that are gone ends, since another run follows.
#[derive(Drop)]
pub(crate) struct PartingWait<'x> {
    gone: &'x GoneDests,
}

impl<'x> PartingWait<'x> {
    /// The sender to these destinations ends.
    pub(crate) fn new(gone: &'x GoneDests) -> PartingWait<'x> {
        PartingWait { gone }
    }
}

impl<R: Clock> EndWait<R> for PartingWait<'_> {
    /// It sleeps itself: the admin port does not wait while another reload is asked for, which the next run answers.
    fn is_over(&mut self, rt: &R, _millis: u64) -> bool {
        if self.gone.is_sender_over() {
            return true;
        }
        rt.sleep(Duration::from_millis(LOOK_MS));
        false
    }
}

/// Files get what is not sent.
#[derive(Drop)]
struct FilesWait<'x, B: Set> {
    wait: SpoolWait,
    unsent: Unsent<'x, B>,
}

impl<'x, B: Set> FilesWait<'x, B> {
    /// The files of a relay with this end begin at these milliseconds.
    fn begin(relay: &'x Relay<B>, end: &'x EndState, millis: u64) -> FilesWait<'x, B> {
        FilesWait {
            wait: SpoolWait::new(millis),
            unsent: unsent_of(relay, end),
        }
    }
}

impl<R: Wait, B: Set> EndWait<R> for FilesWait<'_, B> {
    fn is_over(&mut self, rt: &R, millis: u64) -> bool {
        self.wait.look(rt, &self.unsent, millis)
    }
}

/// What remains to be sent by a relay with this end.
fn unsent_of<'x, B: Set>(relay: &'x Relay<B>, end: &'x EndState) -> Unsent<'x, B> {
    Unsent::new(&relay.queues, relay.noted(), end)
}
