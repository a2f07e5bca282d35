//! Two receivers of lines and a sender over locked queues, each in a thread of its own.

ghost use Rattle.std.specs.Prelude.{◌≡◌};

use crate::tests::gates::{Holds, MOST_TURNS, comes_true};
use crate::tests::stores::{Store, any_port};
use conf_text::Dest;
use locked_queues::{
    DoorRecord, DoorSeat, LockedDoor, MOST_DESTS, MOST_RECEIVERS, Outlet, OutletRecord, OutletSeat,
    Queues, Set,
};
use mio::net::TcpListener as PollListener;
use mio_loops::{Readiness, SystemTimes};
use reader_core::ReaderKind;
use receivers::{Receiver, ReceiverRecord, StreamListener, StreamPort, receive_streams};
use relay_base::DestId;
use senders::{
    Alarm, BatchSender, HostThreads, Resolve, SenderRecord, SenderShare, StoreConnector,
    send_batches,
};
use std::alloc::Global;
use std::io::Write;
use std::net::{Net, TcpListener, TcpStream};
use std::rt::Clock;
use std::sync::Wait;
use std::sync::atomic::{AtomicBool, Ordering};
use std::thread::{JoinHandle, Threads};
use std::{net, thread};
use worked_files::ring_plan;

/// What the parts need of the system. It is short for these bounds, and each type that meets them implements it. What runs
/// in a thread has the bounds themselves: the check of borrows does not cover the short form there.
pub(crate) trait FlowRuntime: Threads
    + Wait
    + Clock
    + Net<Listener = TcpListener, Stream = TcpStream>
    + Resolve
    + Copy
    + Send
    + Sync
    + Drop
    + 'static {}

impl<R> FlowRuntime for R
where
    R: Threads + Wait + Clock + Resolve,
    R: Net<Listener = TcpListener, Stream = TcpStream>,
    R: Copy + Send + Sync + Drop + 'static,
{}

/// What all parts share.
#[derive(Drop)]
pub(crate) struct Common<'c, B: Set> {
    pub(crate) queues: &'c Queues<B>,
    // How many queues there are.
    pub(crate) dests: usize,
    pub(crate) gate: &'c Holds,
    pub(crate) config: &'c str,
    // The destinations of that configuration.
    pub(crate) listed: &'c str,
    pub(crate) stop: &'c AtomicBool,
    pub ghost all: { dests ≡ B.dests },
}

/// A listener at which a producer has connected and sent its lines.
#[derive(Drop)]
pub(crate) struct Producer {
    listener: StreamListener,
    stream: TcpStream,
}

impl Producer {
    pub(crate) fn new<R: FlowRuntime>(rt: &R, alloc: Global, lines: &[u8]) -> Option<Producer> {
        let listener = PollListener::bind(rt, any_port()).ok()?;
        let Some(stream) = sent_to(rt, &listener, lines) else {
            drop(listener);
            return None;
        };
        Some(Producer {
            listener: StreamListener::new(
                rt,
                alloc,
                StreamPort::new(listener),
                ReaderKind::Line,
            ).ok()?,
            stream,
        })
    }
}

/// A connection on which these lines were sent.
fn sent_to<R: FlowRuntime>(rt: &R, listener: &PollListener, lines: &[u8]) -> Option<TcpStream> {
    let address = listener.local_addr().ok()?;
    let mut stream = net::TcpStream::connect(rt, address).ok()?;
    stream.write_all(lines).ok()?;
    Some(stream)
}

/// Receives until the stop flag is set; `None` without a seat, or after a fault.
fn receive<B: Set, R: Wait + Clock>(
    rt: &R,
    alloc: Global,
    common: &Common<'_, B>,
    seat: Option<DoorSeat<B>>,
    producer: Producer,
    receiver: usize,
) -> Option<DoorRecord> {
    let Some(seat) = seat else {
        drop(producer);
        return None;
    };
    let Some(plan) = ring_plan(alloc, common.config, "") else {
        drop((seat, producer));
        return None;
    };
    let door = LockedDoor::new(rt, common.queues, seat, common.gate);
    if receiver >= MOST_RECEIVERS || door.dests() < plan.destinations() {
        drop((door, producer, plan));
        return None;
    }
    let (times, kind, stop) = (SystemTimes::new(rt), ReaderKind::Line, common.stop);
    let Producer { listener, stream } = producer;
    let receiver = Receiver {
        source: listener,
        number: receiver,
        plan,
        door,
    };
    let ReceiverRecord { door, log, fault } = receive_streams(
        rt, alloc, kind, receiver, &times, stop,
    );
    drop((log, stream));
    let record = door.close();
    fault.is_none().then_some(record)
}

/// How many datapoints a batch has at most.
const LIMIT: usize = 500;

/// How many events of a sender's connections one wait reports.
const EVENTS: usize = 64;

/// Sends until the stop flag is set; `None` without a seat, or after a fault.
fn send<B: Set, R: Threads + Wait + Clock + Net + Resolve + Copy + Send + Drop + 'static>(
    rt: &R,
    alloc: Global,
    common: &Common<'_, B>,
    seat: Option<OutletSeat<B>>,
) -> Option<OutletRecord> {
    let seat = seat?;
    let Ok(dests) = Dest::read_list(alloc, common.listed) else {
        drop(seat);
        return None;
    };
    let sent = send_to(rt, alloc, common, seat, &dests);
    drop(dests);
    sent
}

fn send_to<B: Set, R: Threads + Wait + Clock + Net + Resolve + Copy + Send + Drop + 'static>(
    rt: &R,
    alloc: Global,
    common: &Common<'_, B>,
    seat: OutletSeat<B>,
    dests: &[Dest],
) -> Option<OutletRecord> {
    let outlet = Outlet::new(rt, common.queues, seat, common.gate);
    let readiness = Readiness::new(rt, alloc, EVENTS).ok();
    let sent = match alarm_of(&readiness) {
        Some(alarm) => send_by(rt, alloc, common, outlet, dests, readiness, &alarm),
        None => {
            drop((outlet, readiness));
            None
        }
    };
    sent
}

/// The alarm of a readiness.
fn alarm_of(readiness: &Option<Readiness>) -> Option<Alarm> {
    Alarm::new(readiness.as_ref()?).ok()
}

/// The connector of one sender to these stores. It is made last, so that nothing here drops it, which would be dear to prove.
fn connector_of<'g, R: Threads + Wait + Clock + Net + Resolve + Copy + Send + Drop + 'static>(
    rt: &R,
    alloc: Global,
    readiness: Option<Readiness>,
    alarm: &'g Alarm,
    dests: &[Dest],
) -> Option<StoreConnector<'g, R>> {
    StoreConnector::new(
        *rt,
        alloc,
        &HostThreads::new(alloc),
        readiness?,
        alarm,
        SenderShare::all(dests),
    )
    .ok()
}

fn send_by<B: Set, R: Threads + Wait + Clock + Net + Resolve + Copy + Send + Drop + 'static>(
    rt: &R,
    alloc: Global,
    common: &Common<'_, B>,
    outlet: Outlet<'_, '_, '_, B, R, Holds>,
    dests: &[Dest],
    readiness: Option<Readiness>,
    alarm: &Alarm,
) -> Option<OutletRecord> {
    if dests.is_empty() || dests.len() > MOST_DESTS {
        drop((outlet, readiness));
        return None;
    }
    let Some(connector) = connector_of(rt, alloc, readiness, alarm, dests) else {
        drop(outlet);
        return None;
    };
    let sender = BatchSender {
        connector,
        dests: dests.len(),
        limit: LIMIT,
        supply: outlet,
    };
    let times = SystemTimes::new(rt);
    let SenderRecord {
        outlet,
        logs,
        fault,
    } = send_batches(rt, alloc, sender, &times, common.stop);
    drop(logs);
    let record = outlet.close();
    fault.is_none().then_some(record)
}

/// What the parts recorded; `None` of one that failed.
#[derive(Drop)]
pub(crate) struct Records {
    pub(crate) doors: [Option<DoorRecord>; 2],
    pub(crate) outlet: Option<OutletRecord>,
}

/// The seats of two receivers and a sender, and the producers of the receivers.
#[derive(Drop)]
pub(crate) struct Parts<B: Set> {
    pub(crate) doors: Vec<DoorSeat<B>>,
    pub(crate) outlets: Vec<OutletSeat<B>>,
    pub(crate) first: Producer,
    pub(crate) second: Producer,
}

/// Runs both receivers, each in a thread of its own, and the sender in this one, until the stores have this many bytes each.
/// If the first receiver is held, it is released once the offer of the second at queue 1 was answered.
pub(crate) fn in_threads<
    B: Set + Send + Sync,
    R: Threads + Wait + Clock + Net + Resolve + Copy + Send + Sync + Drop + 'static,
>(
    rt: &R,
    alloc: Global,
    common: &Common<'_, B>,
    parts: Parts<B>,
    stores: &mut Vec<Store>,
    counts: &[usize],
) -> Records {
    let Parts {
        doors,
        outlets,
        first,
        second,
    } = parts;
    let mut doors = doors.into_iter();
    let (first_seat, second_seat) = (doors.next(), doors.next());
    let outlet_seat = outlets.into_iter().next();
    // A thread that did not start gives nothing. An early end here would drop all the others in each place.
    thread::scope(thread::scope_env(), rt, |scope| -> Records {
        let first = scope
            .spawn(move || receive(rt, alloc, common, first_seat, first, 0))
            .ok();
        let second = scope
            .spawn(move || receive(rt, alloc, common, second_seat, second, 1))
            .ok();
        let ending = scope
            .spawn(move || stop_when_taken(rt, common, stores, counts))
            .ok();
        if ending.is_none() {
            common.stop.store(true, Ordering::SeqCst);
        }
        let outlet = send(rt, alloc, common, outlet_seat);
        if let Some(ending) = ending {
            ending.join(rt);
        }
        Records {
            doors: [given_by(rt, first), given_by(rt, second)],
            outlet,
        }
    })
}

/// What a thread gave; `None` if it did not start.
fn given_by<R: Threads + Wait + Sync, T: Drop>(
    rt: &R,
    child: Option<JoinHandle<Option<T>>>,
) -> Option<T> {
    child?.join(rt)
}

/// Releases the first receiver, and sets the stop flag once the stores have this many bytes each.
fn stop_when_taken<B: Set, R: Wait + Clock>(
    rt: &R,
    common: &Common<'_, B>,
    stores: &mut Vec<Store>,
    counts: &[usize],
) {
    release(rt, common);
    for (store, count) in stores.iter_mut().zip(counts) {
        store.wait_for(rt, *count);
    }
    common.stop.store(true, Ordering::SeqCst);
}

/// Releases the first receiver once it is held and queue 1 has counted an offer. If that does not come, the gate has given up.
fn release<B: Set, R: Wait>(rt: &R, common: &Common<'_, B>) {
    let gate = common.gate;
    if gate.is_released.load(Ordering::SeqCst) {
        return;
    }
    if !comes_true(&gate.is_held) || !gets_offer(rt, common) {
        gate.has_given_up.store(true, Ordering::SeqCst);
    }
    gate.is_released.store(true, Ordering::SeqCst);
}

/// Waits for an offer to queue 1, but not for ever.
fn gets_offer<B: Set, R: Wait>(rt: &R, common: &Common<'_, B>) -> bool {
    if common.dests < 2 {
        return false;
    }
    for _ in 0..MOST_TURNS {
        if common.queues.counts(rt, DestId(1)).offered > 0 {
            return true;
        }
        thread::yield_now();
    }
    false
}
