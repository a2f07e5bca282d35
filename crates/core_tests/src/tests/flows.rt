//! Datapoints on their way through threads: over two receivers of lines, locked queues and a sender to stores. With two
//! queues the first receiver is held inside its queue until the offer of the second at the other queue was answered.

ghost use Rattle.std.specs.Prelude.{◌≡◌};

use crate::tests::flow_parts::{Common, FlowRuntime, Parts, Producer, Records, in_threads};
use crate::tests::gates::Holds;
use crate::tests::shapes::{Shape, open_set};
use crate::tests::stores::Store;
use dest_queue::Counts;
use locked_queues::{BlankTotals, Opened, Queues, Set};
use relay_base::DestId;
use senders::Resolve;
use std::alloc::Global;
use std::marker::Brand;
use std::net::{Net, TcpListener, TcpStream};
use std::rt::Clock;
use std::sync::Wait;
use std::sync::atomic::{AtomicBool, Ordering};
use std::thread::Threads;

/// What two producers send, what each store may get then, and how much each queue has counted.
struct Flow {
    shape: Shape,
    // Whether the first receiver is held inside queue 0.
    is_held: bool,
    sent: [&'static [u8]; 2],
    texts: &'static [&'static [&'static [u8]]],
    // How many datapoints each queue got, kept and gave.
    kept: &'static [u64],
}

/// What a queue has counted after this many datapoints, all kept and taken.
fn all_of(count: u64) -> Counts {
    Counts {
        offered: count,
        kept: count,
        dropped: 0,
        taken: count,
        queued: 0,
        seals: 0,
    }
}

/// One queue of two receivers: the store gets 24 bytes, each producer's lines in order. And a queue for each receiver.
static FLOWS: [Flow; 2] = [
    Flow {
        shape: Shape {
            name: 1,
            dests: 1,
            size: 10,
            receivers: 2,
            senders: 1,
        },
        is_held: false,
        sent: [b"a.1 1 5\na.2 2 5\n", b"a.3 3 5\n"],
        texts: &[&[
            b"a.1 1 5\na.2 2 5\na.3 3 5\n",
            b"a.1 1 5\na.3 3 5\na.2 2 5\n",
            b"a.3 3 5\na.1 1 5\na.2 2 5\n",
        ]],
        kept: &[3],
    },
    Flow {
        shape: Shape {
            name: 2,
            dests: 2,
            size: 10,
            receivers: 2,
            senders: 1,
        },
        is_held: true,
        sent: [b"a 1 2\n", b"b 3 4\n"],
        texts: &[&[b"a 1 2\n"], &[b"b 3 4\n"]],
        kept: &[1, 1],
    },
];

/// A store for each destination.
fn stores_of<R: FlowRuntime>(rt: &R, alloc: Global, flow: &Flow) -> Option<Vec<Store>> {
    let mut stores = Vec::new(alloc);
    for _ in flow.texts {
        stores.push(Store::new(rt, alloc)?).ok()?;
    }
    Some(stores)
}

/// These stores as destinations, the first with the instance `a`, the second with `b`. A ring of them sends the names of each
/// flow to the store of the same place: it places nodes by their hosts and instances.
fn list_of(alloc: Global, stores: &[Store]) -> Option<String> {
    let first = stores.first()?.port()?;
    match stores.get(1) {
        Some(second) => {
            format!(in alloc; "127.0.0.1:{first}:a, 127.0.0.1:{}:b", second.port()?).ok()
        }
        None => format!(in alloc; "127.0.0.1:{first}:a").ok(),
    }
}

/// A ring of these destinations.
fn ring_of(alloc: Global, listed: &str) -> Option<String> {
    format!(in alloc;
        "\
[relay]
DESTINATIONS = {listed}
RELAY_METHOD = consistent-hashing
USE_FLOW_CONTROL = False
DESTINATION_PROTOCOL = line
"
    )
    .ok()
}

/// Whether the queues and the records agree on what was counted.
fn are_settled<B: Set, R: Wait>(
    rt: &R,
    alloc: Global,
    queues: &mut Queues<B>,
    records: Records,
    flow: &Flow,
) -> Option<bool>
    requires { flow.now.shape.dests ≡ B.dests }
{
    let Records {
        doors: [first, second],
        outlet,
    } = records;
    let (doors, outlets) = ([first?, second?], [outlet?]);
    for (dest, kept) in flow.kept.iter().enumerate() {
        if dest >= flow.shape.dests || queues.counts(rt, DestId(dest)) != all_of(*kept) {
            return Some(false);
        }
    }
    let settled = queues.settle(alloc, &doors, &outlets);
    let are_settled = match &settled {
        Ok(settled) => are_counted(&settled.counts, flow),
        Err(_) => false,
    };
    drop(settled);
    Some(are_settled)
}

/// Whether all queues of a settling have these counts.
fn are_counted(counts: &[Counts], flow: &Flow) -> bool {
    counts.len() == flow.kept.len()
        && counts
            .iter()
            .zip(flow.kept)
            .all(|(counts, kept)| *counts == all_of(*kept))
}

/// Whether each store got one of its texts.
fn are_delivered(stores: &[Store], flow: &Flow) -> bool {
    stores.len() == flow.texts.len()
        && stores
            .iter()
            .zip(flow.texts)
            .all(|(store, texts)| texts.contains(&store.taken()))
}

/// Whether all went through to the stores, and the queues and the records agree on it.
fn is_moved_to<B: Set + Send + Sync, R: FlowRuntime>(
    rt: &R,
    alloc: Global,
    queues: &mut Queues<B>,
    parts: Parts<B>,
    stores: &mut Vec<Store>,
    flow: &Flow,
) -> Option<bool>
    requires { flow.now.shape.dests ≡ B.dests }
{
    let gate = Holds::offers_to(0, !flow.is_held);
    let listed = list_of(alloc, stores)?;
    let config = ring_of(alloc, listed.as_str())?;
    let stop = AtomicBool::new(false);
    let mut counts = Vec::new(alloc);
    for texts in flow.texts {
        counts.push(texts.first()?.len()).ok()?;
    }
    let common = Common {
        queues,
        dests: flow.shape.dests,
        gate: &gate,
        config: config.as_str(),
        listed: listed.as_str(),
        stop: &stop,
    };
    let records = in_threads(rt, alloc, &common, parts, stores, &counts);
    let is_settled = are_settled(rt, alloc, queues, records, flow)?;
    Some(is_settled && are_delivered(stores, flow) && !gate.has_given_up.load(Ordering::SeqCst))
}

/// Whether a set of the flow's shape moves all.
fn set_moves<B: Set + Send + Sync, R: FlowRuntime>(
    rt: &R,
    alloc: Global,
    blank: BlankTotals,
    flow: &Flow,
) -> Option<bool>
    requires table { blank ≡ B.table }
    requires set { (flow.now.shape.name ≡ B.name) × (flow.now.shape.dests ≡ B.dests)
        × (flow.now.shape.receivers ≡ B.receivers) × (flow.now.shape.senders ≡ B.senders)
        × (flow.now.shape.size ≡ B.size) }
{
    let first = Producer::new(rt, alloc, flow.sent[0])?;
    let second = Producer::new(rt, alloc, flow.sent[1])?;
    let mut stores = stores_of(rt, alloc, flow)?;
    let Opened {
        mut queues,
        doors,
        outlets,
    } = open_set::<B>(alloc, blank, flow.shape)?;
    let parts = Parts {
        doors,
        outlets,
        first,
        second,
    };
    let is_moved = is_moved_to(rt, alloc, &mut queues, parts, &mut stores, flow);
    drop(queues);
    drop(stores);
    is_moved
}

/// Whether that is so of both cases.
fn all_are_moved<R>(rt: &R, alloc: Global) -> bool
where
    R: Threads + Wait + Clock + Resolve,
    R: Net<Listener = TcpListener, Stream = TcpStream>,
    R: Copy + Send + Sync + Drop + 'static,
{
    let mut all = true;
    for flow in &FLOWS {
        all = all && is_moved(rt, alloc, flow);
    }
    all
}

fn is_moved<R: FlowRuntime>(rt: &R, alloc: Global, flow: &Flow) -> bool {
    match BlankTotals::new(alloc) {
        Ok(blank) => set_moves::<Brand, R>(rt, alloc, blank, flow) == Some(true),
        Err(_) => false,
    }
}

#[test]
fn threads_move_points(rt: HostRuntime) {
    assert!(rt; all_are_moved(&rt, rt.alloc()));
}
