//! What a receiver leaves.

use crate::tests::sendings::Sending;
use mio_loops::SystemTimes;
use queue_records::MOST_RECEIVERS;
use reader_core::ReaderKind;
use receivers::{Accept, Receiver, ReceiverRecord, receive_streams};
use std::alloc::Global;
use std::rt::Clock;
use std::sync::Wait;
use std::sync::atomic::AtomicBool;
use test_doubles::FaultyDoor;

/// What a receiver of lines leaves that is stopped, or that its listener ends; `None` if out of memory.
pub(crate) fn received_by<R: Wait + Clock, A: Accept + Drop>(
    rt: &R,
    alloc: Global,
    receiver: usize,
    listener: A,
    stop: &AtomicBool,
) -> Option<ReceiverRecord<FaultyDoor>> {
    let sending = Sending::new(alloc, receiver, 0)?;
    if receiver >= MOST_RECEIVERS || sending.door.door().dests() < sending.plan.destinations() {
        drop(sending);
        return None;
    }
    let Sending { plan, door } = sending;
    let (times, kind) = (SystemTimes::new(rt), ReaderKind::Line);
    let receiver = Receiver {
        source: listener,
        number: receiver,
        plan,
        door,
    };
    Some(receive_streams(rt, alloc, kind, receiver, &times, stop))
}
