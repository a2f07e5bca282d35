//! How the connections of a thread end that has nothing more to send.

use mio_loops::{SystemTimes, TimeSource};
use run_state::Signals;
use senders::{Connect, Stores};
use std::rt::Clock;
use std::sync::Wait;

/// How many milliseconds the stores have to read to their end once nothing more is sent.
const LONGEST_END_MS: u64 = 1_000;

/// For how many milliseconds a wait lasts at most.
const MOST_WAIT_MS: u64 = 10;

/// Half-closes the connections, and waits until no store may still send something; not if another run follows.
pub(crate) fn end_connections<R: Wait + Clock, N: Connect>(
    rt: &R,
    connector: &mut N,
    times: &SystemTimes<'_, R>,
    signals: &Signals,
) {
    if signals.is_handing() {
        return;
    }
    connector.stores().end_writes();
    let end = times.millis().saturating_add(LONGEST_END_MS);
    for _ in rt.forever() {
        let millis = times.millis();
        let is_over = connector.stores().is_quiet() || millis >= end || signals.is_handing();
        if is_over || connector.wait(MOST_WAIT_MS).is_err() {
            return;
        }
    }
    unreachable!()
}
