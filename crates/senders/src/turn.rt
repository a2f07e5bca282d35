//! A turn of a sender.
ghost use Rattle.std.specs.Prelude.{◌≡◌, ℕ, ◌<◌, ◌≤◌, true, length, IfErr};
ghost use Rattle.mio_loops.specs.WriteLoop.{is_up_at};
ghost use Rattle.queue_records.specs.Takes.{IsHandedBy};
ghost use Rattle.senders.specs.Steps.{AllUpOwned, ConnectionsProgress, SomeProgress};

use crate::connect::{Connect, Stores};
use crate::counted_supply::{CountedSupply, TakeSize};
use crate::dest_list::copy_list;
use mio_loops::{ReadinessFault, WriteLoop};
use queue_records::Supply;
use relay_base::{DestId, MOST_DESTINATIONS};
use std::io::Write;

/// How long a wait lasts at most, in milliseconds.
const LONGEST_WAIT_MS: u64 = 100;

/// How many milliseconds a sender waits once it has taken all that was queued: what is offered meanwhile goes out
/// together, in one take and one write for each destination, in place of one for each few datapoints.
const GATHERING_MS: u64 = 1;

/// One turn, at these milliseconds of a clock that never falls: connects what is to be connected, serves
/// what may go on, waits as [`serve_before_wait`] says or until a connection is ready, drops the connections that
/// were closed, and serves what is ready then. Refuses what the wait refuses (`Device`); what was done
/// before it is not undone.
pub(crate) fn take_turn<N: Connect, S: Supply>(
    connector: &mut N,
    writes: &mut WriteLoop<N::Sink>,
    supply: &mut CountedSupply<S>,
    millis: u64,
) -> Result<(), ReadinessFault>
    requires owned { AllUpOwned (S.is_owned supply.old.supply) writes.old }
    ensures went { SomeProgress (IsHandedBy S.record_of S.may_hand) writes.old writes.new (S.record_of supply.old.supply)
        (S.record_of supply.new.supply) }
    ensures owned { AllUpOwned (S.is_owned supply.new.supply) writes.new }
    ensures device { IfErr result (λ fault. fault ≡ ReadinessFault.Device) }
{
    connect_all(connector, writes, supply, millis);
    let pause = serve_before_wait(connector, writes, supply);
    let mut ready = [DestId(0); MOST_DESTINATIONS];
    let count = copy_list(connector.wait(pause)?, &mut ready);
    detach_closed(connector, writes);
    writes.turn(&ready[..count], supply);
    Ok(())
}

/// Serves what may go on, and returns for how many milliseconds to wait: for none if more may go on at once, and for
/// [`GATHERING_MS`] if all that was queued was taken. If nothing was taken, offers end the wait from now on, and a second
/// look has found nothing that was offered before.
fn serve_before_wait<N: Connect, S: Supply>(
    connector: &mut N,
    writes: &mut WriteLoop<N::Sink>,
    supply: &mut CountedSupply<S>,
) -> u64
    requires owned { AllUpOwned (S.is_owned supply.old.supply) writes.old }
    ensures went { SomeProgress (IsHandedBy S.record_of S.may_hand) writes.old writes.new (S.record_of supply.old.supply)
        (S.record_of supply.new.supply) }
    ensures owned { AllUpOwned (S.is_owned supply.new.supply) writes.new }
{
    if let Some(pause) = serve_due(writes, supply) {
        return pause;
    }
    connector.stores().about_to_wait();
    serve_due(writes, supply).unwrap_or(LONGEST_WAIT_MS)
}

/// Serves what may go on, and returns after how many milliseconds to go on, or `None` if there was nothing to
/// serve.
fn serve_due<W: Write + Drop, S: Supply>(
    writes: &mut WriteLoop<W>,
    supply: &mut CountedSupply<S>,
) -> Option<u64>
    requires owned { AllUpOwned (S.is_owned supply.old.supply) writes.old }
    ensures went { SomeProgress (IsHandedBy S.record_of S.may_hand) writes.old writes.new (S.record_of supply.old.supply)
        (S.record_of supply.new.supply) }
    ensures owned { AllUpOwned (S.is_owned supply.new.supply) writes.new }
{
    writes.turn(&[], supply);
    let taken = supply.taken();
    pause_after(taken, writes.goes_on())
}

/// After how many milliseconds to go on after such a take: at once if more may be queued, or if bytes are
/// left that a connection may take.
fn pause_after(taken: TakeSize, goes_on: bool) -> Option<u64> {
    match taken {
        TakeSize::FullBatch => Some(0),
        _ if goes_on => Some(0),
        TakeSize::All => Some(GATHERING_MS),
        TakeSize::Nothing => None,
    }
}

/// Connects each destination that is owned and has no connection, as far as that can be done at once.
fn connect_all<N: Connect, S: Supply>(
    connector: &mut N,
    writes: &mut WriteLoop<N::Sink>,
    supply: &CountedSupply<S>,
    millis: u64,
)
    requires owned { AllUpOwned (S.is_owned supply.now.supply) writes.old }
    ensures went { ConnectionsProgress writes.old writes.new }
    ensures owned { AllUpOwned (S.is_owned supply.now.supply) writes.new }
{
    for dest in 0..writes.dests() {
        connect_one(DestId(dest), connector, writes, supply, millis);
    }
}

/// Connects a destination, which exists, if it is owned and has no connection.
fn connect_one<N: Connect, S: Supply>(
    dest: DestId,
    connector: &mut N,
    writes: &mut WriteLoop<N::Sink>,
    supply: &CountedSupply<S>,
    millis: u64,
)
    requires dest { dest.0 < length writes.old }
    requires owned { AllUpOwned (S.is_owned supply.now.supply) writes.old }
    ensures went { ConnectionsProgress writes.old writes.new }
    ensures dests { length writes.new ≡ length writes.old }
    ensures owned { AllUpOwned (S.is_owned supply.now.supply) writes.new }
{
    if writes.is_up(dest) || !supply.owns(dest) {
        return;
    }
    if let Some(sink) = connector.connect(dest, millis) {
        // There is such a destination, and it has no connection.
        let _ = writes.attach(dest, sink);
    }
}

/// Drops the connections that their peers have closed.
fn detach_closed<N: Connect>(connector: &N, writes: &mut WriteLoop<N::Sink>)
    ensures went { ConnectionsProgress writes.old writes.new }
    ensures ups { (dest : ℕ) → is_up_at writes.new dest ≡ true → is_up_at writes.old dest ≡ true }
{
    for dest in 0..writes.dests() {
        detach_if_closed(DestId(dest), connector, writes);
    }
}

/// Drops the connection of a destination, if there is one and its peer has closed it.
fn detach_if_closed<N: Connect>(dest: DestId, connector: &N, writes: &mut WriteLoop<N::Sink>)
    ensures went { ConnectionsProgress writes.old writes.new }
    ensures dests { length writes.new ≡ length writes.old }
    ensures ups { (dest : ℕ) → is_up_at writes.new dest ≡ true → is_up_at writes.old dest ≡ true }
{
    if connector.has_closed(dest) {
        writes.detach(dest);
    }
}
