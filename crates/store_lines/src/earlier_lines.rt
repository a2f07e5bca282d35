//! Earlier lines, which go out to destinations before anything newer.

ghost use Rattle.std.specs.Prelude.{◌≡◌, ◌≤◌, IfErr, IfOk};

use mio_loops::ReadinessFault;
use relay_base::{DestId, MOST_DESTINATIONS};
use senders::{Connect, copy_list};

/// What goes out to each of a sender's destinations before anything newer: the file of an earlier run, or the rest of an ended one.
/// While something is left for a destination, its connections to the store are for that alone.
pub(crate) trait EarlierLines<W> {
    /// For how many destinations there is a place.
    fn dests(&self) -> usize;

    /// Whether some of them go on at once.
    fn goes_on(&self) -> bool;

    /// These destinations' connections are ready.
    fn note_ready(&mut self, ready: &[DestId]);

    /// The connection of a destination has closed.
    fn note_closed(&mut self, place: usize);

    /// Whether something is left for a destination.
    fn is_left(&self, place: usize) -> bool;

    /// Whether what is left for a destination has a connection.
    fn is_open(&self, place: usize) -> bool;

    /// What is left for a destination has this connection.
    fn begin_connection(&mut self, place: usize, sink: W);

    /// Sends some of what is left for a destination, and returns the connection once it is for others.
    fn send(&mut self, place: usize) -> Option<W>;
}

/// Waits by a connector; not at all if earlier lines go on at once. Connections that have closed take no more of them.
/// Returns how many destinations are ready: the first ones in the list.
pub(crate) fn wait_beside<N: Connect, L: EarlierLines<N::Sink>>(
    connector: &mut N,
    earlier: &mut L,
    ready: &mut [DestId; MOST_DESTINATIONS],
    millis: u64,
) -> Result<usize, ReadinessFault>
    ensures count { IfOk result (λ count. count ≤ MOST_DESTINATIONS) }
    ensures device { IfErr result (λ fault. fault ≡ ReadinessFault.Device) }
{
    let pause = if earlier.goes_on() { 0 } else { millis };
    let count = copy_list(connector.wait(pause)?, ready);
    earlier.note_ready(&ready[..count]);
    for place in 0..earlier.dests() {
        if connector.has_closed(DestId(place)) {
            earlier.note_closed(place);
        }
    }
    Ok(count)
}

/// The connection of a destination, once no earlier lines are left for it: before that, the connection is for them.
pub(crate) fn connect_behind<N: Connect, L: EarlierLines<N::Sink>>(
    connector: &mut N,
    earlier: &mut L,
    dest: DestId,
    millis: u64,
) -> Option<N::Sink> {
    if !earlier.is_left(dest.0) {
        return connector.connect(dest, millis);
    }
    if !earlier.is_open(dest.0) {
        let sink = connector.connect(dest, millis)?;
        earlier.begin_connection(dest.0, sink);
    }
    earlier.send(dest.0)
}
