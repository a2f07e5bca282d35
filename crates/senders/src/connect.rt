//! What connects to destinations.

ghost use Rattle.std.specs.Prelude.{◌≡◌, IfErr};

use mio::net::TcpStream;
use mio_loops::{LeftWriter, ReadinessFault};
use relay_base::DestId;
use std::io::Write;

/// Connects to destinations, and reports which of their connections are ready.
pub trait Connect {
    /// A connection.
    type Sink: Write + Drop;

    /// The innermost connector.
    type Stores: Stores;

    /// The innermost connector: this one, or that of the connector that it connects through.
    fn stores(&mut self) -> &mut Self::Stores;

    /// Waits until a connection is ready or was made, or this number of milliseconds has passed, and returns the
    /// destinations of those that are ready, each once. It ends early if a datapoint was offered after
    /// [`Stores::about_to_wait`]. It takes no memory, and refuses (`Device`) only what the system refuses.
    fn wait(&mut self, millis: u64) -> Result<&[DestId], ReadinessFault>
        ensures device { IfErr result (λ fault. fault ≡ ReadinessFault.Device) };

    /// Begins to connect to a destination, or goes on with that, and returns the connection once it is made. Call
    /// it while the destination has no connection, with the milliseconds of a clock that never falls. A try begins
    /// at most once a second. The call returns at once.
    fn connect(&mut self, dest: DestId, millis: u64) -> Option<Self::Sink>;

    /// Whether a destination's connection is over: the last wait reported that its peer has closed it, or it takes no
    /// more.
    fn has_closed(&self, dest: DestId) -> bool;

    /// Gives up the connection of a destination for another sender, and returns its socket. `None` if it takes no more, or if
    /// the connector hands nothing on; the connection is closed then.
    fn take_back(&mut self, dest: DestId, sink: Self::Sink) -> Option<KeptSocket>;

    /// The sender has ended, and asks for nothing more: what is still held for its destinations goes on elsewhere, if it does.
    fn end(&mut self);
}

/// A connector to which a stopped sender leaves what it had in hand.
pub trait HandOver: Connect {
    /// Whether what the sender leaves goes on elsewhere: then no connection is half-closed, and none is waited for.
    fn hands_over(&self) -> bool;

    /// Takes what a sender that was stopped leaves of a destination: its writer, with the batch in hand, and the connection.
    /// Called once for each destination, in their order. A connector that hands nothing on drops it.
    fn hand_over(&mut self, dest: DestId, left: LeftWriter<Self::Sink>);
}

/// What the innermost connector does for all that connect through it, which reach it by [`Connect::stores`].
pub trait Stores {
    /// From now on, until the next wait has ended, an offer ends that wait.
    fn about_to_wait(&mut self);

    /// The sender gives up the connection of a destination, which is no loss: its peer sees the end once it has read what was
    /// written. Call it before the connection is dropped.
    fn end_connection(&mut self, dest: DestId);

    /// Whether the peer of a destination's last connection, if there was one, has ended it, or lost it.
    fn has_ended(&self, dest: DestId) -> bool;

    /// Nothing more is written to the connections: their peers see the end once they have read what was written.
    fn end_writes(&mut self);

    /// Whether no peer may still send something, which would take back what it has not read if its connection were
    /// closed now.
    fn is_quiet(&self) -> bool;
}

/// The connection to a store that goes on in another sender: its socket, how many bytes of a begun line it has taken, and
/// whether it is half-closed.
#[derive(Drop)]
pub struct KeptSocket {
    pub(crate) socket: TcpStream,
    pub(crate) begun: usize,
    pub(crate) is_half_closed: bool,
}
