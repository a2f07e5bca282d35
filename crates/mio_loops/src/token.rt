//! The names of connections.

use relay_base::MOST_CONNECTIONS;

/// The name of a connection of a loop: the place of its reader, from 0 on.
///
/// In the list that a wait for readiness gives, [`LISTENER`] is the token of a listener, and a writer's stream has
/// the number of its destination.
#[derive(Clone, Copy, Debug, PartialEq)]
pub struct Token(pub usize);

/// The token of a listener, beyond those of connections.
pub const LISTENER: Token = Token(MOST_CONNECTIONS);

/// The token of a waker, beyond those of connections and listeners.
pub const WAKER: Token = Token(MOST_CONNECTIONS + 1);
