//! How a relay runs, apart from its files.

ghost use Rattle.std.specs.Prelude.{None, ◌≡◌};

use crate::line_receivers::LineReceivers;
use crate::senders::Senders;
use std::net::SocketAddr;

/// How a relay runs, apart from its files.
#[derive(Clone, Copy)]
pub struct RunOptions {
    /// The port of 127.0.0.1 for commands, from 1 on.
    pub admin: u16,
    /// How many threads send.
    pub senders: Senders,
    /// How many threads receive lines.
    pub line_receivers: LineReceivers,
    /// For how many seconds at most the senders go on after `stop`, until every destination with a connection has all that is
    /// queued for it.
    pub drain: u64,
    /// After how many seconds a connection that has sent no datapoint is closed; with 0 none is.
    pub idle: u64,
    /// How many bytes the files of its spool may have while it runs, to which destinations are diverted then; without that they
    /// are written at its end alone.
    pub spool_size: Option<u64>,
    /// Where a status server listens, if any.
    pub status: Option<StatusOptions>,
}

/// Where a status server listens, the version of the program that it shows, and whether the admin port has a key.
#[derive(Clone, Copy)]
pub struct StatusOptions {
    /// The address and the port.
    pub address: SocketAddr,
    /// The version.
    pub version: &'static str,
    /// Whether the admin port has a key.
    pub has_key: bool,
}

impl RunOptions {
    /// Commands arrive at this port of 127.0.0.1, one thread sends and one receives lines. After `stop` nothing more is sent,
    /// and no idle connection is closed.
    pub fn new(admin: u16) -> RunOptions
        ensures admin { result.admin ≡ admin }
        ensures senders { result.senders.count ≡ 1 }
        ensures line_receivers { result.line_receivers.count ≡ 1 }
        ensures drain { result.drain ≡ 0 }
        ensures idle { result.idle ≡ 0 }
        ensures spool_size { result.spool_size ≡ None }
        ensures status { result.status ≡ None }
    {
        RunOptions {
            admin,
            senders: Senders::one(),
            line_receivers: LineReceivers::one(),
            drain: 0,
            idle: 0,
            spool_size: None,
            status: None,
        }
    }
}
