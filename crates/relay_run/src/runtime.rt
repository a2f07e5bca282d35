//! What a running relay needs of the system.

use relay_ports::SystemTables;
use relay_watchers::SystemFacts;
use senders::Resolve;
use spool::SpoolDisk;
use std::net::{Net, TcpListener, TcpStream};
use std::random::RandomSource;
use std::rt::Clock;
use std::sync::Wait;
use std::thread::Threads;

/// What a running relay needs of the system: threads that may wait, its clock, its sockets, the addresses of hosts, what
/// it says of the process, its tables, and its files for what is not sent. It is short for these bounds, and each type that meets them implements it.
pub trait RelayRuntime: Threads
    + Wait
    + Clock
    + Net<Listener = TcpListener, Stream = TcpStream>
    + Resolve
    + SystemFacts
    + SystemTables
    + SpoolDisk
    + RandomSource
    + Copy
    + Send
    + Sync
    + Drop
    + 'static {}

impl<R> RelayRuntime for R
where
    R: Threads + Wait + Clock + Resolve + SystemFacts + SystemTables + SpoolDisk + RandomSource,
    R: Net<Listener = TcpListener, Stream = TcpStream>,
    R: Copy + Send + Sync + Drop + 'static,
{}
