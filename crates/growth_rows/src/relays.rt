//! The row of `relay_run`: a relay in the first thread, and its client in another.

use crate::marks::{print_answer, print_text};
use finished_run::NoRecorder;
use relay_base::NoMemory;
use relay_files::{RelayFault, RunConfiguration, Source, Sources, Status};
use relay_options::RunOptions;
use relay_run::{FilesAsked, RefusedReload, RelayRuntime, ReloadSource, RunObservers, RunSetup};
use spool::{SpoolFiles, Unopened};
use std::alloc::Global;
use std::io::{Read, Sink, Write};
use std::net::{
    Ipv4Addr, Net, OpenListener, OpenStream, Shutdown, SocketAddr, TcpListener, TcpStream,
};
use std::rt::Clock;
use std::sync::Wait;
use std::thread::{JoinHandle, Threads};
use std::time::Duration;
use std::{io, thread};

/// Rows that are refused no growth.
pub(crate) const WORKED: &[&str] = &["a relay and its client"];

pub(crate) fn run<R: RelayRuntime>(
    rt: &HostRuntime,
    threads: &R,
    alloc: Global,
    name: &str,
) -> Option<()> {
    match name {
        "a relay and its client" => run_relay(rt, threads, alloc),
        _ => None,
    }
}

/// A ring of two stores, at whose ports nothing listens; no port of producers is open.
const CONFIGURATION: &str = "\
[relay]
DESTINATIONS = 127.0.0.1:1:a, 127.0.0.1:2:b
RELAY_METHOD = consistent-hashing
USE_FLOW_CONTROL = False
DESTINATION_PROTOCOL = line
LINE_RECEIVER_PORT = 0
PICKLE_RECEIVER_PORT = 0
";

/// A configuration file in memory.
#[derive(Drop)]
struct ConfigurationText<'c> {
    text: &'c str,
}

impl<'c> Source for ConfigurationText<'c> {
    type Reader = &'c [u8];

    ghost use Rattle.std.specs.Prelude.{Some};

    ghost bytes = { λ c. Some c.text.now };

    fn open(&mut self) -> io::Result<&'c [u8]> {
        Ok(self.text.as_bytes())
    }
}

/// Who reads no files for a reload.
#[derive(Drop)]
struct NoFiles;

impl ReloadSource for NoFiles {
    fn key(&self) -> Option<&[u8]> {
        None
    }

    fn begin(&self, alloc: Global) -> Result<(), RefusedReload> {
        Err(RefusedReload::no_memory(alloc))
    }

    fn look(&self, _alloc: Global) -> Option<Result<RunConfiguration, RefusedReload>> {
        None
    }

    fn open(&self, alloc: Global, asked: FilesAsked) -> Result<(), RefusedReload> {
        drop(asked);
        Err(RefusedReload::no_memory(alloc))
    }

    fn opened(&self) -> Option<Result<SpoolFiles, Unopened>> {
        None
    }

    fn names(&self, alloc: Global) -> Result<String, NoMemory> {
        Ok(String::new(alloc))
    }
}

/// Runs a relay, which a client asks and stops. Prints the answers, how the run ended, and what it wrote.
fn run_relay<R: RelayRuntime>(rt: &HostRuntime, threads: &R, alloc: Global) -> Option<()> {
    let port = free_port(threads)?;
    let asking = start_client(*threads, alloc, port)?;
    let mut output = Vec::new(alloc);
    let ended = run_until_stopped(threads, alloc, port, &mut output);
    let answers = asking.join(threads);
    print_text(rt, "answer", answers.as_slice());
    print_end(rt, ended);
    print_text(rt, "state", output.as_slice());
    Some(())
}

/// Runs a relay with one sender until its admin port takes `stop`.
fn run_until_stopped<R: RelayRuntime>(
    rt: &R,
    alloc: Global,
    admin: u16,
    output: &mut Vec<u8>,
) -> Result<Status, RelayFault> {
    let mut sources = Sources {
        config: ConfigurationText {
            text: CONFIGURATION,
        },
        rules: None,
        rewrite: None,
    };
    let files = NoFiles;
    let setup = RunSetup {
        options: RunOptions::new(admin),
        folder: None,
        files: &files,
    };
    let observers = RunObservers {
        log: None::<Sink>,
        recorder: None::<NoRecorder>,
    };
    relay_run::run(rt, alloc, &mut sources, setup, output, observers)
}

/// Prints the status of a run, or its fault.
fn print_end(rt: &HostRuntime, ended: Result<Status, RelayFault>) {
    match ended {
        Ok(status) => print_answer(rt, &status.code()),
        Err(fault) => print_answer(rt, &fault),
    }
}

/// Starts the thread of a client, which gives all that a relay answers it. The bounds stand here one by one: the check of
/// borrows does not cover the short form where a thread is started.
fn start_client<
    R: Threads
        + Wait
        + Clock
        + Net<Listener = TcpListener, Stream = TcpStream>
        + Copy
        + Send
        + Sync
        + Drop
        + 'static,
>(rt: R, alloc: Global, port: u16) -> Option<JoinHandle<Vec<u8>>> {
    thread::spawn(&rt, move || ask_all(&rt, alloc, port)).ok()
}

/// What the admin port is sent, each over a connection of its own: a command, what is none, and the one that ends the run.
static COMMANDS: [&str; 3] = ["report\n", "x\n", "stop\n"];

/// Sends these to an admin port. Returns the answers, one after another.
fn ask_all<R: Clock + Net>(rt: &R, alloc: Global, port: u16) -> Vec<u8> {
    let mut answers = Vec::new(alloc);
    for command in &COMMANDS {
        ask(rt, port, command.as_bytes(), &mut answers);
    }
    answers
}

/// Sends a command to an admin port, and adds the answer to these.
fn ask<R: Clock + Net>(rt: &R, port: u16, command: &[u8], answers: &mut Vec<u8>) {
    let Some(mut stream) = connection_to(rt, port) else {
        return;
    };
    if stream.write_all(command).is_ok() && stream.shutdown(Shutdown::Write).is_ok() {
        let _ = stream.read_to_end(answers);
    }
}

/// How often a connection is tried, and how many milliseconds lie between two tries: ten seconds together.
const MOST_TRIES: u64 = 1_000;

const PAUSE_MS: u64 = 10;

/// A connection to a port of this machine, at which a relay begins to listen.
fn connection_to<R: Clock + Net>(rt: &R, port: u16) -> Option<R::Stream> {
    for _ in 0..MOST_TRIES {
        if let Ok(stream) = rt.connect(port_here(port)) {
            return Some(stream);
        }
        let _ = thread::sleep(rt, Duration::from_millis(PAUSE_MS));
    }
    None
}

/// A port of this machine at which nothing listens.
fn free_port<R: Net>(rt: &R) -> Option<u16> {
    let listener = rt.bind(port_here(0)).ok()?;
    Some(listener.local_addr().ok()?.port())
}

/// The address of a port of this machine.
fn port_here(port: u16) -> SocketAddr {
    SocketAddr::from((Ipv4Addr::LOCALHOST, port))
}
