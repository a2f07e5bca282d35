//! Makes the calls of a worked example for `e2e/refusals.py`, which compares what they answer with a table, and refuses
//! them memory: once for each growth that they make.
//!
//! The argument is the row's name; without one, all names are printed. A row prepares what its calls need, and then
//! prints what each is given (`state`), `call` and `done` directly before and after the call, the answer, and what
//! the call has left. After out of memory it makes the same call again. A preloaded library refuses growths between
//! `call` and `done` alone.
#![tactic(auto)]

mod books;
mod configurations;
mod lines;
mod locks;
mod loops;
mod marks;
mod orders;
mod pickles;
mod queues;
mod readers;
mod relays;
mod reports;
mod rewriting;
mod rings;
mod routing;
mod threads;
mod worlds;
mod writers;

use relay_run::SystemTables;
use relay_watchers::SystemFacts;
use senders::Resolve;
use spool::SpoolDisk;
use std::alloc::Global;
use std::env;
use std::net::{Net, TcpListener, TcpStream};
use std::process::ExitCode;
use std::random::RandomSource;
use std::rt::Clock;
use std::sync::Wait;
use std::thread::Threads;

/// The status where there is no such row, or a row met what it should not.
const FAILED: u8 = 1;

fn main(rt: HostRuntime) -> ExitCode {
    let Ok(args) = env::args(&rt) else {
        return ExitCode::from(FAILED);
    };
    for name in args.skip(1) {
        let is_run = run(&rt, &rt, rt.alloc(), name.as_str());
        return ExitCode::from(if is_run { 0 } else { FAILED });
    }
    print_names(&rt);
    ExitCode::from(0)
}

/// The names of all rows, by module.
static NAMES: [&[&str]; 25] = [
    lines::NAMES,
    lines::WORKED,
    pickles::NAMES,
    pickles::WORKED,
    configurations::NAMES,
    configurations::WORKED,
    rings::NAMES,
    rings::WORKED,
    rewriting::NAMES,
    routing::NAMES,
    routing::WORKED,
    readers::NAMES,
    queues::NAMES,
    writers::WORKED,
    reports::NAMES,
    orders::NAMES,
    worlds::NAMES,
    worlds::WORKED,
    books::NAMES,
    books::WORKED,
    locks::NAMES,
    loops::NAMES,
    loops::WORKED,
    threads::NAMES,
    relays::WORKED,
];

/// Prints the names of all rows.
fn print_names(rt: &HostRuntime) {
    for names in &NAMES {
        for name in *names {
            let _ = rt.println(*name);
        }
    }
}

/// Runs the row of this name. Returns whether it ran: false if there is none, or it could not be prepared, or the call
/// was refused twice. `waits` is the runtime too, by which a row may wait and start threads.
fn run<R>(rt: &HostRuntime, waits: &R, alloc: Global, name: &str) -> bool
where
    R: Threads + Wait + Clock + Resolve + SystemFacts + SystemTables + SpoolDisk + RandomSource,
    R: Net<Listener = TcpListener, Stream = TcpStream>,
    R: Copy + Send + Sync + Drop + 'static,
{
    texts(rt, alloc, name)
        || core(rt, alloc, name)
        || books::run(rt, alloc, name).is_some()
        || locks::run(rt, waits, alloc, name).is_some()
        || loops::run(rt, alloc, name).is_some()
        || threads::run(rt, waits, alloc, name).is_some()
        || relays::run(rt, waits, alloc, name).is_some()
}

/// Runs the row of this name, if it is of the crates that read texts and route.
fn texts(rt: &HostRuntime, alloc: Global, name: &str) -> bool {
    lines::run(rt, alloc, name).is_some()
        || pickles::run(rt, alloc, name).is_some()
        || configurations::run(rt, alloc, name).is_some()
        || rings::run(rt, alloc, name).is_some()
        || rewriting::run(rt, alloc, name).is_some()
        || routing::run(rt, alloc, name).is_some()
}

/// Runs the row of this name, if it is of the crates that queue, write and report.
fn core(rt: &HostRuntime, alloc: Global, name: &str) -> bool {
    readers::run(rt, alloc, name).is_some()
        || queues::run(rt, alloc, name).is_some()
        || writers::run(rt, alloc, name).is_some()
        || reports::run(rt, alloc, name).is_some()
        || orders::run(rt, alloc, name).is_some()
        || worlds::run(rt, alloc, name).is_some()
}
