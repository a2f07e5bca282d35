//! `relayd`: the program. It reads its words, runs the command that they name on the standard streams, and
//! ends with the status that the command gave.
//!
//! The commands themselves are the libraries `pass_lines`, `relay_commands` and `relay_run`, over any readers and
//! writers; their READMEs say what each is proved to do.
#![tactic(auto)]

ghost use Rattle.std.specs.Prelude.{◌≡◌};
ghost use Rattle.relay_files.specs.Fault.{status_at_end};

mod admin;
mod admin_key;
mod bad_frame;
mod bytes_read;
mod checking;
mod explain;
mod file_limit;
mod files;
mod frame_notes;
mod json_notes;
mod json_report;
mod json_route;
mod live_route;
mod log_output;
mod memory_there;
mod names_lines;
mod note_output;
mod open_files;
mod passing;
mod pickle_pass;
mod read_files;
mod record_file;
mod reload_files;
mod replaying;
mod reread_files;
mod routing;
mod running;
mod spool_folder;
mod started_paths;
mod strict;
mod system_faults;
mod watched_output;
mod watched_reader;
mod watched_route;
mod watching;
mod watching_output;
mod words;

use checking::run_check;
use command_line::Invocation;
use explain::{CommandEnd, end_with_notes, wants_notes};
use file_limit::{ErrorRoom, LimitedOutput, file_limit, limited_output};
use live_route::run_live_route;
use open_files::Files;
use passing::run_pass;
use read_files::ReadsFiles;
use relay_files::{RelayFault, Status};
use relay_run::SystemTables;
use relay_watchers::SystemFacts;
use replaying::run_replay;
use routing::run_route;
use running::run_relay;
use senders::Resolve;
use spool::SpoolDisk;
use std::alloc::Global;
use std::io::BufWriter;
use std::net::{Net, TcpListener, TcpStream};
use std::process::ExitCode;
use std::random::RandomSource;
use std::rt::Clock;
use std::sync::Wait;
use std::thread::Threads;
use watching::run_watch;

/// The room for output between two writes, in bytes.
const OUTPUT_ROOM: usize = 65_536;

/// How many bytes the line of a fault has at most.
const LONGEST_FAULT: usize = 100;

fn main(rt: HostRuntime) -> ExitCode {
    let status = match words::parse_args(&rt, rt.alloc()) {
        Ok(invocation) => {
            let files = Files::new(&rt, wants_notes(&invocation));
            let ended = run(&files, &rt, rt.alloc(), &invocation);
            let fault = match &ended {
                Ok(_) => None,
                Err(fault) => Some(*fault),
            };
            let status = print_fault(&rt, ended);
            let end = CommandEnd { status, fault };
            end_with_notes(&files, rt.alloc(), &invocation, end)
        }
        Err(status) => status,
    };
    ExitCode::from(status.code())
}

/// Runs a command on the standard streams. `threads` starts the relay's threads, and is the runtime too:
/// only the program's first function has it with threads in it.
fn run<'a, R>(
    files: &'a Files<'a>,
    threads: &R,
    alloc: Global,
    invocation: &'a Invocation,
) -> Result<Status, RelayFault>
where
    R: Threads + Wait + Clock + Resolve + SystemFacts + SystemTables + SpoolDisk,
    R: RandomSource + ErrorRoom + ReadsFiles,
    R: Net<Listener = TcpListener, Stream = TcpStream>,
    R: Copy + Send + Sync + Drop + 'static,
{
    let rt = files.runtime();
    match invocation {
        Invocation::Pass(command) => run_pass(rt, alloc, command),
        Invocation::Check(command) => run_check(files, alloc, &command.paths, command.form),
        Invocation::Route(command) => run_route(files, alloc, command),
        Invocation::LiveRoute(command) => run_live_route(files, alloc, command),
        Invocation::Replay(command) => run_replay(files, alloc, command),
        Invocation::Run(command) => run_relay(files, threads, alloc, command),
        Invocation::Report { admin, form } => Ok(admin::report(rt, alloc, admin, *form)),
        Invocation::Watch { admin, watching } => {
            Ok(run_watch(rt, threads, alloc, admin, watching))
        }
        Invocation::Stop { admin, waits } => Ok(admin::stop(rt, alloc, admin, *waits)),
        Invocation::Restart {
            paths,
            admin,
            explain,
        } => admin::restart(files, alloc, paths, admin, *explain),
        Invocation::Reload { admin, explain } => Ok(admin::reload(rt, alloc, admin, *explain)),
    }
}

/// Standard output, written when the room is full or it is flushed.
pub fn buffered_output(
    rt: &HostRuntime,
    alloc: Global,
) -> Result<BufWriter<LimitedOutput<'_>>, RelayFault> {
    BufWriter::with_capacity(alloc, OUTPUT_ROOM, limited_output(rt)).map_err(
        |_| RelayFault::NoMemory,
    )
}

/// Prints the fault of a command on standard error, if it has one. Returns the status.
fn print_fault(rt: &HostRuntime, run: Result<Status, RelayFault>) -> Status
    ensures { result ≡ status_at_end run }
{
    match run {
        Ok(status) => status,
        Err(fault) => {
            if rt.error_has_room(file_limit(rt), LONGEST_FAULT) {
                let _ = eprintln!(rt; "relayd: {fault}");
            }
            fault.status()
        }
    }
}
