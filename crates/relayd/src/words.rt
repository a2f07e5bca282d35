//! The words of this process, and the answer to words that name nothing to do.

use clap::Error;
use clap::error::ErrorKind;
use command_line::{Invocation, parse_words};
use relay_files::Status;
use std::alloc::Global;
use std::{env, io};

/// What the words of this process ask for. If they name nothing to do, or ask for help, it prints the
/// text of `clap`, and returns the status.
pub fn parse_args(rt: &HostRuntime, alloc: Global) -> Result<Invocation, Status> {
    let args = env::args(rt).map_err(|error| report_words(rt, error.kind()))?;
    let words: Vec<String> = args.collect(alloc).map_err(|_| Status::NoMemory)?;
    match parse_words(alloc, words.as_slice()) {
        Ok(invocation) => Ok(invocation),
        Err(error) => Err(report_parse(rt, &error)),
    }
}

/// The status of words that could not be read: out of memory, or one is not UTF-8.
fn report_words(rt: &HostRuntime, kind: io::ErrorKind) -> Status {
    if kind == io::ErrorKind::OutOfMemory {
        let _ = eprintln!(rt; "relayd: no memory");
        return Status::NoMemory;
    }
    let _ = eprintln!(rt;
        "error: a word of the command line is not UTF-8\n\nFor more information, try '--help'."
    );
    Status::Usage
}

/// Prints the text of `clap`, and returns the status.
fn report_parse(rt: &HostRuntime, error: &Error) -> Status {
    if error.kind() == ErrorKind::OutOfMemory {
        let _ = eprintln!(rt; "relayd: no memory");
        return Status::NoMemory;
    }
    let printed = error.print(rt);
    match (error.use_stderr(), printed) {
        (true, _) => Status::Usage,
        (false, Ok(())) => Status::Done,
        (false, Err(_)) => {
            let _ = eprintln!(rt; "relayd: output");
            Status::DeviceFault
        }
    }
}
