//! Standard error as the output of the log.

use crate::file_limit::{ErrorRoom, file_limit};
use command_line::LogForm;
use log_format::{push_json_lines, push_timed_lines};
use relay_base::{NoMemory, utf8_text};
use relay_watchers::LogBuffer;
use std::alloc::{AllocError, Global};
use std::io;
use std::io::{ErrorKind, Stderr, Write};
use std::rt::Clock;
use std::sync::Wait;
use std::thread::Threads;

/// Standard error, with the lines of the log in their form. It refuses what has no room in its file, where the system would
/// end the process for it.
#[derive(Drop)]
struct LogOutput<R> {
    rt: R,
    output: Stderr,
    limit: Option<u64>,
    alloc: Global,
    form: LogForm,
}

/// The output of the log in this form, if there is to be one. A thread of its own writes to standard error, and asks `threads`
/// for the time, and what room there is. Refuses if that thread cannot be started.
pub fn log_output<R>(
    rt: &HostRuntime,
    alloc: Global,
    threads: R,
    form: Option<LogForm>,
) -> Result<Option<LogBuffer<R>>, NoMemory>
where
    R: Threads + Wait + Clock + ErrorRoom + Copy + Send + Drop + 'static,
{
    let Some(form) = form else {
        return Ok(None);
    };
    let output = LogOutput {
        rt: threads,
        output: rt.stderr(),
        limit: file_limit(rt),
        alloc,
        form,
    };
    Ok(Some(LogBuffer::start(threads, alloc, output)?))
}

impl<R: ErrorRoom + Clock> LogOutput<R> {
    /// Writes lines in their form, where there is room.
    fn write_text(&mut self, text: &[u8]) -> io::Result<()> {
        if self.rt.error_has_room(self.limit, text.len()) {
            self.output.write_all(text)
        } else {
            Err(io::Error::from(ErrorKind::FileTooLarge))
        }
    }

    /// The lines in their form.
    fn formatted(&self, lines: &str) -> Result<String, AllocError> {
        let seconds = seconds_now(&self.rt);
        let mut text = String::new(self.alloc);
        match self.form {
            LogForm::Text => text.push_str(lines)?,
            LogForm::Timed => push_timed_lines(&mut text, lines, seconds)?,
            LogForm::Json => push_json_lines(self.alloc, &mut text, lines, seconds)?,
        }
        Ok(text)
    }
}

/// The time in seconds since 1970; 0 if the clock cannot be read.
fn seconds_now<R: Clock>(rt: &R) -> u64 {
    match rt.since_1970() {
        Ok(time) => time.as_secs(),
        Err(_) => 0,
    }
}

impl<R: ErrorRoom + Clock> Write for LogOutput<R> {
    fn write(&mut self, bytes: &[u8]) -> io::Result<usize> {
        if let LogForm::Text = self.form {
            return if self.rt.error_has_room(self.limit, bytes.len()) {
                self.output.write(bytes)
            } else {
                Err(io::Error::from(ErrorKind::FileTooLarge))
            };
        }
        // The log writes whole lines.
        let lines = utf8_text(bytes).unwrap_or("");
        match self.formatted(lines) {
            Ok(text) => self.write_text(text.as_bytes())?,
            Err(_) => return Err(io::Error::from(ErrorKind::OutOfMemory)),
        }
        Ok(bytes.len())
    }

    fn flush(&mut self) -> io::Result<()> {
        self.output.flush()
    }
}
