//! Outputs that watch, or write nothing.

use std::io;
use std::io::Write;

/// An output, and whether something was written to it.
#[derive(Drop)]
pub struct WatchedOutput<W> {
    output: W,
    has_written: bool,
}

impl<W> WatchedOutput<W> {
    /// An output to which nothing was written.
    pub fn new(output: W) -> WatchedOutput<W> {
        WatchedOutput {
            output,
            has_written: false,
        }
    }

    /// Whether something was written.
    pub fn has_written(&self) -> bool {
        self.has_written
    }
}

impl<W: Write> Write for WatchedOutput<W> {
    fn write(&mut self, bytes: &[u8]) -> io::Result<usize> {
        let count = self.output.write(bytes)?;
        self.has_written = self.has_written || count > 0;
        Ok(count)
    }

    fn flush(&mut self) -> io::Result<()> {
        self.output.flush()
    }
}

/// An output that writes nothing.
#[derive(Drop)]
pub struct NoOutput;

impl Write for NoOutput {
    fn write(&mut self, bytes: &[u8]) -> io::Result<usize> {
        Ok(bytes.len())
    }

    fn flush(&mut self) -> io::Result<()> {
        Ok(())
    }
}
