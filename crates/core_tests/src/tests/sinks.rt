//! Connections in memory that are written to; the tests see what they got.

use std::alloc::Global;
use std::cell::RefCell;
use std::io;
use std::io::{ErrorKind, Write};
use test_doubles::{FaultyStep, FaultyWriter};

/// A connection that got nothing yet, and takes bytes by these steps.
pub(crate) fn wire_of<'s>(alloc: Global, steps: &'s [FaultyStep]) -> RefCell<FaultyWriter<'s>> {
    RefCell::new(FaultyWriter::new(Vec::new(alloc), steps))
}

/// The writer's end of a connection.
#[derive(Drop)]
pub(crate) struct Sink<'w, 's> {
    pub(crate) wire: &'w RefCell<FaultyWriter<'s>>,
}

impl Write for Sink<'_, '_> {
    fn write(&mut self, buf: &[u8]) -> io::Result<usize> {
        match self.wire.try_borrow_mut() {
            Ok(mut wire) => wire.write(buf),
            Err(_) => Err(io::Error::from(ErrorKind::Other)),
        }
    }

    fn flush(&mut self) -> io::Result<()> {
        Ok(())
    }
}

/// Whether a connection got these bytes and no others.
pub(crate) fn got(wire: &RefCell<FaultyWriter<'_>>, bytes: &[u8]) -> bool {
    match wire.try_borrow() {
        Ok(wire) => wire.taken() == bytes,
        Err(_) => false,
    }
}
