//! The tables of the system.

use std::fs::File;
use std::io;

/// Opens the tables of the system, in which receivers read what it drops at their sockets.
///
/// It is a trait of its own, beside the kit's `Files`, since a thread's bounds may have no types in them.
pub trait SystemTables {
    /// Opens the table at a path.
    fn open_table(&self, path: &str) -> io::Result<File>;
}

impl SystemTables for HostRuntime {
    fn open_table(&self, path: &str) -> io::Result<File> {
        File::open(self, path)
    }
}
