//! The files of a command, each opened and read when its turn comes.

ghost use Rattle.std.specs.Prelude.{◌≡◌, ℕ, List, Option, ◌⊎◌, IfOk, IfErr};
ghost use Rattle.relay_files.specs.Files.{IsReadOf, Bytes};

use crate::fault::RelayFault;
use crate::input::{ReadFault, read_whole};
use crate::role::Role;
use std::alloc::Global;
use std::io;
use std::io::{ErrorKind, Read};

/// A file that can be opened.
pub trait Source {
    /// What reads the opened file.
    type Reader: Read + Drop;

    // The bytes of the file, if they are known.
    ghost bytes: { Self → Option (List ℕ) };

    /// Opens the file for reading from its first byte.
    fn open(&mut self) -> io::Result<Self::Reader>
        ensures { IfOk result (λ reader. Self.Reader.remaining reader ≡ bytes self.old) };
}

/// The files of a configuration, as sources.
#[derive(Drop)]
pub struct Sources<S> {
    /// The configuration file.
    pub config: S,
    /// The file of relay rules, if there is one.
    pub rules: Option<S>,
    /// The rewrite file, if there is one.
    pub rewrite: Option<S>,
}

/// Opens a file and reads it whole. A file that cannot be opened or read is `CannotRead`.
pub fn read_source<S: Source>(
    alloc: Global,
    role: Role,
    source: &mut S,
) -> Result<Vec<u8>, RelayFault>
    ensures ok { IfOk result (λ bytes. IsReadOf (S.bytes source.old) (Bytes bytes.items)) }
    ensures err { IfErr result
        (λ fault. (fault ≡ RelayFault.NoMemory) ⊎ (fault ≡ RelayFault.CannotRead role)) }
{
    let mut reader = match source.open() {
        Ok(reader) => reader,
        Err(error) if error.kind() == ErrorKind::OutOfMemory => return Err(RelayFault::NoMemory),
        Err(_) => return Err(RelayFault::CannotRead { role }),
    };
    match read_whole(alloc, &mut reader) {
        Ok(bytes) => Ok(bytes),
        Err(ReadFault::Device) => Err(RelayFault::CannotRead { role }),
        Err(ReadFault::NoMemory) => Err(RelayFault::NoMemory),
    }
}
