//! The file of an admin port's key.

use crate::files::read_key;
use admin_client::{LEAST_KEY, LONGEST_KEY, key_in};
use relay_files::{RelayFault, Status};
use std::alloc::Global;
use std::io::ErrorKind;

/// The bytes of a file, and its permissions.
#[derive(Drop)]
pub struct KeyFile {
    pub bytes: Vec<u8>,
    pub mode: u32,
}

/// The key in the file at a path, if one is named. With a fault of the file, it prints that and returns the status.
pub fn key_at(
    rt: &HostRuntime,
    alloc: Global,
    path: &Option<String>,
) -> Result<Option<Vec<u8>>, Status> {
    let Some(path) = path else {
        return Ok(None);
    };
    let path = path.as_str();
    let file = match read_key(rt, alloc, path) {
        Ok(file) => file,
        Err(error) if error.kind() == ErrorKind::OutOfMemory => return Err(no_memory(rt)),
        Err(error) => {
            let _ = eprintln!(rt; "relayd: admin key: {path}: {error}");
            return Err(Status::DeviceFault);
        }
    };
    let mode = file.mode;
    if !may_have(mode) {
        let _ = eprintln!(rt; "relayd: admin key: {path}: mode {mode:o}, not 600 or 640");
        return Err(Status::ConfigurationFault);
    }
    let key = match key_in(file.bytes.as_slice()) {
        Some(key) => Vec::from_slice(alloc, key).map_err(|_| Status::NoMemory),
        None => {
            let _ = eprintln!(rt;
                "relayd: admin key: {path}: the first line has not {LEAST_KEY} to {LONGEST_KEY} bytes"
            );
            Err(Status::ConfigurationFault)
        }
    };
    drop(file);
    match key {
        Ok(key) => Ok(Some(key)),
        Err(Status::NoMemory) => Err(no_memory(rt)),
        Err(status) => Err(status),
    }
}

/// The bytes of a key, if there is one.
pub fn slice_of(key: &Option<Vec<u8>>) -> Option<&[u8]> {
    match key {
        Some(key) => Some(key.as_slice()),
        None => None,
    }
}

/// Whether the file of a key may have these permissions: its owner alone may read it, or its group too. Nobody need be able to
/// write it.
fn may_have(mode: u32) -> bool {
    matches!(mode, 0o600 | 0o640 | 0o400 | 0o440)
}

/// Prints that there is no memory.
fn no_memory(rt: &HostRuntime) -> Status {
    let _ = eprintln!(rt; "relayd: {}", RelayFault::NoMemory);
    Status::NoMemory
}
