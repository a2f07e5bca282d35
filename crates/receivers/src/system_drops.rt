//! The datagrams that the system drops.

use relay_base::NoMemory;
use std::alloc::Global;
use std::fs::File;
use std::io::{Read, Seek, SeekFrom};
use std::net::{IpAddr, SocketAddr};

/// How many bytes of the system's table are looked at together. A line of it has some 200.
const LOOKED_AT: usize = 4_096;

const HEX_DIGITS: &[u8; 16] = b"0123456789ABCDEF";

/// The system's table of datagram sockets, `/proc/net/udp` or `/proc/net/udp6`, which says how many datagrams it has dropped
/// at one of them since the socket was made: its buffer was full.
#[derive(Drop)]
pub(crate) struct SystemDrops {
    table: File,
    // The socket's address, as the table writes it.
    key: Vec<u8>,
    buffer: Vec<u8>,
}

impl SystemDrops {
    /// What a table says of the socket with this address.
    pub(crate) fn new(
        alloc: Global,
        table: File,
        local: SocketAddr,
    ) -> Result<SystemDrops, NoMemory> {
        match room_for(alloc, local) {
            Ok((key, buffer)) => Ok(SystemDrops { table, key, buffer }),
            Err(fault) => {
                drop(table);
                Err(fault)
            }
        }
    }

    /// How many datagrams the system has dropped at the socket, if the table says so.
    pub(crate) fn count(&mut self) -> Option<u64> {
        self.table.seek(SeekFrom::Start(0)).ok()?;
        let mut kept = 0usize;
        for _ in 0..u64::MAX {
            if kept >= self.buffer.len() {
                return None;
            }
            let count = self.table.read(&mut self.buffer[kept..]).ok()?;
            if count == 0 {
                return None;
            }
            let held = kept.saturating_add(count).min(self.buffer.len());
            let (found, whole) = drops_in(&self.buffer[..held], self.key.as_slice());
            if found.is_some() {
                return found;
            }
            self.buffer.copy_within(whole.min(held)..held, 0);
            kept = held.saturating_sub(whole);
        }
        None
    }
}

/// The address as the table writes it, and a buffer.
fn room_for(alloc: Global, local: SocketAddr) -> Result<(Vec<u8>, Vec<u8>), NoMemory> {
    let mut key = Vec::new(alloc);
    push_key(&mut key, local)?;
    Ok((key, vec![in alloc; 0; LOOKED_AT]?))
}

/// Adds an address as the table writes it: each four bytes as one number of this machine, and the port, as hexadecimal.
fn push_key(key: &mut Vec<u8>, local: SocketAddr) -> Result<(), NoMemory> {
    match local.ip() {
        IpAddr::V4(ip) => push_words(key, &ip.octets())?,
        IpAddr::V6(ip) => push_words(key, &ip.octets())?,
    }
    key.push(b':')?;
    for byte in local.port().to_be_bytes() {
        push_hex(key, byte)?;
    }
    Ok(())
}

/// Adds the bytes of an address: the last of each four first.
fn push_words(key: &mut Vec<u8>, octets: &[u8]) -> Result<(), NoMemory> {
    for word in octets.chunks(4) {
        for byte in word.iter().rev() {
            push_hex(key, *byte)?;
        }
    }
    Ok(())
}

/// Adds the two digits of a byte.
fn push_hex(key: &mut Vec<u8>, byte: u8) -> Result<(), NoMemory> {
    key.push(HEX_DIGITS[usize::from(byte / 16)])?;
    Ok(key.push(HEX_DIGITS[usize::from(byte % 16)])?)
}

/// What the whole lines of a part of the table say of the socket with this key, and how many bytes these lines have.
fn drops_in(part: &[u8], key: &[u8]) -> (Option<u64>, usize) {
    let mut whole = 0usize;
    for line in part.split_inclusive(|byte| *byte == b'\n') {
        if !line.ends_with(b"\n") {
            break;
        }
        if has_address(line, key) {
            return (last_number(line), whole);
        }
        whole = whole.saturating_add(line.len());
    }
    (None, whole)
}

/// Whether the second field of a line is this key.
fn has_address(line: &[u8], key: &[u8]) -> bool {
    let mut fields = line
        .split(|byte| *byte == b' ')
        .filter(|field| !field.is_empty());
    let _place = fields.next();
    fields.next() == Some(key)
}

/// The number that is the last field of a line.
fn last_number(line: &[u8]) -> Option<u64> {
    let mut fields = line
        .split(|byte| matches!(*byte, b' ' | b'\n'))
        .filter(|field| !field.is_empty());
    let mut last = None;
    for field in fields {
        last = Some(field);
    }
    str::from_utf8(last?).ok()?.parse().ok()
}
