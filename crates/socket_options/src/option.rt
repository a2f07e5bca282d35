//! The options of a socket, which are whole numbers.

ghost use Rattle.libc.specs.Net.{SockOption};

use libc::net::setsockopt;

/// How many bytes the value of an option has.
const VALUE: u32 = 4;

/// Asks the system for an option of the socket with this descriptor.
pub(crate) fn set_option(descriptor: i32, level: i32, name: i32, value: i32)
    requires option { SockOption level name }
{
    let mut bytes = [0u8; 16];
    bytes[..4].copy_from_slice(&value.to_ne_bytes());
    let _ = unsafe { setsockopt(descriptor, level, name, &bytes, VALUE) };
}
