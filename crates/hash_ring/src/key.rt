//! The keys of the ring and their positions.

ghost use Rattle.std.specs.Prelude.{◌≡◌, IfOk};
ghost use Rattle.std.specs.String.{string_bytes};
ghost use Rattle.hash_ring.specs.Key.{position_of, replica_key};

use conf_text::Dest;
use md5::{Digest, Md5};
use relay_base::NoMemory;
use std::alloc::Global;

/// The position of a key: the number that the first four hexadecimal digits of its MD5 write, 0 to
/// 65,535. The key of a metric is its name (the carbon documentation).
///
/// It takes no memory.
pub fn position(key: &[u8]) -> u16
    ensures { result ≡ position_of key.now }
{
    let digest = Md5::digest(key);
    u16::from_be_bytes([digest[0], digest[1]])
}

/// The key of replica `i` of a node: `('HOST', 'INSTANCE'):i`, or `('HOST', None):i` if the node has no
/// instance, with `i` in decimal (as carbon prints the pair; `docs/ROUTING.md`).
///
/// The port is not part of it.
pub fn replica_key(alloc: Global, node: &Dest, i: usize) -> Result<String, NoMemory>
    ensures { IfOk result (λ key. string_bytes key ≡ replica_key node.now i) }
{
    let key = match &node.instance {
        Some(instance) => format!(in alloc; "('{}', '{instance}'):{i}", node.host)?,
        None => format!(in alloc; "('{}', None):{i}", node.host)?,
    };
    Ok(key)
}
