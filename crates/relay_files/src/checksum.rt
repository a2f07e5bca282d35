//! A checksum of the files of a configuration.

ghost use Rattle.std.specs.Prelude.{◌≡◌};
ghost use Rattle.relay_files.specs.Checksum.{configuration_sum};

use md5::{DIGEST_LEN, Digest, Md5};

/// The MD5 (RFC 1321) of the bytes of a configuration file, a file of relay rules and a rewrite file, one behind the other:
/// relays that were started with the same files have the same. It tells files apart that differ by accident, and is no
/// signature.
pub fn configuration_sum(config: &[u8], rules: &[u8], rewrite: &[u8]) -> [u8; DIGEST_LEN]
    ensures { result ≡ configuration_sum config.now rules.now rewrite.now }
{
    let mut hasher = Md5::new();
    hasher.update(config);
    hasher.update(rules);
    hasher.update(rewrite);
    hasher.finalize()
}
