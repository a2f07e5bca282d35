//! The hosts by which a request may name the server.

ghost use Rattle.std.specs.Prelude.{◌≡◌};
ghost use Rattle.std.specs.List.{position};
ghost use Rattle.status_server.specs.OwnHost.{is_colon, is_bracket, up_to, past, host_name, is_local_name, is_own_host};

/// Whether a server at the loopback interface of this text may answer a request for this host, as a `Host` header has
/// it: it may be `localhost`, `127.0.0.1`, `[::1]` or the interface, each with a port or without.
///
/// A page of another site can have its own name resolved to the loopback interface, and then read what the server
/// answers; but its browser names that site as the host.
pub(crate) fn is_own_host(interface: &str, host: &[u8]) -> bool
    ensures { result ≡ is_own_host interface.now host.now }
{
    let name = host_name(host);
    is_local_name(name) || name == interface.as_bytes()
}

/// Whether a host without its port is a name of this machine for itself.
fn is_local_name(name: &[u8]) -> bool
    ensures { result ≡ is_local_name name.now }
{
    name == b"localhost".as_slice()
        || name == b"127.0.0.1".as_slice()
        || name == b"[::1]".as_slice()
}

/// The host without its port.
fn host_name(host: &[u8]) -> &[u8]
    ensures { result.now ≡ host_name host.now }
{
    match bracket_place(host) {
        Some(place) => &host[..place + 1],
        None => before_colon(host),
    }
}

/// The bytes before the first colon, or all.
fn before_colon(host: &[u8]) -> &[u8]
    ensures { result.now ≡ up_to (position is_colon host.now) host.now }
{
    match colon_place(host) {
        Some(place) => &host[..place],
        None => host,
    }
}

fn bracket_place(host: &[u8]) -> Option<usize>
    ensures { result ≡ position is_bracket host.now }
{
    host.iter().position(|byte| *byte == b']')
}

fn colon_place(host: &[u8]) -> Option<usize>
    ensures { result ≡ position is_colon host.now }
{
    host.iter().position(|byte| *byte == b':')
}
