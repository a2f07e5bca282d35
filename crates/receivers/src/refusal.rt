//! What the errors of a listener and of a datagram socket mean.

use crate::accept::AcceptOutcome;
use std::io::{Error, ErrorKind};

/// The system's number for: too many open files in the process.
const EMFILE: i32 = 24;

/// Its numbers for errors of a socket that cannot pass: a bad descriptor, a bad address, an invalid argument, no socket.
const EBADF: i32 = 9;

const EFAULT: i32 = 14;

const EINVAL: i32 = 22;

const ENOTSOCK: i32 = 88;

/// Its numbers for what went wrong with a connection before it was taken, and has no kind: no such network, no protocol,
/// protocol error, protocol option, operation not supported, host down.
const ENONET: i32 = 64;

const EPROTO: i32 = 71;

const ENOPROTOOPT: i32 = 92;

const EOPNOTSUPP: i32 = 95;

const EHOSTDOWN: i32 = 112;

/// The error of a connection for which no descriptor is left.
pub(crate) fn no_descriptor() -> Error {
    Error::from_raw_os_error(EMFILE)
}

/// Whether an error of a listener or of a socket of datagrams cannot pass. One that can ends no receiver: it tries again in
/// each later turn.
pub(crate) fn is_final(error: &Error) -> bool {
    matches!(
        error.raw_os_error(),
        Some(EBADF | EFAULT | EINVAL | ENOTSOCK)
    )
}

/// The error that a datagram receiver gets for this one: `WouldBlock` for each that can pass, so that it tries again.
pub(crate) fn passing(error: Error) -> Error {
    if is_final(&error) || matches!(error.kind(), ErrorKind::Interrupted) {
        error
    } else {
        Error::from(ErrorKind::WouldBlock)
    }
}

/// What a listener's error means for the connections that wait.
pub(crate) fn refused<S>(error: &Error) -> AcceptOutcome<S> {
    if is_final(error) {
        return AcceptOutcome::Failed;
    }
    match error.raw_os_error() {
        Some(ENONET | EPROTO | ENOPROTOOPT | EOPNOTSUPP | EHOSTDOWN) => AcceptOutcome::Closed,
        _ => refused_as(error.kind()),
    }
}

/// What an error of this kind means for the connections that wait. The system also reports in this way what went wrong
/// with a connection before it was taken; the others wait no longer for that.
fn refused_as<S>(kind: ErrorKind) -> AcceptOutcome<S> {
    match kind {
        ErrorKind::WouldBlock => AcceptOutcome::Nothing,
        ErrorKind::Interrupted
        | ErrorKind::ConnectionAborted
        | ErrorKind::ConnectionReset
        | ErrorKind::HostUnreachable
        | ErrorKind::NetworkUnreachable
        | ErrorKind::NetworkDown => AcceptOutcome::Closed,
        _ => AcceptOutcome::Later,
    }
}
