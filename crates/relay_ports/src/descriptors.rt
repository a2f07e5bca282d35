//! The file descriptors that a relay needs, and those that its receivers may take for connections.

ghost use Rattle.std.specs.Prelude.{◌≡◌, true, IfErr};
ghost use Rattle.relay_ports.specs.StartFault.{is_start_fault};

use conf_text::Settings;
use mio::Poll;
use mio_loops::MOST_CONNECTIONS;
use receivers::ConnectionRoom;
use relay_base::{NoMemory, add};
use relay_files::{ListenRole, RelayFault};
use relay_options::RunOptions;
use std::alloc::Global;
use std::net::Net;
use std::sync::Arc;

/// How many descriptors are kept beside those of the stores: of the admin port the spare one and that of a connection,
/// that of a connection to the status server, and that of a look-up.
const KEPT_FOR_OTHERS: usize = 4;

/// How many descriptors a destination has at most that is diverted to files: the connection of the keeper of these, the file that
/// is sent, and the one that is written.
const DIVERTED: usize = 3;

/// How many descriptors a receiver has: its port, another one of it that the first thread keeps, and what it waits with, which is
/// two.
pub(crate) const DESCRIPTORS_EACH: usize = 4;

/// What the descriptors of a run are for, beside its ports.
#[derive(Clone, Copy)]
struct Uses {
    /// Receivers of connections, and all receivers.
    streams: usize,
    receivers: usize,
    /// What threads wait with: one for each, and its alarm. A receiver of datagrams has the system's table of them.
    threads: usize,
    /// One for each destination, [`DIVERTED`] more if destinations are diverted, and [`KEPT_FOR_OTHERS`].
    kept: usize,
}

impl Uses {
    fn of(settings: &Settings, options: RunOptions) -> Uses {
        let lines = if settings.line_receiver_port() > 0 {
            options.line_receivers.count()
        } else {
            0
        };
        let pickles = usize::from(settings.pickle_receiver_port() > 0);
        let has_datagrams = settings.enable_udp_listener() && settings.udp_receiver_port() > 0;
        let datagrams = usize::from(has_datagrams);
        let streams = lines.saturating_add(pickles);
        let receivers = streams.saturating_add(datagrams);
        let threads = receivers
            .saturating_add(options.senders.count())
            .saturating_add(usize::from(options.spool_size.is_some()));
        let of_dest = if options.spool_size.is_some() {
            DIVERTED + 1
        } else {
            1
        };
        Uses {
            streams,
            receivers,
            threads: threads.saturating_mul(2).saturating_add(datagrams),
            kept: settings
                .destinations()
                .len()
                .saturating_mul(of_dest)
                .saturating_add(KEPT_FOR_OTHERS),
        }
    }

    /// How many are not for connections of producers.
    fn own(self) -> usize {
        self.threads.saturating_add(self.kept)
    }

    /// The least number, with a connection for each receiver of connections.
    fn least(self) -> usize {
        self.own().saturating_add(self.streams)
    }

    /// The greatest number that is of use, with all connections that receivers may hold.
    fn most(self) -> usize {
        self.own()
            .saturating_add(self.streams.saturating_mul(MOST_CONNECTIONS))
    }
}

/// How many descriptors a relay needs at least beside its ports: two for each receiver and each sender, one more for
/// datagrams and for a connection of each receiver of connections, one for each destination, and four for other uses. If
/// destinations are diverted to files, two more for the keeper of these, and three more for each destination.
pub fn descriptors_needed(settings: &Settings, options: RunOptions) -> usize {
    Uses::of(settings, options).least()
}

/// How many descriptors the system has left for the process, as far as this number. It takes them for a moment. Refuses
/// if there is no memory for a list of them.
pub fn free_descriptors<R: Net>(rt: &R, alloc: Global, most: usize) -> Result<usize, NoMemory> {
    let mut taken = Vec::new(alloc);
    let counted = take_descriptors(rt, most, &mut taken);
    let count = taken.len();
    drop(taken);
    counted?;
    Ok(count)
}

/// Takes descriptors into a list, as many as the system gives, up to this number.
fn take_descriptors<R: Net>(rt: &R, most: usize, taken: &mut Vec<Poll>) -> Result<(), NoMemory> {
    for _ in 0..most {
        match Poll::new(rt) {
            Ok(poll) => add(taken, poll)?,
            Err(_) => return Ok(()),
        }
    }
    Ok(())
}

/// The room that limits how many connections the receivers hold together, so that those descriptors are left that the relay
/// needs for all else. If all connections that the receivers may hold leave enough, nothing is limited. Refuses (`Listen` of
/// the admin port) fewer than [`descriptors_needed`]: the relay could be deaf then, or not be stopped.
pub(crate) fn room_of<R: Net>(
    rt: &R,
    alloc: Global,
    settings: &Settings,
    options: RunOptions,
) -> Result<Option<Arc<ConnectionRoom>>, RelayFault>
    ensures { IfErr result (λ fault. is_start_fault fault ≡ true) }
{
    let uses = Uses::of(settings, options);
    // Each receiver gets another one of its port, which is bound.
    let most = uses.most().saturating_add(uses.receivers);
    let free = free_descriptors(rt, alloc, most)?.saturating_sub(uses.receivers);
    if free < uses.least() {
        return Err(RelayFault::Listen {
            role: ListenRole::Admin,
        });
    }
    if free < uses.most() {
        let room = ConnectionRoom::new(free.saturating_sub(uses.own()));
        return match Arc::new(alloc, room) {
            Ok(room) => Ok(Some(room)),
            Err(_) => Err(RelayFault::NoMemory),
        };
    }
    Ok(None)
}

/// Whether the system has enough descriptors left for all connections that the receivers of these settings may hold.
pub(crate) fn has_room_for<R: Net>(
    rt: &R,
    alloc: Global,
    settings: &Settings,
    options: RunOptions,
) -> Result<bool, NoMemory> {
    let most = Uses::of(settings, options).most();
    Ok(free_descriptors(rt, alloc, most)? >= most)
}

/// How many receivers a run by settings has.
pub fn receivers_of(settings: &Settings, options: RunOptions) -> usize {
    Uses::of(settings, options).receivers
}
