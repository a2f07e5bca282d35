//! What the status shows.

use conf_text::Dest;
use dest_queue::Counts;
use log_lines::{DestWrites, LossCounts, ProducerCounts, ReceiverCounts, ReceiverState, Why};

/// How a datapoint is watched: the admin port of the relay, and whether it has a key.
#[derive(Clone, Copy)]
pub struct WatchedAt {
    /// The admin port.
    pub admin: u16,
    /// Whether it has a key.
    pub has_key: bool,
}

/// A running relay at a moment.
#[derive(Drop)]
pub struct Snapshot {
    /// The version of the program.
    pub version: String,
    /// The checksum of the files that it was started with.
    pub configuration: String,
    /// The name of the machine.
    pub host: String,
    /// The time now, in seconds since 1970.
    pub clock: u64,
    /// When the relay started, in seconds since 1970.
    pub started: u64,
    /// For how many seconds the relay has run.
    pub uptime: u64,
    /// Whether it is about to end: it receives nothing any more, and sends what is queued.
    pub is_stopping: bool,
    /// How many datapoints each queue holds at most.
    pub queue_size: u64,
    /// How many datapoints all queues hold.
    pub queued: u64,
    /// What all receivers and queues counted in each second of the last sample.
    pub rates: Rates,
    /// For how many seconds no receiver has accepted a datapoint.
    pub silence: u64,
    /// The second since 1970 at which one last did; the start if none did.
    pub input_at: u64,
    /// What the system counts of the process.
    pub process: ProcessCounts,
    /// The destinations, in the order of DESTINATIONS.
    pub dests: Vec<DestSnapshot>,
    /// The receivers.
    pub receivers: Vec<ReceiverSnapshot>,
    /// The producers that sent most in the last ten seconds, the greatest first.
    pub producers: Vec<ProducerSnapshot>,
    /// The other ones.
    pub other_producers: OtherProducers,
    /// For how many seconds each sample counts, about.
    pub sample_seconds: u64,
    /// The samples of the last minutes, the oldest first.
    pub samples: Vec<Sample>,
    /// How its datapoints are watched.
    pub watched_at: WatchedAt,
}

/// What the system counts of a process.
#[derive(Clone, Copy)]
pub struct ProcessCounts {
    /// The processor's time that it has taken, in hundredths of a second.
    pub processor: u64,
    /// Its memory that is resident, in bytes.
    pub resident: u64,
    /// The descriptors that it has open.
    pub descriptors: u64,
    /// The descriptors that it may have open.
    pub most_descriptors: u64,
}

/// A destination at a moment.
#[derive(Drop)]
pub struct DestSnapshot {
    /// The destination.
    pub dest: Dest,
    /// What its queue has counted.
    pub counts: Counts,
    /// Whether it has a connection.
    pub is_up: bool,
    /// Whether it never had one, and not all addresses of its host were tried.
    pub is_starting: bool,
    /// For how many seconds it has had one, or has had none.
    pub since: u64,
    /// What its queue counted in each second of the last sample.
    pub rates: Rates,
    /// What went wrong last with its connection, if anything did.
    pub last_error: Option<Why>,
    /// How many seconds ago that was.
    pub error_age: u64,
    /// The second since 1970 at which it was connected, or was first seen without a connection.
    pub changed_at: u64,
    /// How many datapoints its queue holds at most.
    pub size: u64,
    /// How often it was connected, lost its connection and could not be connected.
    pub connections: ConnectionCounts,
    /// What its connections took.
    pub writes: DestWrites,
    /// The second since 1970 at which its queue last gave something to a connection; 0 if it never did.
    pub written_at: u64,
    /// For how many seconds its queue has had datapoints and has given none to a connection.
    pub stalled: u64,
    /// For how many milliseconds at most the oldest datapoint in its queue has been there; 0 if there is none.
    pub oldest: u64,
    /// How many seconds ago its queue last dropped a datapoint, if it ever did.
    pub drop_age: Option<u64>,
    /// What waits in its file.
    pub spool: SpoolSnapshot,
}

/// What waits in the file of a destination.
#[derive(Clone, Copy)]
pub struct SpoolSnapshot {
    /// The datapoints, as far as the file can be read.
    pub datapoints: u64,
    /// Their bytes.
    pub bytes: u64,
    /// How many seconds ago the file was last written; 0 if nothing waits.
    pub age: u64,
    /// How many of the datapoints went out in each second of the last sample.
    pub rate: u64,
    /// By how many bytes they grew in each second of the last sample.
    pub growth: u64,
    /// How many bytes more its files may have while the relay runs; 0 if they are written at its end alone.
    pub room: u64,
    /// Whether they take no more for now.
    pub is_full: bool,
}

/// How often a destination was connected, lost its connection and could not be connected.
#[derive(Clone, Copy)]
pub struct ConnectionCounts {
    /// The connections that were made.
    pub made: u64,
    /// The connections that were lost.
    pub lost: u64,
    /// The connections that were lost in the last minute.
    pub lost_lately: u64,
    /// The tries to connect that failed.
    pub failed_tries: u64,
}

/// A receiver at a moment.
#[derive(Drop)]
pub struct ReceiverSnapshot {
    /// Its name.
    pub name: String,
    /// Whether it receives.
    pub state: ReceiverState,
    /// What it has counted.
    pub counts: ReceiverCounts,
    /// What it lost or closed, by the reason.
    pub losses: LossCounts,
    /// How many connections it has taken.
    pub taken: u64,
    /// How many datapoints it accepted in each second of the last sample.
    pub rate: u64,
    /// How many lines, pickles, rows and names were bad in each second of the last samples.
    pub bad_rate: u64,
    /// How many seconds ago input was last bad, if it ever was.
    pub bad_age: Option<u64>,
}

/// A producer at a moment: all that came from one address.
#[derive(Drop)]
pub struct ProducerSnapshot {
    /// Its address.
    pub address: String,
    /// What came from there in each of the last seconds.
    pub rates: ProducerCounts,
    /// How many connections it has open.
    pub connections: u64,
    /// How many seconds ago the oldest of these was taken; 0 if there is none.
    pub age: u64,
}

/// The producers that are not shown.
#[derive(Clone, Copy)]
pub struct OtherProducers {
    /// How many addresses these are, as far as they were told apart.
    pub addresses: u64,
    /// What came from all of them in each of the last seconds.
    pub rates: ProducerCounts,
}

/// How many datapoints were counted in a second.
#[derive(Clone, Copy)]
pub struct Rates {
    /// Those received: at a destination, those that its queue was offered.
    pub received: u64,
    /// Those that senders took out of a queue to write them.
    pub written: u64,
    /// Those that a full queue dropped.
    pub dropped: u64,
}

/// How many datapoints were counted in a time.
#[derive(Clone, Copy)]
pub struct Sample {
    /// The length of that time, in milliseconds.
    pub millis: u64,
    /// Those received.
    pub received: u64,
    /// Those that senders took out of a queue to write them.
    pub written: u64,
    /// Those that a full queue dropped.
    pub dropped: u64,
}
