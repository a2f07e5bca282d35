//! What the threads that watch a run do.

ghost use Rattle.std.specs.Prelude.{◌≡◌, ◌↔◌, length, IfOk, IsSome};

use crate::late_news::LateNews;
use crate::log_job::{LogJob, log_to};
use crate::receiver_log::{ReceiverLog, WatchedReceiver, watched_of};
use crate::status_job::{StatusJob, StatusServer, StatusWatch, status_at};
use locked_queues::{Queues, Set};
use md5::DIGEST_LEN;
use relay_base::NoMemory;
use run_state::{DestSources, GoneSources};
use status_page::WatchedAt;
use std::alloc::Global;
use std::io::Write;
use std::time::Instant;

/// What the threads that watch a run watch: its queues and its destinations, all of them, those that are gone, what the first
/// thread has for the log, the size of the queues, the version that the status shows, the checksum of the configuration, how
/// datapoints are watched, and since when the milliseconds of a run count.
#[derive(Clone, Copy)]
pub struct Watched<'x, B: Set> {
    /// The queues.
    pub queues: &'x Queues<B>,
    /// The destinations, with their events.
    pub noted: DestSources<'x>,
    /// The destinations that are gone.
    pub gone: GoneSources<'x>,
    /// What the first thread has for the log.
    pub late_news: &'x LateNews,
    /// The size of each queue.
    pub size: usize,
    /// The version that the status shows.
    pub version: &'static str,
    /// The checksum of the configuration.
    pub configuration: [u8; DIGEST_LEN],
    /// How datapoints are watched.
    pub watched_at: WatchedAt,
    /// Since when the milliseconds of a run count.
    pub began: Option<Instant>,
}

/// The work of the log and that of the status server of a run, and of these receivers: none of a log without an output, and
/// none of a status server that is not there. The log begins with these news. Refuses if out of memory.
pub fn watchers_of<'x, B: Set, L: Write + Drop>(
    alloc: Global,
    watched: &Watched<'x, B>,
    receivers: Vec<ReceiverLog>,
    news: String,
    log: Option<L>,
    server: Option<StatusServer>,
) -> Result<(Option<LogJob<'x, B, L>>, Option<StatusJob<'x, B>>), NoMemory>
    requires all { length watched.now.noted.dests.now ≡ B.dests }
    ensures log { IfOk result (λ jobs. IsSome jobs.0 ↔ IsSome log) }
    ensures server { IfOk result (λ jobs. IsSome jobs.1 ↔ IsSome server) }
{
    let shown = watched_of(alloc, receivers.as_slice())?;
    if server.is_some() {
        want_producers(shown.as_slice());
    }
    let logging = log_to(alloc, watched, receivers, news, log)?;
    let watch = StatusWatch {
        queues: watched.queues,
        noted: watched.noted,
        size: watched.size,
        receivers: shown,
        version: watched.version,
        configuration: watched.configuration,
        watched_at: watched.watched_at,
    };
    Ok((logging, status_at(server, watch, watched.began)))
}

/// Has these receivers tell what their producers send.
fn want_producers(receivers: &[WatchedReceiver]) {
    for receiver in receivers {
        receiver.want_producers();
    }
}
