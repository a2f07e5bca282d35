//! The numbers of a run.

ghost use Rattle.std.specs.Prelude.{◌≡◌, ◌≤◌, length};

use crate::start::Process;
use conf_text::Settings;
use finished_run::RunShape;
use locked_queues::{MOST_RECEIVERS, MOST_SENDERS};
use relay_base::{LARGEST_MESSAGE, LARGEST_QUEUE_SIZE, MOST_DESTINATIONS};
use relay_options::RunOptions;
use relay_watchers::WatchedAt;

/// The numbers of receivers and senders, and how they run.
#[derive(Clone, Copy)]
pub(crate) struct Shape {
    pub(crate) dests: usize,
    pub(crate) size: usize,
    pub(crate) limit: usize,
    pub(crate) receivers: usize,
    pub(crate) senders: usize,
    /// How they run.
    pub(crate) options: RunOptions,
    /// Whether the threads return what they logged.
    pub(crate) is_recorded: bool,
    /// Whether what is not sent is kept.
    pub(crate) is_spooled: bool,
    /// How many bytes files may have while the relay runs, if it diverts destinations to files.
    pub(crate) spool_size: Option<u64>,
}

impl Shape {
    /// The version that the status shows; none without a status server.
    pub(crate) fn version(&self) -> &'static str {
        match self.options.status {
            Some(status) => status.version,
            None => "",
        }
    }

    /// How datapoints are watched, as the status shows it.
    pub(crate) fn watched_at(&self) -> WatchedAt {
        WatchedAt {
            admin: self.options.admin,
            has_key: match self.options.status {
                Some(status) => status.has_key,
                None => false,
            },
        }
    }

    /// How many bytes files may have while the relay runs, 0 if they are written at its end alone; none if nothing is kept.
    pub(crate) fn kept_size(&self) -> Option<u64> {
        if self.is_spooled {
            Some(self.spool_size.unwrap_or(0))
        } else {
            None
        }
    }

    /// How many destinations may be diverted to files: all or none.
    pub(crate) fn diverted_dests(&self) -> usize {
        if self.spool_size.is_some() {
            self.dests
        } else {
            0
        }
    }

    /// The numbers that a record of the run needs.
    pub(crate) fn recorded(&self) -> RunShape
        ensures dests { result.dests ≡ self.now.dests }
        ensures size { result.size ≡ self.now.size }
        ensures limit { result.limit ≡ self.now.limit }
    {
        RunShape {
            dests: self.dests,
            size: self.size,
            limit: self.limit,
            receivers: self.receivers,
            senders: self.senders,
        }
    }
}

/// The shape of a process's run of settings, with this number of ports at which receivers listen. If there is none, one
/// receiver has a seat all the same, which is closed unused.
pub(crate) fn shape_of<F>(settings: &Settings, ports: usize, process: &Process<'_, F>) -> Shape
    ensures dests { (result.dests ≡ length settings.now.routing.destinations)
        × (1 ≤ result.dests) × (result.dests ≤ MOST_DESTINATIONS) }
    ensures size { (1 ≤ result.size) × (result.size ≤ LARGEST_QUEUE_SIZE) }
    ensures limit { (1 ≤ result.limit) × (result.limit ≤ LARGEST_MESSAGE) }
    ensures receivers { (1 ≤ result.receivers) × (result.receivers ≤ MOST_RECEIVERS) }
    ensures senders { (1 ≤ result.senders) × (result.senders ≤ MOST_SENDERS) }
{
    let options = process.setup.options;
    Shape {
        dests: settings.destinations().len(),
        size: settings.max_queue_size(),
        limit: settings.max_datapoints_per_message(),
        receivers: ports.clamp(1, MOST_RECEIVERS),
        senders: options.senders.count(),
        options,
        is_recorded: process.is_recorded,
        is_spooled: process.setup.folder.is_some(),
        spool_size: process.spool_size(),
    }
}
