//! Who takes what a run leaves.

ghost use Rattle.std.specs.Prelude.{◌≡◌, ◌≤◌, length};

use crate::run_shape::RunShape;
use crate::thread_logs::ThreadLogs;
use locked_queues::{SettleFault, Settled};
use relay_base::{LARGEST_MESSAGE, LARGEST_QUEUE_SIZE};
use relay_files::RunConfiguration;
use std::alloc::Global;

/// What a run leaves that has ended: what it was a run of, how its queues settled, and what its threads logged.
#[derive(Clone, Copy, Drop)]
pub struct FinishedRun<'x> {
    /// The configuration.
    pub configuration: &'x RunConfiguration,
    /// The numbers of the run.
    pub shape: RunShape,
    /// How the queues settled.
    pub settled: &'x Result<Settled, SettleFault>,
    /// What the threads logged.
    pub logs: &'x ThreadLogs,
}

/// Which of the runs of its process a run was.
#[derive(Clone, Copy)]
pub enum RunPlace {
    /// The run of this number, from 1 on, which another one followed.
    Followed {
        /// The number.
        number: u64,
    },
    /// The last one.
    Last,
}

/// Who takes what runs leave, to make a record of each.
pub trait Recorder {
    /// Takes what a run left that has settled, or tried to.
    fn take(&mut self, alloc: Global, place: RunPlace, run: &FinishedRun<'_>)
        requires dests { length run.now.configuration.now.settings.routing.destinations
            ≡ run.now.shape.dests }
        requires size { (1 ≤ run.now.shape.size) × (run.now.shape.size ≤ LARGEST_QUEUE_SIZE) }
        requires limit { (1 ≤ run.now.shape.limit) × (run.now.shape.limit ≤ LARGEST_MESSAGE) };
}

/// The recorder of a run that is not recorded.
#[derive(Drop)]
pub struct NoRecorder;

impl Recorder for NoRecorder {
    fn take(&mut self, _alloc: Global, _place: RunPlace, _run: &FinishedRun<'_>) {}
}
