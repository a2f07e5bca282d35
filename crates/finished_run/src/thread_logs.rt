//! What the threads of a run logged.

use mio_loops::{InputLog, WriteLog};
use reader_core::ReaderKind;

/// What the readers of a receiver were fed, all of one kind.
#[derive(Drop)]
pub struct FedLog {
    /// The kind of the readers.
    pub kind: ReaderKind,
    /// What they were fed, in order.
    pub log: InputLog,
}

/// What receivers were fed, and what the writers of senders did, thread by thread; nothing of a run that is not recorded.
#[derive(Drop)]
pub struct ThreadLogs {
    /// The log of each receiver.
    pub fed: Vec<Option<FedLog>>,
    /// The logs of each sender, one for each destination.
    pub written: Vec<Option<Vec<WriteLog>>>,
}
