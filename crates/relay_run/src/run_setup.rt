//! How a program has a relay run, and who learns what it does.

use crate::spool_folder::SpoolFolder;
use relay_options::RunOptions;

/// How a program has a relay run: by these options, with this folder for what is not sent, if there is one, and with who reads its
/// files for a reload.
#[derive(Drop)]
pub struct RunSetup<'a, F> {
    /// How it receives and sends.
    pub options: RunOptions,
    /// The folder for what is not sent, if there is one.
    pub folder: Option<SpoolFolder<'a>>,
    /// Who reads its files for a reload.
    pub files: &'a F,
}

/// Who learns what a relay does: its log, if it has one, and who records its runs, if somebody does.
#[derive(Drop)]
pub struct RunObservers<L, K> {
    /// The output of the log.
    pub log: Option<L>,
    /// Who records the runs.
    pub recorder: Option<K>,
}
