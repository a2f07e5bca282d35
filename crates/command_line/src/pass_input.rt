//! The input of `pass`.

use clap::ArgMatches;

/// What `pass` reads.
#[derive(Clone, Copy)]
pub enum PassInput {
    /// Lines.
    Lines,
    /// Frames, each a pickle.
    Pickles,
}

/// What the options ask it to read.
pub(crate) fn pass_input(options: &ArgMatches<'_>) -> PassInput {
    if options.get_flag("pickle") {
        PassInput::Pickles
    } else {
        PassInput::Lines
    }
}
