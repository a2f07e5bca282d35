//! Laws of the text of a script, for all readers and events. Each is the contract of a function that does nothing.
ghost use Rattle.run_record.specs.Laws.{ReadsBackLaw, RunsSameLaw};

/// The text of a script is read as these readers and these events, in order. The lines of the events have the
/// numbers after those of the readers.
///
/// It asks that there is a reader and not too many, that each number has at most sixteen digits, and that each
/// piece has a byte.
pub fn reads_back()
    ensures { ReadsBackLaw }
{}

/// What is read of the text has the same run as the events: by the same plan, with queues and batches of the
/// same size.
pub fn runs_same()
    ensures { RunsSameLaw }
{}
