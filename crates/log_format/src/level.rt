//! How much a line of the log matters.

/// How much a line of the log matters.
#[derive(Clone, Copy)]
pub enum Level {
    /// Nothing is lost.
    Info,
    /// Something was lost, or will be if it goes on, and the relay goes on by itself.
    Warning,
    /// A part of the relay does nothing more, or datapoints that were to be kept are lost.
    Error,
}

impl Level {
    /// The word for it in a log.
    pub fn name(self) -> &'static str {
        match self {
            Level::Info => "info",
            Level::Warning => "warning",
            Level::Error => "error",
        }
    }
}

/// What lines have whose level is `Error`.
static OF_ERRORS: [&str; 6] = [
    " failed: ",
    " ended: out of memory",
    " spool: ",
    " cannot read at byte ",
    " datapoints not sent",
    " record: ",
];

/// What lines have whose level is `Warning`.
static OF_WARNINGS: [&str; 23] = [
    " lines lost",
    " lost: ",
    " cannot connect",
    " queue full, dropping",
    " spool begins",
    " spool full",
    " % full, ",
    " dropped ",
    " still looking up its host",
    " not waited for: ",
    " paused: ",
    " refusing more",
    " refused ",
    " bad ",
    " overlong ",
    " unfinished ",
    " idle connection",
    " memory shortage",
    " broken connection",
    " system drop",
    " twice",
    "; nothing of it is ",
    "; it stays",
];

/// The level of a line: an error where it has what only errors have, else a warning where it has what warnings have.
pub fn level_of(line: &str) -> Level {
    if is_empty_end(line) {
        Level::Info
    } else if has_one(line, &OF_ERRORS) {
        Level::Error
    } else if has_one(line, &OF_WARNINGS) {
        Level::Warning
    } else {
        Level::Info
    }
}

/// Whether a line says at the end that nothing was left unsent.
fn is_empty_end(line: &str) -> bool {
    line.ends_with(" 0 datapoints not sent")
}

fn has_one(line: &str, texts: &[&str]) -> bool {
    for text in texts {
        if line.contains(*text) {
            return true;
        }
    }
    false
}
