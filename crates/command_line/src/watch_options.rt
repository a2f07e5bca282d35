//! What the options of `watch` ask for.

use crate::client_words::WATCH;
use crate::number_option::NumberOption;
use crate::options::path_option;
use crate::output_form::{OutputForm, form_option};
use clap::{ArgMatches, Error};
use std::alloc::Global;

const LINES: NumberOption = NumberOption {
    name: "lines",
    value: "N",
    least: 1,
    most: 1_000_000,
};

const SECONDS: NumberOption = NumberOption {
    name: "seconds",
    value: "SECONDS",
    least: 1,
    most: 3_600,
};

const NAMES: NumberOption = NumberOption {
    name: "names",
    value: "N",
    least: 1,
    most: 64,
};

/// What `watch` shows, how much of it, for how long, and in which form.
#[derive(Drop)]
pub struct Watching {
    /// What it shows.
    pub wanted: WatchWanted,
    /// After how many lines it ends, 1 to 1,000,000; or how many it shows of the greatest.
    pub lines: Option<u64>,
    /// After how many seconds it ends, 1 to 3,600.
    pub seconds: u64,
    /// The form of the output.
    pub form: OutputForm,
}

/// What `watch` shows.
#[derive(Drop)]
pub enum WatchWanted {
    /// Datapoints: those that go to a destination, and in whose names a pattern is found.
    Datapoints {
        dest: Option<String>,
        pattern: Option<String>,
    },
    /// The greatest by so many first parts of their names, 1 to 64.
    Names {
        parts: u64,
    },
}

/// What the options ask for.
pub(crate) fn watching_of(alloc: Global, options: &ArgMatches<'_>) -> Result<Watching, Error> {
    let lines = LINES.number_if_given(alloc, options, &WATCH)?;
    let seconds = SECONDS.number(alloc, options, &WATCH)?;
    let parts = NAMES.number_if_given(alloc, options, &WATCH)?;
    let wanted = match parts {
        Some(parts) => WatchWanted::Names { parts },
        None => WatchWanted::Datapoints {
            dest: path_option(alloc, options, "dest")?,
            pattern: path_option(alloc, options, "pattern")?,
        },
    };
    Ok(Watching {
        wanted,
        lines,
        seconds,
        form: form_option(options),
    })
}
