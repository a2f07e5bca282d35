//! The values of a command's options.

use crate::commands::PASS;
use crate::explain::Explain;
use crate::number_option::NumberOption;
use crate::paths::Paths;
use crate::words::{CommandWords, Form, Word};
use clap::error::ErrorKind;
use clap::{ArgMatches, Error};
use line_text::Moment;
use pass_lines::moment_of;
use relay_base::whole_number_up_to;
use relay_files::{LongestName, MOST_CHARACTERS};
use std::alloc::{AllocError, Global};

const LONGEST_NAME: NumberOption = NumberOption {
    name: "longest-name",
    value: "N",
    least: 1,
    most: MOST_CHARACTERS as u64,
};

const MOMENT: NumberOption = NumberOption {
    name: "moment",
    value: "N",
    least: 0,
    most: 9_007_199_254_740_992,
};

/// Which notes the options ask for.
pub fn explain_option(options: &ArgMatches<'_>, is_strict: bool) -> Explain {
    match (options.get_flag("explain"), is_strict) {
        (false, _) => Explain::Nothing,
        (true, false) => Explain::Notes,
        (true, true) => Explain::StrictNotes,
    }
}

/// The files that the options of a command name.
pub fn path_options(
    alloc: Global,
    options: &ArgMatches<'_>,
    command: &CommandWords,
) -> Result<Paths, Error> {
    Ok(Paths {
        longest_name: longest_name_option(alloc, options, command)?,
        config: text_option(alloc, options, "config")?,
        rules: path_option(alloc, options, "rules")?,
        rewrite: path_option(alloc, options, "rewrite")?,
    })
}

/// The limit of `--longest-name`, if it is given.
fn longest_name_option(
    alloc: Global,
    options: &ArgMatches<'_>,
    command: &CommandWords,
) -> Result<Option<LongestName>, Error> {
    let Some(text) = options.get_str(LONGEST_NAME.name) else {
        return Ok(None);
    };
    let longest = LONGEST_NAME.checked(alloc, options, command, longest_name_in(text))?;
    Ok(Some(longest))
}

fn longest_name_in(text: &str) -> Option<LongestName> {
    LongestName::new(whole_number_up_to(text, MOST_CHARACTERS as u64)?)
}

/// The text of an option; an empty one if it is not given.
pub fn text_option(
    alloc: Global,
    options: &ArgMatches<'_>,
    option: &str,
) -> Result<String, AllocError> {
    String::from_str(alloc, options.get_str(option).unwrap_or(""))
}

/// The file that an option names, if it is given.
pub fn path_option(
    alloc: Global,
    options: &ArgMatches<'_>,
    option: &str,
) -> Result<Option<String>, AllocError> {
    match options.get_str(option) {
        Some(path) => Ok(Some(String::from_str(alloc, path)?)),
        None => Ok(None),
    }
}

/// Refuses an option of a command that names an empty path, as one has from a variable that is not set.
pub(crate) fn check_paths(
    alloc: Global,
    options: &ArgMatches<'_>,
    command: &CommandWords,
) -> Result<(), Error> {
    for words in [command.files, command.words] {
        for word in words {
            check_path(alloc, options, command, *word)?;
        }
    }
    Ok(())
}

fn check_path(
    alloc: Global,
    options: &ArgMatches<'_>,
    command: &CommandWords,
    word: Word,
) -> Result<(), Error> {
    let Some(kind) = path_kind(word.form) else {
        return Ok(());
    };
    match options.get_str(word.name) {
        Some("") => {
            let message = format!(in alloc;
                "invalid value '' for '--{} <{kind}>': an empty path",
                word.name
            )?;
            Err(command.error(alloc, ErrorKind::InvalidValue, message.as_str())?)
        }
        _ => Ok(()),
    }
}

/// What the help calls the value of an option, if that is a path.
fn path_kind(form: Form) -> Option<&'static str> {
    match form {
        Form::Value(kind) | Form::NeededValue(kind) | Form::ValueWith(kind, _) => {
            matches!(kind, "FILE" | "DIR").then_some(kind)
        }
        _ => None,
    }
}

/// The moment of `--moment`.
pub fn moment_option(alloc: Global, options: &ArgMatches<'_>) -> Result<Moment, Error> {
    let moment = moment_of(MOMENT.text(options));
    MOMENT.checked(alloc, options, &PASS, moment)
}
