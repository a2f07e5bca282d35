//! Options whose value is a whole number.

use crate::words::CommandWords;
use clap::error::ErrorKind;
use clap::{ArgMatches, Error};
use relay_base::whole_number_up_to;
use std::alloc::{AllocError, Global};

/// An option whose value is a whole number of a range, in decimal digits.
#[derive(Clone, Copy)]
pub(crate) struct NumberOption {
    pub(crate) name: &'static str,
    /// What the help calls its value.
    pub(crate) value: &'static str,
    pub(crate) least: u64,
    pub(crate) most: u64,
}

/// The admin port, as `run` and the commands for a running relay take it.
pub(crate) const ADMIN_PORT: NumberOption = NumberOption {
    name: "admin",
    value: "PORT",
    least: 1,
    most: 65_535,
};

impl NumberOption {
    /// The text of the option; an empty one if it is not given.
    pub(crate) fn text<'a>(self, options: &ArgMatches<'a>) -> &'a str {
        options.get_str(self.name).unwrap_or("")
    }

    /// The number of an option that is given, or has a default.
    pub(crate) fn number(
        self,
        alloc: Global,
        options: &ArgMatches<'_>,
        command: &CommandWords,
    ) -> Result<u64, Error> {
        let number = self.number_in(self.text(options));
        self.checked(alloc, options, command, number)
    }

    /// The number of the option, if it is given.
    pub(crate) fn number_if_given(
        self,
        alloc: Global,
        options: &ArgMatches<'_>,
        command: &CommandWords,
    ) -> Result<Option<u64>, Error> {
        match options.get_str(self.name) {
            Some(_) => Ok(Some(self.number(alloc, options, command)?)),
            None => Ok(None),
        }
    }

    /// The number that a text writes, if it is in the range.
    fn number_in(self, text: &str) -> Option<u64> {
        match whole_number_up_to(text, self.most) {
            Some(number) if number >= self.least => Some(number),
            _ => None,
        }
    }

    /// The port of an option that is given.
    pub(crate) fn port(
        self,
        alloc: Global,
        options: &ArgMatches<'_>,
        command: &CommandWords,
    ) -> Result<u16, Error> {
        let port = port_in(self.text(options));
        self.checked(alloc, options, command, port)
    }

    /// The value that was read from the text of the option, or the error of one that is not in its range.
    pub(crate) fn checked<T: Copy>(
        self,
        alloc: Global,
        options: &ArgMatches<'_>,
        command: &CommandWords,
        read: Option<T>,
    ) -> Result<T, Error> {
        match read {
            Some(value) => Ok(value),
            None => Err(self.range_error(alloc, self.text(options), command)?),
        }
    }

    fn range_error(
        self,
        alloc: Global,
        text: &str,
        command: &CommandWords,
    ) -> Result<Error, AllocError> {
        let message = format!(in alloc;
            "invalid value '{text}' for '--{} <{}>': not {} to {} in decimal digits",
            self.name, self.value, self.least, self.most
        )?;
        command.error(alloc, ErrorKind::InvalidValue, message.as_str())
    }
}

/// The port that a text writes, from 1 on.
fn port_in(text: &str) -> Option<u16> {
    match whole_number_up_to(text, u16::MAX as u64) {
        Some(port) if port > 0 => Some(port as u16),
        _ => None,
    }
}
