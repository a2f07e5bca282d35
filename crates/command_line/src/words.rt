//! Tables of the words that commands take, from which `clap` has its commands.

use clap::error::ErrorKind;
use clap::{Arg, ArgAction, ArgGroup, Command, Error};
use std::alloc::{AllocError, Global};

/// A command, with what its help says.
pub(crate) struct CommandWords {
    pub(crate) name: &'static str,
    /// The name after that of the program.
    pub(crate) full_name: &'static str,
    pub(crate) about: &'static str,
    /// What `--help` adds to `-h`.
    pub(crate) long_help: &'static str,
    /// The words of the files of a configuration that it takes, in the order of its help.
    pub(crate) files: &'static [Word],
    /// The other words that it takes, in that order, which its help has after those.
    pub(crate) words: &'static [Word],
    /// The words of which one has to be given.
    pub(crate) choices: &'static [Choice],
}

/// An option, or a word with no name before it.
#[derive(Clone, Copy)]
pub(crate) struct Word {
    pub(crate) name: &'static str,
    pub(crate) form: Form,
    pub(crate) help: &'static str,
}

/// How a word is written: `N` is what the help calls its value.
#[derive(Clone, Copy)]
pub(crate) enum Form {
    /// `--name`.
    Flag,
    /// `--name`, where the option of this name is given too.
    FlagWith(&'static str),
    /// `--name N`.
    Value(&'static str),
    /// `--name N`, which has to be given.
    NeededValue(&'static str),
    /// `--name N`, with the value that it has where it is not given.
    ValueOr(&'static str, &'static str),
    /// `--name N`, where the option of this name is given too.
    ValueWith(&'static str, &'static str),
    /// `--name N`, where the option of this name is not given.
    ValueWithout(&'static str, &'static str),
    /// `--name N`, which the help does not show.
    HiddenValue(&'static str),
    /// `N`.
    Bare(&'static str),
}

/// Two words of which one has to be given, and not both.
#[derive(Clone, Copy)]
pub(crate) struct Choice {
    pub(crate) name: &'static str,
    pub(crate) words: [&'static str; 2],
}

impl CommandWords {
    /// The command of `clap`.
    pub(crate) fn command<'a>(&self, alloc: Global) -> Result<Command<'a>, AllocError> {
        let mut command = self.command_without_choices(alloc)?;
        for choice in self.choices {
            let group = choice.group(alloc)?;
            command = command.group(group)?;
        }
        Ok(command)
    }

    fn command_without_choices<'a>(&self, alloc: Global) -> Result<Command<'a>, AllocError> {
        let args = self.args(alloc)?;
        Command::new(alloc, self.name)
            .about(self.about)
            .after_long_help(self.long_help)
            .bin_name(self.full_name)?
            .args(args)
    }

    fn args<'a>(&self, alloc: Global) -> Result<Vec<Arg<'a>>, AllocError> {
        let mut args = Vec::new(alloc);
        push_args(alloc, self.files, &mut args)?;
        push_args(alloc, self.words, &mut args)?;
        Ok(args)
    }

    /// An error of the command, as `clap` writes it.
    pub(crate) fn error(
        &self,
        alloc: Global,
        kind: ErrorKind,
        message: &str,
    ) -> Result<Error, AllocError> {
        let mut command = self.command(alloc)?;
        let error = command.error(kind, message);
        drop(command);
        error
    }
}

fn push_args<'a>(alloc: Global, words: &[Word], args: &mut Vec<Arg<'a>>) -> Result<(), AllocError> {
    for word in words {
        args.push(word.arg(alloc)?)?;
    }
    Ok(())
}

impl Word {
    fn arg<'a>(self, alloc: Global) -> Result<Arg<'a>, AllocError> {
        let arg = Arg::new(alloc, self.name).help(self.help);
        let long = self.name;
        match self.form {
            Form::Flag => Ok(arg.long(long).action(ArgAction::SetTrue)),
            Form::FlagWith(other) => arg
                .long(long)
                .action(ArgAction::SetTrue)
                .requires_arg(other),
            Form::Value(value) => Ok(arg.long(long).value_name(value)),
            Form::NeededValue(value) => Ok(arg.long(long).value_name(value).required(true)),
            Form::ValueOr(value, default) => {
                Ok(arg.long(long).value_name(value).default_value(default))
            }
            Form::ValueWith(value, other) => {
                arg.long(long).value_name(value).requires_arg(other)
            }
            Form::ValueWithout(value, other) => {
                arg.long(long).value_name(value).conflicts_with(other)
            }
            Form::HiddenValue(value) => Ok(arg.long(long).value_name(value).hide(true)),
            Form::Bare(value) => Ok(arg.value_name(value)),
        }
    }
}

impl Choice {
    fn group<'a>(self, alloc: Global) -> Result<ArgGroup<'a>, AllocError> {
        Ok(
            ArgGroup::new(alloc, self.name)
                .args(&self.words)?
                .required(true),
        )
    }
}
