//! The files of a configuration, as notes read them.

/// What reading a file gave.
#[derive(Clone, Copy)]
pub enum SourceText<'a> {
    /// It could not be read, and the system said why.
    Unreadable { reason: &'a str },
    /// Its bytes.
    Bytes(&'a [u8]),
}

/// A file: its path, and what reading it gave.
#[derive(Clone, Copy)]
pub struct Source<'a> {
    pub path: &'a str,
    pub text: SourceText<'a>,
}

/// The files that a command is given.
#[derive(Clone, Copy)]
pub struct Sources<'a> {
    /// The configuration file.
    pub config: Source<'a>,
    /// The file of relay rules, if any.
    pub rules: Option<Source<'a>>,
    /// The rewrite file, if any.
    pub rewrite: Option<Source<'a>>,
}
