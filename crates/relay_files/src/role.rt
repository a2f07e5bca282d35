//! The files that commands read, by what they are for.

ghost use Rattle.std.specs.Prelude.{◌≡◌, Some};
ghost use Rattle.relay_files.specs.Fault.{role_name};

use std::fmt;

/// What a file is for.
#[derive(Clone, Copy, Debug, PartialEq)]
pub enum Role {
    /// The configuration file.
    Config,
    /// The file of relay rules.
    Rules,
    /// The rewrite file.
    Rewrite,
    /// The file of names for `route`.
    Names,
    /// The script for `replay`.
    Script,
}

impl Role {
    /// The name of the file in faults.
    pub fn name(self) -> &'static str
        ensures { result.now ≡ role_name self }
    {
        match self {
            Role::Config => "config",
            Role::Rules => "rules",
            Role::Rewrite => "rewrite",
            Role::Names => "names",
            Role::Script => "script",
        }
    }
}

/// Prints the name.
impl fmt::Display for Role {
    ghost output = { λ r. Some (role_name r) };

    fn fmt<W: fmt::Write>(&self, f: &mut fmt::Formatter<W>) -> fmt::Result {
        f.write_str(self.name())
    }
}
