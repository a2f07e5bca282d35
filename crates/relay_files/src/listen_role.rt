//! The ports of a running relay, by what they receive.

ghost use Rattle.std.specs.Prelude.{◌≡◌, Some};
ghost use Rattle.relay_files.specs.Fault.{listen_role_name};

use std::fmt;

/// What a port receives.
#[derive(Clone, Copy, Debug)]
pub enum ListenRole {
    /// Connections of lines.
    Line,
    /// Connections of pickles.
    Pickle,
    /// Datagrams of lines.
    Udp,
    /// Commands of the operator.
    Admin,
    /// The status server.
    Status,
}

impl ListenRole {
    /// The name in faults.
    pub fn name(self) -> &'static str
        ensures { result.now ≡ listen_role_name self }
    {
        match self {
            ListenRole::Line => "line",
            ListenRole::Pickle => "pickle",
            ListenRole::Udp => "udp",
            ListenRole::Admin => "admin",
            ListenRole::Status => "status",
        }
    }
}

/// Prints the name.
impl fmt::Display for ListenRole {
    ghost output = { λ r. Some (listen_role_name r) };

    fn fmt<W: fmt::Write>(&self, f: &mut fmt::Formatter<W>) -> fmt::Result {
        f.write_str(self.name())
    }
}
