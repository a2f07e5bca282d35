//! How a run ends.

ghost use Rattle.std.specs.Prelude.{◌≡◌};
ghost use Rattle.relay_files.specs.Fault.{code_of, status_of, line_fault, setting_fault, rule_fault, rewrite_fault, plan_fault, name_fault};
ghost use Rattle.relay_files.specs.declared.fault.RelayFault.TheVariants.{NoMemory as OutOfMemory, Output as OfOutput, Input as OfInput};

use crate::input::InputFailed;
use crate::listen_role::ListenRole;
use crate::output::OutputFailed;
use crate::role::Role;
use conf_text::{IniFault, SettingFault};
use line_text::{NameFault, NoMemory};
use relay_rules::RuleFault;
use rewrite_rules::RewriteReadFault;
use router::PlanFault;
use thiserror::Error;

/// How a run ended, as the status of the process says it.
#[derive(Clone, Copy)]
pub enum Status {
    /// Everything was done.
    Done,
    /// A configuration or a script has a fault.
    ConfigurationFault,
    /// The words of the command line have a fault.
    Usage,
    /// Reading or writing failed.
    DeviceFault,
    /// There was no memory.
    NoMemory,
}

impl Status {
    /// The number that the process ends with, 0 to 4.
    pub fn code(self) -> u8
        ensures { result ≡ code_of self }
    {
        match self {
            Status::Done => 0,
            Status::ConfigurationFault => 1,
            Status::Usage => 2,
            Status::DeviceFault => 3,
            Status::NoMemory => 4,
        }
    }
}

/// Why a run failed. Its text is what follows `relayd: ` on standard error.
#[derive(Clone, Copy, Debug, Error)]
pub enum RelayFault {
    /// A file could not be read.
    #[error("{role}: cannot read")]
    CannotRead { role: Role },
    /// A file is not UTF-8.
    #[error("{role}: not text")]
    NotText { role: Role },
    /// A line of the configuration file or of the rules file has a fault.
    #[error("{role}: {fault}")]
    Line { role: Role, fault: IniFault },
    /// A setting has a fault.
    #[error("config: {fault}")]
    Setting { fault: SettingFault },
    /// A section of the rules file has a fault, or none is the default rule.
    #[error("rules: {fault}")]
    Rule { fault: RuleFault },
    /// A line of the rewrite file has a fault.
    #[error("rewrite: {fault}")]
    Rewrite { fault: RewriteReadFault },
    /// RELAY_METHOD is `rules`, and no rules file is given.
    #[error("rules: NoRules")]
    NoRules,
    /// The word is not a metric name.
    #[error("name: BadName")]
    BadName,
    /// A line of the script has a fault: its number, from 1; 0 if none has a fault and none declares a reader.
    #[error("script: line {line}")]
    Script { line: usize },
    /// The relay could not listen at a port, or its interface is not an address.
    #[error("listen: {role}")]
    Listen { role: ListenRole },
    /// The input could not be read.
    #[error("input")]
    Input,
    /// The output could not be written.
    #[error("output")]
    Output,
    /// There was no memory.
    #[error("no memory")]
    NoMemory,
}

impl From<OutputFailed> for RelayFault {
    ghost from_gives = { λ _ fault. fault ≡ OfOutput };

    fn from(_fault: OutputFailed) -> RelayFault {
        RelayFault::Output
    }
}

impl From<InputFailed> for RelayFault {
    ghost from_gives = { λ _ fault. fault ≡ OfInput };

    fn from(_fault: InputFailed) -> RelayFault {
        RelayFault::Input
    }
}

impl From<NoMemory> for RelayFault {
    ghost from_gives = { λ _ fault. fault ≡ OutOfMemory };

    fn from(_fault: NoMemory) -> RelayFault {
        RelayFault::NoMemory
    }
}

impl From<SettingFault> for RelayFault {
    ghost from_gives = { λ fault named. named ≡ setting_fault fault };

    fn from(fault: SettingFault) -> RelayFault {
        match fault {
            SettingFault::NoMemory => RelayFault::NoMemory,
            fault => RelayFault::Setting { fault },
        }
    }
}

impl From<RuleFault> for RelayFault {
    ghost from_gives = { λ fault named. named ≡ rule_fault fault };

    fn from(fault: RuleFault) -> RelayFault {
        match fault {
            RuleFault::NoMemory => RelayFault::NoMemory,
            fault => RelayFault::Rule { fault },
        }
    }
}

impl From<RewriteReadFault> for RelayFault {
    ghost from_gives = { λ fault named. named ≡ rewrite_fault fault };

    fn from(fault: RewriteReadFault) -> RelayFault {
        match fault {
            RewriteReadFault::NoMemory => RelayFault::NoMemory,
            fault => RelayFault::Rewrite { fault },
        }
    }
}

impl From<PlanFault> for RelayFault {
    ghost from_gives = { λ fault named. named ≡ plan_fault fault };

    fn from(fault: PlanFault) -> RelayFault {
        match fault {
            PlanFault::NoRules => RelayFault::NoRules,
            PlanFault::NoMemory => RelayFault::NoMemory,
        }
    }
}

impl From<NameFault> for RelayFault {
    ghost from_gives = { λ fault named. named ≡ name_fault fault };

    fn from(fault: NameFault) -> RelayFault {
        match fault {
            NameFault::BadName => RelayFault::BadName,
            NameFault::NoMemory => RelayFault::NoMemory,
        }
    }
}

impl RelayFault {
    /// The fault of a run for a fault in the lines of a file.
    pub fn of_line(role: Role, fault: IniFault) -> RelayFault
        ensures { result ≡ line_fault role fault }
    {
        match fault {
            IniFault::NoMemory => RelayFault::NoMemory,
            fault => RelayFault::Line { role, fault },
        }
    }

    /// The status that a run with this fault ends with.
    pub fn status(self) -> Status
        ensures { result ≡ status_of self }
    {
        match self {
            RelayFault::CannotRead { .. }
            | RelayFault::Listen { .. }
            | RelayFault::Input
            | RelayFault::Output => Status::DeviceFault,
            RelayFault::NoMemory => Status::NoMemory,
            _ => Status::ConfigurationFault,
        }
    }
}
