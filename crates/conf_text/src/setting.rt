//! The settings of `[relay]` by name, and what can be wrong with one.

ghost use Rattle.std.specs.Prelude.{◌≡◌, Some};
ghost use Rattle.conf_text.specs.declared.setting.SettingFault.TheVariants.{NoMemory as OutOfMemory};
ghost use Rattle.conf_text.specs.SettingNames.{setting_name};

use relay_base::NoMemory;
use std::fmt;
use thiserror::Error;

/// A setting of `[relay]`, in the order in which they are checked.
#[derive(Clone, Copy, Debug)]
pub enum Setting {
    Destinations,
    RelayMethod,
    ReplicationFactor,
    DiverseReplicas,
    MaxQueueSize,
    MaxDatapointsPerMessage,
    UseFlowControl,
    DestinationProtocol,
    LineReceiverInterface,
    LineReceiverPort,
    PickleReceiverInterface,
    PickleReceiverPort,
    EnableUdpListener,
    UdpReceiverInterface,
    UdpReceiverPort,
}

impl Setting {
    /// The key in `[relay]`, as `DESTINATIONS`.
    pub fn name(self) -> &'static str
        ensures { result.now ≡ setting_name self }
    {
        match self {
            Setting::Destinations => "DESTINATIONS",
            Setting::RelayMethod => "RELAY_METHOD",
            Setting::ReplicationFactor => "REPLICATION_FACTOR",
            Setting::DiverseReplicas => "DIVERSE_REPLICAS",
            Setting::MaxQueueSize => "MAX_QUEUE_SIZE",
            Setting::MaxDatapointsPerMessage => "MAX_DATAPOINTS_PER_MESSAGE",
            Setting::UseFlowControl => "USE_FLOW_CONTROL",
            Setting::DestinationProtocol => "DESTINATION_PROTOCOL",
            Setting::LineReceiverInterface => "LINE_RECEIVER_INTERFACE",
            Setting::LineReceiverPort => "LINE_RECEIVER_PORT",
            Setting::PickleReceiverInterface => "PICKLE_RECEIVER_INTERFACE",
            Setting::PickleReceiverPort => "PICKLE_RECEIVER_PORT",
            Setting::EnableUdpListener => "ENABLE_UDP_LISTENER",
            Setting::UdpReceiverInterface => "UDP_RECEIVER_INTERFACE",
            Setting::UdpReceiverPort => "UDP_RECEIVER_PORT",
        }
    }
}

/// Prints the key.
impl fmt::Display for Setting {
    ghost output = { λ s. Some (setting_name s) };

    fn fmt<W: fmt::Write>(&self, f: &mut fmt::Formatter<W>) -> fmt::Result {
        f.write_str(self.name())
    }
}

/// Why the settings were refused: the first fault in the order of [`Setting`].
#[derive(Clone, Copy, Debug, Error)]
pub enum SettingFault {
    /// It must be given, and is not.
    #[error("{setting}: Missing")]
    Missing { setting: Setting },
    /// It is not one to ten decimal digits, or outside its range.
    #[error("{setting}: BadNumber")]
    BadNumber { setting: Setting },
    /// It is not a truth word.
    #[error("{setting}: BadTruth")]
    BadTruth { setting: Setting },
    /// One of its items is not a destination.
    #[error("{setting}: BadDestination")]
    BadDestination { setting: Setting },
    /// Two destinations are the same, in the sense of the relay method.
    #[error("{setting}: DuplicateDestination")]
    DuplicateDestination { setting: Setting },
    /// The file asks for flow control, which the relay does not have.
    #[error("{setting}: FlowControl")]
    FlowControl { setting: Setting },
    /// The protocol is not `line`.
    #[error("{setting}: Protocol")]
    Protocol { setting: Setting },
    /// The method is neither `rules` nor `consistent-hashing`.
    #[error("{setting}: Method")]
    Method { setting: Setting },
    /// There are more destinations than [`MOST_DESTINATIONS`](crate::MOST_DESTINATIONS).
    #[error("{setting}: TooMany")]
    TooMany { setting: Setting },
    /// A growth was refused.
    #[error("no memory")]
    NoMemory,
}

impl<E: Into<NoMemory> + Drop> From<E> for SettingFault {
    ghost from_gives = { λ _ fault. fault ≡ OutOfMemory };

    fn from(_error: E) -> SettingFault {
        SettingFault::NoMemory
    }
}
