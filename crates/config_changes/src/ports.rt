//! The ports of receivers that change.

ghost use Rattle.std.specs.Prelude.{◌≡◌, ◌≤◌};
ghost use Rattle.config_changes.specs.Ports.{datagram_port, has_moved};

use conf_text::Settings;

/// Which receivers listen somewhere else than before, begin to listen, or cease to.
#[derive(Clone, Copy)]
pub struct ChangedPorts {
    /// Those of lines.
    pub lines: bool,
    /// That of pickles.
    pub pickles: bool,
    /// That of datagrams.
    pub datagrams: bool,
}

impl ChangedPorts {
    /// All of them: no receiver listened before.
    pub fn all() -> ChangedPorts {
        ChangedPorts {
            lines: true,
            pickles: true,
            datagrams: true,
        }
    }

    /// None of them.
    pub fn none() -> ChangedPorts {
        ChangedPorts {
            lines: false,
            pickles: false,
            datagrams: false,
        }
    }

    /// How many ports change: 3 at most.
    pub fn count(self) -> usize
        ensures { result ≤ 3 }
    {
        usize::from(self.lines) + usize::from(self.pickles) + usize::from(self.datagrams)
    }
}

/// The receivers that the new settings have listen somewhere else than the old ones: at another port, or at another interface,
/// unless they listen nowhere. A port of 0 is none, and without ENABLE_UDP_LISTENER there is none for datagrams.
pub fn changed_ports(old: &Settings, new: &Settings) -> ChangedPorts
    ensures lines { result.lines ≡ has_moved
        old.now.receiving.line_receiver_interface new.now.receiving.line_receiver_interface
        old.now.receiving.line_receiver_port new.now.receiving.line_receiver_port }
    ensures pickles { result.pickles ≡ has_moved
        old.now.receiving.pickle_receiver_interface new.now.receiving.pickle_receiver_interface
        old.now.receiving.pickle_receiver_port new.now.receiving.pickle_receiver_port }
    ensures datagrams { result.datagrams ≡ has_moved
        old.now.receiving.udp_receiver_interface new.now.receiving.udp_receiver_interface
        (datagram_port old.now.receiving) (datagram_port new.now.receiving) }
{
    ChangedPorts {
        lines: lines_of(old).has_moved_to(lines_of(new)),
        pickles: pickles_of(old).has_moved_to(pickles_of(new)),
        datagrams: datagrams_of(old).has_moved_to(datagrams_of(new)),
    }
}

/// Where receivers listen: at an interface, and at a port of it; nowhere if that is 0.
#[derive(Clone, Copy)]
struct ListenPlace<'a> {
    interface: &'a str,
    port: u16,
}

impl ListenPlace<'_> {
    /// Whether this other place is not the same.
    fn has_moved_to(self, other: ListenPlace<'_>) -> bool
        ensures { result ≡ has_moved
            self.entry.interface.now other.entry.interface.now self.entry.port other.entry.port }
    {
        if self.port == other.port {
            self.port != 0 && self.interface != other.interface
        } else {
            true
        }
    }
}

/// Where receivers of lines listen.
fn lines_of(settings: &Settings) -> ListenPlace<'_>
    ensures interface { result.interface.now ≡ settings.now.receiving.line_receiver_interface }
    ensures port { result.port ≡ settings.now.receiving.line_receiver_port }
{
    ListenPlace {
        interface: settings.line_receiver_interface(),
        port: settings.line_receiver_port(),
    }
}

/// Where the receiver of pickles listens.
fn pickles_of(settings: &Settings) -> ListenPlace<'_>
    ensures interface { result.interface.now ≡ settings.now.receiving.pickle_receiver_interface }
    ensures port { result.port ≡ settings.now.receiving.pickle_receiver_port }
{
    ListenPlace {
        interface: settings.pickle_receiver_interface(),
        port: settings.pickle_receiver_port(),
    }
}

/// Where the receiver of datagrams listens.
fn datagrams_of(settings: &Settings) -> ListenPlace<'_>
    ensures interface { result.interface.now ≡ settings.now.receiving.udp_receiver_interface }
    ensures port { result.port ≡ datagram_port settings.now.receiving }
{
    ListenPlace {
        interface: settings.udp_receiver_interface(),
        port: if settings.enable_udp_listener() {
            settings.udp_receiver_port()
        } else {
            0
        },
    }
}
