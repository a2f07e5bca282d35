//! The settings of the relay.

ghost use Rattle.std.specs.Prelude.{◌≡◌, ◌≤◌, false, length};
ghost use Rattle.relay_base.specs.Memory.{Gives};
ghost use Rattle.conf_text.specs.SettingsTable.{routing_of, sending_of, receiving_of, settings_of};

use crate::dest::Dest;
use crate::ini::Ini;
use crate::limits::{HIGHEST_PORT, LARGEST_FACTOR};
use crate::method::RelayMethod;
use crate::protocol::DestinationProtocol;
use crate::setting::{Setting, SettingFault};
use crate::setting_rules as rules;
use relay_base::{LARGEST_MESSAGE, LARGEST_QUEUE_SIZE, MOST_DESTINATIONS};
use std::alloc::Global;
use std::marker::Model;

/// Where datapoints go.
#[derive(Drop)]
struct Routing {
    destinations: Vec<Dest>,
    relay_method: RelayMethod,
    replication_factor: usize,
    diverse_replicas: bool,
}

impl Model for Routing {
    ghost use Rattle.conf_text.specs.SettingsTable.{RoutingValues, IsRoutingInRange};

    ghost Value = { RoutingValues };

    ghost view = { λ r. record {
      destinations = r.destinations.items;
      relay_method = r.relay_method;
      replication_factor = r.replication_factor;
      diverse_replicas = r.diverse_replicas;
    } };

    ghost invariant = { λ r. IsRoutingInRange (record {
      destinations = r.destinations.items;
      relay_method = r.relay_method;
      replication_factor = r.replication_factor;
      diverse_replicas = r.diverse_replicas;
    }) };
}

impl Routing {
    #[tactic(auto, unfolding(crate::specs::SettingsTable::routing_of))]
    fn read(alloc: Global, ini: &Ini) -> Result<Routing, SettingFault>
        ensures { Gives SettingFault.NoMemory (λ r. r) result (routing_of ini.now) }
    {
        let destinations = rules::destinations(alloc, ini, Setting::Destinations)?;
        let relay_method = rules::method(ini, Setting::RelayMethod, "rules")?;
        rules::check_distinct(relay_method, &destinations, Setting::RelayMethod)?;
        let factor = rules::number_in(
            ini,
            Setting::ReplicationFactor,
            "1",
            1,
            LARGEST_FACTOR as u64,
        )?;
        let diverse_replicas = rules::truth(ini, Setting::DiverseReplicas, "false")?;
        Ok(Routing {
            destinations,
            relay_method,
            replication_factor: factor as usize,
            diverse_replicas,
        })
    }
}

/// How datapoints are queued and written.
#[derive(Drop)]
struct Sending {
    max_queue_size: usize,
    max_datapoints_per_message: usize,
    use_flow_control: bool,
    destination_protocol: DestinationProtocol,
}

impl Model for Sending {
    ghost use Rattle.conf_text.specs.SettingsTable.{SendingValues, IsSendingInRange};

    ghost Value = { SendingValues };

    ghost view = { λ s. record {
      max_queue_size = s.max_queue_size;
      max_datapoints_per_message = s.max_datapoints_per_message;
      use_flow_control = s.use_flow_control;
      destination_protocol = s.destination_protocol;
    } };

    ghost invariant = { λ s. IsSendingInRange (record {
      max_queue_size = s.max_queue_size;
      max_datapoints_per_message = s.max_datapoints_per_message;
      use_flow_control = s.use_flow_control;
      destination_protocol = s.destination_protocol;
    }) };
}

impl Sending {
    #[tactic(auto, unfolding(crate::specs::SettingsTable::sending_of))]
    fn read(ini: &Ini) -> Result<Sending, SettingFault>
        ensures { Gives SettingFault.NoMemory (λ s. s) result (sending_of ini.now) }
    {
        let size = rules::number_in(
            ini,
            Setting::MaxQueueSize,
            "10000",
            1,
            LARGEST_QUEUE_SIZE as u64,
        )?;
        let message = rules::number_in(
            ini,
            Setting::MaxDatapointsPerMessage,
            "500",
            1,
            LARGEST_MESSAGE as u64,
        )?;
        let use_flow_control = rules::flow_control(ini, Setting::UseFlowControl)?;
        let destination_protocol = rules::protocol(ini, Setting::DestinationProtocol)?;
        Ok(Sending {
            max_queue_size: size as usize,
            max_datapoints_per_message: message as usize,
            use_flow_control,
            destination_protocol,
        })
    }
}

/// Where datapoints come from.
#[derive(Drop)]
struct Receiving {
    line_receiver_interface: String,
    line_receiver_port: u16,
    pickle_receiver_interface: String,
    pickle_receiver_port: u16,
    enable_udp_listener: bool,
    udp_receiver_interface: String,
    udp_receiver_port: u16,
}

impl Model for Receiving {
    ghost use Rattle.std.specs.String.{string_bytes};
    ghost use Rattle.conf_text.specs.SettingsTable.{ReceivingValues};

    ghost Value = { ReceivingValues };

    ghost view = { λ r. record {
      line_receiver_interface = string_bytes r.line_receiver_interface;
      line_receiver_port = r.line_receiver_port;
      pickle_receiver_interface = string_bytes r.pickle_receiver_interface;
      pickle_receiver_port = r.pickle_receiver_port;
      enable_udp_listener = r.enable_udp_listener;
      udp_receiver_interface = string_bytes r.udp_receiver_interface;
      udp_receiver_port = r.udp_receiver_port;
    } };
}

impl Receiving {
    #[tactic(auto, unfolding(crate::specs::SettingsTable::receiving_of))]
    fn read(alloc: Global, ini: &Ini) -> Result<Receiving, SettingFault>
        ensures { Gives SettingFault.NoMemory (λ r. r) result (receiving_of ini.now) }
    {
        let line_interface = rules::any_text(
            alloc,
            ini,
            Setting::LineReceiverInterface,
            "0.0.0.0",
        )?;
        let line_port = rules::number_in(ini, Setting::LineReceiverPort, "2013", 0, HIGHEST_PORT)?;
        let pickle_interface = rules::any_text(
            alloc,
            ini,
            Setting::PickleReceiverInterface,
            "0.0.0.0",
        )?;
        let pickle_port = rules::number_in(
            ini,
            Setting::PickleReceiverPort,
            "2014",
            0,
            HIGHEST_PORT,
        )?;
        let enable_udp_listener = rules::truth(ini, Setting::EnableUdpListener, "false")?;
        let udp_interface = rules::any_text(alloc, ini, Setting::UdpReceiverInterface, "0.0.0.0")?;
        let udp_port = rules::number_in(ini, Setting::UdpReceiverPort, "2013", 0, HIGHEST_PORT)?;
        Ok(Receiving {
            line_receiver_interface: line_interface,
            line_receiver_port: line_port as u16,
            pickle_receiver_interface: pickle_interface,
            pickle_receiver_port: pickle_port as u16,
            enable_udp_listener,
            udp_receiver_interface: udp_interface,
            udp_receiver_port: udp_port as u16,
        })
    }
}

/// The settings of `[relay]`.
#[derive(Drop)]
pub struct Settings {
    routing: Routing,
    sending: Sending,
    receiving: Receiving,
}

impl Model for Settings {
    ghost use Rattle.conf_text.specs.SettingsTable.{SettingValues};

    ghost Value = { SettingValues };

    ghost view = { λ s. record {
      routing = s.routing;
      sending = s.sending;
      receiving = s.receiving;
    } };
}

impl Settings {
    /// Reads the settings of the section `[relay]`.
    ///
    /// The settings are checked in the order of [`Setting`], and the fault is that of the first that has one. An
    /// unknown setting is ignored. In a file without `[relay]`, DESTINATIONS is missing (this project's profile,
    /// `docs/CONFIGURATION.md`).
    #[tactic(auto, unfolding(crate::specs::SettingsTable::settings_of))]
    pub fn read(alloc: Global, ini: &Ini) -> Result<Settings, SettingFault>
        ensures { Gives SettingFault.NoMemory (λ s. s) result (settings_of ini.now) }
    {
        let routing = Routing::read(alloc, ini)?;
        let sending = Sending::read(ini)?;
        let receiving = Receiving::read(alloc, ini)?;
        Ok(Settings {
            routing,
            sending,
            receiving,
        })
    }

    /// DESTINATIONS: 1 to [`MOST_DESTINATIONS`], in the order of the list.
    pub fn destinations(&self) -> &[Dest]
        ensures list { result.now ≡ self.now.routing.destinations }
        ensures count { (1 ≤ length result.now) × (length result.now ≤ MOST_DESTINATIONS) }
    {
        self.routing.destinations.as_slice()
    }

    /// RELAY_METHOD.
    pub fn relay_method(&self) -> RelayMethod
        ensures { result ≡ self.now.routing.relay_method }
    {
        self.routing.relay_method
    }

    /// REPLICATION_FACTOR: the number of nodes of the ring that get a metric, 1 to [`LARGEST_FACTOR`].
    pub fn replication_factor(&self) -> usize
        ensures factor { result ≡ self.now.routing.replication_factor }
        ensures range { (1 ≤ result) × (result ≤ LARGEST_FACTOR) }
    {
        self.routing.replication_factor
    }

    /// DIVERSE_REPLICAS: whether the ring gives a metric no two nodes on one host.
    pub fn diverse_replicas(&self) -> bool
        ensures { result ≡ self.now.routing.diverse_replicas }
    {
        self.routing.diverse_replicas
    }

    /// MAX_QUEUE_SIZE: the most datapoints that wait for a destination, 1 to [`LARGEST_QUEUE_SIZE`].
    pub fn max_queue_size(&self) -> usize
        ensures size { result ≡ self.now.sending.max_queue_size }
        ensures range { (1 ≤ result) × (result ≤ LARGEST_QUEUE_SIZE) }
    {
        self.sending.max_queue_size
    }

    /// MAX_DATAPOINTS_PER_MESSAGE: the most datapoints in one batch, 1 to [`LARGEST_MESSAGE`].
    pub fn max_datapoints_per_message(&self) -> usize
        ensures limit { result ≡ self.now.sending.max_datapoints_per_message }
        ensures range { (1 ≤ result) × (result ≤ LARGEST_MESSAGE) }
    {
        self.sending.max_datapoints_per_message
    }

    /// USE_FLOW_CONTROL: always off, since a file that asks for it is refused.
    pub fn use_flow_control(&self) -> bool
        ensures on { result ≡ self.now.sending.use_flow_control }
        ensures off { result ≡ false }
    {
        self.sending.use_flow_control
    }

    /// DESTINATION_PROTOCOL.
    pub fn destination_protocol(&self) -> DestinationProtocol
        ensures { result ≡ self.now.sending.destination_protocol }
    {
        self.sending.destination_protocol
    }

    /// LINE_RECEIVER_INTERFACE: the address that lines are received at.
    pub fn line_receiver_interface(&self) -> &str
        ensures { result.now ≡ self.now.receiving.line_receiver_interface }
    {
        self.receiving.line_receiver_interface.as_str()
    }

    /// LINE_RECEIVER_PORT: 0 means that no lines are received.
    pub fn line_receiver_port(&self) -> u16
        ensures { result ≡ self.now.receiving.line_receiver_port }
    {
        self.receiving.line_receiver_port
    }

    /// PICKLE_RECEIVER_INTERFACE: the address that pickles are received at.
    pub fn pickle_receiver_interface(&self) -> &str
        ensures { result.now ≡ self.now.receiving.pickle_receiver_interface }
    {
        self.receiving.pickle_receiver_interface.as_str()
    }

    /// PICKLE_RECEIVER_PORT: 0 means that no pickles are received.
    pub fn pickle_receiver_port(&self) -> u16
        ensures { result ≡ self.now.receiving.pickle_receiver_port }
    {
        self.receiving.pickle_receiver_port
    }

    /// ENABLE_UDP_LISTENER: whether datagrams are received.
    pub fn enable_udp_listener(&self) -> bool
        ensures { result ≡ self.now.receiving.enable_udp_listener }
    {
        self.receiving.enable_udp_listener
    }

    /// UDP_RECEIVER_INTERFACE: the address that datagrams are received at.
    pub fn udp_receiver_interface(&self) -> &str
        ensures { result.now ≡ self.now.receiving.udp_receiver_interface }
    {
        self.receiving.udp_receiver_interface.as_str()
    }

    /// UDP_RECEIVER_PORT: 0 means that no datagrams are received.
    pub fn udp_receiver_port(&self) -> u16
        ensures { result ≡ self.now.receiving.udp_receiver_port }
    {
        self.receiving.udp_receiver_port
    }
}
