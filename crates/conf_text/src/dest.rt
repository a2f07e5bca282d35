//! Destinations, as DESTINATIONS and the relay rules name them.

ghost use Rattle.std.specs.Prelude.{◌≡◌, ◌≤◌, Some, length, IfOk, option_map, option_copied, ok_or};
ghost use Rattle.std.specs.List.{list_all};
ghost use Rattle.conf_text.specs.declared.dest.DestFault.TheVariants.{NoMemory as OutOfMemory};
ghost use Rattle.relay_base.specs.Memory.{Gives};
ghost use Rattle.conf_text.specs.Destination.{is_label_byte, is_label, is_instance, port_of, destination, destination_of, destinations_of, destination_text};
ghost use Rattle.conf_text.specs.ReadDestination.{parts_view};

use crate::limits::{HIGHEST_PORT, LONGEST_LABEL, MOST_PORT_DIGITS};
use relay_base::{NoMemory, short_whole_number, strip};
use std::alloc::{AllocError, Global};
use std::fmt;
use std::marker::Model;
use thiserror::Error;

/// Why a text is not a destination.
#[derive(Debug, Drop, Error)]
pub enum DestFault {
    /// The text, or an item of the list, is not written as a destination is.
    #[error("BadDestination")]
    BadDestination,
    /// A growth was refused.
    #[error("no memory")]
    NoMemory,
}

impl<E: Into<NoMemory> + Drop> From<E> for DestFault {
    ghost from_gives = { λ _ fault. fault ≡ OutOfMemory };

    fn from(_error: E) -> DestFault {
        DestFault::NoMemory
    }
}

/// A place that datapoints are sent to.
///
/// The ranges of the fields hold for every value, so a printed destination is read as the same destination.
/// Two are equal if host, port and instance are.
#[derive(Debug, Drop)]
pub struct Dest {
    /// 1 to [`LONGEST_LABEL`] ASCII letters, digits, `.`, `-` and `_`.
    pub host: String,
    /// 1 to [`HIGHEST_PORT`].
    pub port: u16,
    /// Written as a host is, if there is one.
    pub instance: Option<String>,
}

impl Model for Dest {
    ghost use Rattle.std.specs.Prelude.{option_map};
    ghost use Rattle.std.specs.String.{string_bytes};
    ghost use Rattle.conf_text.specs.Destination.{Destination, IsDestination};

    ghost Value = { Destination };

    ghost view = { λ d. record {
      host = string_bytes d.host;
      port = d.port;
      instance = option_map string_bytes d.instance;
    } };

    ghost invariant = { λ d. IsDestination (record {
      host = string_bytes d.host;
      port = d.port;
      instance = option_map string_bytes d.instance;
    }) };
}

impl Dest {
    ghost use Rattle.conf_text.specs.SameDestination.{same_node};

    /// Reads `host:port` or `host:port:instance`.
    ///
    /// The text is read as it is: white space is not part of a destination. The port has one to five
    /// digits. Any other text is `BadDestination` (this project's profile, `docs/CONFIGURATION.md`).
    pub fn read(alloc: Global, text: &str) -> Result<Dest, DestFault>
        ensures { Gives DestFault.NoMemory (λ dest. dest) result
            (ok_or (destination_of text.now) DestFault.BadDestination) }
    {
        let Some(parts) = parts_of(text) else {
            return Err(DestFault::BadDestination);
        };
        let instance = match parts.instance {
            Some(instance) => Some(String::from_str(alloc, instance)?),
            None => None,
        };
        let host = String::from_str(alloc, parts.host)?;
        Ok(Dest {
            host,
            port: parts.port,
            instance,
        })
    }

    /// Reads a list of destinations: they are separated by commas, and white space round an item is not
    /// part of it.
    ///
    /// An item that is not a destination, or is empty, is `BadDestination` (`docs/CONFIGURATION.md`).
    pub fn read_list(alloc: Global, text: &str) -> Result<Vec<Dest>, DestFault>
        ensures gives { Gives DestFault.NoMemory (λ dests. dests.items) result
            (ok_or (destinations_of text.now) DestFault.BadDestination) }
        ensures some { IfOk result (λ v. 1 ≤ length v.items) }
    {
        let mut dests = Vec::new(alloc);
        for item in text.split(',') {
            let dest = Dest::read(alloc, strip(item))?;
            dests.push(dest)?;
        }
        Ok(dests)
    }

    /// Whether both are one node of a hash ring: a host with its instance, the port left out.
    pub fn is_same_node(&self, other: &Dest) -> bool
        ensures { result ≡ same_node self.now other.now }
    {
        self.host == other.host && self.instance == other.instance
    }
}

impl PartialEq for Dest {
    ghost use Rattle.conf_text.specs.SameDestination.{same_destination, same_destination-laws};

    ghost eq = { same_destination };

    ghost laws = { same_destination-laws };

    fn eq(&self, other: &Dest) -> bool {
        self.is_same_node(other) && self.port == other.port
    }
}

impl Clone for Dest {
    ghost is_clone = { λ dest copy. copy ≡ dest };

    fn clone(&self) -> Result<Dest, AllocError> {
        let instance = match &self.instance {
            Some(instance) => Some(instance.clone()?),
            None => None,
        };
        Ok(Dest {
            host: self.host.clone()?,
            port: self.port,
            instance,
        })
    }
}

impl Eq for Dest {
    ghost use Rattle.conf_text.specs.SameDestination.{same_destination-equivalence};

    ghost laws = { same_destination-equivalence };
}

/// Prints `host:port` or `host:port:instance`, the port in decimal without leading zeros.
impl fmt::Display for Dest {
    ghost output = { λ d. Some (destination_text d) };

    fn fmt<W: fmt::Write>(&self, f: &mut fmt::Formatter<W>) -> fmt::Result {
        write!(f, "{}:{}", self.host, self.port)?;
        match &self.instance {
            Some(instance) => write!(f, ":{instance}"),
            None => Ok(()),
        }
    }
}

#[derive(Clone, Copy)]
struct Parts<'a> {
    host: &'a str,
    port: u16,
    instance: Option<&'a str>,
}

fn parts_of(text: &str) -> Option<Parts<'_>>
    ensures { option_map parts_view result ≡ destination_of text.now }
{
    let (host, rest) = text.split_once(':')?;
    match rest.split_once(':') {
        Some((port, instance)) => parts_in_range(host, port, Some(instance)),
        None => parts_in_range(host, rest, None),
    }
}

fn parts_in_range<'a>(host: &'a str, port: &'a str, instance: Option<&'a str>) -> Option<Parts<'a>>
    ensures { option_map parts_view result
        ≡ destination host.now port.now (option_copied instance.entry) }
{
    if !is_label(host) || !is_instance(instance) {
        return None;
    }
    let port = port_of(port)?;
    Some(Parts {
        host,
        port,
        instance,
    })
}

fn is_label_byte(byte: u8) -> bool
    ensures { result ≡ is_label_byte byte }
{
    byte.is_ascii_alphanumeric() || byte == b'.' || byte == b'-' || byte == b'_'
}

fn has_label_bytes_alone(text: &[u8]) -> bool
    ensures { result ≡ list_all is_label_byte text.now }
{
    text.iter().all(|byte| is_label_byte(*byte))
}

fn is_label(text: &str) -> bool
    ensures { result ≡ is_label text.now }
{
    1 <= text.len() && text.len() <= LONGEST_LABEL && has_label_bytes_alone(text.as_bytes())
}

fn is_instance(instance: Option<&str>) -> bool
    ensures { result ≡ is_instance (option_copied instance.entry) }
{
    match instance {
        Some(text) => is_label(text),
        None => true,
    }
}

fn port_of(text: &str) -> Option<u16>
    ensures { result ≡ port_of text.now }
{
    let port = short_whole_number(text, MOST_PORT_DIGITS)?;
    if 1 <= port && port <= HIGHEST_PORT {
        Some(port as u16)
    } else {
        None
    }
}
