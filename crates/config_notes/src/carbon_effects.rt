//! The keys of carbon that change what it receives or sends, and that relayd does not have.

use conf_text::truth;
use note_text::{EscapedText, Notes, SectionAt};
use relay_base::whole_number_up_to;

/// The longest frame of pickles that relayd reads, in bytes, as carbon does by default.
const LONGEST_FRAME: u64 = 1_048_576;

/// The value that a key of carbon has by default, with which carbon does what relayd does.
#[derive(Clone, Copy)]
enum Usual {
    /// A truth word that means no.
    No,
    /// One of these words, or nothing.
    OneOf(&'static [&'static str]),
    /// A number up to this one.
    UpTo(u64),
}

impl Usual {
    fn is(self, value: &str) -> bool {
        match self {
            Usual::No => truth(value) == Some(false),
            Usual::OneOf(words) => value.is_empty() || words.contains(&value),
            Usual::UpTo(most) => whole_number_up_to(value, most).is_some(),
        }
    }
}

/// A key of carbon that changes what it receives or sends.
#[derive(Clone, Copy)]
struct Effect {
    key: &'static str,
    usual: Usual,
    /// Whether it matters on a ring alone.
    is_of_ring: bool,
    /// What differs, for whoever moves to relayd.
    what: &'static str,
}

static EFFECTS: [Effect; 12] = [
    Effect {
        key: "USE_WHITELIST",
        usual: Usual::No,
        is_of_ring: false,
        what: "carbon drops the metrics that its whitelist lacks and those on its blacklist, and relayd sends them; docs/MIGRATING.md has rewrite rules that drop them",
    },
    Effect {
        key: "TAG_RELAY_NORMALIZED",
        usual: Usual::No,
        is_of_ring: false,
        what: "carbon sorts the tags of a name before it routes it, and relayd keeps their order; on a ring, names whose tags are not sorted move to other stores",
    },
    Effect {
        key: "ROUTER_HASH_TYPE",
        usual: Usual::OneOf(&["carbon_ch"]),
        is_of_ring: true,
        what: "relayd has only carbon_ch, the ring with MD5, so most names move to other stores",
    },
    Effect {
        key: "MIN_TIMESTAMP_RESOLUTION",
        usual: Usual::UpTo(0),
        is_of_ring: false,
        what: "carbon rounds the times of datapoints down to a multiple of it, and relayd sends them unchanged",
    },
    Effect {
        key: "DESTINATION_POOL_REPLICAS",
        usual: Usual::No,
        is_of_ring: false,
        what: "carbon sends a datapoint to any destination with the same host and port, whichever has the shorter queue, and relayd only to the one that its router chose",
    },
    Effect {
        key: "DYNAMIC_ROUTER",
        usual: Usual::No,
        is_of_ring: false,
        what: "carbon sends the metrics of a store that is away to other stores, and relayd queues them until it is back",
    },
    Effect {
        key: "DESTINATION_TRANSPORT",
        usual: Usual::OneOf(&["none"]),
        is_of_ring: false,
        what: "relayd writes to the stores without TLS; docs/ENCRYPTION.md says how HAProxy adds it",
    },
    Effect {
        key: "ENABLE_AMQP",
        usual: Usual::No,
        is_of_ring: false,
        what: "carbon also receives metrics over AMQP, and relayd does not",
    },
    Effect {
        key: "PROTOBUF_RECEIVER_PORT",
        usual: Usual::UpTo(0),
        is_of_ring: false,
        what: "carbon also receives metrics as protobuf, and relayd does not",
    },
    Effect {
        key: "PICKLE_RECEIVER_MAX_LENGTH",
        usual: Usual::UpTo(LONGEST_FRAME),
        is_of_ring: false,
        what: "carbon reads frames of pickles up to this length in bytes, and relayd closes the connection at one of more than 1048576",
    },
    Effect {
        key: "MAX_RECEIVER_CONNECTIONS",
        usual: Usual::OneOf(&["inf"]),
        is_of_ring: false,
        what: "carbon lets further connections wait, and relayd holds 1024 for each receiver and closes further ones",
    },
    Effect {
        key: "METRIC_CLIENT_IDLE_TIMEOUT",
        usual: Usual::OneOf(&[]),
        is_of_ring: false,
        what: "carbon closes a connection that sends no datapoint for so many seconds, and relayd only with --idle SECONDS",
    },
];

/// Adds a note if a key of carbon, in capitals, makes carbon receive or send something else than relayd with this
/// value; says whether there is one. Unless the method is the ring, the relay rules have a path.
pub(crate) fn add_effect(
    notes: &mut Notes,
    at: SectionAt<'_>,
    key: &str,
    value: &str,
    rules: Option<&str>,
) -> bool {
    if key == "RELAY_RULES" {
        return add_other_rules(notes, at, value, rules);
    }
    for effect in &EFFECTS {
        if effect.key == key && !effect.usual.is(value) {
            if effect.is_of_ring && rules.is_some() {
                return false;
            }
            notes.add(format_args!("{at}: {key} = {}: {}", EscapedText(value), effect.what));
            return true;
        }
    }
    false
}

/// Adds a note if carbon reads its relay rules from a file of another name than this path has; says whether there is one.
fn add_other_rules(notes: &mut Notes, at: SectionAt<'_>, value: &str, rules: Option<&str>) -> bool {
    match rules {
        Some(path) if file_name(path) != file_name(value) => {
            notes.add(format_args!(
                "{at}: RELAY_RULES = {}: carbon reads its relay rules from that file, and relayd from {}",
                EscapedText(value),
                EscapedText(path)
            ));
            true
        }
        _ => false,
    }
}

/// The name of the file of a path.
fn file_name(path: &str) -> &str {
    match path.rsplit_once('/') {
        Some((_, name)) => name,
        None => path,
    }
}
