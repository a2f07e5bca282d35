//! The files of the worked examples, which tests of several layers share: relays by rules, a relay by the ring, and
//! rewrite rules; and the plan of a relay by the ring.
#![tactic(auto)]

mod plan;

pub use plan::{ring_plan, settings_of};

/// Three destinations, by relay rules.
pub const BY_RULES: &str = "\
[relay]
DESTINATIONS = h:3001, h:3002, h:3003
USE_FLOW_CONTROL = False
DESTINATION_PROTOCOL = line
";

/// A ring of one destination, where each name goes, also with two copies.
pub const ONE_DESTINATION: &str = "\
[relay]
DESTINATIONS = 127.0.0.1:3001
RELAY_METHOD = consistent-hashing
REPLICATION_FACTOR = 2
USE_FLOW_CONTROL = False
DESTINATION_PROTOCOL = line
";

/// Relay rules: the default rule first, a rule whose one destination is unknown, a rule that continues, with a
/// destination that is unknown and one that is there twice, and a rule.
pub const RULES: &str = "\
[z]
default = true
destinations = h:3003
[nowhere]
pattern = ^no\\.
destinations = h:3009
[one]
pattern = ^A\\.
continue = true
destinations = h:3002, h:3009, h:3002
[two]
pattern = cpu
destinations = h:3001, h:3002
";

/// Rewrite rules: a group, a name that is left empty, and `post` after `pre`, wherever they are.
pub const REWRITE: &str = "\
[post]
^b$ = c
[pre]
^collectd\\.([a-z0-9]+)\\. = \\1.system.
^x$ =
^a$ = b
";

/// Two destinations, by relay rules, each with a queue of one datapoint.
pub const TWO_DESTINATIONS: &str = "\
[relay]
DESTINATIONS = 127.0.0.1:3001, 127.0.0.1:3002
MAX_QUEUE_SIZE = 1
USE_FLOW_CONTROL = False
DESTINATION_PROTOCOL = line
";

/// Relay rules for them: names that begin with `a.` go to the first, all others to the second.
pub const TWO_RULES: &str = "\
[a]
pattern = ^a\\.
destinations = 127.0.0.1:3001
[rest]
default = true
destinations = 127.0.0.1:3002
";
