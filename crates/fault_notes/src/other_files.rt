//! Files of other programs, by sight.

use crate::cause::Cause;
use relay_base::strip;

/// What a file looks like that is none of relayd's.
pub(crate) fn cause_of_other_file(text: &str) -> Option<Cause> {
    let seen = Seen::in_text(text);
    if seen.has_statement || (seen.has_cluster && seen.has_match) {
        Some(Cause::C_RELAY_FILE)
    } else if seen.has_route {
        Some(Cause::RELAY_NG_FILE)
    } else if seen.has_aggregation {
        Some(Cause::AGGREGATION_FILE)
    } else if strip(text).starts_with('{') {
        Some(Cause::JSON_FILE)
    } else if seen.has_item {
        Some(Cause::YAML_FILE)
    } else {
        None
    }
}

/// Which lines of other programs' files a text has.
#[derive(Clone, Copy)]
struct Seen {
    /// `cluster` of carbon-c-relay, its `match`, and what it writes without either: `rewrite`, `include`.
    has_cluster: bool,
    has_match: bool,
    has_statement: bool,
    /// A header of carbon-relay-ng.
    has_route: bool,
    /// An aggregation rule of carbon.
    has_aggregation: bool,
    /// A line of YAML alone.
    has_item: bool,
}

impl Seen {
    /// What the lines of a text are.
    fn in_text(text: &str) -> Seen {
        let mut seen = Seen {
            has_cluster: false,
            has_match: false,
            has_statement: false,
            has_route: false,
            has_aggregation: false,
            has_item: false,
        };
        for line in text.split('\n') {
            seen.add(strip(line));
        }
        seen
    }

    /// Adds what a line is, without the white space round it.
    fn add(&mut self, line: &str) {
        self.has_cluster = self.has_cluster || line.starts_with("cluster ");
        self.has_match = self.has_match || line.starts_with("match ");
        self.has_statement = self.has_statement || is_statement(line);
        self.has_route = self.has_route || is_of_relay_ng(line);
        self.has_aggregation = self.has_aggregation || is_aggregation(line);
        self.has_item = self.has_item || line == "---" || line.starts_with("- ");
    }
}

/// Whether a line is a `rewrite` or an `include` of carbon-c-relay.
fn is_statement(line: &str) -> bool {
    let is_rewrite = line.starts_with("rewrite ") && line.contains(" into ");
    let is_include = line.starts_with("include ") && line.ends_with(';');
    is_rewrite || is_include
}

/// Whether a line is a header of carbon-relay-ng's TOML.
fn is_of_relay_ng(line: &str) -> bool {
    matches!(line, "[[route]]" | "[[rewriter]]" | "[[aggregation]]")
}

/// Whether a line is an aggregation rule, as `all.load (60) = sum servers.*.load`.
fn is_aggregation(line: &str) -> bool {
    let Some((left, right)) = line.split_once(") = ") else {
        return false;
    };
    !line.starts_with('#') && left.contains(" (") && right.contains(' ')
}
