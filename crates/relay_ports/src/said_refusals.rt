//! What the log says of connections that the admin port refused what they asked for.

use admin_port::Refusals;
use std::alloc::Global;

/// How many milliseconds pass at least between two lines, but for the last.
const REFUSALS_PAUSE_MS: u64 = 60_000;

/// What the log has of these connections, and the milliseconds of its last line.
#[derive(Clone, Copy)]
pub struct SaidRefusals {
    refusals: Refusals,
    since: Option<u64>,
}

impl SaidRefusals {
    /// The log has nothing.
    pub fn none() -> SaidRefusals {
        SaidRefusals {
            refusals: Refusals {
                unknown: 0,
                keyless: 0,
            },
            since: None,
        }
    }

    /// A line on what is new, once a minute at most. Without memory for the line it is said later.
    pub fn line(&mut self, alloc: Global, refusals: Refusals, millis: u64) -> Option<String> {
        let is_early = match self.since {
            Some(since) => millis.saturating_sub(since) < REFUSALS_PAUSE_MS,
            None => false,
        };
        if is_early {
            return None;
        }
        let line = self.last_line(alloc, refusals)?;
        self.since = Some(millis);
        Some(line)
    }

    /// A line on what is new, however soon. Without memory for the line there is none.
    pub fn last_line(&mut self, alloc: Global, refusals: Refusals) -> Option<String> {
        if refusals == self.refusals {
            return None;
        }
        let unknown = refusals.unknown.saturating_sub(self.refusals.unknown);
        let keyless = refusals.keyless.saturating_sub(self.refusals.keyless);
        let commands = match unknown {
            1 => "command",
            _ => "commands",
        };
        let line = format!(in alloc;
            "admin: {unknown} unknown {commands}, {keyless} without the key\n"
        );
        match line {
            Ok(line) => {
                self.refusals = refusals;
                Some(line)
            }
            Err(_) => None,
        }
    }
}
