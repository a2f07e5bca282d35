//! A watch of datapoints.

ghost use Rattle.std.specs.Prelude.{◌≡◌};
ghost use Rattle.live_watch.specs.SentPoints.{all_sent};

use crate::agreement::agree;
use crate::batch::SeenPiece;
use crate::found::FoundPiece;
use crate::joined::join;
use crate::reading::Reading;
use crate::shown::Shown;
use patterns::Pattern;
use relay_base::NoMemory;
use router::{Plan, Sent};
use std::alloc::Global;

/// How many datapoints are shown in a second at most.
const MOST_A_SECOND: u64 = 1_000;

/// How many bytes of lines wait at most until they are asked for.
const MOST_BYTES: usize = 1_048_576;

/// A watch of datapoints: which are wanted, and the lines of those that came since they were asked for last.
#[derive(Drop)]
pub(crate) struct LineWatch {
    pub(crate) is_json: bool,
    // The place of the destination that is wanted, and the pattern, if one is.
    pub(crate) dest: Option<usize>,
    pub(crate) pattern: Option<Pattern>,
    pub(crate) text: String,
    pub(crate) lines: u64,
    pub(crate) counts: LineCounts,
    second: u64,
    in_second: u64,
}

/// What a watch of datapoints has counted: those that are wanted, of them those that were too many to be shown, and the reads
/// whose datapoints are not known.
#[derive(Clone, Copy)]
pub(crate) struct LineCounts {
    pub(crate) wanted: u64,
    pub(crate) more: u64,
    pub(crate) unread: u64,
}

impl LineWatch {
    /// A watch that has seen nothing.
    pub(crate) fn new(
        alloc: Global,
        is_json: bool,
        dest: Option<usize>,
        pattern: Option<Pattern>,
    ) -> LineWatch {
        LineWatch {
            is_json,
            dest,
            pattern,
            text: String::new(alloc),
            lines: 0,
            counts: LineCounts {
                wanted: 0,
                more: 0,
                unread: 0,
            },
            second: 0,
            in_second: 0,
        }
    }

    /// Takes a piece with these datapoints, of which this plan sends. One whose offers are not those that the plan makes is unread.
    pub(crate) fn take(
        &mut self,
        piece: SeenPiece<'_>,
        found: &FoundPiece,
        plan: &mut Plan,
        reading: &Reading<'_>,
    ) -> Result<(), NoMemory> {
        if !piece.is_whole {
            self.note_unread();
            return Ok(());
        }
        let joined = join(reading.alloc, &mut *plan, found, piece.offers)?;
        match &joined {
            Some(joined) => {
                let (_, own) = piece.offers.split_at(joined.before.min(piece.offers.len()));
                let piece = SeenPiece {
                    offers: own,
                    ..piece
                };
                self.show_all(piece, found, plan, joined.sent.as_slice(), reading);
            }
            None => self.note_unread(),
        }
        drop(joined);
        Ok(())
    }

    /// A piece is not shown: its datapoints are not known.
    pub(crate) fn note_unread(&mut self) {
        self.counts.unread = self.counts.unread.saturating_add(1);
    }

    /// Shows those datapoints of a piece that are wanted, of each of which the plan sends this.
    fn show_all<'x>(
        &mut self,
        piece: SeenPiece<'x>,
        found: &'x FoundPiece,
        plan: &'x Plan,
        sent: &'x [Sent],
        reading: &Reading<'_>,
    )
        requires { sent.now ≡ all_sent plan.now found.now.found.items }
    {
        let mut rest = piece.offers;
        for (place, one) in found.found.as_slice().iter().enumerate() {
            let sent = &sent[place];
            let (own, others) = rest.split_at(sent.dests.len().min(rest.len()));
            rest = others;
            if agree(own, sent.dests.as_slice()) {
                let shown = Shown {
                    receiver: piece.head.receiver,
                    producer: piece.head.producer,
                    line: found.line_of(one),
                    plan,
                    point: &one.point,
                    sent,
                    offers: own,
                };
                self.show_wanted(&shown, reading);
            }
        }
    }

    /// Shows a datapoint if it is wanted.
    fn show_wanted(&mut self, shown: &Shown<'_>, reading: &Reading<'_>) {
        if self.wants(shown) {
            self.show(shown, reading);
        }
    }

    /// Whether a datapoint is wanted: its destination is, and the pattern is found in its old or its new name.
    fn wants(&mut self, shown: &Shown<'_>) -> bool {
        if let Some(dest) = self.dest {
            let sent = shown.sent;
            if !sent.dests.as_slice().iter().any(|id| id.0 == dest) {
                return false;
            }
        }
        match &mut self.pattern {
            None => true,
            Some(pattern) => {
                let point = shown.point;
                let name = point.name.text();
                pattern.is_found(name) || is_found_in_new(pattern, name, shown.new_name())
            }
        }
    }

    /// Shows a datapoint, unless there are too many or it is out of memory.
    fn show(&mut self, shown: &Shown<'_>, reading: &Reading<'_>) {
        self.counts.wanted = self.counts.wanted.saturating_add(1);
        if reading.millis.saturating_sub(self.second) >= 1_000 {
            self.second = reading.millis;
            self.in_second = 0;
        }
        if self.in_second >= MOST_A_SECOND || self.text.len() >= MOST_BYTES {
            self.counts.more = self.counts.more.saturating_add(1);
            return;
        }
        self.in_second = self.in_second.saturating_add(1);
        match self.push(shown, reading) {
            Ok(()) => self.lines = self.lines.saturating_add(1),
            Err(_) => self.counts.more = self.counts.more.saturating_add(1),
        }
    }

    /// Adds the line of a datapoint, or its object. If out of memory, it adds nothing.
    fn push(&mut self, shown: &Shown<'_>, reading: &Reading<'_>) -> Result<(), NoMemory> {
        let (alloc, dests) = (reading.alloc, reading.dests);
        let mut line = String::new(alloc);
        let pushed = if self.is_json {
            shown.push_object(alloc, dests, &mut line)
        } else {
            shown.push_line(alloc, dests, &mut line)
        };
        let added = match pushed {
            Ok(()) => self.text.push_str(line.as_str()).map_err(|_| NoMemory),
            Err(fault) => Err(fault),
        };
        drop(line);
        added
    }
}

/// Whether a pattern is found in a new name, if it is another than the old one.
fn is_found_in_new(pattern: &mut Pattern, name: &str, rewritten: Option<&str>) -> bool {
    match rewritten {
        Some(new) if new != name => pattern.is_found(new),
        _ => false,
    }
}
