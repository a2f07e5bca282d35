//! A door whose offers are noted for a watch.

ghost use Rattle.std.specs.Prelude.{◌≡◌, ◌<◌, length, map, slice_index, IfOk, IfErr, OnErr};
ghost use Rattle.std.specs.Arc.{arc_value};
ghost use Rattle.queue_records.specs.Made.{offer_of};
ghost use Rattle.queue_records.specs.Offers.{after_offer};

use crate::tap::Tap;
use dest_queue::{Kept, OfferFault};
use line_text::Point;
use queue_records::{Door, Made};
use relay_base::DestId;
use std::sync::Arc;

/// What notes offers.
pub trait NotesOffers {
    /// Whether offers are noted now.
    fn is_noting(&self) -> bool;

    /// Notes an offer to a destination.
    fn note_offer(&self, dest: DestId, kept: Kept);
}

/// The offers of a piece, which a tap notes while it notes the piece.
#[derive(Clone, Copy)]
pub struct PieceOffers<'t> {
    tap: &'t Tap<'t>,
}

impl<'t> PieceOffers<'t> {
    /// Those of the pieces of a tap.
    pub fn of(tap: &'t Tap<'t>) -> PieceOffers<'t> {
        PieceOffers { tap }
    }
}

impl NotesOffers for PieceOffers<'_> {
    fn is_noting(&self) -> bool {
        self.tap.is_noting()
    }

    fn note_offer(&self, dest: DestId, kept: Kept) {
        self.tap.note_offer(dest, kept);
    }
}

/// A door whose offers are noted. It makes each through the door behind it, and answers as that does.
#[derive(Drop)]
pub struct WatchedDoor<N, D> {
    door: D,
    notes: N,
}

impl<N: Drop, D> WatchedDoor<N, D> {
    /// A door in front of this one.
    pub fn new(door: D, notes: N) -> WatchedDoor<N, D>
        ensures { result.door ≡ door }
    {
        WatchedDoor { door, notes }
    }

    /// The door behind it.
    pub fn into_door(self) -> D
        ensures { result ≡ self.door }
    {
        let WatchedDoor { door, notes: _ } = self;
        door
    }
}

impl<N: NotesOffers, D: Door> Door for WatchedDoor<N, D> {
    ghost record_of = { λ d. D.record_of d.door };

    ghost may_refuse = { λ d reader dest point fault. D.may_refuse d.door reader dest point fault };

    type Hold = D::Hold;

    fn offer(
        &mut self,
        reader: usize,
        dest: DestId,
        point: &Arc<Point>,
    ) -> Result<Kept, OfferFault> {
        let answer = self.door.offer(reader, dest, point);
        if self.notes.is_noting() {
            note(&self.notes, dest, &answer);
        }
        answer
    }

    fn offer_with(
        &mut self,
        hold: &mut Option<D::Hold>,
        reader: usize,
        dest: DestId,
        point: &Arc<Point>,
    ) -> Result<Kept, OfferFault> {
        let answer = self.door.offer_with(hold, reader, dest, point);
        if self.notes.is_noting() {
            note(&self.notes, dest, &answer);
        }
        answer
    }

    fn made(&self) -> &[Made] {
        self.door.made()
    }

    fn total(&self, dest: DestId) -> u64 {
        self.door.total(dest)
    }
}

/// Notes an offer to a destination, if it was made.
fn note<N: NotesOffers>(notes: &N, dest: DestId, answer: &Result<Kept, OfferFault>) {
    if let Ok(kept) = answer {
        notes.note_offer(dest, *kept);
    }
}
