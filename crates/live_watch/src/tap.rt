//! What a receiver's thread notes for a watch.

use crate::batch::{Batch, NotedOffer, PieceHead};
use crate::place::WatchPlace;
use dest_queue::Kept;
use relay_base::DestId;
use std::cell::{Cell, RefCell};

/// What a receiver's thread notes for a watch: the pieces that it reads, and then what became of their offers. It belongs to
/// that thread alone. It takes no memory, and waits for nobody.
#[derive(Drop)]
pub struct Tap<'p> {
    place: &'p WatchPlace,
    // Whether the offers of the piece that was read last are noted.
    is_noting: Cell<bool>,
    hand: RefCell<Option<Batch>>,
}

impl<'p> Tap<'p> {
    /// The tap of a receiver, which has noted nothing.
    pub fn new(place: &'p WatchPlace) -> Tap<'p> {
        Tap {
            place,
            is_noting: Cell::new(false),
            hand: RefCell::new(None),
        }
    }

    /// The number of the watch, 0 if nobody watches, before a piece is noted: then the offers that follow are not. It reads one
    /// atomic word.
    pub fn watch(&self) -> u64 {
        let watch = self.place.watch();
        if watch == 0 {
            self.is_noting.set(false);
        }
        watch
    }

    /// Notes a piece for the watch of this number, which is not 0. Returns whether it did; otherwise it is missed.
    pub fn note_piece(&self, watch: u64, head: PieceHead, bytes: &[u8]) -> bool {
        let is_noted = self.add(watch, head, bytes);
        self.is_noting.set(is_noted);
        if !is_noted {
            self.place.note_missed(bytes.len() as u64);
        }
        is_noted
    }

    /// Adds a piece to the batch in hand, or to an empty one for that.
    fn add(&self, watch: u64, head: PieceHead, bytes: &[u8]) -> bool {
        let Ok(mut hand) = self.hand.try_borrow_mut() else {
            return false;
        };
        if !has_room(&hand, watch, bytes.len()) {
            self.place.exchange(watch, &mut hand);
        }
        if !has_room(&hand, watch, bytes.len()) {
            return false;
        }
        match &mut *hand {
            Some(batch) => batch.add(head, bytes),
            None => false,
        }
    }

    /// Whether the offers of the piece that was read last are noted.
    pub(crate) fn is_noting(&self) -> bool {
        self.is_noting.get()
    }

    /// Notes an offer of the piece that was read last.
    pub(crate) fn note_offer(&self, dest: DestId, kept: Kept) {
        if let Ok(mut hand) = self.hand.try_borrow_mut() {
            if let Some(batch) = &mut *hand {
                batch.note(NotedOffer::new(dest, kept));
            }
        }
    }

    /// Hands over what it has noted, if the watch takes it now. All offers of the last piece were made.
    pub fn hand_over(&self) {
        let Ok(mut hand) = self.hand.try_borrow_mut() else {
            return;
        };
        if hand.is_some() {
            self.is_noting.set(false);
            self.place.exchange(self.place.watch(), &mut hand);
        }
    }
}

/// Whether there is a batch of this watch with room for a piece of so many bytes.
fn has_room(hand: &Option<Batch>, watch: u64, count: usize) -> bool {
    match hand {
        Some(batch) => batch.watch() == watch && batch.has_room(count),
        None => false,
    }
}
