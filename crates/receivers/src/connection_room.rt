//! How many connections several listeners hold together.

use std::sync::Arc;
use std::sync::atomic::{AtomicUsize, Ordering};

/// The room for the connections of several listeners together, so that the system has descriptors left for other uses.
#[derive(Drop)]
pub struct ConnectionRoom {
    most: AtomicUsize,
    held: AtomicUsize,
}

impl ConnectionRoom {
    /// Room for this many connections, of which none is held.
    pub fn new(most: usize) -> ConnectionRoom {
        ConnectionRoom {
            most: AtomicUsize::new(most),
            held: AtomicUsize::new(0),
        }
    }

    /// So many descriptors were kept for other uses, and from now on so many are. Connections that have a place keep it. One
    /// thread at most calls it.
    pub fn keep_for_others(&self, before: usize, now: usize) {
        let most = self.most.load(Ordering::SeqCst);
        let all = most.saturating_add(before);
        self.most.store(all.saturating_sub(now), Ordering::SeqCst);
    }
}

/// The place of a connection in a room. Another connection may have it once it is dropped.
pub(crate) struct Place {
    room: Arc<ConnectionRoom>,
}

/// No place is free.
#[derive(Clone, Copy)]
pub(crate) struct NoPlace;

impl Place {
    /// Takes a place in a room. Refuses if none is free.
    fn take(room: &Arc<ConnectionRoom>) -> Result<Place, NoPlace> {
        let Ok(room) = Arc::try_clone(room) else {
            return Err(NoPlace);
        };
        let place = Place { room };
        let most = place.room.most.load(Ordering::SeqCst);
        if place.room.held.fetch_add(1, Ordering::SeqCst) < most {
            Ok(place)
        } else {
            Err(NoPlace)
        }
    }
}

impl Drop for Place {
    fn drop(self) {
        let Place { room } = self;
        let _before = room.held.fetch_sub(1, Ordering::SeqCst);
    }
}

/// Takes a place in a room, if there is a room: without one a connection takes no place. Refuses if none is free.
pub(crate) fn place_in(room: &Option<Arc<ConnectionRoom>>) -> Result<Option<Place>, NoPlace> {
    match room {
        Some(room) => Ok(Some(Place::take(room)?)),
        None => Ok(None),
    }
}
