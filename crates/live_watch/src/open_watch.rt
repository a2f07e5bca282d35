//! A watch that is open.

use crate::batch::{Batch, SeenPiece};
use crate::connection_shadow::ConnectionShadows;
use crate::line_watch::LineWatch;
use crate::names_watch::NamesWatch;
use crate::place::{Missed, WatchPlaces};
use crate::reading::Reading;
use relay_base::{NoMemory, add};
use router::Plan;
use std::alloc::Global;
use std::fmt::Write as _;

/// How many batches a receiver has: one in its hand, one that is empty, and one that is read.
const BATCHES: usize = 3;

/// For how many milliseconds a watch goes on that nobody asks.
const MOST_SILENCE_MS: u64 = 3_000;

/// How many milliseconds of silence one look adds at most: a thread that is held up hears no question.
const MOST_HEARD_MS: u64 = 100;

/// What is watched.
#[derive(Drop)]
pub(crate) enum Watched {
    /// Datapoints.
    Lines(LineWatch),
    /// The first parts of names.
    Names(NamesWatch),
}

/// What a watch of a receiver works with: its connections, and batches that wait to be used.
#[derive(Drop)]
struct WatchedReceiver {
    shadows: ConnectionShadows,
    spare: Vec<Batch>,
}

/// A watch that is open, under its number. It ends by itself once nobody has asked for three seconds.
#[derive(Drop)]
pub(crate) struct OpenWatch {
    alloc: Global,
    number: u64,
    watched: Watched,
    receivers: Vec<WatchedReceiver>,
    // For how many milliseconds nobody has asked, and when that was looked at last.
    silence: u64,
    looked: u64,
}

impl OpenWatch {
    /// A watch of so many receivers, which begins at these milliseconds. Refuses if out of memory.
    pub(crate) fn new(
        alloc: Global,
        number: u64,
        watched: Watched,
        receivers: usize,
        millis: u64,
    ) -> Result<OpenWatch, NoMemory> {
        let mut open = OpenWatch {
            alloc,
            number,
            watched,
            receivers: Vec::new(alloc),
            silence: 0,
            looked: millis,
        };
        match open.add_receivers(receivers) {
            Ok(()) => Ok(open),
            Err(fault) => {
                drop(open);
                Err(fault)
            }
        }
    }

    fn add_receivers(&mut self, count: usize) -> Result<(), NoMemory> {
        for _ in 0..count {
            let mut spare = Vec::new(self.alloc);
            for _ in 0..BATCHES {
                add(&mut spare, Batch::new(self.alloc, self.number)?)?;
            }
            let receiver = WatchedReceiver {
                shadows: ConnectionShadows::new(self.alloc),
                spare,
            };
            add(&mut self.receivers, receiver)?;
        }
        Ok(())
    }

    /// Its number.
    pub(crate) fn number(&self) -> u64 {
        self.number
    }

    /// Somebody asked.
    pub(crate) fn note_asked(&mut self) {
        self.silence = 0;
    }

    /// Looks whether nobody has asked for too long, at these milliseconds.
    pub(crate) fn is_over(&mut self, millis: u64) -> bool {
        let passed = millis.saturating_sub(self.looked);
        self.looked = millis;
        self.silence = self.silence.saturating_add(passed.min(MOST_HEARD_MS));
        self.silence >= MOST_SILENCE_MS
    }

    /// Puts empty batches where receivers take them.
    pub(crate) fn lend(&mut self, places: &WatchPlaces) {
        for (number, receiver) in self.receivers.as_mut_slice().iter_mut().enumerate() {
            receiver.lend(places, number);
        }
    }

    /// Reads what receivers have handed over. If out of memory, some of it is unread.
    pub(crate) fn drain(&mut self, places: &WatchPlaces, plan: &mut Plan, reading: &Reading<'_>) {
        let OpenWatch {
            alloc: _,
            number,
            watched,
            receivers,
            silence: _,
            looked: _,
        } = self;
        for (place, receiver) in receivers.as_mut_slice().iter_mut().enumerate() {
            let Some(batch) = places.of(place).take() else {
                continue;
            };
            if batch.watch() != *number {
                drop(batch);
                continue;
            }
            receiver.lend(places, place);
            read_batch(
                &mut *watched,
                &mut receiver.shadows,
                &batch,
                &mut *plan,
                reading,
            );
            receiver.keep(batch);
        }
        self.lend(places);
    }

    /// Adds what it has gathered: counts, and then its lines. A watch of names says these only where it ends.
    pub(crate) fn push_gathered(
        &mut self,
        places: &WatchPlaces,
        is_end: bool,
        text: &mut String,
    ) -> Result<(), NoMemory> {
        let missed = self.missed(places);
        match &mut self.watched {
            Watched::Lines(watch) => push_lines(watch, missed, text),
            Watched::Names(watch) => push_names(self.alloc, watch, missed, is_end, text),
        }
    }

    /// What its receivers could not hand over.
    fn missed(&self, places: &WatchPlaces) -> Missed {
        let mut all = Missed { reads: 0, bytes: 0 };
        for place in 0..self.receivers.len() {
            let missed = places.of(place).missed();
            all.reads = all.reads.saturating_add(missed.reads);
            all.bytes = all.bytes.saturating_add(missed.bytes);
        }
        all
    }
}

impl WatchedReceiver {
    /// Puts an empty batch where the receiver of a number takes it, if one is there.
    fn lend(&mut self, places: &WatchPlaces, number: usize) {
        if let Some(batch) = self.spare.pop() {
            if let Some(batch) = places.of(number).put_empty(batch) {
                self.keep(batch);
            }
        }
    }

    /// Keeps a batch for later, which is emptied.
    fn keep(&mut self, batch: Batch) {
        let mut batch = batch;
        batch.clear();
        let _kept = add(&mut self.spare, batch);
    }
}

/// Reads a batch of a receiver.
fn read_batch(
    watched: &mut Watched,
    shadows: &mut ConnectionShadows,
    batch: &Batch,
    plan: &mut Plan,
    reading: &Reading<'_>,
) {
    let (mut bytes, mut offers) = (batch.bytes(), batch.offers());
    for piece in batch.pieces() {
        let (own_bytes, other_bytes) = bytes.split_at(piece.bytes.min(bytes.len()));
        let (own_offers, other_offers) = offers.split_at(piece.offers.min(offers.len()));
        bytes = other_bytes;
        offers = other_offers;
        let seen = SeenPiece {
            head: piece.head,
            bytes: own_bytes,
            offers: own_offers,
            is_whole: piece.is_whole,
        };
        if read_piece(&mut *watched, &mut *shadows, seen, &mut *plan, reading).is_err() {
            note_unread(&mut *watched);
        }
    }
}

/// Reads a piece.
fn read_piece(
    watched: &mut Watched,
    shadows: &mut ConnectionShadows,
    piece: SeenPiece<'_>,
    plan: &mut Plan,
    reading: &Reading<'_>,
) -> Result<(), NoMemory> {
    let found = shadows.read(piece, reading.moment)?;
    let taken = match watched {
        Watched::Names(watch) => watch.take(&found),
        Watched::Lines(watch) => watch.take(piece, &found, plan, reading),
    };
    drop(found);
    taken
}

/// The datapoints of a piece are not known.
fn note_unread(watched: &mut Watched) {
    if let Watched::Lines(watch) = watched {
        watch.note_unread();
    }
}

/// Adds the counts of a watch of datapoints, and its lines: how many these are, how many datapoints were wanted, how many of them
/// were too many, how many reads are not known, and the reads and bytes that were not handed over.
fn push_lines(watch: &mut LineWatch, missed: Missed, text: &mut String) -> Result<(), NoMemory> {
    let counts = watch.counts;
    writeln!(
        text,
        "watched {} {} {} {} {} {}",
        watch.lines, counts.wanted, counts.more, counts.unread, missed.reads, missed.bytes
    )?;
    text.push_str(watch.text.as_str())?;
    watch.text.clear();
    watch.lines = 0;
    Ok(())
}

/// Adds the counts of a watch of names, and, at its end, the greatest: how many these are, how many datapoints came, how many of
/// their names were new, 0, and the reads and bytes that were not handed over.
fn push_names(
    alloc: Global,
    watch: &mut NamesWatch,
    missed: Missed,
    is_end: bool,
    text: &mut String,
) -> Result<(), NoMemory> {
    let (all, new) = (watch.sketch.all, watch.sketch.new);
    let mut lines = String::new(alloc);
    let count = if is_end {
        watch.push_greatest(&mut lines)?
    } else {
        0
    };
    writeln!(
        text,
        "watched {count} {all} {new} 0 {} {}",
        missed.reads, missed.bytes
    )?;
    text.push_str(lines.as_str())?;
    Ok(())
}
