//! The samples of the last minutes, and what can be known only from several looks.

ghost use Rattle.std.specs.Prelude.{◌≤◌, length, IfOk};

use crate::dest_track::{DestLook, DestTrack, FileLook};
use crate::producer_history::{ProducerHistory, SeenProducers};
use crate::receiver_track::ReceiverTrack;
use dest_queue::Counts;
use log_lines::{DestStatus, ProducerWindow, RECEIVER_PLACES, ReceiverCounts};
use relay_base::{DestId, NoMemory, add};
use status_page::{Rates, Sample};
use std::alloc::{AllocError, Global};
use std::mem;

/// How many samples are kept.
pub(crate) const MOST_SAMPLES: usize = 150;

/// How many seconds pass from one sample to the next, about.
pub(crate) const SAMPLE_SECONDS: u64 = 2;

/// How many milliseconds pass from one look to the next: by these the ages of datapoints are known.
pub(crate) const LOOK_MS: u64 = 100;

/// What a receiver of a place has counted.
#[derive(Clone, Copy)]
pub(crate) struct CountedReceiver {
    pub(crate) place: usize,
    pub(crate) counts: ReceiverCounts,
}

/// What a relay has counted at a moment: each queue, how each destination does, and each receiver.
#[derive(Drop)]
pub(crate) struct Totals {
    pub(crate) queues: Vec<Counts>,
    pub(crate) dests: Vec<DestStatus>,
    // How many datapoints of each destination's file connections took in this run.
    pub(crate) files: Vec<FileLook>,
    pub(crate) receivers: Vec<CountedReceiver>,
}

/// The samples of the last minutes, what all counted in a second of the last one, and what was seen of each destination and
/// each receiver.
#[derive(Drop)]
pub(crate) struct StatusHistory {
    // When the last look and the last sample were taken, and what was counted then.
    looked: u64,
    sampled: u64,
    before: Sample,
    rates: Rates,
    // When a receiver last accepted a datapoint, and how many all had.
    received: u64,
    input_at: u64,
    dests: Vec<DestTrack>,
    // By the places of receivers: a receiver keeps its own over all runs.
    receivers: Vec<ReceiverTrack>,
    producers: ProducerHistory,
    samples: Vec<Sample>,
    // No more than MOST_SAMPLES.
    ghost few: { length samples.items ≤ 150 },
}

impl StatusHistory {
    /// No sample. Allocates nothing.
    pub(crate) fn new(alloc: Global) -> StatusHistory {
        StatusHistory {
            looked: 0,
            sampled: 0,
            before: NO_SAMPLE,
            rates: NO_RATES,
            received: 0,
            input_at: 0,
            dests: Vec::new(alloc),
            receivers: Vec::new(alloc),
            producers: ProducerHistory::new(alloc),
            samples: Vec::new(alloc),
        }
    }

    /// From now on there are other destinations: at each of these places is what was seen of the one that was at that place, if
    /// it was there. If out of memory, nothing was seen of any.
    pub(crate) fn keep_dests(&mut self, alloc: Global, kept: &[Option<DestId>]) {
        let mut before = mem::replace(&mut self.dests, Vec::new(alloc));
        let mut tracks = Vec::new(alloc);
        for place in kept {
            let track = match place {
                Some(place) => track_at(alloc, &mut before, *place),
                None => DestTrack::new(alloc),
            };
            if add(&mut tracks, track).is_err() {
                return;
            }
        }
        self.dests = tracks;
    }

    /// Whether the next look is due at these milliseconds.
    pub(crate) fn is_due(&self, millis: u64) -> bool {
        millis.saturating_sub(self.looked) >= LOOK_MS
    }

    /// Looks at what was counted, and takes a sample if it is due; does nothing if out of memory.
    pub(crate) fn look(&mut self, alloc: Global, now: &Totals, millis: u64) {
        if self.make_room(alloc, now).is_err() {
            return;
        }
        self.looked = millis;
        self.note_input(now, millis);
        let is_sample = millis.saturating_sub(self.sampled) >= SAMPLE_SECONDS * 1_000;
        let passed = millis.saturating_sub(self.sampled).max(1);
        let looks = now.queues.as_slice().iter().zip(now.dests.as_slice());
        let looks = looks.zip(now.files.as_slice());
        for (track, ((counts, status), of_file)) in self
            .dests
            .as_mut_slice()
            .iter_mut()
            .zip(looks)
        {
            let look = DestLook {
                counts: *counts,
                status: *status,
                file: *of_file,
                millis,
            };
            track.look(&look);
            if is_sample {
                track.take_sample(&look, passed);
            }
        }
        self.look_at_receivers(now, millis, if is_sample { passed } else { 0 });
        if is_sample {
            self.take_sample(now, passed);
            self.sampled = millis;
        }
    }

    /// Looks at what receivers have counted, and takes the sample of so many milliseconds, if they are some. Nothing was seen of
    /// those that are not there.
    fn look_at_receivers(&mut self, now: &Totals, millis: u64, sampled: u64) {
        for (place, track) in self.receivers.as_mut_slice().iter_mut().enumerate() {
            let Some(counts) = counts_of(now, place) else {
                *track = ReceiverTrack::new();
                continue;
            };
            track.look(&counts, millis);
            if sampled > 0 {
                track.take_sample(&counts, sampled);
            }
        }
    }

    /// A receiver of this place has told what its producers sent.
    pub(crate) fn put_producers(&mut self, receiver: usize, window: ProducerWindow, millis: u64) {
        self.producers.put(receiver, window, millis);
    }

    /// The greatest producers at these milliseconds.
    pub(crate) fn producers(
        &self,
        alloc: Global,
        millis: u64,
    ) -> Result<SeenProducers, AllocError> {
        self.producers.seen(alloc, millis)
    }

    /// Has a place for what is seen of each destination and each receiver.
    fn make_room(&mut self, alloc: Global, now: &Totals) -> Result<(), NoMemory> {
        for _ in self.dests.len()..now.queues.len() {
            add(&mut self.dests, DestTrack::new(alloc))?;
        }
        for _ in self.receivers.len()..RECEIVER_PLACES {
            add(&mut self.receivers, ReceiverTrack::new())?;
        }
        Ok(())
    }

    /// Notes when a receiver last accepted a datapoint.
    fn note_input(&mut self, now: &Totals, millis: u64) {
        let received = received_by(now.receivers.as_slice());
        if received != self.received {
            self.received = received;
            self.input_at = millis;
        }
    }

    /// Takes the sample of these milliseconds; none if out of memory.
    fn take_sample(&mut self, now: &Totals, millis: u64) {
        let total = total_of(now);
        let sample = Sample {
            millis,
            received: total.received.saturating_sub(self.before.received),
            written: total.written.saturating_sub(self.before.written),
            dropped: total.dropped.saturating_sub(self.before.dropped),
        };
        self.before = total;
        self.rates = rates_of(&sample);
        if self.samples.len() >= MOST_SAMPLES {
            let _oldest = self.samples.remove(0);
        }
        let _ = self.samples.push(sample);
    }

    /// What all receivers and queues counted in each second of the last sample.
    pub(crate) fn rates(&self) -> Rates {
        self.rates
    }

    /// When a receiver last accepted a datapoint, in milliseconds; 0 if none did.
    pub(crate) fn input_at(&self) -> u64 {
        self.input_at
    }

    /// What was seen of the destination of a place, if there was a look.
    pub(crate) fn dest(&self, place: usize) -> Option<&DestTrack> {
        self.dests.as_slice().get(place)
    }

    /// What was seen of the receiver of a place, if there was a look.
    pub(crate) fn receiver(&self, place: usize) -> Option<&ReceiverTrack> {
        self.receivers.as_slice().get(place)
    }

    /// A copy of the samples, the oldest first.
    pub(crate) fn samples(&self, alloc: Global) -> Result<Vec<Sample>, AllocError>
        ensures few { IfOk result (λ samples. length samples.items ≤ MOST_SAMPLES) }
    {
        let mut samples = Vec::new(alloc);
        for sample in self.samples.as_slice() {
            samples.push(*sample)?;
        }
        Ok(samples)
    }
}

/// What the receiver of a place has counted, if it is there.
fn counts_of(now: &Totals, place: usize) -> Option<ReceiverCounts> {
    for receiver in now.receivers.as_slice() {
        if receiver.place == place {
            return Some(receiver.counts);
        }
    }
    None
}

/// What was seen of the destination of a place, which is not seen there again.
fn track_at(alloc: Global, tracks: &mut Vec<DestTrack>, place: DestId) -> DestTrack {
    match tracks.get_mut(place.0) {
        Some(track) => mem::replace(track, DestTrack::new(alloc)),
        None => DestTrack::new(alloc),
    }
}

const NO_SAMPLE: Sample = Sample {
    millis: 0,
    received: 0,
    written: 0,
    dropped: 0,
};

/// Nothing was counted.
pub(crate) const NO_RATES: Rates = Rates {
    received: 0,
    written: 0,
    dropped: 0,
};

/// What all receivers and queues have counted since the start.
fn total_of(now: &Totals) -> Sample {
    let mut total = NO_SAMPLE;
    total.received = received_by(now.receivers.as_slice());
    for counts in now.queues.as_slice() {
        total.written = total.written.saturating_add(counts.taken);
        total.dropped = total.dropped.saturating_add(counts.dropped);
    }
    total
}

/// The datapoints that all receivers have accepted.
fn received_by(receivers: &[CountedReceiver]) -> u64 {
    let mut received: u64 = 0;
    for receiver in receivers {
        received = received.saturating_add(receiver.counts.readers.datapoints);
    }
    received
}

/// What a sample counted in a second.
pub(crate) fn rates_of(sample: &Sample) -> Rates {
    let millis = sample.millis.max(1);
    Rates {
        received: a_second(sample.received, millis),
        written: a_second(sample.written, millis),
        dropped: a_second(sample.dropped, millis),
    }
}

/// The count in a second, rounded up, so that a small one is not shown as 0.
pub(crate) fn a_second(count: u64, millis: u64) -> u64
    requires { 1 ≤ millis }
{
    count.saturating_mul(1_000).div_ceil(millis)
}
