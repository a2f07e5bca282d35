//! What a run begins with that follows another one.

use crate::ended_run::EndedRun;
use crate::prepared_run::{Held, KeptPlaces, MadeReady, NextPlan};
use crate::relay::Relay;
use crate::shape::shape_of;
use crate::start::{Begun, Process, RunCarryOver, Start};
use conf_text::Dest;
use dest_queue::EarlierCounts;
use locked_queues::Set;
use log_lines::DestNotes;
use relay_base::{DestId, NoMemory, add};
use relay_ports::{FirstPorts, Holders, NextReceivers, Ports};
use relay_watchers::{ReceiverLog, StatusServer};
use run_state::{RestNotes, RunNotes};
use spool::{DestSpool, SpoolFiles};
use std::alloc::Global;
use std::fmt::Write as _;
use std::mem;
use store_lines::{DestCarryOver, DestSlots, GoneDests, PartingDest};

/// The places of the destinations of a run that follows another one: empty lists with room for all. They are there before that
/// one ends: what it leaves needs no more memory.
#[derive(Drop)]
pub(crate) struct NewPlaces {
    slots: DestSlots,
    dests: Vec<DestNotes>,
    earlier: Vec<EarlierCounts>,
    rests: Vec<RestNotes>,
    gone: GoneDests,
    // For each destination of the run before, and then for each that was gone before it: what is left for it, if it is gone
    // now.
    parting: Vec<Option<PartingDest>>,
}

impl NewPlaces {
    /// The places of the destinations of a run that follows this one, of which these are kept. Refuses if out of memory.
    pub(crate) fn after<B: Set>(
        alloc: Global,
        relay: &Relay<B>,
        places: &KeptPlaces,
    ) -> Result<NewPlaces, NoMemory> {
        let count = places.kept.len();
        let parting = parting_of(alloc, relay, places)?;
        Ok(NewPlaces {
            slots: DestSlots::new(alloc, count)?,
            dests: Vec::with_capacity(alloc, count)?,
            earlier: Vec::with_capacity(alloc, count)?,
            rests: Vec::with_capacity(alloc, count)?,
            gone: GoneDests::with_room(alloc, parting.len())?,
            parting,
        })
    }

    /// Whether a destination may be gone: one is not kept.
    pub(crate) fn may_be_gone(&self) -> bool {
        for one in &self.parting {
            if one.is_some() {
                return true;
            }
        }
        false
    }
}

/// Adds a line on each destination of the run that has ended of whose queue something found no room.
fn say_drops(line: &mut String, ended: &EndedRun) -> Result<(), NoMemory> {
    let dests = ended.record.configuration.settings().destinations();
    for (dest, count) in dests.iter().zip(ended.dropped.as_slice()) {
        if *count > 0 {
            write!(line, "destination {dest} dropped {count} at a reload\n")?;
        }
    }
    Ok(())
}

/// What the first thread keeps from one run to the next: its ports, the status server, and what the log has reported of receivers.
#[derive(Drop)]
pub(crate) struct KeptByFirst {
    pub(crate) ports: FirstPorts,
    pub(crate) server: Option<StatusServer>,
    pub(crate) logged: Vec<ReceiverLog>,
}

/// What a run begins with that follows this one, at these milliseconds. It can do without the memory that it takes.
pub(crate) fn start_after<F>(
    alloc: Global,
    ended: &mut EndedRun,
    prepared: NextPlan,
    kept: KeptByFirst,
    process: &Process<'_, F>,
    millis: u64,
) -> Start {
    let NextPlan {
        configuration,
        made,
        held,
        ..
    } = prepared;
    let MadeReady {
        places,
        files,
        blank,
        ..
    } = made;
    let Held {
        receivers,
        mut new_places,
        mut shared,
        mut news,
    } = held;
    let KeptByFirst {
        ports: first,
        mut server,
        logged,
    } = kept;
    if let Some(server) = &mut server {
        server.keep_dests(alloc, places.kept.as_slice());
    }
    // Without memory for that the log lacks it.
    let _said = say_drops(&mut news, ended);
    let before = Holders {
        stores: ended.slots.len().saturating_add(ended.gone.dests.len()),
        receivers: ended.record.shape.receivers,
    };
    let NextReceivers {
        inlets,
        receivers: known,
        ports,
        leaving,
    } = receivers;
    drop((ports, leaving));
    let SpoolFiles {
        dests: mut found,
        news: said,
    } = files;
    drop(said);
    new_places.carry_over(ended, &places, &mut found);
    let drain_millis = process.setup.options.drain.saturating_mul(1_000);
    new_places.add_gone(ended, millis.saturating_add(drain_millis));
    let carry_over = carry_over_of(new_places, logged, news);
    if carry_over.gone.are_none() {
        shared.drop_gone(alloc);
    }
    let shape = shape_of(configuration.settings(), inlets.len(), process);
    let now = Holders {
        stores: shape.dests.saturating_add(carry_over.gone.dests.len()),
        receivers: shape.receivers,
    };
    first.keep_for_others(before, now);
    let begun = Begun {
        configuration,
        shape,
        ports: Ports {
            receivers: inlets,
            known,
            first,
            status: server,
        },
        shared,
        carry_over,
    };
    Start { begun, blank }
}

/// The destinations of a run that the next one does not have, and those that were gone before and are not back, by place: until
/// when the former are sent to is known once the run has ended, the latter are as before.
fn parting_of<B: Set>(
    alloc: Global,
    relay: &Relay<B>,
    places: &KeptPlaces,
) -> Result<Vec<Option<PartingDest>>, NoMemory> {
    let mut parting = Vec::new(alloc);
    let old = relay.configuration.settings().destinations();
    add_parting(&mut parting, old, places.kept.as_slice(), &[])?;
    let gone = &relay.gone;
    add_parting(
        &mut parting,
        gone.dests.as_slice(),
        places.returned.as_slice(),
        gone.until.as_slice(),
    )?;
    Ok(parting)
}

/// Adds those of a list of destinations whose places are not among these, and until when each is sent to, by place, as far as that
/// is known.
fn add_parting(
    parting: &mut Vec<Option<PartingDest>>,
    dests: &[Dest],
    kept: &[Option<DestId>],
    until: &[u64],
) -> Result<(), NoMemory> {
    for (place, dest) in dests.iter().enumerate() {
        let is_kept = kept.contains(&Some(DestId(place)));
        let until = until.get(place).copied().unwrap_or(0);
        let one = if is_kept {
            None
        } else {
            Some(PartingDest::new(dest, until)?)
        };
        add(parting, one)?;
    }
    Ok(())
}

/// What the next run begins with, with what is left for its destinations at these places. It takes no memory.
fn carry_over_of(places: NewPlaces, logged: Vec<ReceiverLog>, news: String) -> RunCarryOver {
    let NewPlaces {
        slots,
        dests,
        earlier,
        rests,
        gone,
        parting,
    } = places;
    drop(parting);
    let notes = RunNotes {
        dests,
        earlier,
        rests,
    };
    RunCarryOver {
        notes,
        slots,
        gone,
        logged,
        news,
    }
}

impl NewPlaces {
    /// Gives each destination of the next run what is left for it: of the run that has ended, or as a destination that was gone,
    /// or its files. It takes no memory.
    fn carry_over(
        &mut self,
        ended: &mut EndedRun,
        places: &KeptPlaces,
        files: &mut Vec<Option<DestSpool>>,
    ) {
        let kept = places.kept.as_slice();
        for place in 0..kept.len() {
            let found = match files.get_mut(place) {
                Some(files) => files.take(),
                None => None,
            };
            let returned = places.returned.get(place).copied().flatten();
            let left = left_for(ended, kept[place], returned, found);
            self.add(ended, place, kept[place], left);
        }
    }

    /// The destination of the next place, which was at this one before, if it was, has this left.
    fn add(
        &mut self,
        ended: &mut EndedRun,
        place: usize,
        kept: Option<DestId>,
        left: DestCarryOver,
    ) {
        let (queued, in_hand) = left.counts();
        let rest = notes_of(ended, kept, left.is_behind_file());
        rest.note(queued, in_hand);
        self.slots.put(place, left);
        // These take no memory, since there is room.
        let _added = (
            self.dests.push(events_of(ended, kept)),
            self.earlier.push(earlier_of(ended, kept, queued)),
            self.rests.push(rest),
        );
    }

    /// Those destinations are gone of which something is left that is still sent: until these milliseconds, or as before.
    fn add_gone(&mut self, ended: &EndedRun, until: u64) {
        let count = ended.slots.len();
        for place in 0..self.parting.len() {
            let Some(one) = take_at(&mut self.parting, place) else {
                continue;
            };
            let left = if place < count {
                ended.slots.take(place)
            } else {
                ended.gone.take_unless_over(place - count)
            };
            if !left.is_nothing() {
                self.gone.add(one, left);
                if place < count {
                    put_last(&mut self.gone.until, until);
                }
            }
        }
    }
}

/// Puts a number in the place of the last one.
fn put_last(numbers: &mut Vec<u64>, number: u64) {
    let last = numbers.len().saturating_sub(1);
    if let Some(place) = numbers.get_mut(last) {
        *place = number;
    }
}

/// Takes the destination of a place, if it is gone.
fn take_at(parting: &mut Vec<Option<PartingDest>>, place: usize) -> Option<PartingDest> {
    parting.get_mut(place)?.take()
}

/// Takes what is left for a destination that was at this place, or at this one among those that were gone, or has these files.
fn left_for(
    ended: &mut EndedRun,
    kept: Option<DestId>,
    returned: Option<DestId>,
    files: Option<DestSpool>,
) -> DestCarryOver {
    let known = match (kept, returned) {
        (Some(place), _) => Some(ended.slots.take(place.0)),
        (None, Some(place)) => Some(ended.gone.slots.take(place.0)),
        (None, None) => None,
    };
    DestCarryOver::known_or_new(known, files)
}

/// Takes the events of a destination that was at this place; none has happened to another.
fn events_of(ended: &mut EndedRun, kept: Option<DestId>) -> DestNotes {
    let Some(place) = kept else {
        return DestNotes::new();
    };
    match ended.notes.dests.get_mut(place.0) {
        Some(events) => mem::replace(events, DestNotes::new()),
        None => DestNotes::new(),
    }
}

/// What is noted of a destination's rest that was at this place, and whose file, if that is not sent yet, goes on being sent.
fn notes_of(ended: &EndedRun, kept: Option<DestId>, is_behind_file: bool) -> RestNotes {
    let Some(place) = kept else {
        return RestNotes::new(0);
    };
    match ended.notes.rests.get(place.0) {
        Some(rest) if is_behind_file => RestNotes::new(rest.in_file()),
        _ => RestNotes::new(0),
    }
}

/// What the queues of a destination counted that was at this place. One that returns begins with what is still queued for it.
fn earlier_of(ended: &EndedRun, kept: Option<DestId>, queued: usize) -> EarlierCounts {
    match kept {
        Some(place) => ended
            .notes
            .earlier
            .get(place.0)
            .copied()
            .unwrap_or(EarlierCounts::none()),
        None => EarlierCounts::of_rest(queued as u64),
    }
}
