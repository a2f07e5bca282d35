//! A run that is to follow the one that runs.
//!
//! What can be made of it before that one ends is made and held then: what follows cannot fail for want of it.

ghost use Rattle.std.specs.Prelude.{◌≤◌};

use crate::next_start::NewPlaces;
use crate::relay::Relay;
use crate::reload_source::{FilesAsked, RefusedReload};
use crate::shape::Shape;
use crate::shared_parts::SharedParts;
use crate::shortage::{Needs, Shortage, try_needs};
use crate::spool_folder::{SpoolFolder, no_files};
use admin_client::Refusal;
use conf_text::{Dest, Settings};
use config_changes::{
    ChangedPorts, OtherChanges, changed_ports, kept_places, place_of, push_reload_line,
};
use dest_queue::DestQueue;
use locked_queues::{BlankTotals, EndRoom, MOST_RECEIVERS, Set};
use queue_records::READERS_EACH;
use relay_base::{DestId, MOST_DESTINATIONS, NoMemory, add};
use relay_files::{ListenRole, RelayFault, RunConfiguration};
use relay_options::RunOptions;
use relay_ports::{FirstPorts, NewPorts, NextReceivers, SystemTables, receivers_of};
use spool::SpoolFiles;
use std::alloc::Global;
use std::net::Net;
use std::sync::Wait;
use std::thread::Threads;

/// A run that is to follow the one that runs, and room for what that leaves.
#[derive(Drop)]
pub(crate) struct PreparedRun<B: Set> {
    pub(crate) next: NextPlan,
    pub(crate) room: EndRoom<B>,
}

impl<B: Set> PreparedRun<B> {
    /// The run does not follow: its files are closed, and the log says what was done in their folder.
    pub(crate) fn give_up<R: Wait>(self, rt: &R, relay: &Relay<B>) {
        let PreparedRun { next, room } = self;
        drop(room);
        let NextPlan { made, .. } = next;
        let MadeReady { files, .. } = made;
        close_files(rt, relay, files);
    }
}

/// A run that is to follow the one that runs: its configuration, which was read and checked; what was made ready for it, and is
/// held; and the connection that waits for the answer.
#[derive(Drop)]
pub(crate) struct NextPlan {
    pub(crate) configuration: RunConfiguration,
    pub(crate) made: MadeReady,
    pub(crate) held: Held,
    pub(crate) connection: u64,
}

/// What a run needs that is to follow this one, beside its configuration and what is held, and which of its receivers listen
/// somewhere else. Its files are open once they were asked for. The line is that of the answer.
#[derive(Drop)]
pub(crate) struct MadeReady {
    changed: ChangedPorts,
    pub(crate) places: KeptPlaces,
    asked: Option<FilesAsked>,
    pub(crate) files: SpoolFiles,
    pub(crate) line: String,
    pub(crate) blank: BlankTotals,
}

/// By the places of a run's destinations, where each of the next run is among them, and among those that are gone.
#[derive(Drop)]
pub(crate) struct KeptPlaces {
    pub(crate) kept: Vec<Option<DestId>>,
    pub(crate) returned: Vec<Option<DestId>>,
}

/// What is held for a run that is to follow this one, beside its files: its receivers, the places of its destinations, and
/// what its threads share; and the first lines of its log.
#[derive(Drop)]
pub(crate) struct Held {
    pub(crate) receivers: NextReceivers,
    pub(crate) new_places: NewPlaces,
    pub(crate) shared: SharedParts,
    pub(crate) news: String,
}

/// A run that may follow the one that runs: its configuration, what it needs beside what is held for it, and room for what the one
/// that runs leaves.
#[derive(Drop)]
pub(crate) struct ReadyRun<B: Set> {
    configuration: RunConfiguration,
    made: MadeReady,
    room: EndRoom<B>,
}

impl<B: Set> ReadyRun<B> {
    /// Takes which files are to be opened for it, if some are.
    pub(crate) fn take_asked(&mut self) -> Option<FilesAsked> {
        self.made.asked.take()
    }

    /// These are its files.
    pub(crate) fn put_files(&mut self, files: SpoolFiles) {
        self.made.files = files;
    }
}

/// Makes ready what a run by a configuration needs of memory, and tries what can be made only once the one that runs has ended.
/// Refuses too many destinations that are gone, and what the system is short of; then nothing has changed.
pub(crate) fn ready_by<B: Set, R: Net + Threads>(
    rt: &R,
    alloc: Global,
    relay: &Relay<B>,
    folder: Option<SpoolFolder<'_>>,
    configuration: RunConfiguration,
) -> Result<ReadyRun<B>, RefusedReload> {
    if let Some(refused) = refusal_of(alloc, relay, &configuration) {
        drop(configuration);
        return Err(refused);
    }
    if let Err(shortage) = try_needs(rt, alloc, Needs::of(relay, &configuration)) {
        drop(configuration);
        return Err(refused_for(alloc, shortage));
    }
    match made_ready(alloc, relay, &configuration, folder) {
        Ok((made, room)) => Ok(ReadyRun {
            configuration,
            made,
            room,
        }),
        Err(NoMemory) => {
            drop(configuration);
            Err(RefusedReload::no_memory(alloc))
        }
    }
}

/// Makes and holds what a run needs that is ready, before the one that runs ends: first its ports that change. Refuses (`listen`) a
/// port that cannot be bound, and what the system is short of: then its files are closed, and the log says what was done in their
/// folder.
pub(crate) fn prepared_by<B: Set, R: Net + SystemTables + Wait>(
    rt: &R,
    alloc: Global,
    relay: &Relay<B>,
    ports: &FirstPorts,
    ready: ReadyRun<B>,
    connection: u64,
) -> Result<PreparedRun<B>, RefusedReload> {
    let ReadyRun {
        configuration,
        made,
        room,
    } = ready;
    match held_by(rt, alloc, relay, ports, &configuration, &made) {
        Ok(held) => {
            let next = NextPlan {
                configuration,
                made,
                held,
                connection,
            };
            Ok(PreparedRun { next, room })
        }
        Err(refused) => {
            drop((configuration, room));
            let MadeReady { files, .. } = made;
            close_files(rt, relay, files);
            Err(refused)
        }
    }
}

/// Binds the ports that change for a run that is ready, and makes what it holds.
fn held_by<B: Set, R: Net + SystemTables>(
    rt: &R,
    alloc: Global,
    relay: &Relay<B>,
    ports: &FirstPorts,
    configuration: &RunConfiguration,
    made: &MadeReady,
) -> Result<Held, RefusedReload> {
    let (settings, options) = (configuration.settings(), relay.shape.options);
    let bound = match ports.bind_changed(rt, alloc, settings, options, made.changed) {
        Ok(bound) => bound,
        Err(fault) => return Err(refused_port(alloc, fault)),
    };
    match held_for(rt, alloc, relay, ports, bound, made) {
        Ok(held) => Ok(held),
        Err(shortage) => Err(refused_for(alloc, shortage)),
    }
}

/// Closes the files of a run that does not follow. The log says what was done in their folder.
pub(crate) fn close_files<B: Set, R: Wait>(rt: &R, relay: &Relay<B>, files: SpoolFiles) {
    let SpoolFiles { dests, news } = files;
    drop(dests);
    relay.say(rt, news);
}

/// Why a run by a configuration cannot follow this one, whatever the system has: too many destinations that are gone.
fn refusal_of<B: Set>(
    alloc: Global,
    relay: &Relay<B>,
    configuration: &RunConfiguration,
) -> Option<RefusedReload> {
    if gone_count(relay, configuration) > MOST_DESTINATIONS {
        let text = String::from_str(
            alloc,
            "more than 64 destinations that are gone are still sent to\n",
        );
        return Some(RefusedReload::with_text(alloc, Refusal::Device, text));
    }
    None
}

/// How many destinations a run by a configuration does not have that this one has, or still sends to though they are gone.
fn gone_count<B: Set>(relay: &Relay<B>, configuration: &RunConfiguration) -> usize {
    let new = configuration.settings().destinations();
    let old = relay.configuration.settings().destinations();
    lacked_by(new, old).saturating_add(relay.gone.sent_beside(new))
}

/// How many of some destinations a list does not have.
fn lacked_by(list: &[Dest], dests: &[Dest]) -> usize {
    let mut count: usize = 0;
    for dest in dests {
        if place_of(dest, list).is_none() {
            count = count.saturating_add(1);
        }
    }
    count
}

/// Makes ready what needs memory for a run by a configuration, with room for what the one that runs leaves.
fn made_ready<B: Set>(
    alloc: Global,
    relay: &Relay<B>,
    configuration: &RunConfiguration,
    folder: Option<SpoolFolder<'_>>,
) -> Result<(MadeReady, EndRoom<B>), NoMemory> {
    let settings = configuration.settings();
    try_queues(alloc, settings, seats_of(settings, relay.shape.options))?;
    let dests = settings.destinations();
    let changed = changed_ports(relay.configuration.settings(), settings);
    let line = reload_line(alloc, &relay.configuration, configuration, changed)?;
    let places = kept_of(alloc, relay, dests)?;
    let asked = asked_of(alloc, dests, &places, folder)?;
    let made = MadeReady {
        changed,
        asked,
        files: no_files(alloc, dests.len())?,
        line,
        places,
        blank: BlankTotals::new(alloc)?,
    };
    Ok((made, relay.queues.end_room(alloc)?))
}

/// Makes what a run holds from before this one ends for which this is ready.
fn held_for<B: Set, R: Net + SystemTables>(
    rt: &R,
    alloc: Global,
    relay: &Relay<B>,
    ports: &FirstPorts,
    bound: NewPorts,
    made: &MadeReady,
) -> Result<Held, Shortage> {
    let news = first_lines(alloc, made.line.as_str(), made.files.news.as_str())?;
    let options = relay.shape.options;
    let receivers = match ports.receivers_after(rt, alloc, &relay.receivers, bound, options) {
        Ok(receivers) => receivers,
        Err(fault) => {
            drop(news);
            return Err(shortage_of(fault));
        }
    };
    let Ok(new_places) = NewPlaces::after(alloc, relay, &made.places) else {
        drop((news, receivers));
        return Err(Shortage::Memory);
    };
    let shape = Shape {
        dests: made.places.kept.len(),
        receivers: receivers.inlets.len(),
        ..relay.shape
    };
    match SharedParts::new(rt, alloc, shape, new_places.may_be_gone()) {
        Ok(shared) => Ok(Held {
            receivers,
            new_places,
            shared,
            news,
        }),
        Err(fault) => {
            drop((news, receivers));
            drop(new_places);
            Err(shortage_of(fault))
        }
    }
}

/// The first lines of the log of a run that follows: the line on the reload, and what is said of its files.
fn first_lines(alloc: Global, line: &str, news: &str) -> Result<String, NoMemory> {
    Ok(format!(in alloc; "{line}{news}")?)
}

/// Where each of these destinations is among those of a relay.
fn kept_of<B: Set>(alloc: Global, relay: &Relay<B>, new: &[Dest]) -> Result<KeptPlaces, NoMemory> {
    let old = relay.configuration.settings().destinations();
    Ok(KeptPlaces {
        kept: kept_places(alloc, old, new)?,
        returned: kept_places(alloc, relay.gone.dests.as_slice(), new)?,
    })
}

/// The files of those of these destinations that are at no place, if there is a folder and such a destination.
fn asked_of(
    alloc: Global,
    dests: &[Dest],
    places: &KeptPlaces,
    folder: Option<SpoolFolder<'_>>,
) -> Result<Option<FilesAsked>, NoMemory> {
    let Some(folder) = folder else {
        return Ok(None);
    };
    let are_known = known_places(alloc, places)?;
    if !are_known.as_slice().contains(&false) {
        return Ok(None);
    }
    Ok(Some(FilesAsked::new(alloc, folder, dests, are_known)?))
}

/// Which destinations the run has, or has as gone.
fn known_places(alloc: Global, places: &KeptPlaces) -> Result<Vec<bool>, NoMemory> {
    let mut known = Vec::new(alloc);
    for (kept, returned) in places.kept.iter().zip(places.returned.as_slice()) {
        add(&mut known, kept.is_some() || returned.is_some())?;
    }
    Ok(known)
}

/// How many receivers have seats in a run by settings: one at least.
fn seats_of(settings: &Settings, options: RunOptions) -> usize
    ensures { (1 ≤ result) × (result ≤ MOST_RECEIVERS) }
{
    receivers_of(settings, options).clamp(1, MOST_RECEIVERS)
}

/// Makes the queues of settings for so many receivers, and drops them: the run that follows finds the memory for its own then.
fn try_queues(alloc: Global, settings: &Settings, receivers: usize) -> Result<(), NoMemory>
    requires receivers { (1 ≤ receivers) × (receivers ≤ MOST_RECEIVERS) }
{
    let readers = READERS_EACH * receivers;
    let mut queues = Vec::new(alloc);
    for _ in settings.destinations() {
        let queue = DestQueue::new(alloc, settings.max_queue_size(), readers)?;
        add(&mut queues, queue)?;
    }
    drop(queues);
    Ok(())
}

/// The line of the log on what changes from one configuration to the next.
fn reload_line(
    alloc: Global,
    old: &RunConfiguration,
    new: &RunConfiguration,
    ports: ChangedPorts,
) -> Result<String, NoMemory> {
    let mut line = String::new(alloc);
    let others = OtherChanges {
        ports,
        rules: !old.has_same_rules(new),
        rewriting: !old.has_same_rewriting(new),
    };
    let (before, after) = (old.settings().destinations(), new.settings().destinations());
    push_reload_line(&mut line, before, after, others)?;
    Ok(line)
}

/// The refusal of a port that cannot be bound, as a start has it; of the admin port it means that descriptors are short.
fn refused_port(alloc: Global, fault: RelayFault) -> RefusedReload {
    match fault {
        RelayFault::NoMemory => refused_for(alloc, Shortage::Memory),
        RelayFault::Listen {
            role: ListenRole::Admin,
        } => refused_for(alloc, Shortage::Descriptors),
        fault => RefusedReload::with_text(alloc, Refusal::Device, format!(in alloc; "{fault}\n")),
    }
}

/// What the system was short of for another one of a port, which is bound already, or for what a sender waits with.
fn shortage_of(fault: RelayFault) -> Shortage {
    match fault {
        RelayFault::NoMemory => Shortage::Memory,
        _ => Shortage::Descriptors,
    }
}

/// The refusal for what the system is short of.
fn refused_for(alloc: Global, shortage: Shortage) -> RefusedReload {
    match shortage {
        Shortage::Memory => RefusedReload::no_memory(alloc),
        shortage => RefusedReload::with_text(
            alloc,
            Refusal::Device,
            format!(in alloc; "{shortage}\n"),
        ),
    }
}
