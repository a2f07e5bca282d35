//! The receivers of a run, by their names, as the first thread knows them.

use crate::inlet::Inlet;
use config_changes::ChangedPorts;
use log_lines::{ReceiverName, ReceiverNotes};
use receivers::{HandedStreams, ReceiverControl};
use relay_base::{NoMemory, add};
use std::alloc::Global;
use std::sync::Arc;

/// A receiver of a run: its name, where its events are noted, where its connections go if another run follows, and what closes and
/// wakes it.
#[derive(Drop)]
pub struct KnownReceiver {
    /// Its name.
    pub name: ReceiverName,
    /// Where its events are noted, over all runs.
    pub notes: Arc<ReceiverNotes>,
    handed: Arc<HandedStreams>,
    control: Arc<ReceiverControl>,
}

/// The receivers of a run. Whoever follows one finds it by its name, wherever it stands.
#[derive(Drop)]
pub struct RunReceivers {
    known: Vec<KnownReceiver>,
    // What closes and wakes each of them.
    controls: Vec<Arc<ReceiverControl>>,
}

impl RunReceivers {
    /// There is none. It takes no memory.
    pub fn none(alloc: Global) -> RunReceivers {
        RunReceivers {
            known: Vec::new(alloc),
            controls: Vec::new(alloc),
        }
    }

    /// Those with these inlets, which follow others, of whose ports these changed: each goes on noting where the one of its name
    /// did, and gets the connections of that one if it listens at the same port. A connection that has sent no datapoint for this
    /// number of seconds is closed; with 0 none is. Refuses if out of memory.
    pub(crate) fn after(
        alloc: Global,
        before: &RunReceivers,
        changed: ChangedPorts,
        inlets: &mut Vec<Inlet>,
        idle: u64,
    ) -> Result<RunReceivers, NoMemory> {
        let mut receivers = RunReceivers::none(alloc);
        for inlet in inlets.as_mut_slice().iter_mut() {
            inlet.set_idle(idle);
            let known = known_after(alloc, before.find(inlet.name()), changed, inlet)?;
            add(&mut receivers.controls, Arc::try_clone(&known.control)?)?;
            add(&mut receivers.known, known)?;
        }
        Ok(receivers)
    }

    /// Each of them.
    pub fn known(&self) -> &[KnownReceiver] {
        self.known.as_slice()
    }

    /// What closes and wakes all of them.
    pub fn controls(&self) -> &[Arc<ReceiverControl>] {
        self.controls.as_slice()
    }

    /// From now on they hand their connections over, but for those whose ports change.
    pub fn open_handed(&self, changed: ChangedPorts) {
        for receiver in &self.known {
            if !has_changed(changed, receiver.name) {
                receiver.handed.open();
            }
        }
    }

    /// What closes and wakes those whose ports change. Refuses if out of memory.
    pub(crate) fn leaving(
        &self,
        alloc: Global,
        changed: ChangedPorts,
    ) -> Result<Vec<Arc<ReceiverControl>>, NoMemory> {
        let mut leaving = Vec::new(alloc);
        for receiver in &self.known {
            if has_changed(changed, receiver.name) {
                add(&mut leaving, Arc::try_clone(&receiver.control)?)?;
            }
        }
        Ok(leaving)
    }

    /// The one of this name, if there is one.
    fn find(&self, name: ReceiverName) -> Option<&KnownReceiver> {
        for receiver in &self.known {
            if receiver.name.place() == name.place() {
                return Some(receiver);
            }
        }
        None
    }
}

/// The receiver with this inlet, which follows this one of its name, if there was one.
fn known_after(
    alloc: Global,
    before: Option<&KnownReceiver>,
    changed: ChangedPorts,
    inlet: &mut Inlet,
) -> Result<KnownReceiver, NoMemory> {
    let name = inlet.name();
    let notes = match before {
        Some(before) => Arc::try_clone(&before.notes)?,
        None => Arc::new(alloc, ReceiverNotes::new())?,
    };
    let handed = match before {
        Some(before) if !has_changed(changed, name) => Arc::try_clone(&before.handed)?,
        _ => HandedStreams::new(alloc)?,
    };
    inlet.set_notes(&notes)?;
    inlet.set_handed(&handed)?;
    Ok(KnownReceiver {
        name,
        notes,
        handed,
        control: inlet.control()?,
    })
}

/// Whether a receiver of this name listens somewhere else than before, or nowhere.
fn has_changed(changed: ChangedPorts, name: ReceiverName) -> bool {
    match name {
        ReceiverName::Line | ReceiverName::LineOf(_) => changed.lines,
        ReceiverName::Pickle => changed.pickles,
        ReceiverName::Datagram => changed.datagrams,
    }
}
