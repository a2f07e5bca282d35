//! How receivers close before they are stopped, so that what was sent is read.

use receivers::ReceiverControl;
use std::sync::Arc;

/// For how many milliseconds nothing may have come, so that the receivers are quiet.
const QUIET_MS: u64 = 20;

/// How many milliseconds after its beginning a closing calls for the last connections at the latest.
const LAST_CALL_MS: u64 = 450;

/// How many milliseconds it goes on at the most once the ports are shut: a producer that comes again is refused meanwhile.
const MOST_SHUT_MS: u64 = 50;

const MOST_CLOSING_MS: u64 = 500;

/// How far receivers have closed.
#[derive(Clone, Copy)]
enum Stage {
    /// They half-close what they held at the beginning, and take other connections.
    Open,
    /// They take the last connections, and shut their ports.
    LastCall,
    /// Their ports are shut since these milliseconds, and they half-close what they took meanwhile.
    Shut(u64),
}

/// The closing of receivers, as the thread that stops them sees it. Their listeners half-close what they hold, and the
/// receivers read on until each of these connections has come to its end, or nothing has come for 20 milliseconds. Meanwhile
/// they take others and leave them open. Then, after 450 milliseconds at the latest, the listeners take what still waits, shut
/// their ports and half-close those others, and the same goes for them, for 50 milliseconds at the most. The receivers of
/// datagrams read until nothing waits.
///
/// The caller looks every millisecond or two, and sets the receivers' stop flag once a look says that the closing is over.
#[derive(Drop)]
pub struct ClosingWait<'c> {
    controls: &'c [Arc<ReceiverControl>],
    began: u64,
    stage: Stage,
    // What had come at the last look, and since when nothing more has.
    inputs: u64,
    quiet_since: u64,
}

impl<'c> ClosingWait<'c> {
    /// Begins to close the receivers with these controls, at these milliseconds of a clock that never falls.
    pub fn begin(controls: &'c [Arc<ReceiverControl>], millis: u64) -> ClosingWait<'c> {
        for control in controls {
            control.begin_closing();
        }
        ClosingWait {
            controls,
            began: millis,
            stage: Stage::Open,
            inputs: 0,
            quiet_since: millis,
        }
    }

    /// Looks at the receivers at these milliseconds. Returns whether they may be stopped.
    pub fn look(&mut self, millis: u64) -> bool {
        self.note_quiet(millis);
        let passed = millis.saturating_sub(self.began);
        match self.stage {
            Stage::Open if passed >= LAST_CALL_MS || self.is_over(millis) => self.call_last(),
            Stage::LastCall if self.are_shut() => self.half_close_all(millis),
            Stage::Shut(since) if millis.saturating_sub(since) >= MOST_SHUT_MS => return true,
            Stage::Shut(_) if self.is_over(millis) => return true,
            _ => {}
        }
        passed >= MOST_CLOSING_MS
    }

    /// The receivers take the connections that wait, and shut their ports.
    fn call_last(&mut self) {
        self.stage = Stage::LastCall;
        for control in self.controls {
            control.call_last();
        }
    }

    /// The receivers half-close all connections, now that no port is open.
    fn half_close_all(&mut self, millis: u64) {
        self.stage = Stage::Shut(millis);
        for control in self.controls {
            control.half_close_all();
        }
    }

    /// Whether each connection that was half-closed last has come to its end, or nothing has come for [`QUIET_MS`] milliseconds.
    fn is_over(&self, millis: u64) -> bool {
        if !self.controls.iter().all(|control| control.is_waiting()) {
            return false;
        }
        let is_quiet = millis.saturating_sub(self.quiet_since) >= QUIET_MS;
        is_quiet
            || self
                .controls
                .iter()
                .all(|control| control.half_closed() == 0)
    }

    /// Whether all ports are shut.
    fn are_shut(&self) -> bool {
        self.controls.iter().all(|control| control.is_shut())
    }

    /// Notes since when nothing has come.
    fn note_quiet(&mut self, millis: u64) {
        let mut inputs: u64 = 0;
        let mut are_waiting = true;
        for control in self.controls {
            inputs = inputs.saturating_add(control.inputs());
            are_waiting = are_waiting && control.is_waiting();
        }
        if inputs != self.inputs || !are_waiting {
            self.inputs = inputs;
            self.quiet_since = millis;
        }
    }
}
