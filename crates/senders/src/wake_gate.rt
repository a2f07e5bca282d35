//! The gate that wakes senders.

use crate::alarm::Alarm;
use crate::take_waits::TakeWaits;
use locked_queues::{Gate, GatePoint};
use relay_base::DestId;
use std::sync::Wait;

/// A gate for the doors and outlets of queues: an offer to a destination ends the wait of its sender, if the
/// sender is about to wait. Of `n` senders, sender `k` has the destinations `k`, `k + n` and so on.
///
/// It is called inside the lock, before the offer: the sender's next take waits for that lock, so that it
/// finds the datapoint.
#[derive(Drop)]
pub struct WakeGate {
    alarms: Vec<Alarm>,
    waits: TakeWaits,
}

impl WakeGate {
    /// The gate that wakes the senders of these alarms, sender 0 first.
    pub fn new(alarms: Vec<Alarm>) -> WakeGate {
        WakeGate {
            alarms,
            waits: TakeWaits::new(),
        }
    }

    /// The alarm of a sender, if there is such a sender.
    pub fn alarm(&self, sender: usize) -> Option<&Alarm> {
        self.alarms.get(sender)
    }

    /// The alarm of the sender that has a destination.
    #[inline(always)]
    fn alarm_of(&self, dest: DestId) -> Option<&Alarm> {
        let senders = self.alarms.len();
        if senders == 0 {
            return None;
        }
        // A lone sender has all destinations, and needs no division.
        let sender = if senders == 1 { 0 } else { dest.0 % senders };
        Some(&self.alarms[sender])
    }

    /// Ends the waits of all senders, so that each sees its stop flag at once. Call it once the flag is set.
    pub fn wake_all(&self) {
        for alarm in &self.alarms {
            alarm.ring();
        }
    }
}

impl Gate for WakeGate {
    fn at(&self, point: GatePoint) {
        match point {
            GatePoint::InOffer { dest, reader: _ } => {
                if let Some(alarm) = self.alarm_of(dest) {
                    alarm.ring();
                }
            }
            GatePoint::InTake { dest } => self.waits.note_take(dest),
        }
    }

    /// Ends the wait of the sender, and sleeps until it takes from the queue: it may be waiting for a processor.
    fn give_way<R: Wait>(&self, rt: &R, dest: DestId, most: usize) -> usize {
        let Some(alarm) = self.alarm_of(dest) else {
            return most;
        };
        // First it notes that it waits: the sender may take at once.
        self.waits.begin(dest);
        alarm.hurry();
        self.waits.wait(rt, dest, most)
    }
}
