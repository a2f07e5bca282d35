//! The threads that use the disk while a run goes on, and when they do not.

ghost use Rattle.std.specs.Prelude.{◌≡◌, ◌==◌, not};
ghost use Rattle.std.specs.Int.Bits.{bit_or};
ghost use Rattle.run_state.specs.DiskUsers.{bit_of_user};

use crate::signals::{Signals, bit};

/// The bit of the sender to destinations that are gone, behind those of the senders.
const PARTING_BIT: u64 = 256;

/// The bit of the keeper of the files.
const KEEPER_BIT: u64 = 512;

/// A thread that reads and writes the files of a run.
#[derive(Clone, Copy)]
pub enum DiskUser {
    /// The sender of a number.
    Sender(usize),
    /// The sender to destinations that are gone.
    Parting,
    /// The keeper of the files.
    Keeper,
}

impl DiskUser {
    /// Its bit.
    pub(crate) fn bit(self) -> u64
        ensures { result ≡ bit_of_user self }
    {
        match self {
            DiskUser::Sender(number) => bit(number),
            DiskUser::Parting => PARTING_BIT,
            DiskUser::Keeper => KEEPER_BIT,
        }
    }
}

/// Some of these threads, a bit each.
#[derive(Clone, Copy)]
pub struct DiskUsers {
    pub(crate) bits: u64,
}

impl DiskUsers {
    /// None of them.
    pub fn none() -> DiskUsers
        ensures { result.bits ≡ 0 }
    {
        DiskUsers { bits: 0 }
    }

    /// These and this one.
    pub fn with(self, user: DiskUser) -> DiskUsers
        ensures { result.bits ≡ bit_or self.bits (bit_of_user user) }
    {
        DiskUsers {
            bits: self.bits | user.bit(),
        }
    }

    /// Whether there is none.
    pub fn are_none(self) -> bool
        ensures { result ≡ (self.bits == 0) }
    {
        self.bits == 0
    }
}

/// The turns of a thread that uses the disk. Before a run ends that another one follows, such threads do not use it, so that
/// nobody waits for the disk when they end.
#[derive(Drop)]
pub struct DiskTurns<'s> {
    signals: &'s Signals,
    user: DiskUser,
    is_halted: bool,
}

impl<'s> DiskTurns<'s> {
    /// This thread has not begun a turn.
    pub fn new(signals: &'s Signals, user: DiskUser) -> DiskTurns<'s> {
        DiskTurns {
            signals,
            user,
            is_halted: true,
        }
    }

    /// Begins a turn. Returns whether the thread may use the disk until the next one begins.
    pub fn begin(&mut self) -> bool
        ensures may { result ≡ not self.new.is_halted }
        ensures user { self.new.user ≡ self.old.user }
    {
        // First it says that it goes on, and then it looks: who halts it sees that, or it sees that it is to halt.
        if self.is_halted {
            self.signals.note_disk_use_halted(self.user, false);
        }
        self.is_halted = self.signals.is_disk_use_to_halt();
        if self.is_halted {
            self.signals.note_disk_use_halted(self.user, true);
        }
        !self.is_halted
    }

    /// The thread uses the disk no more.
    pub fn end(&mut self) {
        self.is_halted = true;
        self.signals.note_disk_use_halted(self.user, true);
    }
}
