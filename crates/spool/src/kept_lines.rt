//! Lines that were taken from an intake, and are not in a file yet.

ghost use Rattle.std.specs.Prelude.{◌≡◌, ◌≤◌, ◌<◌, ◌==◌, ◌↔◌, ℕ, List, [], ◌∷◌, ◌++◌, true, false, length, take, drop, count_by, IfOk, IfSome, IsTrue};
ghost use Rattle.relay_base.specs.Ascii.{newline};
ghost use Rattle.backlog.specs.Laws.{left_after};
ghost use Rattle.backlog.specs.Lines.{whole_lines};
ghost use Rattle.backlog.specs.Place.{place_after};
ghost use Rattle.spool.specs.Held.{Ends, GoesOn, IsUnderWay};
ghost use Rattle.spool.specs.KeptLines.{CameBehind};
ghost use Rattle.spool.specs.Turn.{IfOver};

use crate::file_connection::FileConnection;
use crate::held_text::HeldText;
use crate::intake::{INTAKE_ROOM, Intake};
use crate::line_count::lines_in;
use crate::turn::Turn;
use backlog::{Cursor, laws, whole_length};
use relay_base::NoMemory;
use std::alloc::Global;
use std::io::Write;
use std::marker::Model;
use std::sync::Wait;
use std::{io, mem};

/// Whole lines that were taken from an intake, of which a first part is in a file, or at the store.
///
/// Clauses see them as what is left, and where in that the sending to the store stands.
#[derive(Drop)]
pub struct KeptLines {
    lines: Vec<u8>,
    passed: usize,
    // How much of what is left a connection took.
    sent: Cursor,
}

impl Model for KeptLines {
    ghost use Rattle.std.specs.Prelude.{◌≤◌, length, drop};
    ghost use Rattle.spool.specs.KeptLines.{KeptState};

    ghost Value = { KeptState };

    ghost view = { λ k. record { left = drop k.passed k.lines.items; sent = k.sent } };

    ghost invariant = { λ k. k.passed ≤ length k.lines.items };
}

/// Lines in memory, as a file.
#[derive(Drop)]
struct LinesInMemory<'a> {
    bytes: &'a [u8],
}

impl HeldText for LinesInMemory<'_> {
    ghost use Rattle.std.specs.Prelude.{Some};

    ghost text = { λ held. Some held.bytes.now };

    fn read_from(&self, place: u64, piece: &mut [u8]) -> io::Result<usize> {
        let from = (place as usize).min(self.bytes.len());
        let (_, left) = self.bytes.split_at(from);
        let count = left.len().min(piece.len());
        piece[..count].copy_from_slice(&left[..count]);
        Ok(count)
    }
}

impl KeptLines {
    /// No lines, and room for those of an intake. Refuses if out of memory.
    pub fn new(alloc: Global) -> Result<KeptLines, NoMemory>
        ensures none { IfOk result (λ kept. (kept.left ≡ []) × (kept.sent ≡ place_after [] [])) }
    {
        Ok(KeptLines {
            lines: Vec::with_capacity(alloc, INTAKE_ROOM)?,
            passed: 0,
            sent: Cursor::new(),
        })
    }

    /// Takes the whole lines that wait in an intake, if none are left here. Returns whether it took some.
    pub fn fill<R: Wait>(&mut self, rt: &R, intake: &Intake) -> bool
        ensures left { 0 < length self.old.left → self.new ≡ self.old }
        ensures whole { self.old.left ≡ [] → whole_lines self.new.left ≡ self.new.left }
        ensures again { self.old.left ≡ [] → self.new.sent ≡ place_after [] [] }
        ensures some { IsTrue result ↔ ((self.old.left ≡ []) × (0 < length self.new.left)) }
    {
        if self.len() > 0 {
            return false;
        }
        self.lines.clear();
        self.passed = 0;
        self.sent = Cursor::new();
        intake.take_lines(rt, &mut self.lines);
        self.len() > 0
    }

    /// Takes the whole lines that wait in an intake behind those that are left. Returns whether there was memory for that.
    pub fn fill_behind<R: Wait>(&mut self, rt: &R, alloc: Global, intake: &Intake) -> bool
        ensures more { result ≡ true → CameBehind self.old.left self.new.left }
        ensures left { result ≡ false → self.new.left ≡ self.old.left }
        ensures sent { self.new.sent ≡ self.old.sent }
    {
        let mut more = Vec::new(alloc);
        intake.take_lines(rt, &mut more);
        let is_kept = self.lines.extend_from_slice(more.as_slice()).is_ok();
        drop(more);
        is_kept
    }

    /// Makes room for so many bytes behind those that are left. Returns whether there is memory for that.
    pub fn make_room(&mut self, count: usize) -> bool
        ensures left { self.new ≡ self.old }
    {
        self.lines.reserve(count).is_ok()
    }

    /// How many bytes are left.
    pub fn len(&self) -> usize
        ensures { result ≡ length self.now.left }
    {
        self.lines.len() - self.passed
    }

    /// Takes what is left out: all of it goes out again.
    pub fn take(&mut self, alloc: Global) -> KeptLines
        ensures all { (result.left ≡ self.old.left) × (result.sent ≡ place_after [] []) }
        ensures none { (self.new.left ≡ []) × (self.new.sent ≡ place_after [] []) }
    {
        let passed = mem::replace(&mut self.passed, 0);
        self.sent = Cursor::new();
        KeptLines {
            lines: mem::replace(&mut self.lines, Vec::new(alloc)),
            passed,
            sent: Cursor::new(),
        }
    }

    /// Whether nothing is left.
    pub fn are_none(&self) -> bool
        ensures { IsTrue result ↔ self.now.left ≡ [] }
    {
        self.len() == 0
    }

    /// The lines that are left.
    fn left(&self) -> &[u8]
        ensures { result.now ≡ self.now.left }
    {
        let (_, left) = self.lines.split_at(self.passed);
        left
    }

    /// How many lines are left.
    pub fn datapoints(&self) -> u64
        ensures { result ≡ count_by (λ b. b == newline) self.now.left }
    {
        lines_in(self.left())
    }

    /// The first lines that are left, whole ones, of so many bytes at most.
    #[tactic(auto, using(crate::proofs::PipeLemmas::first_lines, crate::proofs::PipeLemmas::lines_length))]
    pub fn within(&self, room: u64) -> &[u8]
        ensures all { length self.now.left ≤ room → result.now ≡ self.now.left }
        ensures whole { room < length self.now.left → result.now ≡ whole_lines (take room self.now.left) }
    {
        let left = self.left();
        if left.len() as u64 <= room {
            return left;
        }
        let (first, _) = left.split_at(room as usize);
        let (whole, _) = first.split_at(whole_length(first));
        whole
    }

    /// Sends some of what is left to its connection, which is given out once it took all.
    pub fn send<W: Write + Drop>(
        &mut self,
        connection: &mut FileConnection<W>,
        piece: &mut [u8],
    ) -> Turn<W>
        ensures left { self.new.left ≡ self.old.left }
        // While the connection is kept it gets the lines, and nothing else.
        ensures kept { IfSome connection.old.sink (λ had. IfSome connection.new.sink (λ has.
            GoesOn self.old.left self.old.sent self.new.sent (W.contents had) (W.contents has))) }
        // It is given out with all lines, from where the connections before it left them,
        ensures lines { IfSome connection.old.sink (λ had. IfOver result (λ sink.
            Ends self.old.left self.old.sent (W.contents had) (W.contents sink))) }
        // and never before all are sent.
        ensures over { IfOver result (λ _. length self.old.left ≤ self.new.sent.next) }
    {
        let (_, left) = self.lines.split_at(self.passed);
        let end = left.len() as u64;
        connection.send(&LinesInMemory { bytes: left }, end, &mut self.sent, piece)
    }

    /// The connection that had some of what is left is given up. If it is lost, all that is left goes out again; otherwise what it
    /// took counts as sent, up to the last line that it took whole.
    pub fn leave_connection(&mut self, is_lost: bool)
        ensures lost { is_lost ≡ true → self.new.left ≡ self.old.left }
        ensures taken { is_lost ≡ false → self.new.left ≡ drop self.old.sent.start self.old.left }
        ensures lines { is_lost ≡ false → (over : List (List ℕ)) (taken : List ℕ)
            → IsUnderWay self.old.left over taken self.old.sent
            → self.new.left ≡ left_after (over ++ taken ∷ []) self.old.left }
        ensures again { self.new.sent ≡ place_after [] [] }
    {
        if is_lost {
            self.send_again();
        } else {
            self.pass_taken();
        }
    }

    /// The connection is lost: all that is left goes out again.
    pub fn send_again(&mut self)
        ensures { self.new ≡ record self.old { sent = place_after [] [] } }
    {
        self.sent = Cursor::new();
    }

    /// What the connection took of the lines counts as sent, up to the last line that it took whole.
    fn pass_taken(&mut self)
        ensures taken { self.new.left ≡ drop self.old.sent.start self.old.left }
        // That is what the connections left, none of which has a line in part.
        ensures lines { (over : List (List ℕ)) (taken : List ℕ)
            → IsUnderWay self.old.left over taken self.old.sent
            → self.new.left ≡ left_after (over ++ taken ∷ []) self.old.left }
        ensures again { self.new.sent ≡ place_after [] [] }
    {
        laws::left_from_place();
        let taken = self.sent.start() as usize;
        self.pass(taken);
        self.sent = Cursor::new();
    }

    /// All is at the store.
    pub fn pass_all(&mut self)
        ensures { (self.new.left ≡ []) × (self.new.sent ≡ place_after [] []) }
    {
        self.passed = self.lines.len();
        self.sent = Cursor::new();
    }

    /// So many bytes of what is left are in a file.
    pub fn pass(&mut self, count: usize)
        ensures { self.new ≡ record self.old { left = drop count self.old.left } }
    {
        let left = self.lines.len() - self.passed;
        self.passed += count.min(left);
    }
}
