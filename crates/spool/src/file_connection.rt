//! The connection that a file goes out on.

ghost use Rattle.std.specs.Prelude.{◌≡◌, ◌≤◌, ◌↔◌, ℕ, List, [], ◌∷◌, ◌++◌, take, true, false, None, Some, IfSome, IsSome, IsTrue};
ghost use Rattle.spool.specs.Held.{Ends, GoesOn, IsUnderWay, StopsAtLine};
ghost use Rattle.spool.specs.Turn.{IfGivenUp, IfOver};

use crate::held_text::HeldText;
use crate::pieces::{SendOutcome, send_piece};
use crate::turn::Turn;
use backlog::{Cursor, laws};
use std::io::Write;
use std::marker::Model;

/// The connection that a file goes out on, if there is one. It is the file's own, so that nothing else is written to it,
/// until the file is sent.
///
/// Clauses see it as what it writes to, and whether that takes no more before it is ready.
#[derive(Drop)]
pub struct FileConnection<W> {
    sink: Option<W>,
    // Whether it takes no more before it is ready.
    is_blocked: bool,
}

impl<W> Model for FileConnection<W> {
    ghost use Rattle.spool.specs.FileConnection.{ConnectionState};

    ghost Value = { ConnectionState W };

    ghost view = { λ c. record {
      sink = c.sink;
      blocked = c.is_blocked;
    } };
}

impl<W: Drop> FileConnection<W> {
    /// There is no connection.
    pub fn new() -> FileConnection<W>
        ensures { (result.sink ≡ None) × (result.blocked ≡ false) }
    {
        FileConnection {
            sink: None,
            is_blocked: false,
        }
    }

    /// Whether there is a connection.
    pub fn is_open(&self) -> bool
        ensures { IsTrue result ↔ IsSome self.now.sink }
    {
        self.sink.is_some()
    }

    /// Whether there is a connection that takes more at once.
    pub fn goes_on(&self) -> bool
        ensures { IsTrue result ↔ (IsSome self.now.sink × (self.now.blocked ≡ false)) }
    {
        self.sink.is_some() && !self.is_blocked
    }

    /// From now on this is the connection.
    pub fn keep(&mut self, sink: W)
        ensures { (self.new.sink ≡ Some sink) × (self.new.blocked ≡ false) }
    {
        *self = FileConnection {
            sink: Some(sink),
            is_blocked: false,
        };
    }

    /// Takes the connection out, if there is one: it may go on elsewhere ([`FileConnection::keep`]).
    pub fn take(&mut self) -> Option<W>
        ensures taken { result ≡ self.old.sink }
        ensures none { (self.new.sink ≡ None) × (self.new.blocked ≡ false) }
    {
        self.is_blocked = false;
        self.sink.take()
    }

    /// The connection is ready.
    pub fn note_ready(&mut self)
        ensures { self.new ≡ record self.old { blocked = false } }
    {
        self.is_blocked = false;
    }

    /// The connection is gone, if there is one: the next one gets the file from the first line that it did not take whole.
    pub(crate) fn lose(&mut self, cursor: &mut Cursor)
        ensures gone { self.new.sink ≡ None }
        ensures again { IsSome self.old.sink
            → (lines : List ℕ) (over : List (List ℕ)) (taken : List ℕ)
            → IsUnderWay lines over taken cursor.old
            → IsUnderWay lines (over ++ taken ∷ []) [] cursor.new }
    {
        if self.sink.is_some() {
            self.sink = None;
            cursor.reconnect();
        }
    }
}

impl<W: Write + Drop> FileConnection<W> {
    /// Sends a piece of a file, whose whole lines end at `end`, and gives the connection out once it took all of these, or once
    /// the file cannot be read, if that is between two lines.
    pub(crate) fn send<F: HeldText>(
        &mut self,
        file: &F,
        end: u64,
        cursor: &mut Cursor,
        piece: &mut [u8],
    ) -> Turn<W>
        // While it is kept it gets the file's lines, and nothing else.
        ensures kept { IfSome (F.text file.now) (λ held.
            IfSome self.old.sink (λ had. IfSome self.new.sink (λ has.
            GoesOn (take end held) cursor.old cursor.new (W.contents had) (W.contents has)))) }
        // It is given out with all lines, from where the connections before it left them,
        ensures lines { IfSome (F.text file.now) (λ held.
            IfSome self.old.sink (λ had. IfOver result (λ sink.
            Ends (take end held) cursor.old (W.contents had) (W.contents sink)))) }
        // and never before the cursor is there.
        ensures over { IfOver result (λ _. end ≤ cursor.new.next) }
        // If the file cannot be read it is given out only at the end of a line.
        ensures given_up { IfGivenUp result (λ sink. IfSome (F.text file.now) (λ held.
            IfSome self.old.sink (λ had.
            StopsAtLine (take end held) cursor.old (W.contents had) (W.contents sink)))) }
        ensures at_line { IfGivenUp result (λ _. cursor.new.start ≡ cursor.new.next) }
        // One that takes no more gets nothing.
        ensures blocked { self.old.blocked ≡ true → self.new ≡ self.old }
        ensures none { self.old.sink ≡ None → (self.new ≡ self.old) × IfOver result (λ _. ⊥) }
    {
        laws::nothing_is_lost();
        if self.is_blocked {
            return Turn::Kept;
        }
        let Some(sink) = self.sink.take() else {
            return Turn::Kept;
        };
        let mut sink = sink;
        match send_piece(file, end, cursor, &mut sink, piece) {
            SendOutcome::All => Turn::Over(sink),
            SendOutcome::Unreadable { code } => {
                if is_between_lines(cursor) {
                    return Turn::GivenUp { sink, code };
                }
                self.sink = Some(sink);
                Turn::Broken { code }
            }
            SendOutcome::Lost => {
                self.sink = Some(sink);
                Turn::Lost
            }
            SendOutcome::Blocked => {
                self.sink = Some(sink);
                self.is_blocked = true;
                Turn::Kept
            }
            SendOutcome::Some => {
                self.sink = Some(sink);
                Turn::Kept
            }
        }
    }
}

/// Whether what a connection took so far of a text are whole lines.
fn is_between_lines(cursor: &Cursor) -> bool
    ensures { IsTrue result ↔ cursor.now.start ≡ cursor.now.next }
{
    cursor.start() == cursor.next()
}
