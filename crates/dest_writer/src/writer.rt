//! The writer of one destination.
ghost use Rattle.std.specs.Prelude.{◌≡◌, ◌==◌, ◌||◌, not, ◌<◌, ◌≤◌, ◌+◌, ◌-◌, ◌↔◌, true, false, [], length, take, IfOk, IfSome, IfNone, OnOk, OnErr, IsErrOf};
ghost use Rattle.line_text.specs.Print.{longest_printed};
ghost use Rattle.dest_writer.specs.Counting.{stream_of, counts_of};
ghost use Rattle.dest_writer.specs.Drive.{Drives, driven_by, driven_of, goes_on};
ghost use Rattle.dest_writer.specs.Gathered.{IsGathered, IsEmptyOrGathered, most_gathered};
ghost use Rattle.dest_writer.specs.Place.{position, IsPlace};
ghost use Rattle.dest_writer.specs.Writer.{fresh_writer, wants_batch, left, bytes_left, line_left, unfinished_points, writer_after_up, writer_after_take, writer_after_write, writer_after_down};

use crate::counting::{CallCounts, Counting, Outcome};
use crate::driven::{DriveReport, Driven, WriterFault};
use crate::gather_buf::GatherBuf;
use crate::place::{Place, place_behind};
use crate::portion::{OneLine, Portion};
use crate::printing::{print_at, text_length};
use crate::writes::{MOST_WRITES, goes_on};
use dest_queue::Hand;
use line_text::{LONGEST_PRINTED, LineBuf};
use relay_base::NoMemory;
use std::alloc::Global;
use std::io::Write;
use std::marker::Model;

/// The writer of one destination: the batch in hand, how much of its text was taken, and whether
/// there is a connection. A line is printed when it is to be written, into room that is there from
/// the start.
///
/// Clauses see it as its limit and the writer machine's state.
#[derive(Drop)]
pub struct Writer {
    limit: usize,
    hand: Hand,
    // Where in the hand's text the connection is: all before it was taken.
    place: Place,
    line: LineBuf,
    up: bool,
}

impl Model for Writer {
    ghost use Rattle.dest_writer.specs.Writer.{SizedWriter};

    ghost Value = { SizedWriter };

    ghost use Rattle.dest_writer.specs.Stored.{sized_writer_of, IsSound};

    ghost view = { sized_writer_of };

    ghost invariant = { IsSound };
}

impl Writer {
    ghost use Rattle.std.specs.Borrow.{sem};
    ghost use Rattle.std.specs.Io.BufRead.{Rests};
    ghost use Rattle.dest_writer.specs.contracts.writer.Writer.{the_row};

    /// A writer without a connection and with nothing in hand, for batches of at most `limit`
    /// datapoints. Returns `NoMemory` if memory for them is refused, or if the limit is so great that no
    /// memory holds their longest text.
    pub fn new(alloc: Global, limit: usize) -> Result<Writer, NoMemory>
        ensures fresh { IfOk result (λ w. w.writer ≡ fresh_writer) }
        ensures limit { IfOk result (λ w. w.limit ≡ limit) }
    {
        limit.checked_mul(LONGEST_PRINTED).ok_or(NoMemory)?;
        Ok(Writer {
            limit,
            hand: Hand::new(alloc, limit)?,
            place: START,
            line: LineBuf::new(alloc)?,
            up: false,
        })
    }

    /// There is a new connection. What is in hand is written to it from its first byte.
    /// Refuses if there is one already (`AlreadyUp`).
    pub fn up(&mut self) -> Result<(), WriterFault>
        ensures step { OnOk result (self.new.writer ≡ writer_after_up self.old.writer) }
        ensures limit { self.new.limit ≡ self.old.limit }
        ensures ok { OnOk result (self.old.writer.up ≡ false) }
        ensures already_up { IsErrOf result WriterFault.AlreadyUp ↔ (self.old.writer.up ≡ true) }
        ensures not_up { IsErrOf result WriterFault.NotUp → ⊥ }
        ensures too_many { IsErrOf result WriterFault.TooMany → ⊥ }
        ensures unchanged { OnErr result (self.new ≡ self.old) }
    {
        if self.up {
            return Err(WriterFault::AlreadyUp);
        }
        self.up = true;
        Ok(())
    }

    /// The connection is lost. The datapoints whose last byte was taken leave the hand, and the
    /// others are written again from the first byte, on the next connection. Refuses if there is
    /// none (`NotUp`).
    pub fn down(&mut self) -> Result<(), WriterFault>
        ensures step { OnOk result (self.new.writer ≡ writer_after_down self.old.writer) }
        ensures limit { self.new.limit ≡ self.old.limit }
        ensures ok { OnOk result (self.old.writer.up ≡ true) }
        ensures not_up { IsErrOf result WriterFault.NotUp ↔ (self.old.writer.up ≡ false) }
        ensures too_many { IsErrOf result WriterFault.TooMany → ⊥ }
        ensures already_up { IsErrOf result WriterFault.AlreadyUp → ⊥ }
        ensures unchanged { OnErr result (self.new ≡ self.old) }
    {
        if !self.up {
            return Err(WriterFault::NotUp);
        }
        self.hand.drop_front(self.place.index);
        self.place = START;
        self.up = false;
        Ok(())
    }

    /// The connection took the next `count` bytes of the hand's text; with the last of them the
    /// hand is empty. Refuses if there is no connection (`NotUp`), and then more bytes than are
    /// left (`TooMany`).
    pub fn wrote(&mut self, count: usize) -> Result<(), WriterFault>
        ensures step { OnOk result (self.new.writer ≡ writer_after_write count self.old.writer) }
        ensures limit { self.new.limit ≡ self.old.limit }
        ensures ok { OnOk result ((self.old.writer.up ≡ true) × (count ≤ left self.old.writer)) }
        ensures not_up { IsErrOf result WriterFault.NotUp ↔ (self.old.writer.up ≡ false) }
        ensures too_many { IsErrOf result WriterFault.TooMany
            ↔ ((self.old.writer.up ≡ true) × (left self.old.writer < count)) }
        ensures already_up { IsErrOf result WriterFault.AlreadyUp → ⊥ }
        ensures unchanged { OnErr result (self.new ≡ self.old) }
    {
        if !self.up {
            return Err(WriterFault::NotUp);
        }
        let Some(place) = self.place_after(count) else {
            return Err(WriterFault::TooMany);
        };
        self.go_to(place);
        Ok(())
    }

    /// Whether there is a connection.
    pub fn is_up(&self) -> bool
        ensures { result ≡ self.now.writer.up }
    {
        self.up
    }

    /// How many bytes of the hand's text are left. It adds up the lengths of the lines that are left.
    pub fn left(&self) -> usize
        ensures { result ≡ left self.now.writer }
    {
        text_length(&self.hand.points()[self.place.index..]) - self.place.offset
    }

    /// How many datapoints of the hand were not wholly taken.
    pub fn unsent(&self) -> usize
        ensures unfinished { result ≡ length (unfinished_points self.now.writer.written self.now.writer.hand) }
        ensures few { result ≤ length self.now.writer.hand }
    {
        self.hand.len() - self.place.index
    }

    /// Whether there is a connection and the hand is empty, as [`Writer::fill`] wants it.
    pub fn wants_batch(&self) -> bool
        ensures { result ≡ wants_batch self.now.writer }
    {
        self.up && self.hand.is_empty()
    }

    /// Takes a batch in hand, and leaves the lent hand empty. A batch is wanted
    /// ([`Writer::wants_batch`]), and has at most as many datapoints as the writer was made for.
    /// Takes no memory.
    pub fn fill(&mut self, hand: &mut Hand)
        requires wanted { wants_batch self.old.writer ≡ true }
        requires fits { length hand.old.points ≤ self.old.limit }
        ensures step { self.new.writer ≡ writer_after_take hand.old.points self.old.writer }
        ensures limit { self.new.limit ≡ self.old.limit }
        ensures emptied { hand.new.points ≡ [] }
        ensures room { hand.new.room ≡ hand.old.room }
    {
        self.hand.move_all(hand);
    }

    /// The next bytes of the hand's text: what is left of the current line. They are none only where
    /// nothing is left. Takes no memory.
    pub fn next_bytes(&mut self) -> &[u8]
        ensures* after_borrow { sem 𝓛 (Rests the_row self.entry (λ new. new ≡ self.old)) }
        ensures line { result.now ≡ line_left self.old.writer }
        ensures next { result.now ≡ take (length result.now) (bytes_left self.old.writer) }
        ensures some { 0 < left self.old.writer → 0 < length result.now }
        ensures short { length result.now ≤ longest_printed }
    {
        let start = print_at(self.hand.points(), self.place, &mut self.line);
        &self.line.bytes()[start..]
    }

    /// Writes what is left of the hand's text to the connection, a line at a time, by at most
    /// [`MOST_WRITES`] writes; an interrupted write counts as one. There is a connection. Takes no
    /// memory.
    ///
    /// It ends with `Idle` where nothing is left, and else as the last write came out: `Blocked`,
    /// `Failed`, or `Again` where 16 writes were made. After `Failed` the caller calls
    /// [`Writer::down`].
    pub fn drive<W: Write>(&mut self, sink: &mut Counting<W>) -> Driven
        requires { self.old.writer.up ≡ true }
        ensures drives { Drives result (left self.old.writer - left self.new.writer)
            self.old.writer self.new.writer (counts_of sink.old) (counts_of sink.new)
            (W.contents (stream_of sink.old)) (W.contents (stream_of sink.new)) }
        ensures limit { self.new.limit ≡ self.old.limit }
    {
        self.drive_over(&mut sink.stream, &mut sink.counts)
    }

    /// [`Writer::drive`] over a stream that is lent, with the counts of its calls beside it.
    pub fn drive_over<W: Write>(&mut self, stream: &mut W, counts: &mut CallCounts) -> Driven
        requires { self.old.writer.up ≡ true }
        ensures drives { Drives result (left self.old.writer - left self.new.writer)
            self.old.writer self.new.writer counts.old counts.new (W.contents stream.old)
            (W.contents stream.new) }
        ensures limit { self.new.limit ≡ self.old.limit }
    {
        self.drive_by(&mut OneLine, stream, counts).driven
    }

    /// [`Writer::drive`] with many lines a write: each write offers what is left of the current line
    /// and the lines behind it, as many as [`GatherBuf`] has room for. Reports how many bytes the
    /// connection took, and how the drive ended. There is a connection. Takes no memory.
    pub fn drive_gathered<W: Write>(
        &mut self,
        gathered: &mut GatherBuf,
        sink: &mut Counting<W>,
    ) -> DriveReport
        requires { self.old.writer.up ≡ true }
        ensures drives { Drives result.driven result.wrote self.old.writer self.new.writer
            (counts_of sink.old) (counts_of sink.new) (W.contents (stream_of sink.old))
            (W.contents (stream_of sink.new)) }
        ensures limit { self.new.limit ≡ self.old.limit }
    {
        gathered.clear();
        self.drive_by(gathered, &mut sink.stream, &mut sink.counts)
    }

    /// Makes one write after another, each of the next portion.
    fn drive_by<P: Portion<W>, W: Write>(
        &mut self,
        portion: &mut P,
        stream: &mut W,
        counts: &mut CallCounts,
    ) -> DriveReport
        requires up { self.old.writer.up ≡ true }
        requires fits { P.fits self.old.writer portion.old }
        ensures drives { Drives result.driven result.wrote self.old.writer self.new.writer
            counts.old counts.new (W.contents stream.old) (W.contents stream.new) }
        ensures limit { self.new.limit ≡ self.old.limit }
    {
        let before = counts.last();
        if self.is_done() {
            return self.report(0, before);
        }
        let mut wrote = 0;
        for _ in 0..MOST_WRITES {
            wrote += portion.write(self, stream, counts);
            let outcome = counts.last();
            if self.is_over(outcome) {
                return self.report(wrote, outcome);
            }
        }
        self.report(wrote, counts.last())
    }

    /// Gathers the next lines, unless some are gathered.
    pub(crate) fn gather_more(&mut self, gathered: &mut GatherBuf)
        requires some { 0 < left self.old.writer }
        requires gathered { IsEmptyOrGathered self.old.writer gathered.old }
        ensures same { self.new ≡ self.old }
        ensures gathered { IsGathered self.old.writer gathered.new }
        ensures some { 0 < length gathered.new.bytes }
    {
        if gathered.is_empty() {
            self.gather(gathered);
        }
    }

    /// Gathers the next lines, if there are some.
    fn gather(&mut self, gathered: &mut GatherBuf)
        requires some { 0 < left self.old.writer }
        ensures same { self.new ≡ self.old }
        ensures gathered { IsGathered self.old.writer gathered.new }
        ensures some { 0 < length gathered.new.bytes }
    {
        gathered.gather(self.hand.points(), self.place, &mut self.line);
    }

    /// The connection took the next bytes of what is gathered.
    pub(crate) fn pass_gathered(&mut self, gathered: &mut GatherBuf, count: usize)
        requires gathered { IsGathered self.old.writer gathered.old }
        requires within { count ≤ length gathered.old.bytes }
        ensures step { self.new.writer ≡ writer_after_write count self.old.writer }
        ensures limit { self.new.limit ≡ self.old.limit }
        ensures gathered { IsEmptyOrGathered self.new.writer gathered.new }
    {
        if count == gathered.bytes().len() {
            self.finish_gathered(gathered);
        } else {
            self.stay_in_gathered(gathered, count);
        }
    }

    /// The connection took all that is gathered.
    fn finish_gathered(&mut self, gathered: &mut GatherBuf)
        requires { IsGathered self.old.writer gathered.old }
        ensures step { self.new.writer
            ≡ writer_after_write (length gathered.old.bytes) self.old.writer }
        ensures limit { self.new.limit ≡ self.old.limit }
        ensures empty { gathered.new.bytes ≡ [] }
    {
        self.go_to(Place {
            index: gathered.end(),
            offset: 0,
        });
        gathered.clear();
    }

    /// The connection took some of what is gathered.
    fn stay_in_gathered(&mut self, gathered: &mut GatherBuf, count: usize)
        requires gathered { IsGathered self.old.writer gathered.old }
        requires some { count < length gathered.old.bytes }
        ensures step { self.new.writer ≡ writer_after_write count self.old.writer }
        ensures limit { self.new.limit ≡ self.old.limit }
        ensures gathered { IsGathered self.new.writer gathered.new }
    {
        gathered.take(count);
        self.pass(count);
    }

    /// The connection took the next bytes of the current line, `count` of the `rest` that was left.
    pub(crate) fn pass_in_line(&mut self, rest: usize, count: usize)
        requires some { 0 < left self.old.writer }
        requires rest { rest ≡ length (line_left self.old.writer) }
        requires within { count ≤ left self.old.writer }
        ensures step { self.new.writer ≡ writer_after_write count self.old.writer }
        ensures limit { self.new.limit ≡ self.old.limit }
    {
        if count == rest {
            self.finish_line();
        } else {
            self.pass(count);
        }
    }

    /// The connection took what is left of the current line.
    fn finish_line(&mut self)
        requires { 0 < left self.old.writer }
        ensures step { self.new.writer
            ≡ writer_after_write (length (line_left self.old.writer)) self.old.writer }
        ensures limit { self.new.limit ≡ self.old.limit }
    {
        self.go_to(Place {
            index: self.place.index + 1,
            offset: 0,
        });
    }

    /// The connection took the next bytes.
    fn pass(&mut self, count: usize)
        requires { count ≤ left self.old.writer }
        ensures step { self.new.writer ≡ writer_after_write count self.old.writer }
        ensures limit { self.new.limit ≡ self.old.limit }
    {
        let Some(place) = self.place_after(count) else {
            unreachable!();
        };
        self.go_to(place);
    }

    /// The place `count` bytes further on, or `None` if fewer are left.
    fn place_after(&self, count: usize) -> Option<Place>
        ensures place { IfSome result (λ place. IsPlace place self.now.writer.hand) }
        ensures position { IfSome result (λ place.
            position place self.now.writer.hand ≡ self.now.writer.written + count) }
        ensures within { IfSome result (λ _. count ≤ left self.now.writer) }
        ensures few { IfNone result (left self.now.writer < count) }
    {
        let rest = &self.hand.points()[self.place.index..];
        let place = place_behind(rest, self.place.offset, count)?;
        Some(Place {
            index: self.place.index + place.index,
            offset: place.offset,
        })
    }

    /// The connection took all before a place. At the end of the text the hand is empty.
    fn go_to(&mut self, place: Place)
        requires place { IsPlace place self.old.writer.hand }
        requires behind { self.old.writer.written ≤ position place self.old.writer.hand }
        ensures step { self.new.writer ≡ writer_after_write
            (position place self.old.writer.hand - self.old.writer.written) self.old.writer }
        ensures limit { self.new.limit ≡ self.old.limit }
    {
        if place.index == self.hand.len() {
            self.hand.clear();
            self.place = START;
        } else {
            self.place = place;
        }
    }

    /// Whether a drive ends after a write with this outcome: nothing is left, or the outcome ends it.
    fn is_over(&self, last: Outcome) -> bool
        ensures { result ≡ ((left self.now.writer == 0) || not (goes_on last)) }
    {
        self.is_done() || !goes_on(last)
    }

    /// Whether nothing is left. Then nothing is in hand.
    fn is_done(&self) -> bool
        ensures done { result ≡ (left self.now.writer == 0) }
        ensures same { self.now.writer ≡ writer_after_write 0 self.now.writer }
    {
        self.hand.is_empty()
    }

    /// The report of a drive in which the connection took this many bytes, and whose last write ended so.
    fn report(&self, wrote: usize, last: Outcome) -> DriveReport
        ensures wrote { result.wrote ≡ wrote }
        ensures driven { result.driven ≡ driven_of (left self.now.writer) last }
    {
        let driven = if self.is_done() {
            Driven::Idle
        } else {
            driven_by(last)
        };
        DriveReport { wrote, driven }
    }
}

/// The place before the first byte.
const START: Place = Place {
    index: 0,
    offset: 0,
};

/// How a drive ends by its last write, if some of the text is left.
fn driven_by(last: Outcome) -> Driven
    ensures { result ≡ driven_by last }
{
    match last {
        Outcome::Moved | Outcome::Interrupted => Driven::Again,
        Outcome::WouldBlock => Driven::Blocked,
        Outcome::Failed => Driven::Failed,
    }
}
