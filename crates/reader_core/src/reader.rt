//! One reader with its waiting offers.
ghost use Rattle.std.specs.Prelude.{◌≡◌, None, false, [], ◌∷◌, ◌++◌, List, IfOk, IfErr, IfSome, OnOk, OnErr, MatchOption, length};
ghost use Rattle.std.specs.Arc.{arc_value};
ghost use Rattle.line_text.specs.Connection.{arrivals};
ghost use Rattle.router.specs.Plan.{Plan as PlanValue};
ghost use Rattle.reader_core.specs.Input.{Stream, fresh_input, input_after_piece, input_after_end};
ghost use Rattle.reader_core.specs.Configuration.{Dispatch};
ghost use Rattle.reader_core.specs.Scan.{kind_of, Keeps, rest_of, gone_on, is_too_long};
ghost use Rattle.reader_core.specs.Scan as scans;
ghost use Rattle.reader_core.specs.declared.scan.Scan.TheVariants.{Datagrams};
ghost use Rattle.reader_core.specs.Taking.{PieceTaken};
ghost use Rattle.reader_core.specs.Reader.{Represents, is_closed, refusal, IsRefusal};

use crate::fault::{FeedFault, ReaderEnd};
use crate::kind::ReaderKind;
use crate::offer::WaitingOffer;
use crate::scan::Scan;
use crate::sending::send_points;
use line_text::{Moment, Point};
use reader_counts::{ReaderCounts, ReaderTotals};
use relay_base::{DestId, NoMemory};
use router::Plan;
use std::alloc::Global;
use std::collections::VecDeque;
use std::marker::Model;
use std::sync::Arc;

/// A reader of connections, one after the other, or of datagrams, with the offers that wait to be made.
///
/// In clauses it is what it keeps of the current connection, what it has counted, and the offers that
/// wait.
#[derive(Drop)]
pub struct Reader {
    alloc: Global,
    scan: Scan,
    totals: ReaderTotals,
    points: Vec<Point>,
    // Lent to the plan for the destinations of a datapoint.
    dests: Vec<DestId>,
    waiting: VecDeque<WaitingOffer>,
}

impl Model for Reader {
    ghost use Rattle.reader_core.specs.Reader.{ReaderModel};

    ghost Value = { ReaderModel };

    ghost view = { λ r. record { scan = r.scan; totals = r.totals; waiting = r.waiting.items } };
}

impl Reader {
    /// A reader of this kind, with no input yet.
    pub fn new(alloc: Global, kind: ReaderKind) -> Reader
        ensures represents { (plan : PlanValue) → Represents result kind plan (fresh_input kind) [] }
        ensures open { is_closed result ≡ false }
        ensures waiting { result.waiting ≡ [] }
    {
        Reader {
            alloc,
            scan: Scan::new(alloc, kind),
            totals: ReaderTotals::zero(),
            points: Vec::new(alloc),
            dests: Vec::new(alloc),
            waiting: VecDeque::new(alloc),
        }
    }

    /// Reads the next piece of the connection, or a datagram, received at a moment. Each datapoint goes
    /// through the plan; what it becomes waits, once for each destination, in the order of the route.
    ///
    /// Returns `TooLong` once a line or a frame is too long; it still takes the datapoints before that.
    /// Refuses a piece with the first of these faults: the connection is closed (`Closed`), offers wait
    /// (`Waiting`), out of memory (`NoMemory`). A refusal leaves the reader unchanged; after `NoMemory`
    /// the caller may call it again with the same piece.
    pub fn feed(
        &mut self,
        plan: &mut Plan,
        piece: &[u8],
        moment: Moment,
    ) -> Result<ReaderEnd, FeedFault>
        ensures represents { IfOk result
            (λ _. (kind : ReaderKind) (input : List Stream) (taken : List Dispatch)
            → Represents self.old kind plan.old input taken
            → Represents self.new kind plan.old
            (input_after_piece kind (arrivals piece.now moment) input) taken) }
        ensures end { IfOk result (λ end. is_too_long end ≡ is_closed self.new) }
        ensures taken { OnOk result (refusal self.old ≡ None) }
        ensures refused { IfErr result (λ fault. IsRefusal self.old fault) }
        ensures err { OnErr result (self.new ≡ self.old) }
        ensures plan { plan.new ≡ plan.old }
    {
        if self.scan.is_closed() {
            return Err(FeedFault::Closed);
        }
        if !self.waiting.is_empty() {
            return Err(FeedFault::Waiting);
        }
        match take_piece(
            self.alloc,
            &mut self.scan,
            &mut self.points,
            &mut self.dests,
            &mut self.waiting,
            plan,
            piece,
            moment,
        ) {
            Ok(taken) => {
                self.totals = self.totals.with(taken.totals);
                Ok(taken.end)
            }
            Err(_) => {
                self.waiting.clear();
                Err(FeedFault::NoMemory)
            }
        }
    }

    /// The first offer that waits: its destination and its datapoint.
    pub fn first_offer(&self) -> Option<(DestId, &Arc<Point>)>
        ensures { MatchOption result (self.now.waiting ≡ []) (λ offer.
            (others : List Dispatch) × (self.now.waiting
            ≡ record { dest = offer.0.0; point = arc_value offer.1.now } ∷ others)) }
    {
        let offer = self.waiting.front()?;
        Some((offer.dest, &offer.point))
    }

    /// Takes out the first offer that waits: its destination and its datapoint.
    pub fn next_offer(&mut self) -> Option<(DestId, Arc<Point>)>
        ensures offer { MatchOption result (self.old.waiting ≡ []) (λ offer. self.old.waiting
            ≡ record { dest = offer.0.0; point = arc_value offer.1 } ∷ self.new.waiting) }
        ensures none { result ≡ None → self.new ≡ self.old }
        ensures represents { IfSome result (λ offer.
            (kind : ReaderKind) (plan : PlanValue) (input : List Stream) (taken : List Dispatch)
            → Represents self.old kind plan input taken
            → Represents self.new kind plan input
            (taken ++ record { dest = offer.0.0; point = arc_value offer.1 } ∷ [])) }
        ensures closed { is_closed self.new ≡ is_closed self.old }
    {
        let WaitingOffer { dest, point } = self.waiting.pop_front()?;
        Some((dest, point))
    }

    /// Ends the connection, so that the next piece begins another one. The waiting offers and the counts
    /// stay. A datagram reader, which has no connection, does not change.
    pub fn end(&mut self)
        ensures represents { (kind : ReaderKind) (plan : PlanValue) (input : List Stream)
            (taken : List Dispatch)
            → Represents self.old kind plan input taken
            → Represents self.new kind plan (input_after_end kind input) taken }
        ensures open { is_closed self.new ≡ false }
        ensures waits { self.new.waiting ≡ self.old.waiting }
        ensures totals { self.new.totals ≡ self.old.totals }
        ensures datagrams { self.old.scan ≡ Datagrams → self.new ≡ self.old }
    {
        self.scan.begin(self.alloc);
    }

    /// The bytes of the current connection behind its last whole line or frame, if it is not closed; none of datagrams. Another
    /// reader of this kind that is fed these first reads on where this one is.
    pub fn rest(&self) -> &[u8]
        ensures { result.now ≡ rest_of self.now.scan }
    {
        self.scan.rest()
    }

    /// Whether nothing more of the connection is read, in which case [`Reader::feed`] returns `Closed`.
    /// A datagram reader is never closed.
    pub fn is_closed(&self) -> bool
        ensures { result ≡ is_closed self.now }
    {
        self.scan.is_closed()
    }

    /// What was wrong with everything that the reader was fed.
    pub fn counts(&self) -> ReaderCounts
        ensures { result ≡ self.now.totals.faults }
    {
        self.totals.faults
    }

    /// The number of datapoints accepted from everything that the reader was fed, at most `u64::MAX`. It
    /// includes those that rewriting dropped.
    pub fn datapoints(&self) -> u64
        ensures { result ≡ self.now.totals.datapoints }
    {
        self.totals.datapoints
    }

    /// Both together: [`Reader::datapoints`] and [`Reader::counts`].
    pub fn totals(&self) -> ReaderTotals
        ensures { result ≡ self.now.totals }
    {
        self.totals
    }

    /// How many offers wait.
    pub fn waiting(&self) -> usize
        ensures { result ≡ length self.now.waiting }
    {
        self.waiting.len()
    }
}

/// What a piece made.
#[derive(Clone, Copy)]
struct PieceOutcome {
    totals: ReaderTotals,
    end: ReaderEnd,
}

/// Takes a piece while nothing waits: finds its datapoints, sends them by the plan, and moves on. An
/// `Err` leaves what the reader keeps unchanged, and may leave some offers waiting.
fn take_piece(
    alloc: Global,
    scan: &mut Scan,
    points: &mut Vec<Point>,
    dests: &mut Vec<DestId>,
    waiting: &mut VecDeque<WaitingOffer>,
    plan: &mut Plan,
    piece: &[u8],
    moment: Moment,
) -> Result<PieceOutcome, NoMemory>
    requires { waiting.old.items ≡ [] }
    ensures taken { IfOk result (λ taken. (connection : Stream) → Keeps scan.old connection
        → PieceTaken scan.old scan.new plan.old (gone_on (kind_of scan.old) connection)
        (arrivals piece.now moment) waiting.new.items taken.totals) }
    ensures end { IfOk result (λ taken. is_too_long taken.end ≡ scans.is_closed scan.new) }
    ensures same { OnErr result (scan.new ≡ scan.old) }
    ensures plan { plan.new ≡ plan.old }
{
    points.clear();
    let found = scan.find(alloc, plan, piece, moment, points)?;
    let datapoints = points.len() as u64;
    let bad_names = send_points(plan, points, dests, waiting)?;
    let end = scan.move_on(&found)?;
    Ok(PieceOutcome {
        totals: ReaderTotals {
            datapoints,
            faults: found.counts(bad_names),
        },
        end,
    })
}
