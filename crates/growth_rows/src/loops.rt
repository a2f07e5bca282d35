//! Rows of `mio_loops`.

ghost use Rattle.std.specs.Prelude.{◌≤◌, length, IfSome};

use crate::marks::{
    CALLS, RowAnswer, begin, end, is_answered, is_made, print_answer, print_state, print_text,
};
use crate::queues::point_of;
use crate::readers::plan;
use dest_queue::DestQueue;
use line_text::Moment;
use locked_queues::{Door, ListDoor, ListSupply, Supply};
use mio_loops::{
    AttachFault, InputLog, MOST_CONNECTIONS, ReadLoop, Readiness, Served, Token, TurnReport,
    WriteLoop,
};
use reader_core::ReaderKind;
use relay_base::DestId;
use router::Plan;
use std::alloc::Global;
use test_doubles::{FaultyReader, FaultyStep, FaultyWriter};

pub(crate) const NAMES: &[&str] = &[
    "InputLog::new",
    "ReadLoop::new",
    "ReadLoop::admit",
    "ReadLoop::serve_one",
    "ReadLoop::turn",
    "WriteLoop::new",
    "WriteLoop::turn",
    "Readiness::new",
    "Readiness::wait",
];

/// Rows that are refused no growth.
pub(crate) const WORKED: &[&str] = &["connections that are not attached"];

pub(crate) fn run(rt: &HostRuntime, alloc: Global, name: &str) -> Option<()> {
    match name {
        "InputLog::new" => new_log(rt, alloc),
        "ReadLoop::new" => new_read_loop(rt, alloc),
        "ReadLoop::admit" => admit(rt, alloc),
        "ReadLoop::serve_one" => serve_one(rt, alloc),
        "ReadLoop::turn" => read_turn(rt, alloc),
        "WriteLoop::new" => new_write_loop(rt, alloc),
        "WriteLoop::turn" => write_turn(rt, alloc),
        "Readiness::new" => new_readiness(rt, alloc),
        "Readiness::wait" => wait(rt, alloc),
        "connections that are not attached" => attach_in_vain(rt, alloc),
        _ => None,
    }
}

fn new_log(rt: &HostRuntime, alloc: Global) -> Option<()> {
    for _ in 0..CALLS {
        begin(rt);
        let answer = InputLog::new(alloc);
        end(rt);
        if is_answered(rt, answer) {
            return Some(());
        }
    }
    None
}

fn new_read_loop(rt: &HostRuntime, alloc: Global) -> Option<()> {
    for _ in 0..CALLS {
        begin(rt);
        let answer = ReadLoop::<FaultyReader<'static>>::new(alloc, ReaderKind::Line, 0);
        end(rt);
        if is_made(rt, answer) {
            return Some(());
        }
    }
    None
}

impl RowAnswer for ReadLoop<FaultyReader<'static>> {
    fn print(&mut self, rt: &HostRuntime) {
        print_answer(rt, &self.next_token());
    }
}

/// A connection that gives seventeen pieces of a line each, and then would block.
fn busy_connection() -> FaultyReader<'static> {
    FaultyReader::new(LINES, &STEPS)
}

const LINES: &[u8] =
    b"a 1 2\na 1 2\na 1 2\na 1 2\na 1 2\na 1 2\na 1 2\na 1 2\na 1 2\na 1 2\na 1 2\na 1 2\na 1 2\n\
a 1 2\na 1 2\na 1 2\na 1 2\n";

static STEPS: [FaultyStep; 18] = [
    FaultyStep::Pass(6),
    FaultyStep::Pass(6),
    FaultyStep::Pass(6),
    FaultyStep::Pass(6),
    FaultyStep::Pass(6),
    FaultyStep::Pass(6),
    FaultyStep::Pass(6),
    FaultyStep::Pass(6),
    FaultyStep::Pass(6),
    FaultyStep::Pass(6),
    FaultyStep::Pass(6),
    FaultyStep::Pass(6),
    FaultyStep::Pass(6),
    FaultyStep::Pass(6),
    FaultyStep::Pass(6),
    FaultyStep::Pass(6),
    FaultyStep::Pass(6),
    FaultyStep::Block,
];

/// A connection that gives a line and ends.
fn connection() -> FaultyReader<'static> {
    FaultyReader::new(b"c 1 2\n", &[])
}

// The call needs no memory.
fn admit(rt: &HostRuntime, alloc: Global) -> Option<()> {
    let mut reads = ReadLoop::new(alloc, ReaderKind::Line, 0).ok()?;
    admit_to(rt, &mut reads);
    for _ in 2..MOST_CONNECTIONS {
        let _ = reads.admit(connection());
    }
    admit_to(rt, &mut reads);
    print_state(rt, &reads.next_token());
    admit_to(rt, &mut reads);
    drop(reads);
    Some(())
}

/// Admits a connection. Prints its token; or why it is not admitted, and what the connection that came back still gives.
fn admit_to(rt: &HostRuntime, reads: &mut ReadLoop<FaultyReader<'static>>) {
    begin(rt);
    let answer = reads.admit(connection());
    end(rt);
    match answer {
        Ok(token) => print_answer(rt, &token),
        Err((source, fault)) => {
            print_answer(rt, &fault);
            print_text(rt, "state", source.left());
        }
    }
}

/// A plan with one destination, and a door to its queue.
pub(crate) fn plan_and_door(alloc: Global) -> Option<(Plan, ListDoor)>
    ensures { IfSome result (λ both. both.0.destinations ≤ length both.1.made.totals) }
{
    let plan = plan(alloc)?;
    let Ok(door) = ListDoor::new(alloc, 1, 100, 0) else {
        drop(plan);
        return None;
    };
    if door.dests() < plan.destinations() {
        drop((plan, door));
        return None;
    }
    Some((plan, door))
}

/// What a turn of a read loop needs.
#[derive(Drop)]
struct Reading {
    plan: Plan,
    door: ListDoor,
    reads: ReadLoop<FaultyReader<'static>>,
    moment: Moment,
}

impl Reading {
    fn new(alloc: Global) -> Option<Reading> {
        let moment = Moment::new(0)?;
        let reads = ReadLoop::new(alloc, ReaderKind::Line, 0).ok()?;
        let Some((plan, door)) = plan_and_door(alloc) else {
            drop(reads);
            return None;
        };
        Some(Reading {
            plan,
            door,
            reads,
            moment,
        })
    }

    /// Prints how many offers the door has made since it had made some, and whether the connection is served again without
    /// readiness.
    fn print_since(&self, rt: &HostRuntime, before: usize) {
        let count = self.door.made().len().saturating_sub(before);
        let _ = println!(rt; "state {count} {}", self.reads.has_again());
    }

    /// Serves a new connection. Prints what that offered, unless it found no memory, and returns the connection's token
    /// then.
    fn serves_one(&mut self, rt: &HostRuntime) -> Option<Token> {
        let token = self.reads.admit(busy_connection()).ok()?;
        let before = self.door.made().len();
        begin(rt);
        let answer = self.serve(token)?;
        end(rt);
        print_answer(rt, &answer);
        if answer == Served::Starved {
            return None;
        }
        self.print_since(rt, before);
        Some(token)
    }

    /// Serves a connection that is held.
    fn serve(&mut self, token: Token) -> Option<Served> {
        if !self.reads.holds(token) || self.door.dests() < self.plan.destinations() {
            return None;
        }
        Some(
            self.reads
                .serve_one(token, &mut self.plan, &mut self.door, self.moment),
        )
    }

    // A connection that found no memory leaves, so the call is made again with a new one. The one that did not is served
    // once more.
    fn serve_twice(&mut self, rt: &HostRuntime) -> Option<()> {
        let token = match self.serves_one(rt) {
            Some(token) => token,
            None => self.serves_one(rt)?,
        };
        let before = self.door.made().len();
        let answer = self.serve(token)?;
        print_answer(rt, &answer);
        self.print_since(rt, before);
        Some(())
    }

    /// Makes a turn with a new connection. Prints what that offered, unless it found no memory. Returns whether it did
    /// not.
    fn turns_once(&mut self, rt: &HostRuntime) -> Option<bool> {
        let token = self.reads.admit(busy_connection()).ok()?;
        let before = self.door.made().len();
        begin(rt);
        let answer = self.turn(&[token])?;
        end(rt);
        print_answer(rt, &answer);
        if answer.starved > 0 {
            return Some(false);
        }
        self.print_since(rt, before);
        Some(true)
    }

    /// Makes a turn.
    fn turn(&mut self, ready: &[Token]) -> Option<TurnReport> {
        if self.door.dests() < self.plan.destinations() {
            return None;
        }
        Some(
            self.reads
                .turn(ready, &mut self.plan, &mut self.door, self.moment),
        )
    }

    // A connection that found no memory leaves, so the call is made again with a new one. Then come two turns in which no
    // connection is ready.
    fn turn_thrice(&mut self, rt: &HostRuntime) -> Option<()> {
        if !self.turns_once(rt)? && !self.turns_once(rt)? {
            return None;
        }
        for _ in 0..2 {
            let before = self.door.made().len();
            let answer = self.turn(&[])?;
            print_answer(rt, &answer);
            self.print_since(rt, before);
        }
        Some(())
    }
}

fn serve_one(rt: &HostRuntime, alloc: Global) -> Option<()> {
    let mut reading = Reading::new(alloc)?;
    let served = reading.serve_twice(rt);
    drop(reading);
    served
}

fn read_turn(rt: &HostRuntime, alloc: Global) -> Option<()> {
    let mut reading = Reading::new(alloc)?;
    let turned = reading.turn_thrice(rt);
    drop(reading);
    turned
}

fn new_write_loop(rt: &HostRuntime, alloc: Global) -> Option<()> {
    for _ in 0..CALLS {
        begin(rt);
        let answer = WriteLoop::<FaultyWriter<'static>>::new(alloc, 1, 2);
        end(rt);
        if is_made(rt, answer) {
            return Some(());
        }
    }
    None
}

impl RowAnswer for WriteLoop<FaultyWriter<'static>> {
    fn print(&mut self, rt: &HostRuntime) {
        print_answer(rt, &self.dests());
    }
}

/// A queue with the datapoints of these lines.
fn queue(alloc: Global, lines: &[&[u8]]) -> Option<DestQueue> {
    let mut queue = DestQueue::new(alloc, 10, 1).ok()?;
    for (number, line) in lines.iter().enumerate() {
        if !is_queued(alloc, &mut queue, number, line) {
            drop(queue);
            return None;
        }
    }
    Some(queue)
}

fn is_queued(alloc: Global, queue: &mut DestQueue, number: usize, line: &[u8]) -> bool {
    match point_of(alloc, line) {
        Some(point) => queue.offer(0, number as u64, &point).is_ok(),
        None => false,
    }
}

/// A supply for one destination, with the datapoints of these lines.
pub(crate) fn supply(alloc: Global, lines: &[&[u8]]) -> Option<ListSupply> {
    let mut queues = Vec::new(alloc);
    queues.push(queue(alloc, lines)?).ok()?;
    if queues.len() != 1 {
        return None;
    }
    ListSupply::new(alloc, queues).ok()
}

/// What a connection does: it takes three bytes, then would block, and then takes all.
static SINK_STEPS: [FaultyStep; 2] = [FaultyStep::Pass(3), FaultyStep::Block];

/// A connection with room for a line.
fn sink(alloc: Global) -> Option<FaultyWriter<'static>> {
    let room = Vec::with_capacity(alloc, 100).ok()?;
    Some(FaultyWriter::new(room, &SINK_STEPS))
}

const DEST: DestId = DestId(0);

/// A loop with a connection to its one destination.
fn connected(alloc: Global) -> Option<WriteLoop<FaultyWriter<'static>>> {
    let sink = sink(alloc)?;
    let mut writes = WriteLoop::new(alloc, 1, 2).ok()?;
    if writes.attach(DEST, sink).ok().is_none() {
        drop(writes);
        return None;
    }
    Some(writes)
}

// The call needs no memory.
fn write_turn(rt: &HostRuntime, alloc: Global) -> Option<()> {
    let mut writes = connected(alloc)?;
    let written = write_supply(rt, alloc, &mut writes);
    drop(writes);
    written
}

/// Makes turns with a supply of its own: the destination is ready, it is not, and it is again.
fn write_supply(
    rt: &HostRuntime,
    alloc: Global,
    writes: &mut WriteLoop<FaultyWriter<'static>>,
) -> Option<()> {
    let mut supply = supply(alloc, &[b"a 1 2"])?;
    for ready in &[READY, UNREADY, READY] {
        turn(rt, writes, &mut supply, ready)?;
    }
    drop(supply);
    Some(())
}

static READY: &[DestId] = &[DEST];

static UNREADY: &[DestId] = &[];

/// A turn of a loop of one destination, which the supply owns. Prints what it did, and the destination's log.
fn turn(
    rt: &HostRuntime,
    writes: &mut WriteLoop<FaultyWriter<'static>>,
    supply: &mut ListSupply,
    ready: &[DestId],
) -> Option<()> {
    if writes.dests() != 1 || !supply.owns(DEST) {
        return None;
    }
    begin(rt);
    let answer = writes.turn(ready, supply);
    end(rt);
    print_answer(rt, &answer);
    print_state(rt, &writes.log(DEST));
    Some(())
}

/// Why a connection is not attached to a destination that is connected, and to one that is not there.
fn attach_in_vain(rt: &HostRuntime, alloc: Global) -> Option<()> {
    let mut writes = connected(alloc)?;
    let answers = attach_twice(alloc, &mut writes);
    print_answer(rt, &answers);
    drop(writes);
    Some(())
}

fn attach_twice(
    alloc: Global,
    writes: &mut WriteLoop<FaultyWriter<'static>>,
) -> Option<[AttachFault; 2]> {
    let (_, first) = writes.attach(DEST, sink(alloc)?).err()?;
    let (_, second) = writes.attach(DestId(1), sink(alloc)?).err()?;
    Some([first, second])
}

fn new_readiness(rt: &HostRuntime, alloc: Global) -> Option<()> {
    for _ in 0..CALLS {
        begin(rt);
        let answer = Readiness::new(rt, alloc, 4);
        end(rt);
        if is_made(rt, answer) {
            return Some(());
        }
    }
    None
}

impl RowAnswer for Readiness {
    fn print(&mut self, rt: &HostRuntime) {
        print_answer(rt, &self.closed());
    }
}

// The call needs no memory, so it is made once.
fn wait(rt: &HostRuntime, alloc: Global) -> Option<()> {
    let mut readiness = Readiness::new(rt, alloc, 4).ok()?;
    begin(rt);
    let answer = readiness.wait(0);
    end(rt);
    print_answer(rt, &answer);
    drop(readiness);
    Some(())
}
