//! What a plan remembers of names, which no clause says: by the number of owners of a name, and by which it shares with lines.

use crate::tests::points::shared_name;
use line_text::{Name, Point, SharedNames, Value};
use router::Plan;
use std::alloc::Global;
use std::sync::Arc;
use worked_files::{ONE_DESTINATION, REWRITE, ring_plan};

// A plan that rewrites. Its owner lends it to what tries it, and then drops it: one call.
fn plan_of(alloc: Global) -> Option<Plan> {
    ring_plan(alloc, ONE_DESTINATION, REWRITE)
}

// What a plan sends of a datapoint of this name: nothing if rewriting drops it.
fn sent_of(alloc: Global, plan: &mut Plan, name: Arc<Name>) -> Option<Option<Arc<Point>>> {
    let mut dests = Vec::new(alloc);
    let point = Point {
        name,
        value: Value::of_whole(42),
        time: 1_700_000_000,
    };
    plan.send_into(point, &mut dests).ok()
}

// Sends a datapoint of this name, which rewriting does not drop.
fn send(alloc: Global, plan: &mut Plan, text: &str) -> Option<()> {
    let sent = sent_of(alloc, plan, shared_name(alloc, text)?)?;
    let is_sent = sent.is_some();
    drop(sent);
    is_sent.then_some(())
}

// ---- what owns a name

// The numbers of owners of a name that a plan received, and of the one that it sent in its place, once it was sent twice:
// this function, the plan's two tables, which share the route of a name that is rewritten, and what was sent.
fn owners_in(alloc: Global, plan: &mut Plan, text: &str) -> Option<[usize; 2]> {
    let name = shared_name(alloc, text)?;
    let first = sent_of(alloc, plan, Arc::try_clone(&name).ok()?)??;
    let _second = sent_of(alloc, plan, shared_name(alloc, text)?)??;
    Some([Arc::strong_count(&name), Arc::strong_count(&first.name)])
}

fn owners_of(alloc: Global, name: &str) -> Option<[usize; 2]> {
    let mut plan = plan_of(alloc)?;
    let owners = owners_in(alloc, &mut plan, name);
    drop(plan);
    owners
}

// Both datapoints have the name that was received first, or the one that it was rewritten to.
#[test]
fn a_name_that_is_received_again_is_shared(rt: HostRuntime) {
    assert!(rt; owners_of(rt.alloc(), "d.mem") == Some([5, 5]));
    assert!(rt; owners_of(rt.alloc(), "collectd.web1.cpu") == Some([3, 3]));
}

// Those of a name of some length, in bytes. The large table holds names of at most 4,096.
fn owners_of_length(alloc: Global, length: usize) -> Option<[usize; 2]> {
    let mut name = String::new(alloc);
    for _ in 0..length {
        name.push('d').ok()?;
    }
    owners_of(alloc, name.as_str())
}

#[test]
fn a_long_name_is_held_only_as_a_recent_one(rt: HostRuntime) {
    assert!(rt; owners_of_length(rt.alloc(), 4_096) == Some([5, 5]));
    assert!(rt; owners_of_length(rt.alloc(), 4_097) == Some([4, 4]));
}

// ---- which names are shared with lines

// Whether a plan that sent two datapoints of the name `d.mem` shares the name that a text is. It prefetched the names of
// `ahead`, and some other names were looked up before.
fn shares_in(
    alloc: Global,
    plan: &mut Plan,
    ahead: &str,
    others: usize,
    text: &str,
) -> Option<bool> {
    for _ in 0..2 {
        send(alloc, plan, "d.mem")?;
    }
    plan.prefetch(ahead.as_bytes());
    for _ in 0..others {
        if plan.shared(b"d.disk").is_some() {
            return None;
        }
    }
    Some(plan.shared(text.as_bytes()).is_some())
}

fn shares(alloc: Global, ahead: &str, others: usize, text: &str) -> Option<bool> {
    let mut plan = plan_of(alloc)?;
    let shares = shares_in(alloc, &mut plan, ahead, others, text);
    drop(plan);
    shares
}

#[test]
fn a_remembered_name_is_shared_with_lines(rt: HostRuntime) {
    let ahead = "d.mem 1 2\nd.disk 1 2\n \n\nd.mem";
    for others in 0..6 {
        assert!(rt; shares(rt.alloc(), ahead, others, "d.mem") == Some(true));
        assert!(rt; shares(rt.alloc(), ahead, others, "d.me") == Some(false));
        assert!(rt; shares(rt.alloc(), ahead, others, "d.disk") == Some(false));
    }
    assert!(rt; shares(rt.alloc(), "", 0, "") == Some(false));
}

// Sends datapoints of this number of names: `a.0`, `a.1` and so on.
fn send_others(alloc: Global, plan: &mut Plan, count: usize) -> Option<()> {
    for number in 0..count {
        let text = format!(in alloc; "a.{number}").ok()?;
        send(alloc, plan, text.as_str())?;
    }
    Some(())
}

// Whether a plan shares a name after each of two datapoints of it, with this many other names between them.
fn shares_after_each(alloc: Global, plan: &mut Plan, others: usize) -> Option<[bool; 2]> {
    send(alloc, plan, "d.mem")?;
    let once = plan.shared(b"d.mem").is_some();
    send_others(alloc, plan, others)?;
    send(alloc, plan, "d.mem")?;
    Some([once, plan.shared(b"d.mem").is_some()])
}

fn shares_when_it_comes_again(alloc: Global, others: usize) -> Option<[bool; 2]> {
    let mut plan = plan_of(alloc)?;
    let shares = shares_after_each(alloc, &mut plan, others);
    drop(plan);
    shares
}

// The large table holds no name that came once. With 5,000 others between, the name is no recent one any more.
#[test]
fn a_name_is_remembered_for_long_when_it_comes_again(rt: HostRuntime) {
    assert!(rt; shares_when_it_comes_again(rt.alloc(), 0) == Some([false, true]));
    assert!(rt; shares_when_it_comes_again(rt.alloc(), 5_000) == Some([false, true]));
}
