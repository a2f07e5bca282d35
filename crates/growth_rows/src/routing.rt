//! Rows of `relay_rules` and `router`.

ghost use Rattle.std.specs.Prelude.{◌≡◌, length, true, Some, IfSome};
ghost use Rattle.router.specs.Plan.{are_read_for};

use crate::marks::{
    CALLS, RowAnswer, begin, end, is_answered, is_made, print_answer, print_point, print_state,
};
use conf_text::{Dest, Ini, Settings};
use line_text::{Name, Point, Value};
use relay_base::DestId;
use relay_rules::RelayRules;
use rewrite_rules::RewriteRules;
use router::{Plan, PlanFault, Sent};
use std::alloc::Global;
use std::sync::Arc;
use worked_files::{BY_RULES, RULES, TWO_DESTINATIONS, TWO_RULES, settings_of};

pub(crate) const NAMES: &[&str] = &[
    "RelayRules::read",
    "RelayRules::route",
    "Plan::new",
    "Plan::send",
];

/// Rows that are refused no growth.
pub(crate) const WORKED: &[&str] = &["a plan without rules", "routes that a plan holds"];

pub(crate) fn run(rt: &HostRuntime, alloc: Global, name: &str) -> Option<()> {
    match name {
        "RelayRules::read" => read(rt, alloc),
        "RelayRules::route" => route(rt, alloc),
        "Plan::new" => new_plan(rt, alloc),
        "Plan::send" => send(rt, alloc),
        "a plan without rules" => new_plan_without_rules(rt, alloc),
        "routes that a plan holds" => hold_routes(rt, alloc),
        _ => None,
    }
}

/// Rewrite rules: a group, and a name of which nothing is left.
pub(crate) const REWRITE: &str = "[pre]\n^collectd\\.([a-z0-9]+)\\. = \\1.system.\n^x$ =\n";

/// Names with a route by these rules.
static NAMES_ROUTED: [&str; 3] = ["a.cpu", "a.mem", "b.mem"];

fn read(rt: &HostRuntime, alloc: Global) -> Option<()> {
    let settings = settings_of(alloc, BY_RULES)?;
    let read = read_for(rt, alloc, settings.destinations());
    drop(settings);
    read
}

fn read_for(rt: &HostRuntime, alloc: Global, dests: &[Dest]) -> Option<()> {
    let ini = Ini::read(alloc, RULES).ok()?;
    for _ in 0..CALLS {
        begin(rt);
        let answer = RelayRules::read(alloc, &ini, dests);
        end(rt);
        if is_made(rt, answer) {
            return Some(());
        }
    }
    None
}

/// Prints the route of a name by rules.
impl RowAnswer for RelayRules {
    fn print(&mut self, rt: &HostRuntime) {
        let _ = rt.println("answer rules");
        if let Ok(name) = Name::read(rt.alloc(), b"a.cpu") {
            print_state(rt, &self.route(&name));
        }
    }
}

fn rules_of(alloc: Global, text: &str, dests: &[Dest]) -> Option<RelayRules>
    ensures { IfSome result (λ rules. are_read_for (length dests.now) (Some rules) ≡ true) }
{
    let ini = Ini::read(alloc, text).ok()?;
    RelayRules::read(alloc, &ini, dests).ok()
}

fn route(rt: &HostRuntime, alloc: Global) -> Option<()> {
    let settings = settings_of(alloc, BY_RULES)?;
    let rules = rules_of(alloc, RULES, settings.destinations());
    drop(settings);
    let mut rules = rules?;
    let routed = route_all(rt, alloc, &mut rules);
    drop(rules);
    routed
}

fn route_all(rt: &HostRuntime, alloc: Global, rules: &mut RelayRules) -> Option<()> {
    for name in &NAMES_ROUTED {
        route_by(rt, rules, &Name::read(alloc, name.as_bytes()).ok()?)?;
    }
    Some(())
}

fn route_by(rt: &HostRuntime, rules: &mut RelayRules, name: &Name) -> Option<()> {
    for _ in 0..CALLS {
        print_state(rt, &name.text());
        begin(rt);
        let answer = rules.route(name);
        end(rt);
        if is_answered(rt, answer) {
            return Some(());
        }
    }
    None
}

// The call takes the rules, so it is made again with new ones.
fn new_plan(rt: &HostRuntime, alloc: Global) -> Option<()> {
    let settings = settings_of(alloc, BY_RULES)?;
    let made = make_plan_twice(rt, alloc, &settings);
    drop(settings);
    made
}

fn make_plan_twice(rt: &HostRuntime, alloc: Global, settings: &Settings) -> Option<()> {
    if is_plan_made(rt, alloc, settings)? || is_plan_made(rt, alloc, settings)? {
        Some(())
    } else {
        None
    }
}

/// Makes a plan of new rules. Returns whether it was not refused.
fn is_plan_made(rt: &HostRuntime, alloc: Global, settings: &Settings) -> Option<bool> {
    let rewrite = rewrite_of(alloc)?;
    let Some(rules) = rules_of(alloc, RULES, settings.destinations()) else {
        drop(rewrite);
        return None;
    };
    begin(rt);
    let answer = Plan::new(alloc, settings, rewrite, Some(rules));
    end(rt);
    Some(is_made(rt, answer))
}

impl RowAnswer for Plan {
    fn print(&mut self, rt: &HostRuntime) {
        print_answer(rt, &self.destinations());
    }
}

fn new_plan_without_rules(rt: &HostRuntime, alloc: Global) -> Option<()> {
    let settings = settings_of(alloc, BY_RULES)?;
    let rewrite = rewrite_of(alloc)?;
    let answer: Result<Plan, PlanFault> = Plan::new(alloc, &settings, rewrite, None);
    is_made(rt, answer);
    drop(settings);
    Some(())
}

fn rewrite_of(alloc: Global) -> Option<RewriteRules> {
    RewriteRules::read(alloc, REWRITE).ok()
}

/// A plan with rewrite rules, for this configuration and these relay rules.
fn plan_of(alloc: Global, config: &str, rules: &str) -> Option<Plan> {
    let settings = settings_of(alloc, config)?;
    let plan = plan_by(alloc, &settings, rules);
    drop(settings);
    plan
}

fn plan_by(alloc: Global, settings: &Settings, rules: &str) -> Option<Plan> {
    let rewrite = rewrite_of(alloc)?;
    let Some(rules) = rules_of(alloc, rules, settings.destinations()) else {
        drop(rewrite);
        return None;
    };
    Plan::new(alloc, settings, rewrite, Some(rules)).ok()
}

/// A plan with two destinations: names that begin with `a.` go to the first, all others to the second; `x` is dropped.
pub(crate) fn two_plan(alloc: Global) -> Option<Plan> {
    plan_of(alloc, TWO_DESTINATIONS, TWO_RULES)
}

fn point_of(alloc: Global, name: &str) -> Option<Point> {
    let name = Name::read(alloc, name.as_bytes()).ok()?;
    let name = Arc::new(alloc, name).ok()?;
    Point::new(name, Value::of_whole(42), 1_700_000_000)
}

/// Names with a route, one that is rewritten, and one that is dropped.
static NAMES_SENT: [&str; 5] = ["a.cpu", "a.mem", "b.mem", "collectd.web1.cpu", "x"];

// What the plan remembers of the name needs memory too: without it the answer is the same.
fn send(rt: &HostRuntime, alloc: Global) -> Option<()> {
    let mut plan = plan_of(alloc, BY_RULES, RULES)?;
    let sent = send_all(rt, alloc, &mut plan);
    drop(plan);
    sent
}

fn send_all(rt: &HostRuntime, alloc: Global, plan: &mut Plan) -> Option<()> {
    for name in &NAMES_SENT {
        send_by(rt, plan, &point_of(alloc, name)?)?;
    }
    Some(())
}

fn send_by(rt: &HostRuntime, plan: &mut Plan, point: &Point) -> Option<()> {
    for _ in 0..CALLS {
        print_point(rt, "state", point);
        begin(rt);
        let answer = plan.send(point);
        end(rt);
        if let Ok(sent) = answer {
            print_sent(rt, &sent);
            return Some(());
        }
        print_answer(rt, &answer);
    }
    None
}

/// Prints where a datapoint goes, and its line, if it goes anywhere.
fn print_sent(rt: &HostRuntime, sent: &Sent) {
    print_answer(rt, &sent.dests);
    if let Some(point) = &sent.point {
        print_point(rt, "state", point);
    }
}

/// Numbers of names that are sent, from the first of a pair up to the second: as many names as are held, one more, and the
/// first again.
static NUMBERS: [[usize; 2]; 3] = [[0, 4_096], [4_096, 4_097], [0, 1]];

/// Sends datapoints of the names `a.0`, `a.1` and so on. Prints how many of them went to the first destination alone, and how
/// many routes are held. Then, with a plan of its own, how many are held as a name is sent twice that is dropped.
fn hold_routes(rt: &HostRuntime, alloc: Global) -> Option<()> {
    let mut plan = two_plan(alloc)?;
    let held = hold_numbered(rt, alloc, &mut plan);
    drop(plan);
    held?;
    let mut plan = two_plan(alloc)?;
    let held = hold_dropped(rt, alloc, &mut plan);
    drop(plan);
    held
}

fn hold_numbered(rt: &HostRuntime, alloc: Global, plan: &mut Plan) -> Option<()> {
    for [from, to] in &NUMBERS {
        let count = send_numbered(alloc, plan, *from, *to)?;
        let _ = println!(rt; "answer {count} {}", plan.held());
    }
    Some(())
}

fn send_numbered(alloc: Global, plan: &mut Plan, from: usize, to: usize) -> Option<usize> {
    let mut count: usize = 0;
    for number in from..to {
        if goes_to_first(alloc, plan, number)? {
            count = count.saturating_add(1);
        }
    }
    Some(count)
}

fn goes_to_first(alloc: Global, plan: &mut Plan, number: usize) -> Option<bool> {
    let name = format!(in alloc; "a.{number}").ok()?;
    let sent = plan.send(&point_of(alloc, name.as_str())?).ok()?;
    Some(sent.point.is_some() && sent.dests.as_slice() == [DestId(0)].as_slice())
}

fn hold_dropped(rt: &HostRuntime, alloc: Global, plan: &mut Plan) -> Option<()> {
    print_answer(rt, &plan.held());
    for _ in 0..2 {
        let sent = plan.send(&point_of(alloc, "x")?).ok()?;
        let _ = println!(rt; "answer {} {}", sent.point.is_some(), plan.held());
    }
    Some(())
}
