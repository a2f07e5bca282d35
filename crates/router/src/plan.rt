//! The plan of a configuration.

ghost use Rattle.std.specs.Prelude.{◌≡◌, ◌≤◌, List, length, true, IfOk, OnOk, option_map};
ghost use Rattle.std.specs.Arc.{arc_value};
ghost use Rattle.std.specs.List.{All};
ghost use Rattle.relay_base.specs.Memory.{Gives};
ghost use Rattle.relay_base.specs.DestIds.{are_below};
ghost use Rattle.rewrite_rules.specs.Rule.{RewriteRule};
ghost use Rattle.router.specs.Plan.{IsSentBy, sent_by, plan_of, are_read_for, Routing as RoutingValue};
ghost use Rattle.router.specs.Route.{IsRouteOf, IsSameRoute};

use crate::fault::PlanFault;
use crate::laws;
use crate::recent_routes::{MOST_HELD, RecentRoutes, RouteKey};
use crate::route::{Route, SentName};
use crate::routing::Routing;
use crate::sent::Sent;
use conf_text::Settings;
use line_text::{Name, Point, SharedNames};
use name_table::{Entry, LONGEST_KEPT, NameTable};
use relay_base::{DestId, NoMemory};
use relay_rules::RelayRules;
use rewrite_rules::RewriteRules;
use std::alloc::Global;
use std::marker::Model;
use std::sync::Arc;

/// The rewrite rules of a configuration with its relay rules or its ring.
///
/// In clauses it is these, and how many destinations there are.
#[derive(Drop)]
pub struct Plan {
    alloc: Global,
    rewrite: RewriteRules,
    routing: Routing,
    destinations: usize,
    /// The large table, in which a name is looked for first.
    names: NameTable<Route>,
    /// Behind it the routes of the most recent names, also of those for which the large table has no slot.
    recent: RecentRoutes,
    /// How many datapoints were dropped because rewriting emptied their names.
    emptied: u64,
}

impl Model for Plan {
    ghost use Rattle.std.specs.Prelude.{◌≡◌, true};
    ghost use Rattle.std.specs.List.{All};
    ghost use Rattle.router.specs.Plan.{Plan as PlanValue, stays_below};
    ghost use Rattle.router.specs.Route.{IsRouteOf};
    ghost use Rattle.router.specs.Seen.{routing_seen};

    ghost Value = { PlanValue };

    ghost view = { λ p. record {
      rewrite = p.rewrite;
      routing = routing_seen p.routing;
      destinations = p.destinations;
    } };

    ghost invariant = { λ p. (stays_below p.destinations (routing_seen p.routing) ≡ true)
        × All (IsRouteOf p.rewrite (routing_seen p.routing)) p.names
        × All (IsRouteOf p.rewrite (routing_seen p.routing)) p.recent };
}

impl Plan {
    /// The plan of settings, for rewrite rules and relay rules. The relay rules must have been read with the
    /// destinations of the settings.
    ///
    /// With the method `rules` there must be relay rules (`NoRules`). With `consistent-hashing` the ring of the
    /// destinations is made, whose replicas are diverse if the settings say so, and relay rules are dropped unused.
    /// Out of memory is `NoMemory`. A refusal drops the rules (`docs/ROUTING.md`).
    #[tactic(auto, unfolding(crate::specs::Plan::plan_of))]
    pub fn new(
        alloc: Global,
        settings: &Settings,
        rewrite: RewriteRules,
        rules: Option<RelayRules>,
    ) -> Result<Plan, PlanFault>
        requires { are_read_for (length settings.now.routing.destinations) rules ≡ true }
        ensures plan { Gives PlanFault.NoMemory (λ plan. plan) result
            (plan_of settings.now rewrite rules) }
        ensures destinations { IfOk result (λ plan.
            plan.destinations ≡ length settings.now.routing.destinations) }
    {
        let routing = Routing::new(alloc, settings, rules)?;
        let Ok(recent) = RecentRoutes::new(alloc) else {
            return Err(PlanFault::NoMemory);
        };
        Ok(Plan {
            alloc,
            rewrite,
            routing,
            destinations: settings.destinations().len(),
            names: NameTable::new(alloc),
            recent,
            emptied: 0,
        })
    }

    /// How many destinations there are; a route names only these.
    pub fn destinations(&self) -> usize
        ensures { result ≡ self.now.destinations }
    {
        self.destinations
    }

    /// What the plan sends for a datapoint: the datapoint under its rewritten name, with the destinations of that
    /// name, each once, in the order of the route; or neither, if rewriting leaves no metric name.
    ///
    /// If no rewrite rule matches, the name is shared and not copied. `NoMemory` leaves the plan unchanged, and the
    /// caller may call it again.
    pub fn send(&mut self, point: &Point) -> Result<Sent, NoMemory>
        ensures sent { IfOk result (λ sent. sent ≡ sent_by self.old point.now) }
        ensures below { IfOk result (λ sent. are_below self.old.destinations sent.dests ≡ true) }
        ensures same { self.new ≡ self.old }
    {
        let mut dests = Vec::new(self.alloc);
        let shared = Point {
            name: Arc::try_clone(&point.name)?,
            value: point.value,
            time: point.time,
        };
        let point = self.send_into(shared, &mut dests)?;
        Ok(Sent { point, dests })
    }

    /// Like [`Plan::send`], for a caller that sends many datapoints: it lends the room for the destinations, which
    /// replace what `dests` had.
    ///
    /// The plan remembers what becomes of a name once it comes again, so it computes that twice for many datapoints, which
    /// then share one name in memory. `NoMemory` leaves the plan unchanged, and some of the datapoint's destinations in `dests`.
    pub fn send_into(
        &mut self,
        point: Point,
        dests: &mut Vec<DestId>,
    ) -> Result<Option<Arc<Point>>, NoMemory>
        ensures sent { IfOk result (λ sent.
            record { point = option_map (λ p. arc_value p) sent; dests = dests.new.items }
            ≡ sent_by self.old point) }
        ensures below { OnOk result (are_below self.old.destinations dests.new.items ≡ true) }
        ensures same { self.new ≡ self.old }
    {
        if self.is_first(&point.name) {
            return self.send_first(point, dests);
        }
        // No effect at run time: the proof reads the law.
        laws::route_stays_below();
        match self.names.find_again(point.name.text().as_bytes()) {
            Some(entry) => {
                let emptied = &mut self.emptied;
                entry
                    .value
                    .send(self.alloc, &entry.name, point, dests, emptied)
            }
            None => self.send_other(point, dests),
        }
    }

    /// Whether a name comes for the first time, as far as the plan can tell: the large table did not hold it as its line
    /// was read, or else that name would be shared, and it did not meet it lately.
    fn is_first(&mut self, name: &Arc<Name>) -> bool
        ensures { self.new ≡ self.old }
    {
        Arc::strong_count(name) == 1 && !self.names.is_repeated(name.text().as_bytes())
    }

    /// Sends a datapoint of a name that comes for the first time. Nothing is remembered of it but that it came, since it
    /// may never come again.
    #[inline(never)]
    fn send_first(
        &mut self,
        point: Point,
        dests: &mut Vec<DestId>,
    ) -> Result<Option<Arc<Point>>, NoMemory>
        ensures sent { IfOk result (λ sent.
            IsSentBy self.old point (option_map (λ p. arc_value p) sent) dests.new.items) }
        ensures same { self.new ≡ self.old }
    {
        // No effect at run time: the proof reads the law.
        laws::route_stays_below();
        self.names.pass_again();
        let sent = SentName::of(self.alloc, &mut self.rewrite, &point.name)?;
        sent.find_dests(&mut self.routing, &point.name, dests)?;
        sent.send(self.alloc, point, &mut self.emptied)
    }

    /// Sends a datapoint of a name that the large table does not hold: by its recent route, or else by one that it
    /// computes now.
    #[inline(never)]
    fn send_other(
        &mut self,
        point: Point,
        dests: &mut Vec<DestId>,
    ) -> Result<Option<Arc<Point>>, NoMemory>
        ensures sent { IfOk result (λ sent.
            IsSentBy self.old point (option_map (λ p. arc_value p) sent) dests.new.items) }
        ensures same { self.new ≡ self.old }
    {
        // No effect at run time: the proof reads the law.
        laws::route_stays_below();
        let key = RouteKey {
            name: Arc::try_clone(&point.name)?,
        };
        if self.recent.promote(&key) {
            drop(key);
            return match self.recent.newest() {
                Some((key, route)) => {
                    keep_share(&mut self.names, key, route);
                    route.send(self.alloc, &key.name, point, dests, &mut self.emptied)
                }
                None => unreachable!(),
            };
        }
        self.send_new(key, point, dests)
    }

    /// Sends a datapoint of a name by a route that it computes now, which the plan then remembers.
    fn send_new(
        &mut self,
        key: RouteKey,
        point: Point,
        dests: &mut Vec<DestId>,
    ) -> Result<Option<Arc<Point>>, NoMemory>
        requires { point.name ≡ key }
        ensures sent { IfOk result (λ sent.
            IsSentBy self.old point (option_map (λ p. arc_value p) sent) dests.new.items) }
        ensures same { self.new ≡ self.old }
    {
        // No effect at run time: the proof reads the law.
        laws::route_stays_below();
        let route = Route::of(self.alloc, &mut self.rewrite, &mut self.routing, &key.name)?;
        let sent = route.send(self.alloc, &key.name, point, dests, &mut self.emptied)?;
        remember(&mut self.names, &mut self.recent, key, route);
        Ok(sent)
    }

    /// How many of the datapoints that it was given it dropped because rewriting left nothing of their names, at most
    /// `u64::MAX`. These are dropped on purpose, and no fault of who sent them.
    pub fn emptied(&self) -> u64 {
        self.emptied
    }

    /// The number of routes that the plan holds for the names that it routed most recently, beside its large table of
    /// names: at most [`MOST_HELD`]. Takes no memory.
    pub fn held(&self) -> usize
        ensures { result ≤ MOST_HELD }
    {
        self.recent.len()
    }

    /// Makes the room for the large table of names, for a caller whose first datapoint must not wait for it: some
    /// milliseconds and 4 megabytes, which otherwise the first name takes. If there is no memory for it, the next
    /// name tries again.
    pub fn make_room(&mut self)
        ensures { self.new ≡ self.old }
    {
        self.names.make_room();
    }

    /// Reads the memory of the names that the lines of a text begin with, for a caller that reads these lines next, and
    /// then sends their datapoints: it finds the names faster then.
    pub fn prefetch(&mut self, text: &[u8])
        ensures { self.new ≡ self.old }
    {
        self.names.prefetch(text);
    }
}

impl SharedNames for Plan {
    /// The name that a text is, if the large table holds it.
    fn shared(&self, text: &[u8]) -> Option<Arc<Name>> {
        let entry = self.names.find(text)?;
        Arc::try_clone(&entry.name).ok()
    }
}

/// Puts the route of a name into the table of recent routes, and into the large table if the name came before, as far
/// as there is memory for it. A name that comes once takes no room from those that come again.
fn remember(names: &mut NameTable<Route>, recent: &mut RecentRoutes, key: RouteKey, route: Route)
    ensures names { (rewrite : List RewriteRule) (routing : RoutingValue)
        → IsRouteOf rewrite routing (key, route)
        → All (IsRouteOf rewrite routing) names.old → All (IsRouteOf rewrite routing) names.new }
    ensures recent { (rewrite : List RewriteRule) (routing : RoutingValue)
        → IsRouteOf rewrite routing (key, route)
        → All (IsRouteOf rewrite routing) recent.old → All (IsRouteOf rewrite routing) recent.new }
{
    keep_repeated(names, &key, &route);
    recent.put(key, route);
}

/// Keeps a share of a name and of its route in the large table if the name came before.
fn keep_repeated(names: &mut NameTable<Route>, key: &RouteKey, route: &Route)
    ensures { (rewrite : List RewriteRule) (routing : RoutingValue)
        → IsRouteOf rewrite routing (key.now, route.now)
        → All (IsRouteOf rewrite routing) names.old → All (IsRouteOf rewrite routing) names.new }
{
    if names.is_repeated(key.name.text().as_bytes()) {
        keep_share(names, key, route);
    }
}

/// Keeps a share of a name and of its route in the large table, unless the name is too long for it or there is no memory
/// for it.
fn keep_share(names: &mut NameTable<Route>, key: &RouteKey, route: &Route)
    ensures { (rewrite : List RewriteRule) (routing : RoutingValue)
        → IsRouteOf rewrite routing (key.now, route.now)
        → All (IsRouteOf rewrite routing) names.old → All (IsRouteOf rewrite routing) names.new }
{
    if key.name.text().len() > LONGEST_KEPT {
        return;
    }
    if let Ok(entry) = entry_of(key, route) {
        names.keep(entry);
    }
}

/// An entry of the large table, which shares a name and its route.
fn entry_of(key: &RouteKey, route: &Route) -> Result<Entry<Route>, NoMemory>
    ensures { IfOk result (λ entry. (entry.0 ≡ key.now) × IsSameRoute entry.1 route.now) }
{
    Ok(Entry {
        name: Arc::try_clone(&key.name)?,
        value: route.share()?,
    })
}
