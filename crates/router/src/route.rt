//! What a plan makes of a metric name.

ghost use Rattle.std.specs.Prelude.{◌≡◌, ◌+◌, ℕ, List, [], ◌∷◌, Some, false, IfOk, IfSome, OnOk, option_map, if◌then◌else◌};
ghost use Rattle.std.specs.Arc.{arc_value};
ghost use Rattle.rewrite_rules.specs.Name.{is_emptied};
ghost use Rattle.rewrite_rules.specs.Rule.{text_after_all};
ghost use Rattle.router.specs.Plan.{name_after, under_name};
ghost use Rattle.router.specs.Route.{IsRouteOf, IsSameRoute, counted, dests_after, dests_of, dests_on, is_emptied_name, is_emptied_on, sent_name, sent_on};
ghost use Rattle.router.specs.Seen.{routing_seen};

use crate::routing::Routing;
use line_text::{Name, Point};
use name_table::OwnedBytes;
use relay_base::{DestId, NoMemory};
use rewrite_rules::{NewName, RewriteRules};
use std::alloc::Global;
use std::mem::size_of;
use std::sync::Arc;

/// What a plan makes of a metric name: the name after rewriting, and the destinations of that name in the order of the
/// route.
///
/// Most names go as they are to one destination. That takes two words, so that an entry of the table of names takes
/// four, and both slots of a name lie side by side.
#[derive(Drop)]
pub(crate) enum Route {
    /// The name as it was received, to this destination.
    ToOne(DestId),
    /// Anything else. Copies of the route share it.
    Other(Arc<OtherRoute>),
}

const _: () = prove!(size_of::<Route>() <= 16);

/// A route in full.
#[derive(Drop)]
pub(crate) struct OtherRoute {
    /// The name after rewriting.
    pub(crate) sent: SentName,
    /// Its destinations; none if it is dropped.
    pub(crate) dests: RouteDests,
}

/// A name after rewriting.
#[derive(Drop)]
pub(crate) enum SentName {
    /// The name as it was received.
    AsReceived,
    /// Another name.
    Renamed(Arc<Name>),
    /// Nothing: its datapoints are dropped on purpose.
    Emptied,
    /// No metric name, and not empty: its datapoints are dropped.
    Invalid,
}

/// Destinations. A single one is held in place, so that it costs no read of other memory.
#[derive(Drop)]
pub(crate) enum RouteDests {
    One(DestId),
    Others(Vec<DestId>),
}

impl Route {
    /// What rewrite rules and a routing make of a name.
    pub(crate) fn of(
        alloc: Global,
        rewrite: &mut RewriteRules,
        routing: &mut Routing,
        name: &Arc<Name>,
    ) -> Result<Route, NoMemory>
        ensures right { IfOk result (λ route.
            IsRouteOf rewrite.old (routing_seen routing.old) (arc_value name.now, route)) }
        ensures rewrite { rewrite.new ≡ rewrite.old }
        ensures routing { routing.new ≡ routing.old }
    {
        let sent = SentName::of(alloc, rewrite, name)?;
        let mut dests = Vec::new(alloc);
        sent.find_dests(routing, name, &mut dests)?;
        Route::new(alloc, sent, dests)
    }

    /// The route of a name after rewriting to these destinations.
    fn new(alloc: Global, sent: SentName, dests: Vec<DestId>) -> Result<Route, NoMemory>
        ensures sent { IfOk result (λ route. (received : List ℕ)
            → sent_on received route ≡ sent_name received sent) }
        ensures dests { IfOk result (λ route. dests_on route ≡ dests.items) }
        ensures emptied { IfOk result (λ route. is_emptied_on route ≡ is_emptied_name sent) }
    {
        if let Some(dest) = only_dest(&sent, dests.as_slice()) {
            return Ok(Route::ToOne(dest));
        }
        let dests = RouteDests::of(dests);
        let other = Arc::new(alloc, OtherRoute { sent, dests })?;
        Ok(Route::Other(other))
    }

    /// The same route once more.
    pub(crate) fn share(&self) -> Result<Route, NoMemory>
        ensures { IfOk result (λ route. IsSameRoute route self.now) }
    {
        match self {
            Route::ToOne(dest) => Ok(Route::ToOne(*dest)),
            Route::Other(other) => Ok(Route::Other(Arc::try_clone(other)?)),
        }
    }

    /// A datapoint of a name, which has this route, as it is sent on, or `None` if it is dropped. Its destinations
    /// replace what `dests` had. It is counted if rewriting emptied its name.
    pub(crate) fn send(
        &self,
        alloc: Global,
        name: &Arc<Name>,
        point: Point,
        dests: &mut Vec<DestId>,
        emptied: &mut u64,
    ) -> Result<Option<Arc<Point>>, NoMemory>
        requires { point.name ≡ arc_value name.now }
        ensures point { IfOk result (λ sent. option_map (λ p. arc_value p) sent
            ≡ under_name point (sent_on (arc_value name.now) self.now)) }
        ensures dests { OnOk result (dests.new.items ≡ dests_on self.now) }
        ensures emptied { OnOk result (emptied.new
            ≡ (if is_emptied_on self.now then counted (emptied.old + 1) else emptied.old)) }
    {
        let point = with_shared_name(point, name)?;
        match self {
            Route::ToOne(dest) => {
                dests.clear();
                dests.push(*dest)?;
                Ok(Some(Arc::new(alloc, point)?))
            }
            Route::Other(other) => {
                other.dests.copy_into(dests)?;
                other.sent.send(alloc, point, emptied)
            }
        }
    }
}

impl OwnedBytes for Route {
    fn owned_bytes(&self) -> usize {
        match self {
            Route::ToOne(_) => 0,
            Route::Other(other) => other.sent.owned_bytes(),
        }
    }
}

impl SentName {
    /// The bytes of the name, if it is another one than was received.
    fn owned_bytes(&self) -> usize {
        match self {
            SentName::Renamed(name) => name.text().len(),
            SentName::AsReceived | SentName::Emptied | SentName::Invalid => 0,
        }
    }

    /// What rewrite rules make of a name.
    pub(crate) fn of(
        alloc: Global,
        rules: &mut RewriteRules,
        name: &Arc<Name>,
    ) -> Result<SentName, NoMemory>
        ensures name { IfOk result (λ sent. sent_name (arc_value name.now) sent
            ≡ name_after rules.old (arc_value name.now)) }
        ensures emptied { IfOk result (λ sent. is_emptied_name sent
            ≡ is_emptied (text_after_all rules.old (arc_value name.now))) }
        ensures same { rules.new ≡ rules.old }
    {
        match rules.rewrite(name) {
            Ok(NewName::Unchanged) => Ok(SentName::AsReceived),
            Ok(NewName::Changed(new)) => Ok(SentName::Renamed(Arc::new(alloc, new)?)),
            Ok(NewName::Emptied) => Ok(SentName::Emptied),
            Ok(NewName::Invalid) => Ok(SentName::Invalid),
            Err(fault) => Err(fault),
        }
    }

    /// Puts the destinations of the name that is sent for a received one in place of what a list had; none if it is
    /// dropped.
    pub(crate) fn find_dests(
        &self,
        routing: &mut Routing,
        received: &Name,
        dests: &mut Vec<DestId>,
    ) -> Result<(), NoMemory>
        ensures dests { OnOk result (dests.new.items
            ≡ dests_after (routing_seen routing.old) (sent_name received.now self.now)) }
        ensures same { routing.new ≡ routing.old }
    {
        match self {
            SentName::AsReceived => routing.route(received, dests),
            SentName::Renamed(name) => routing.route(name, dests),
            SentName::Emptied | SentName::Invalid => {
                dests.clear();
                Ok(())
            }
        }
    }

    /// A datapoint of the received name under the name that is sent, or `None` if it is dropped. It is counted if
    /// rewriting emptied its name.
    pub(crate) fn send(
        &self,
        alloc: Global,
        point: Point,
        emptied: &mut u64,
    ) -> Result<Option<Arc<Point>>, NoMemory>
        ensures point { IfOk result (λ sent. option_map (λ p. arc_value p) sent
            ≡ under_name point (sent_name point.name self.now)) }
        ensures emptied { OnOk result (emptied.new
            ≡ (if is_emptied_name self.now then counted (emptied.old + 1) else emptied.old)) }
    {
        let sent = match self {
            SentName::AsReceived => point,
            SentName::Renamed(name) => with_name(point, name)?,
            SentName::Emptied => {
                *emptied = emptied.saturating_add(1);
                return Ok(None);
            }
            SentName::Invalid => return Ok(None),
        };
        Ok(Some(Arc::new(alloc, sent)?))
    }
}

impl RouteDests {
    /// These destinations.
    fn of(dests: Vec<DestId>) -> RouteDests
        ensures { dests_of result ≡ dests.items }
    {
        match dests.as_slice() {
            [dest] => RouteDests::One(*dest),
            _ => RouteDests::Others(dests),
        }
    }

    /// Puts them in place of what a list had.
    fn copy_into(&self, dests: &mut Vec<DestId>) -> Result<(), NoMemory>
        ensures { OnOk result (dests.new.items ≡ dests_of self.now) }
    {
        dests.clear();
        match self {
            RouteDests::One(dest) => dests.push(*dest)?,
            RouteDests::Others(others) => dests.extend_from_slice(others.as_slice())?,
        }
        Ok(())
    }
}

/// The destination of a name that is sent as it was received, if it is the only one.
fn only_dest(sent: &SentName, dests: &[DestId]) -> Option<DestId>
    ensures { IfSome result (λ dest. ((received : List ℕ)
        → sent_name received sent.now ≡ Some received) × (dests.now ≡ dest ∷ [])
        × (is_emptied_name sent.now ≡ false)) }
{
    match sent {
        SentName::AsReceived => match dests {
            [dest] => Some(*dest),
            _ => None,
        },
        SentName::Renamed(_) | SentName::Emptied | SentName::Invalid => None,
    }
}

/// A datapoint whose name is shared in memory: this name, which is the same, replaces one that nothing else shares.
fn with_shared_name(point: Point, name: &Arc<Name>) -> Result<Point, NoMemory>
    requires { point.name ≡ arc_value name.now }
    ensures { IfOk result (λ shared. shared ≡ point) }
{
    if Arc::strong_count(&point.name) > 1 {
        Ok(point)
    } else {
        with_name(point, name)
    }
}

/// A datapoint under a name.
fn with_name(point: Point, name: &Arc<Name>) -> Result<Point, NoMemory>
    ensures { IfOk result (λ new. new ≡ record point { name = arc_value name.now }) }
{
    Ok(Point {
        name: Arc::try_clone(name)?,
        value: point.value,
        time: point.time,
    })
}
