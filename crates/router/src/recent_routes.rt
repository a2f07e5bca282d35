//! The routes of the names that a plan routed most recently.

ghost use Rattle.std.specs.Prelude.{◌≡◌, ◌≤◌, [], length, nat_eq, slice_get, Some, option_map, IfOk, IsTrue, Contains};
ghost use Rattle.std.specs.List.{All};
ghost use Rattle.std.specs.Map.Iter.{deref_pair};
ghost use Rattle.std.specs.Hash as fed;
ghost use Rattle.std.specs.Cmp.{partial_equiv_from_equiv};
ghost use Rattle.std.specs.Cmp.Lexicographic.{nat_list_eq_equiv, pointwise};
ghost use Rattle.std.specs.Cmp.Rules.{hashing};
ghost use Rattle.std.proofs.Common.{rules};
ghost use Rattle.name_table.specs.NameTable.{Keeps};
ghost use Rattle.router.specs.declared.route.Route.{Route};

use crate::route::Route;
use line_text::Name;
use lru::LruCache;
use std::alloc::{AllocError, Global};
use std::hash::{Hash, Hasher};
use std::marker::Model;
use std::num::NonZeroUsize;
use std::sync::Arc;

/// The most routes that are held.
pub const MOST_HELD: usize = 4_096;

/// A metric name as a key, by its text.
#[derive(Drop)]
pub(crate) struct RouteKey {
    pub(crate) name: Arc<Name>,
}

impl Model for RouteKey {
    ghost use Rattle.std.specs.Prelude.{List, ℕ};
    ghost use Rattle.std.specs.Arc.{arc_value};

    ghost Value = { List ℕ };

    ghost view = { λ k. arc_value k.name };
}

impl PartialEq for RouteKey {
    ghost eq = { pointwise nat_eq };

    ghost laws = { partial_equiv_from_equiv nat_list_eq_equiv };

    fn eq(&self, other: &RouteKey) -> bool {
        self.name.text() == other.name.text()
    }
}

impl Eq for RouteKey {
    ghost laws = { nat_list_eq_equiv };
}

impl Hash for RouteKey {
    ghost hash_input = { λ name. fed.str name };

    ghost respects_eq = { Prim.search (hashing, rules) };

    fn hash<H: Hasher>(&self, state: &mut H) {
        self.name.text().hash(state);
    }
}

/// The routes of the names that a plan routed most recently, [`MOST_HELD`] at most.
///
/// In clauses it is the names with their routes, the most recent first.
#[derive(Drop)]
pub(crate) struct RecentRoutes {
    routes: LruCache<RouteKey, Route>,
}

impl Model for RecentRoutes {
    ghost use Rattle.std.specs.Prelude.{◌≡◌, List, ℕ};
    ghost use Rattle.router.specs.declared.route.Route.{Route};

    ghost Value = { List (List ℕ × Route) };

    ghost view = { λ r. r.routes.entries };

    ghost invariant = { λ r. r.routes.cap ≡ 4096 };
}

impl RecentRoutes {
    /// No routes, and the room to look them up.
    pub(crate) fn new(alloc: Global) -> Result<RecentRoutes, AllocError>
        ensures { IfOk result (λ routes. routes ≡ []) }
    {
        let most = NonZeroUsize::new(MOST_HELD).unwrap();
        Ok(RecentRoutes {
            routes: LruCache::new(alloc, most)?,
        })
    }

    /// How many routes are held.
    pub(crate) fn len(&self) -> usize
        ensures len { result ≡ length self.now }
        ensures within { result ≤ MOST_HELD }
    {
        self.routes.len()
    }

    /// Makes the route of a name the most recent one, if it is held, and says whether it is.
    pub(crate) fn promote(&mut self, name: &RouteKey) -> bool
        ensures first { IsTrue result
            → (route : Route) × (slice_get self.new 0 ≡ Some (name.now, route)) }
        ensures kept { All (Contains self.old) self.new }
    {
        self.is_newest(name) || self.routes.promote(name)
    }

    /// Whether the most recent route is that of a name. A name that is repeated, as a pickle can repeat one of many
    /// kilobytes, is found by this one comparison, without its hash.
    fn is_newest(&self, name: &RouteKey) -> bool
        ensures { IsTrue result
            → (route : Route) × (slice_get self.now 0 ≡ Some (name.now, route)) }
    {
        match self.routes.peek_mru() {
            Some((newest, _)) => newest == name,
            None => false,
        }
    }

    /// The most recent route, with its name.
    pub(crate) fn newest(&self) -> Option<(&RouteKey, &Route)>
        ensures { option_map deref_pair result ≡ slice_get self.now 0 }
    {
        self.routes.peek_mru()
    }

    /// Holds a route as the most recent one. If there is no room for one more, it replaces the least recent one; if
    /// there is no memory for it, nothing changes.
    pub(crate) fn put(&mut self, name: RouteKey, route: Route)
        ensures { Keeps self.old (name, route) self.new }
    {
        let _refused = self.routes.put(name, route).is_err();
    }
}
