//! Laws of the definitions, each the contract of a function that does nothing.

ghost use Rattle.router.specs.Laws.{RouteNamesEachOnce, RouteStaysBelow};

/// A route names no destination twice.
pub fn route_names_each_once()
    ensures { RouteNamesEachOnce }
{
    relay_rules::laws::route_names_each_once();
    hash_ring::laws::choice_names_each_once();
}

/// A route names destinations below the same number as the relay rules or the ring do.
pub fn route_stays_below()
    ensures { RouteStaysBelow }
{
    relay_rules::laws::route_stays_below();
    hash_ring::laws::choice_stays_below();
}
