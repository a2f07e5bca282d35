//! Laws of the definitions, each the contract of a function that does nothing.

ghost use Rattle.relay_rules.specs.Laws.{RouteNamesEachOnce, RouteStaysBelow, DefaultRuleAnywhere};

/// A route names no destination twice.
pub fn route_names_each_once()
    ensures { RouteNamesEachOnce }
{
    relay_base::laws::first_mentions_name_each_once();
}

/// A route names indices below the same number of destinations as the rules do.
pub fn route_stays_below()
    ensures { RouteStaysBelow }
{
    relay_base::laws::first_mentions_stay_below();
}

/// Wherever the default rule is, a name goes to the same destinations as if it were first.
pub fn default_rule_anywhere()
    ensures { DefaultRuleAnywhere }
{}
