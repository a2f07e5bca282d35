//! The rules that a name meets.

ghost use Rattle.std.specs.Prelude.{◌≡◌, IfOk, OnOk};
ghost use Rattle.std.specs.List.{list_all, flat_map};
ghost use Rattle.relay_rules.specs.Destinations.{with_more};
ghost use Rattle.relay_rules.specs.Route.{found_in, up_to_stop};

use crate::destinations::mention;
use crate::rule::Rule;
use relay_base::{DestId, NoMemory};

/// Adds the destinations of the rules whose pattern is found in a name, up to and with the first that does
/// not continue, and says whether none of them ended the search.
pub(crate) fn follow(
    rules: &mut Vec<Rule>,
    name: &str,
    route: &mut Vec<DestId>,
) -> Result<bool, NoMemory>
    ensures goes_on { IfOk result (λ goes_on. goes_on
        ≡ list_all (λ rule. rule.continues) (found_in name.now rules.old.items)) }
    ensures route { OnOk result (route.new.items ≡ with_more route.old.items
        (flat_map (λ rule. rule.destinations) (up_to_stop (found_in name.now rules.old.items)))) }
    ensures same { rules.new.items ≡ rules.old.items }
{
    for rule in rules.iter_mut() {
        if !rule.is_found(name) {
            continue;
        }
        mention(route, rule.destinations())?;
        if !rule.continues() {
            return Ok(false);
        }
    }
    Ok(true)
}
