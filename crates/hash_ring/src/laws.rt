//! Laws of the definitions, each the contract of a function that does nothing.

ghost use Rattle.hash_ring.specs.Laws.{FreePlaceIsLeast, RisingIsInOrder, WalkVisitsEachOnce, RisingKeepsWalks, AllNodesChosen, ChoiceNamesEachOnce, ChoiceStaysBelow, SmallerChoiceIsPrefix, PlainChoiceIsFirstNodes, DiverseChoiceIsApart, DiverseChoiceIsFull, NodeTakenOffLeavesOthers, NewNodeTakesItsOwn, NewDestinationTakesItsOwn, ServersAreHosts};

/// The position that an entry gets is free, and all positions from the wanted one up to it are taken.
pub fn free_place_is_least()
    ensures { FreePlaceIsLeast }
{}

/// The entries in rising order are the entries, and each is no higher than those after it.
pub fn rising_is_in_order()
    ensures { RisingIsInOrder }
{}

/// The walk of a position visits every entry once.
pub fn walk_visits_each_once()
    ensures { WalkVisitsEachOnce }
{}

/// Entries have the same walks in whatever order they are, so a ring has the walks of the entries that it was
/// made of.
pub fn rising_keeps_walks()
    ensures { RisingKeepsWalks }
{}

/// With a factor of at least the number of nodes the choice has each node once, if replicas are not diverse.
pub fn all_nodes_chosen()
    ensures { AllNodesChosen }
{}

/// A choice names no node twice.
pub fn choice_names_each_once()
    ensures { ChoiceNamesEachOnce }
{}

/// A choice names nodes of the entries, so it stays below the same number of destinations as they do.
pub fn choice_stays_below()
    ensures { ChoiceStaysBelow }
{}

/// A choice with a smaller factor is a prefix of the one with a larger.
pub fn smaller_choice_is_prefix()
    ensures { SmallerChoiceIsPrefix }
{}

/// Without diverse replicas a choice is the first distinct nodes of the walk, whatever servers they are on.
pub fn plain_choice_is_first_nodes()
    ensures { PlainChoiceIsFirstNodes }
{}

/// Diverse replicas are on different servers.
pub fn diverse_choice_is_apart()
    ensures { DiverseChoiceIsApart }
{}

/// A choice of diverse replicas has as many nodes as the factor if the ring has nodes on at least that many
/// servers.
pub fn diverse_choice_is_full()
    ensures { DiverseChoiceIsFull }
{}

/// Removing a node from the ring changes only choices that had it. This holds for every ring, even if replicas
/// are diverse and other nodes are on the same server.
pub fn node_taken_off_leaves_others()
    ensures { NodeTakenOffLeavesOthers }
{}

/// Entries of one new node move only choices that now have this node: if it is not chosen, the choice is
/// unchanged.
pub fn new_node_takes_its_own()
    ensures { NewNodeTakesItsOwn }
{}

/// One more destination at the end of the list moves only choices that now have this destination.
pub fn new_destination_takes_its_own()
    ensures { NewDestinationTakesItsOwn }
{}

/// Two destinations of a list have one server exactly if they have one host.
pub fn servers_are_hosts()
    ensures { ServersAreHosts }
{}
