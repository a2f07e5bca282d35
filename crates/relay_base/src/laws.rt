//! Laws of the definitions, each the contract of a function that does nothing.

ghost use Rattle.relay_base.specs.Laws.{FirstMentionsNameEachOnce, FirstMentionsStayBelow};

/// The first mentions of a list of destinations name each once.
pub fn first_mentions_name_each_once()
    ensures { FirstMentionsNameEachOnce }
{}

/// The first mentions of a list of destinations stay below the same number of destinations as the list does.
pub fn first_mentions_stay_below()
    ensures { FirstMentionsStayBelow }
{}
