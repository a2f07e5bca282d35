//! Laws of the texts of replays: they hold for every plan, readers and events, and no code calls them.

ghost use Rattle.replay.specs.Laws.{SameTextLaw};
ghost use Rattle.replay.specs.LinesLaw.{LinesLaw};

/// Two runs that agree at a destination (`AgreesAt` of `relay_core`) have the same text of each of its connections, and,
/// if both configurations give it the same name, the same line of the report, whatever else differs.
pub fn same_text()
    ensures { SameTextLaw }
{
    // No effect at run time: the proof reads the law.
    relay_core::laws::isolated();
}

/// What a replay of lines comes to: no offer waits, no datapoint is dropped, queued or in hand, and the one connection of
/// each destination got the lines of the datapoints that the plan sends there, in the order of the lines.
pub fn lines_handed_over()
    ensures { LinesLaw }
{
    // No effect at run time: the proof reads the laws.
    line_text::laws::value_is();
    line_text::laws::one_line();
    relay_core::laws::prefix();
}
