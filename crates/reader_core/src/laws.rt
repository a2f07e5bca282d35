//! Laws of the definitions. Each is the contract of a function that does nothing.
ghost use Rattle.reader_core.specs.Laws.{OrderlyLaw, ClosedLaw};
ghost use Rattle.reader_core.specs.PlanConfiguration.{PlanSends, PlanRoutesOnce};

/// Each of the three kinds is read in an orderly way: a connection gives nothing before its first
/// byte, and more bytes on it only add datapoints behind the others.
pub fn orderly()
    ensures { OrderlyLaw }
{
    // No effect at run time: the proof reads the laws.
    line_text::laws::orderly();
    pickle_subset::laws::orderly();
}

/// A reader that represents an input is closed exactly if its current connection is.
pub fn closed_as_read()
    ensures { ClosedLaw }
{}

/// What the configuration of a plan sends for a datapoint is what `router::Plan::send` returns for
/// it (`sends`), and none of its routes names a destination twice (`once`).
pub fn configuration_of_plan()
    ensures sends { PlanSends }
    ensures once { PlanRoutesOnce }
{
    // No effect at run time: the proof reads the law.
    router::laws::route_names_each_once();
}
