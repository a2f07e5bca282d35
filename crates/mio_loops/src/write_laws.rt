//! Laws of the definitions of writers' logs and steps. Each is the contract of a function that does nothing.
ghost use Rattle.mio_loops.specs.WriterLog.{UnsealedHasAllLaw};
ghost use Rattle.mio_loops.specs.WriterSteps.{HoldsOnlyUnwrittenLaw, StepsAddUpLaw};

/// A log that is not sealed has all entries that were added, in order, after those that it had.
pub fn unsealed_has_all()
    ensures { UnsealedHasAllLaw }
{}

/// Two lists of steps, of which the second leads on from where the first led, are one list in the writer, its log,
/// the supply's record, and the bytes.
pub fn steps_add_up()
    ensures { StepsAddUpLaw }
{}

/// While the steps of a writer are allowed, it has nothing in hand if nothing is left to write.
pub fn holds_only_unwritten()
    ensures { HoldsOnlyUnwrittenLaw }
{}
