//! Laws of the definitions of what a sender returns. Each is the contract of a function that does nothing.
ghost use Rattle.senders.specs.Laws.{UnsealedHasAllLaw, UnsealedIsWrittenLaw, UnsealedHasTakesLaw};

/// A log that is not sealed has all steps of its writer, in order.
pub fn unsealed_has_all()
    ensures { UnsealedHasAllLaw }
{}

/// A log that is not sealed is one that a new writer allows, if its takes get the batches that the takes
/// of its steps got.
pub fn unsealed_is_written()
    ensures { UnsealedIsWrittenLaw }
{}

/// A log that is not sealed has the takes of its steps, each with its limit and its number of datapoints.
pub fn unsealed_has_takes()
    ensures { UnsealedHasTakesLaw }
{}
