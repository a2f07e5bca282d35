//! Laws of what readers were fed and offered. Each is the contract of a function that does nothing.
ghost use Rattle.mio_loops.specs.ReadLaws.{GoesOnLaw, RecordLaw};

/// What a reader was fed and offered, followed by what it was fed and offered next, is one list of each.
pub fn goes_add_up()
    ensures { GoesOnLaw }
{}

/// The recorded steps of a reader that began with no input, if they are its offers, are the record of what it was
/// fed: no piece follows one that closed its connection, and only offers of the last piece may be missing.
pub fn is_record()
    ensures { RecordLaw }
{
    // No effect at run time: the proof reads the law.
    reader_core::laws::configuration_of_plan();
}
