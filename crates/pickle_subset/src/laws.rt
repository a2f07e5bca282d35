//! Laws of the definitions, for every connection and every pickle. Each is the contract of a function that does nothing.
ghost use Rattle.pickle_subset.specs.Laws.{AcceptedGrowsLaw, BinaryValueLaw, FramesLaw, NothingAtFirstLaw, ReadsOnLaw, ReadsPythonLaw, StaysClosedLaw};
ghost use Rattle.pickle_subset.specs.PythonExamples.{WritesAsPythonLaw};

/// The value of a binary64 is the number of ten-billionths nearest to the number that its 64 bits denote, the even
/// one of two that are as near, if that is in range; otherwise there is none.
pub fn binary_value_is()
    ensures { BinaryValueLaw }
{}

/// Pickles are an orderly reading: a connection gives nothing before its first byte, more bytes only add datapoints,
/// and a reader reads nothing more of a closed connection, whatever follows.
pub fn orderly()
    ensures nothing { NothingAtFirstLaw }
    ensures grows { AcceptedGrowsLaw }
    ensures closed { StaysClosedLaw }
{}

/// A connection may go on at another reader: if that one is fed first what the first one kept, at any moment, both together
/// give the datapoints of the whole connection, each once and in order.
pub fn reads_on()
    ensures { ReadsOnLaw }
{}

/// Pickles sent in frames are the frames that a reader reads, in order.
pub fn frames_read()
    ensures { FramesLaw }
{}

/// A list of rows that Python's `pickle` writes, in any protocol from 1 to 5, is read as these rows.
pub fn reads_python()
    ensures { ReadsPythonLaw }
{}

/// For lists of rows as examples, the definition of what Python writes gives the bytes that Python itself writes.
pub fn writes_as_python()
    ensures { WritesAsPythonLaw }
{}
