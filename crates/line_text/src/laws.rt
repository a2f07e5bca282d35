//! Laws of the definitions, for every connection and every datapoint. Each is the contract of a function
//! that does nothing.
ghost use Rattle.line_text.specs.Laws.{ValueLaw, ValueOrderLaw, ValueExactLaw, WholePartLaw, AcceptedGrowsLaw, NothingAtFirstLaw, StaysClosedLaw, ReadsOnLaw, DatagramsJoinLaw, ReadsBackLaw, WholePrintedLaw, OneLineLaw};

/// The value of a number is the number of units nearest to it, the even one of two that are as near, and
/// a number has none if that is out of range. So a value is at most half a unit away from its number.
pub fn value_is()
    ensures { ValueLaw }
{}

/// Rounding keeps the order of numbers: if one number is at most another, so is its value.
pub fn value_keeps_order()
    ensures { ValueOrderLaw }
{}

/// The value of a number with at most ten decimals is the number itself.
pub fn value_is_exact()
    ensures { ValueExactLaw }
{}

/// The whole part of a number is the greatest whole number that it reaches.
pub fn whole_part_is()
    ensures { WholePartLaw }
{}

/// More bytes on a connection add datapoints, and change none before them.
pub fn accepted_grows()
    ensures { AcceptedGrowsLaw }
{}

/// Lines are an orderly reading: a connection gives nothing before its first byte, more bytes only add
/// datapoints, and a reader reads nothing more of a closed connection, whatever follows.
pub fn orderly()
    ensures nothing { NothingAtFirstLaw }
    ensures grows { AcceptedGrowsLaw }
    ensures closed { StaysClosedLaw }
{}

/// A connection may go on at another reader: if that one is fed first what the first one kept, at any moment, both together
/// give the datapoints of the whole connection, each once and in order.
pub fn reads_on()
    ensures { ReadsOnLaw }
{}

/// The datapoints of a datagram are a function of it alone, line by line: the text before a line break
/// and the text after it each give what they give as separate datagrams.
pub fn datagrams_join()
    ensures { DatagramsJoinLaw }
{}

/// A printed line is read back as the same datapoint.
pub fn reads_back()
    ensures { ReadsBackLaw }
{}

/// The value of each whole number is printed as that whole number.
pub fn whole_is_printed()
    ensures { WholePrintedLaw }
{}

/// A printed line is one line, of at most `LONGEST_PRINTED` bytes.
pub fn one_line()
    ensures { OneLineLaw }
{}
