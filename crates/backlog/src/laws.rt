//! The laws of a text that is sent by one connection after another. Each is the contract of a function that does nothing.
ghost use Rattle.backlog.specs.Laws.{NothingIsLostLaw, BeginsALineLaw, LeftFromPlaceLaw};
ghost use Rattle.backlog.specs.Segments.{KeptOnceInOrderLaw, GotWholeLinesLaw};

/// The lines that the connections took to their ends, and then what is left, are the text.
pub fn nothing_is_lost()
    ensures { NothingIsLostLaw }
{}

/// What is left begins at the beginning of a line.
pub fn begins_a_line()
    ensures { BeginsALineLaw }
{}

/// What is left is the text from the place on where the cursor stands once the connections are over.
pub fn left_from_place()
    ensures { LeftFromPlaceLaw }
{}

/// Whatever goes to segments on its way, and whenever these go out: what the store got, what waits in segments, and what the
/// writer has left are all its lines, each once, in order.
pub fn kept_once_in_order()
    ensures { KeptOnceInOrderLaw }
{}

/// What the store got are whole lines.
pub fn got_whole_lines()
    ensures { GotWholeLinesLaw }
{}
