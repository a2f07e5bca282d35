//! The laws of the writer machine. Each is the contract of a function that does nothing.
ghost use Rattle.dest_writer.specs.Laws.{LeavesTheRestLaw, WritesAddUpLaw};

/// After a write the bytes behind those that were written are left.
pub fn leaves_the_rest()
    ensures { LeavesTheRestLaw }
{}

/// Two writes, one after another, are one write of as many bytes as both.
pub fn writes_add_up()
    ensures { WritesAddUpLaw }
{}
