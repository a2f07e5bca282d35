//! The laws of the running relay. Each is the contract of a function that does nothing.
ghost use Rattle.settled_run.specs.Settled.{RecordsLaw, RecordsCountsLaw};
ghost use Rattle.settled_run.specs.SettledBytes.{SettledBytesLaw};
ghost use Rattle.settled_run.specs.LinesTaken.{UnsentLaw};
ghost use Rattle.settled_run.specs.SettledThreads.{SettledLaw, SettledCountsLaw, SettledPassesOnLaw, SettledIsolatedLaw};

/// If the queues of a relay have settled, and the record of each receiver and each sender is as its contract
/// says, what they all did is one run of the whole relay, in the order of the settling, with all that was
/// logged (`run`). The counts of the queues are those of that run (`counts`), and each connection of a destination got in
/// it what its sender's steps wrote (`bytes`). So the run sends what it receives,
/// in order, or it waits, or is held, or was dropped at a full queue (`passes_on`); and two relays that have
/// settled, and agree at a destination, hand it the same bytes and count the same there (`isolated`).
///
/// It asks that no history and no log was sealed, that all receivers have one plan, all queues one size and
/// all batches one limit, that records are in the order of their seats, and that each take gave its
/// sender the datapoints of the history's take. It does not ask that no offer and no take was left out of a
/// record: that follows from the sums that a settling compares.
pub fn settled()
    ensures run { SettledLaw }
    ensures counts { SettledCountsLaw }
    ensures bytes { SettledBytesLaw }
    ensures passes_on { SettledPassesOnLaw }
    ensures isolated { SettledIsolatedLaw }
{
    // No effect at run time: the proof reads the laws.
    settled_of_records();
    relay_core::laws::prefix();
    relay_core::laws::isolated();
    router::laws::route_stays_below();
    mio_loops::read_laws::is_record();
    senders::laws::unsealed_has_all();
    senders::laws::unsealed_is_written();
    senders::laws::unsealed_has_takes();
}

/// What `settled` says of each reader and each destination: each reader's recorded offers are those of what
/// it was fed, and each writer did what its log says with the batches of its takes.
pub fn settled_of_records()
    ensures run { RecordsLaw }
    ensures counts { RecordsCountsLaw }
{
    // No effect at run time: the proof reads the law.
    relay_core::laws::one_run();
}

/// What a queue kept are the bytes 10 in what its destination's connections took, and what is queued or in hand and not
/// wholly taken. So these bytes tell, beside the queue's counts, how much is left to be sent.
pub fn lines_taken()
    ensures { UnsentLaw }
{
    // No effect at run time: the proof reads the law.
    line_text::laws::one_line();
}
