//! The law of a run that settled: what the threads of a relay did is one run of the whole.
//!
//! `laws::settled` takes what the contracts of `receivers`, `senders`, `locked_queues` and `queue_records` promise of
//! each thread and of a settling, and concludes what `relay_core` says of a run. It is over definitions alone, so the
//! program does not depend on this crate.
#![tactic(auto)]

pub mod laws;
