//! Tests of the crates below the program, through their public calls: those that read texts, that route, queue and write
//! datapoints, the commands that read files and streams and end, queues under locks, the loops over connections, and
//! receivers and senders.
//!
//! What these crates answer is proved, and run end to end (`e2e/cases/`, `e2e/beside/`): a worked example of it is a case
//! there. Here is what no program shows: what owns a name or a datapoint in memory, room that no system has, and values
//! from outside; streams and connections in memory that cut, block, are interrupted and fail; each refusal of a settling, a
//! door that refuses an offer, receivers and a sender that a fault ends or that are to stop; and worked examples in threads,
//! with receivers and a sender over sockets.
//!
//! A table of cases is a `static`; a helper says whether a case holds, and an allocation that fails counts as no.
#![tactic(auto)]

#[cfg(test)]
mod tests;
