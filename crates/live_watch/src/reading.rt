//! What the pieces that were handed over are read with.

use conf_text::Dest;
use line_text::Moment;
use std::alloc::Global;

/// What the pieces that were handed over are read with beside a plan: the destinations of the configuration, and when: the
/// milliseconds of the process, and the moment of the clock.
#[derive(Drop)]
pub(crate) struct Reading<'r> {
    pub(crate) alloc: Global,
    pub(crate) dests: &'r [Dest],
    pub(crate) millis: u64,
    pub(crate) moment: Moment,
}
