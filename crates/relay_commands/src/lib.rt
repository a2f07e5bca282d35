//! The commands of `relayd` that read a configuration and end: `check`, `route`, `route --names` and `replay`, over any
//! files and writers.
//!
//! [`check`] and [`route`] write one line, [`route_names`] a line for each name of a file, [`replay`] the text of
//! a script's run, and [`replay_lines`] that of a run of lines. Each ends with the first fault of its files, and then has written nothing. `relay_files` reads the
//! files and has the faults; `pass_lines` has `pass`, and `relay_run` has `run`, which answers `route` by [`LiveRoutes`].
//!
//! ```text
//! let status = check(alloc, &mut sources, &mut output)?; // output gains `ok 2 destinations`
//! ```
//!
//! What each writes is a function of what the files say: `specs/Route.antt`, `specs/Names.antt`, `specs/Replay.antt`; and of a configuration: `specs/LiveRoute.antt`.
#![tactic(auto)]

mod check_command;
mod live_route;
mod names_command;
mod replay_command;
mod replay_lines_command;
mod route_command;

pub use check_command::check;
pub use live_route::LiveRoutes;
pub use names_command::route_names;
pub use replay::HandedForm;
pub use replay_command::replay;
pub use replay_lines_command::replay_lines;
pub use route_command::route;
