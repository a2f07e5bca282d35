//! The report of a relay: a line for each destination, with what its queue has counted.
//!
//! ```text
//! destination 127.0.0.1:2004:a queued 0 offered 3 kept 3 dropped 0 taken 3
//! ```
//!
//! `specs/ReportText.antt` says what the lines are, and [`report`] appends exactly these; `specs/FileReport.antt` and
//! [`report_with_files`] have them with what waits in files.
#![tactic(auto)]

mod file_report;
mod report_text;

pub use file_report::{FileCounts, ReportLine, report_with_files};
pub use relay_base::NoMemory;
pub use report_text::report;
