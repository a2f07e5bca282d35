//! Patterns: compiled once, and then searched for in many texts.
//!
//! A [`Pattern`] is the text of a pattern with what the kit's `regex` made of it and what a search writes to.
//! [`Pattern::is_found`] says whether it is found in a text, and [`Pattern::replace`] writes a replacement, a list
//! of [`Part`]s, in the place of each match:
//!
//! ```text
//! let mut pattern = Pattern::read(alloc, Case::Observed, "^collectd\\.([a-z0-9]+)")?;
//! let new = pattern.replace(alloc, "collectd.web1.cpu", &[Part::Group(1)])?;     // Some("web1.cpu")
//! ```
//!
//! `specs/Pattern.antt` defines what a pattern is and where it matches, and `specs/Replacement.antt` what a
//! replacement writes; both use the definitions of `regex`.
//!
//! What `regex` made of a pattern is never freed: the README says why, and how much that is.
#![tactic(auto)]

mod case;
mod fault;
mod part;
mod pattern;
mod replacing;

pub use case::Case;
pub use fault::PatternFault;
pub use part::Part;
pub use pattern::Pattern;
