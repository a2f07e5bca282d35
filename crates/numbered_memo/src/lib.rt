//! A memo: values under numbers, as the picklers of Python store them.
//!
//! In clauses a [`Memo`] is a finite map from numbers to what its values mean (`specs/Memo.antt`), as their type says by
//! [`Meaning`]. Python's picklers count from 0, so what is stored in this order is in a list, and only what is stored
//! under other numbers in a sorted map: a number in a pickle causes no growth.
//!
//! ```text
//! let mut memo = Memo::new(alloc);
//! memo.insert(0, value)?;
//! if let Some(stored) = memo.get(0) { .. }
//! ```
#![tactic(auto)]

mod meaning;
mod memo;

pub use meaning::Meaning;
pub use memo::Memo;
