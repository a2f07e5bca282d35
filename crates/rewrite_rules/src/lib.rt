//! Rewrite rules: how the relay rewrites the name of a datapoint before it routes it.
//!
//! A rewrite file has rules in two sections, `[pre]` and `[post]`. [`RewriteRules::read`] reads it, and
//! [`RewriteRules::apply`] takes a name through all of its rules, those of `[pre]` first. The form of the file is
//! carbon's, with this project's own rules for replacements (`docs/REWRITING.md`).
//!
//! ```text
//! let mut rules = RewriteRules::read(alloc, "[pre]\n^collectd\\.([a-z0-9]+)\\. = \\1.system.\n")?;
//! let name = rules.apply(&Name::read(alloc, b"collectd.web1.cpu")?)?;
//! // name.text() is "web1.system.cpu"
//! ```
//!
//! What a file says is `rewrite_rules_of` of `specs/File.antt`, and what rules make of a text is `text_after_all` of
//! `specs/Rule.antt`. Patterns, their matches and groups are those of the crate `patterns`.
#![tactic(auto)]

mod fault;
pub mod laws;
mod line;
mod replacement;
mod rule;
mod rules;
mod sections;

pub use fault::{RewriteFault, RewriteReadFault};
pub use rules::{NewName, RewriteRules};
