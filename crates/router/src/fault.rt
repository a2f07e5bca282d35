//! Why a plan could not be made.

use thiserror::Error;

/// Why settings, rewrite rules and relay rules do not make a plan.
#[derive(Clone, Copy, Debug, Error)]
pub enum PlanFault {
    /// RELAY_METHOD is `rules`, and there are no relay rules.
    #[error("NoRules")]
    NoRules,
    /// A growth was refused.
    #[error("no memory")]
    NoMemory,
}
