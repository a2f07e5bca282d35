//! How datapoints are routed.

/// How datapoints are routed.
#[derive(Clone, Copy)]
pub enum RelayMethod {
    /// By the patterns of relay rules.
    Rules,
    /// By the hash ring.
    ConsistentHashing,
}
