//! The limit of an expansion. It is the greatest number that is still accepted.

/// What one expansion may cost.
pub const COST_LIMIT: usize = 65_536;
