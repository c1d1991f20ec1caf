//! The refusal of what lies outside.
use thiserror::Error;

/// The outside failed: what lies behind an object refused a read or a write.
#[derive(Clone, Copy, Debug, PartialEq, Eq, Error)]
#[error("a read or a write failed")]
pub struct Failed;
