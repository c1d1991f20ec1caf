//! A row of a setmap.
use crate::platform_set::PlatformSet;

/// A set of platforms, and how many lines just these platforms use.
#[derive(Clone, Copy, Debug, PartialEq, Eq)]
pub struct Row {
    /// The platforms.
    pub set: PlatformSet,
    /// The lines.
    pub lines: u64,
}
