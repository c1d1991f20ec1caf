//! A merge of two clusters.
use crate::lists::Members;
use cb_diverge::Fraction;

/// Two clusters that are joined.
#[derive(Drop)]
pub struct Merge {
    /// The cluster with the lesser least member.
    pub left: Members,
    /// The other cluster.
    pub right: Members,
    /// The distance of the two: the least distance of a member of one and a member of the other. Of equal least ones it is
    /// the fraction that stands first.
    pub height: Fraction,
}
