//! A pair of platforms with its distance.
use cb_diverge::Fraction;

/// A pair of platforms, which are numbered from 1, with its distance.
#[derive(Clone, Copy, Debug)]
pub struct Link {
    /// The lesser of the two platforms.
    pub left: u32,
    /// The greater of the two platforms.
    pub right: u32,
    /// How far they are apart.
    pub distance: Fraction,
}
