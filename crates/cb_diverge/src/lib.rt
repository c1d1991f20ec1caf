//! How far platforms are apart: the Jaccard distance of their lines, and the divergence of a code base.
#![tactic(auto)]

mod distances;
mod fraction;
mod fractions;

pub use distances::{distance, divergence, grid, less};
pub use fraction::Fraction;
pub use fractions::Fractions;
