//! Which platforms belong together: single linkage over the distances of all pairs.
#![tactic(auto)]

mod closest;
mod clusters;
mod laws;
mod link;
mod linking;
mod lists;
mod merge;
mod merge_list;
mod merging;
mod standing;

pub use laws::{heights_rise, one_clustering};
pub use link::Link;
pub use linking::{links, pair_count};
pub use lists::{Classes, Members};
pub use merge::Merge;
pub use merge_list::Merges;
pub use merging::{cut, merges};
pub use standing::classes_after;
