//! Sets of platforms, and how many lines each set uses.
#![tactic(auto)]

mod counting;
mod covering;
mod part;
mod platform_set;
mod row;
mod rows;
mod setmap;

pub use covering::{average, coverage};
pub use platform_set::{PLATFORM_LIMIT, PlatformSet, listed_members};
pub use row::Row;
pub use setmap::Setmap;
