//! Compilation databases: which sources a build compiles, and with which options.
#![tactic(auto)]

mod entry;
mod fault;
mod form;
mod laws;
mod made;
mod options;
mod reading;
mod splitter;
mod splitting;

pub use entry::{Entries, Entry};
pub use fault::{BadDatabase, DatabaseFault};
pub use laws::{one_database, one_splitting};
pub use made::{Made, command};
pub use reading::read;
