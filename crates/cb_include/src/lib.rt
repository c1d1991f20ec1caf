//! Commands of a compiler as plain values, and where the headers that they include are looked for.
#![tactic(auto)]

mod command;
mod compare;
mod dir_list;
mod header;
mod laws;
mod once;
mod op;
mod op_list;
mod present;
mod probes;
mod searching;

pub use command::Command;
pub use dir_list::Dirs;
pub use header::{Header, Origin};
pub use laws::{added_paths, one_search, same_values};
pub use once::Once;
pub use op::Op;
pub use op_list::Ops;
pub use present::Present;
pub use probes::Probes;
pub use searching::search;
