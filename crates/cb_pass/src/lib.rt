//! The pass of one command over many files: which nodes it reaches, which paths it asks about, and what it has to tell.
#![tactic(auto)]

mod answer;
mod definition;
mod effect;
mod entering;
mod file_map;
mod files;
mod header;
mod laws;
mod limits;
mod memory;
mod meter;
mod node_set;
mod note;
mod note_list;
mod open_file;
mod open_files;
mod passed;
mod reading;
mod section;
mod starting;
mod trail;
mod visit;
mod walking;

pub use file_map::FileMap;
pub use files::Files;
pub use laws::{one_pass, same_pass};
pub use limits::{DEPTH_LIMIT, NODE_LIMIT};
pub use meter::Meter;
pub use node_set::NodeSet;
pub use note::{Note, NoteKind};
pub use passed::Passed;
pub use section::Section;
pub use walking::pass;
