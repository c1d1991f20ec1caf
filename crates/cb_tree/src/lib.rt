//! The tree of a source: its directive lines and runs of text, checked and nested.
#![tactic(auto)]

mod building;
mod directive;
mod fault;
mod groups;
mod hash;
mod kind;
mod laws;
mod nesting;
mod node;
mod nodes;
mod part;
mod reading;
mod role;
mod row;
mod run;
mod sections;
mod sequence;
mod size;
mod skeleton;
mod stretch;
mod tree;

pub use building::build;
pub use fault::{BadSource, BuildFault, SourceKind};
pub use laws::{every_reading, one_nesting, one_reading};
pub use node::NodeKind;
pub use part::{Group, Groups, Part, Parts, Section};
pub use tree::Tree;
