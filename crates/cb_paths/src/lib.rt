//! What every other crate of `codebasin` stands on: byte texts, paths and folders, names, the grid of shares, limits, and being out
//! of memory.
#![tactic(auto)]

mod bad_path;
mod bytes;
mod compare;
mod cut;
mod dir;
mod grid;
mod lanes;
mod language;
mod limits;
mod memory;
mod names;
mod path;
mod suffix;
mod text_list;
mod trail;

pub use bad_path::{BadPath, PathFault};
pub use bytes::Bytes;
pub use dir::Dir;
pub use grid::{GRID_UNITS, mean, share};
pub use lanes::{LANES, bits_of, load, lowest};
pub use language::Language;
pub use limits::{
    FOLDER_BYTE_LIMIT, PATH_BYTE_LIMIT, SECTION_LIMIT, SOURCE_BYTE_LIMIT, SOURCE_LINE_LIMIT,
};
pub use memory::NoMemory;
pub use names::{NAME_BYTE_LIMIT, is_name};
pub use path::Path;
pub use text_list::Texts;
