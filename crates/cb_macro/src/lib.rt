//! Definitions of macros, and the map of macros.
#![tactic(auto)]

mod body;
mod define;
mod fault;
mod item;
mod laws;
mod macros;
mod names;
mod parameters;
mod replacement;
mod same;
mod signs;
mod undef;
mod uses;
mod words;

pub use body::Macro;
pub use define::{Defined, read_define};
pub use fault::DefineFault;
pub use laws::one_word;
pub use macros::Macros;
pub use undef::undef_name;
pub use words::{define_word, undef_word};
