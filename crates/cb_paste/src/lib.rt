//! What a macro call puts in: `#`, `##` with placemarkers, white space and hide sets.
#![tactic(auto)]

mod argument;
mod copying;
mod fault;
mod filling;
mod hides;
mod joining;
mod moving;
mod part;
mod placing;
mod plain;
mod putting;
mod quoting;
mod site;
mod slots;
mod stacking;
mod substitution;
mod work_token;

pub use argument::Argument;
pub use fault::PasteFault;
pub use hides::Hides;
pub use part::{Part, Shape};
pub use site::Site;
pub use substitution::substitute;
pub use work_token::WorkToken;
