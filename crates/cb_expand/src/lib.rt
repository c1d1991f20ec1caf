//! Replacement and rescanning of macros.
#![tactic(auto)]

mod asking;
mod calling;
mod expansion;
mod fault;
mod front;
mod gathering;
mod heading;
mod laws;
mod limits;
mod mode;
mod numbers;
mod reading;
mod row;
mod sign;
mod source;
mod standing;
mod steps;
mod untouched;
mod work;

pub use expansion::expand;
pub use fault::ExpandFault;
pub use laws::one_expansion;
pub use limits::COST_LIMIT;
pub use mode::Mode;
pub use sign::Sign;
pub use untouched::is_untouched;
