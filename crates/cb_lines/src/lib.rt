//! The marks of a source, and sets of line numbers.
#![tactic(auto)]

mod alike;
mod lacking;
mod lanes;
mod laws;
mod line_set;
mod mark;
mod merging;
mod reading;
mod span_list;
mod spans;
mod splicing;
mod walking;

pub use alike::Stretch;
pub use laws::{one_line, rising_sets};
pub use line_set::{Lines, Span};
pub use mark::{Mark, Marks};
pub use reading::Marker;
pub use splicing::marks;
pub use walking::Walk;
