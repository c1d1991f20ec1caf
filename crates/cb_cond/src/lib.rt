//! The conditions of `#if` and `#elif`: which of them hold, and what is wrong with the others.
#![tactic(auto)]

mod bad_condition;
mod characters;
mod condition;
mod evaluation;
mod frames;
mod integers;
mod laws;
mod meaning;
mod nesting;
mod operations;
mod prefixes;
mod rest;
mod singles;
mod symbol;
mod symbols;
mod words;

pub use bad_condition::BadCondition;
pub use condition::value;
pub use laws::one_condition;
