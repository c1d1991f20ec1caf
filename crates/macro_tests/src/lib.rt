//! Tests of `cb_macro` over its public calls.
#![tactic(auto)]

#[cfg(test)]
mod definitions;
#[cfg(test)]
mod maps;
#[cfg(test)]
mod telling;
