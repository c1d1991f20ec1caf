//! Tests of `cb_lines` over its public calls.
#![tactic(auto)]

#[cfg(test)]
mod marks;
#[cfg(test)]
mod sets;
