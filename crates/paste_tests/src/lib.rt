//! Tests of `cb_paste` over its public calls.
#![tactic(auto)]

#[cfg(test)]
mod hides;
#[cfg(test)]
mod substitution;
