//! Tests of `cb_analysis` over its public calls.
#![tactic(auto)]

#[cfg(test)]
mod files;
#[cfg(test)]
mod patterns;
