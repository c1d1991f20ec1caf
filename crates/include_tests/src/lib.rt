//! Tests of `cb_include` over its public calls.
#![tactic(auto)]

#[cfg(test)]
mod searches;
#[cfg(test)]
mod values;
