//! Tests of `cb_cond` over its public calls.
#![tactic(auto)]

#[cfg(test)]
mod conditions;
#[cfg(test)]
mod examples;
