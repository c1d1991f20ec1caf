//! Tests of `cb_words` over its public calls.
#![tactic(auto)]

#[cfg(test)]
mod faults;
#[cfg(test)]
mod jobs;
