//! Tests of `cb_pass` over its public calls.
#![tactic(auto)]

#[cfg(test)]
mod files;
#[cfg(test)]
mod kinds;
#[cfg(test)]
mod passes;
