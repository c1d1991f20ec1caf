//! Tests of `cb_compdb` over its public calls.
#![tactic(auto)]

#[cfg(test)]
mod commands;
#[cfg(test)]
mod databases;
#[cfg(test)]
mod tools;
