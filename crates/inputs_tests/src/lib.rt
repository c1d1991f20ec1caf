//! Tests of `cb_inputs` over its public calls.
#![tactic(auto)]

#[cfg(test)]
mod all_inputs;
#[cfg(test)]
mod commands;
#[cfg(test)]
mod edits;
#[cfg(test)]
mod files;
#[cfg(test)]
mod texts;
