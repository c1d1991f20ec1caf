//! Tests of tokens and of trees, over the public calls of their crates.
#![tactic(auto)]

#[cfg(test)]
mod cuts;
#[cfg(test)]
mod faults;
#[cfg(test)]
mod kinds;
#[cfg(test)]
mod nesting;
#[cfg(test)]
mod nodes;
#[cfg(test)]
mod skeletons;
