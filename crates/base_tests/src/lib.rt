//! Tests of `cb_paths` and `cb_outside` over their public calls.
#![tactic(auto)]

#[cfg(test)]
mod keepers;
#[cfg(test)]
mod outside;
#[cfg(test)]
mod paths;
#[cfg(test)]
mod places;
#[cfg(test)]
mod trees;
