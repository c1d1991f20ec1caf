//! Tests of the crates of figures and reports, over their public calls.
#![tactic(auto)]

#[cfg(test)]
mod distances;
#[cfg(test)]
mod made;
#[cfg(test)]
mod measure;
#[cfg(test)]
mod reports;
#[cfg(test)]
mod sets;
