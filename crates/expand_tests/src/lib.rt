//! Tests of `cb_expand` over its public calls.
#![tactic(auto)]

#[cfg(test)]
mod calls;
#[cfg(test)]
mod conditions;
#[cfg(test)]
mod costs;
#[cfg(test)]
mod standard;
#[cfg(test)]
mod telling;
#[cfg(test)]
mod untouched;
