//! The closest two clusters.
ghost use Rattle.std.specs.Prelude.{◌≡◌, ◌<◌, ◌≤◌, length, MatchOption, All};
ghost use Rattle.std.specs.List.{IsFirstBest};
ghost use Rattle.cb_diverge.specs.Distances.{is_less};
ghost use Rattle.cb_cluster.specs.Links.{IsPair};
ghost use Rattle.cb_cluster.specs.Names.{left_name as left_in, right_name as right_in};
ghost use Rattle.cb_cluster.specs.Merging.{AreClosest, IsOneCluster};
ghost use Rattle.cb_cluster.specs.Inner.{precedes as comes_before};

use crate::clusters::name_of;
use crate::link::Link;
use cb_diverge::{Fraction, less};

/// Two clusters and their distance.
#[derive(Clone, Copy)]
pub(crate) struct ClosestPair {
    /// The cluster with the lesser least member.
    pub(crate) left: u32,
    /// The other cluster.
    pub(crate) right: u32,
    /// How far they are apart.
    pub(crate) height: Fraction,
}

/// The lesser of the two clusters that a link stands between.
fn left_name(names: &[u32], link: &Link) -> u32
    requires { IsPair (length names.now) link.now }
    ensures { result ≡ left_in names.now link.now }
{
    name_of(names, link.left).min(name_of(names, link.right))
}

/// The greater of the two clusters that a link stands between.
fn right_name(names: &[u32], link: &Link) -> u32
    requires { IsPair (length names.now) link.now }
    ensures { result ≡ right_in names.now link.now }
{
    name_of(names, link.left).max(name_of(names, link.right))
}

/// Whether a link comes before another one: those between two clusters first, then by distance, then by the two clusters.
#[tactic(auto, using(std::proofs::lemmas::Bool::Decides::nat_tests), unfolding(crate::specs::Inner::precedes))]
fn precedes(names: &[u32], some: &Link, other: &Link) -> bool
    requires some { IsPair (length names.now) some.now }
    requires other { IsPair (length names.now) other.now }
    ensures { result ≡ comes_before names.now some.now other.now }
{
    let here = (left_name(names, some), right_name(names, some));
    let there = (left_name(names, other), right_name(names, other));
    let (is_within, is_other_within) = (here.0 == here.1, there.0 == there.1);
    if is_within != is_other_within {
        return is_other_within;
    }
    if less(some.distance, other.distance) {
        return true;
    }
    if less(other.distance, some.distance) {
        return false;
    }
    here.0 < there.0 || here.0 == there.0 && here.1 < there.1
}

/// The place of the first link that no other one comes before.
fn first_link(names: &[u32], links: &[Link]) -> usize
    requires some { 0 < length links.now }
    requires pairs { All (IsPair (length names.now)) links.now }
    ensures { IsFirstBest (comes_before names.now) links.now (length links.now) result }
{
    let mut best = 0;
    for at in 1..links.len() {
        if precedes(names, &links[at], &links[best]) {
            best = at;
        }
    }
    best
}

/// The closest two clusters, where there are two.
pub(crate) fn closest(names: &[u32], links: &[Link]) -> Option<ClosestPair>
    requires { All (IsPair (length names.now)) links.now }
    ensures { MatchOption result (IsOneCluster links.now names.now) (λ c. AreClosest links.now names.now c.left c.right c.height) }
{
    if links.is_empty() {
        return None;
    }
    let link = &links[first_link(names, links)];
    let (left, right) = (left_name(names, link), right_name(names, link));
    if left == right {
        return None;
    }
    Some(ClosestPair {
        left,
        right,
        height: link.distance,
    })
}
