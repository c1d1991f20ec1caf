//! The classes that stand after merges.
ghost use Rattle.std.specs.Prelude.{◌≡◌, ◌<◌, ◌^◌, if◌then◌else◌, length, IfOk};
ghost use Rattle.cb_diverge.specs.Distances.{is_less};
ghost use Rattle.cb_cluster.specs.Names.{singles as singles_of, clusters_of, joined};
ghost use Rattle.cb_cluster.specs.Merging.{least_of as least_in, names_after};

use crate::clusters::{clusters, join, singles};
use crate::lists::{Classes, Members};
use crate::merge::Merge;
use cb_diverge::{Fraction, less};
use cb_paths::NoMemory;
use std::alloc::Global;

/// The least of the members of a cluster; 0 of none.
fn least_of(members: &Members) -> u32
    ensures { result ≡ least_in members.now }
{
    match members.as_slice() {
        [least, ..] => *least,
        [] => 0,
    }
}

/// Joins the clusters of a merge, unless it is higher than a height.
fn join_merged(names: &mut [u32], merge: &Merge, h: Fraction)
    ensures { names.new ≡ (if is_less h merge.now.height then names.old else joined names.old (least_in merge.now.left) (least_in merge.now.right)) }
{
    if less(h, merge.height) {
        return;
    }
    join(names, least_of(&merge.left), least_of(&merge.right));
}

/// Joins the clusters of each merge of at most a height.
fn join_merges(names: &mut [u32], merges: &[Merge], h: Fraction)
    ensures { names.new ≡ names_after h names.old merges.now }
{
    'merges: for merge in merges {
        join_merged(names, merge, h);
    }
}

/// The classes that stand after the merges of at most a height, by their least members, where so many platforms have these
/// merges. They are those of `cut` at that height, and are found without another look at the distances. Its one error is
/// out of memory.
pub fn classes_after(
    alloc: Global,
    count: u32,
    merges: &[Merge],
    h: Fraction,
) -> Result<Classes, NoMemory>
    ensures { IfOk result (λ classes. classes ≡ clusters_of (names_after h (singles_of count) merges.now)) }
{
    let mut names = singles(alloc, count)?;
    join_merges(&mut names, merges, h);
    clusters(alloc, &names)
}
