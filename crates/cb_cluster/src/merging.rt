//! The merges of single linkage, and the classes at a height.
ghost use Rattle.std.specs.Prelude.{◌≡◌, ◌<◌, ◌^◌, length, IfOk, All};
ghost use Rattle.cb_cluster.specs.Links.{pairs_of, links_of, IsPair};
ghost use Rattle.cb_cluster.specs.Names.{members as members_of, singles as singles_of};
ghost use Rattle.cb_cluster.specs.Merging.{AreMerges, AreClosest};
ghost use Rattle.cb_cluster.specs.Chains.{AreClassNames, AreClasses};

use crate::closest::{ClosestPair, closest};
use crate::clusters::{clusters, join, members, singles};
use crate::link::Link;
use crate::linking::links;
use crate::lists::Classes;
use crate::merge::Merge;
use crate::merge_list::Merges;
use cb_diverge::{Fraction, less};
use cb_paths::NoMemory;
use std::alloc::Global;

/// The merges of so many platforms, from the distances of all pairs in the order (1, 2), (1, 3), .., (2, 3), and so on. Again
/// and again the closest two clusters are joined, and of equally close ones those with the least members, of the left one
/// first. For one platform or none there is no merge. Its one error is out of memory.
pub fn merges(alloc: Global, count: u32, pairs: &[Fraction]) -> Result<Merges, NoMemory>
    requires { length pairs.now ≡ length (pairs_of count) }
    ensures { IfOk result (λ merges. AreMerges (links_of count pairs.now) (singles_of count) merges) }
{
    let links = links(alloc, count, pairs)?;
    let mut names = singles(alloc, count)?;
    let mut held = Vec::new(alloc);
    'merging: while let Some(next) = closest(&names, &links) {
        held.push(merge_of(alloc, &names, next)?)?;
        join(&mut names, next.left, next.right);
    }
    Ok(Merges::from_vec(held))
}

/// The merge of two clusters.
fn merge_of(alloc: Global, names: &[u32], next: ClosestPair) -> Result<Merge, NoMemory>
    requires { length names.now < 2 ^ 32 }
    ensures left { IfOk result (λ merge. merge.left ≡ members_of names.now next.left) }
    ensures right { IfOk result (λ merge. merge.right ≡ members_of names.now next.right) }
    ensures height { IfOk result (λ merge. merge.height ≡ next.height) }
{
    let left = members(alloc, names, next.left)?;
    let right = members(alloc, names, next.right)?;
    Ok(Merge {
        left,
        right,
        height: next.height,
    })
}

/// The classes of so many platforms at a height, by their least members: two platforms are in one class where a chain of
/// distances of at most the height leads from one to the other. The distances stand as for the merges. For one platform there
/// is one class, and for none there is none. Its one error is out of memory.
pub fn cut(alloc: Global, count: u32, pairs: &[Fraction], h: Fraction) -> Result<Classes, NoMemory>
    requires { length pairs.now ≡ length (pairs_of count) }
    ensures { IfOk result (λ classes. AreClasses (links_of count pairs.now) count h classes) }
{
    let links = links(alloc, count, pairs)?;
    let mut names = singles(alloc, count)?;
    join_up_to(&mut names, &links, h);
    clusters(alloc, &names)
}

/// Joins the closest two clusters, again and again, as long as they are no further apart than a height.
fn join_up_to(names: &mut [u32], links: &[Link], h: Fraction)
    requires pairs { All (IsPair (length names.old)) links.now }
    requires singles { names.old ≡ singles_of (length names.old) }
    ensures { AreClassNames links.now (length names.old) h names.new }
{
    'joining: while let Some(next) = closest(names, links) {
        if less(h, next.height) {
            return;
        }
        join(names, next.left, next.right);
    }
}
