//! Clusters of platforms, as a list with a name for each platform: the least member of its cluster.
ghost use Rattle.std.specs.Prelude.{ℕ, ◌≡◌, ◌<◌, ◌≤◌, ◌^◌, length, IfOk};
ghost use Rattle.cb_cluster.specs.Names.{singles as singles_of, name_of as name_in, members as members_of, clusters_of, joined};

use crate::lists::{Classes, Members};
use cb_paths::NoMemory;
use std::alloc::Global;

/// Each platform as a cluster by itself.
pub(crate) fn singles(alloc: Global, count: u32) -> Result<Vec<u32>, NoMemory>
    ensures { IfOk result (λ names. names.items ≡ singles_of count) }
{
    let mut names = Vec::new(alloc);
    for platform in 0..count {
        names.push(platform + 1)?;
    }
    Ok(names)
}

/// The name of a platform's cluster.
pub(crate) fn name_of(names: &[u32], platform: u32) -> u32
    requires some { 0 < platform }
    requires within { platform ≤ length names.now }
    ensures { result ≡ name_in names.now platform }
{
    names[platform as usize - 1]
}

/// Joins the second cluster to the first.
pub(crate) fn join(names: &mut [u32], left: u32, right: u32)
    ensures { names.new ≡ joined names.old left right }
{
    for name in names.iter_mut() {
        if *name == right {
            *name = left;
        }
    }
}

/// The members of a cluster.
pub(crate) fn members(alloc: Global, names: &[u32], cluster: u32) -> Result<Members, NoMemory>
    requires { length names.now < 2 ^ 32 }
    ensures { IfOk result (λ held. held ≡ members_of names.now cluster) }
{
    let mut held = Vec::new(alloc);
    for at in 0..names.len() {
        if names[at] == cluster {
            held.push(at as u32 + 1)?;
        }
    }
    Ok(Members::from_vec(held))
}

/// All clusters, by their least members.
pub(crate) fn clusters(alloc: Global, names: &[u32]) -> Result<Classes, NoMemory>
    requires { length names.now < 2 ^ 32 }
    ensures { IfOk result (λ classes. classes ≡ clusters_of names.now) }
{
    let mut held = Vec::new(alloc);
    for at in 0..names.len() {
        let platform = at as u32 + 1;
        if names[at] == platform {
            held.push(members(alloc, names, platform)?)?;
        }
    }
    Ok(Classes::from_vec(held))
}
