//! The list of all pairs of platforms with their distances.
ghost use Rattle.std.specs.Prelude.{◌≡◌, ◌+◌, ◌<◌, ◌≤◌, length, IfOk, All};
ghost use Rattle.cb_cluster.specs.Links.{pairs_of, links_of, IsPair};

use crate::link::Link;
use cb_diverge::Fraction;
use cb_paths::NoMemory;
use std::alloc::Global;

/// How many pairs so many platforms have.
pub fn pair_count(count: u32) -> u64
    ensures { result ≡ length (pairs_of count) }
{
    let count = u64::from(count);
    count * count.saturating_sub(1) / 2
}

/// All pairs of so many platforms with their distances, which stand in the order (1, 2), (1, 3), .., (2, 3), and so on. Its
/// one error is out of memory.
pub fn links(alloc: Global, count: u32, pairs: &[Fraction]) -> Result<Vec<Link>, NoMemory>
    requires { length pairs.now ≡ length (pairs_of count) }
    ensures links { IfOk result (λ links. links.items ≡ links_of count pairs.now) }
    ensures pairs { IfOk result (λ links. All (IsPair count) links.items) }
{
    let mut held = Vec::with_capacity(alloc, pairs.len())?;
    let (mut left, mut right) = (1, 2);
    for pair in pairs {
        held.push(Link {
            left: left as u32,
            right: right as u32,
            distance: *pair,
        })?;
        (left, right) = next_pair(left, right, count);
    }
    Ok(held)
}

/// The pair behind a pair of so many platforms; where there is none, the left number is no platform with a later one.
fn next_pair(left: u64, right: u64, count: u32) -> (u64, u64)
    requires apart { left < right }
    requires within { right ≤ count }
    ensures row { right < count → (result.0 ≡ left) × (result.1 ≡ right + 1) }
    ensures next { count ≤ right → (result.0 ≡ left + 1) × (result.1 ≡ left + 2) }
{
    if right < u64::from(count) {
        (left, right + 1)
    } else {
        (left + 1, left + 2)
    }
}
