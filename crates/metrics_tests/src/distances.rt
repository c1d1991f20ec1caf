//! Distances, divergence and clusters, worked by hand.
use cb_cluster::{Classes, Members, Merge, cut, merges, pair_count};
use cb_diverge::{Fraction, Fractions, distance, divergence, grid, less};
use cb_paths::NoMemory;
use std::alloc::Global;
use std::test::Fail;

/// The grid value of 1.
const ALL: u64 = 1_000_000_000_000;

/// The lines that both platforms of each pair use, and the lines that either of them uses.
type Pairs = &'static [(u64, u64)];

/// The number of platforms, the lines of their pairs, and what is known of them.
struct Case {
    name: &'static str,
    platforms: u32,
    pairs: Pairs,
    divergence: Option<u64>,
    /// Each merge: its left and its right cluster, and its height on the grid.
    merges: &'static [(&'static [u32], &'static [u32], u64)],
    /// Heights as lines of which so many differ, and the classes there.
    cuts: &'static [((u64, u64), &'static [&'static [u32]])],
}

/// Code Base Investigator's documents define code divergence as the mean Jaccard distance of all pairs of platforms.
const CASES: &[Case] = &[
    Case {
        name: "no platform",
        platforms: 0,
        pairs: &[],
        divergence: None,
        merges: &[],
        cuts: &[((1, 1), &[])],
    },
    Case {
        name: "one platform",
        platforms: 1,
        pairs: &[],
        divergence: None,
        merges: &[],
        cuts: &[((0, 1), &[&[1]])],
    },
    // Two platforms that share nothing: the distance is 1. Two with the same lines: it is 0.
    Case {
        name: "nothing in common",
        platforms: 2,
        pairs: &[(0, 8)],
        divergence: Some(ALL),
        merges: &[(&[1], &[2], ALL)],
        cuts: &[((7, 8), &[&[1], &[2]]), ((8, 8), &[&[1, 2]])],
    },
    // No line at all: the distance is 0 over 1.
    Case {
        name: "no line",
        platforms: 2,
        pairs: &[(0, 0)],
        divergence: Some(0),
        merges: &[(&[1], &[2], 0)],
        cuts: &[((0, 1), &[&[1, 2]])],
    },
    // a has the files 1 to 3 of four, b has all, c has 2 to 4: 1/4, 2/4 and 1/4, of which the mean is 1/3.
    Case {
        name: "a chain of equal distances",
        platforms: 3,
        pairs: &[(3, 4), (2, 4), (3, 4)],
        divergence: Some(333_333_333_333),
        merges: &[
            (&[1], &[2], 250_000_000_000),
            (&[1, 2], &[3], 250_000_000_000),
        ],
        cuts: &[((1, 5), &[&[1], &[2], &[3]]), ((2, 8), &[&[1, 2, 3]])],
    },
    // c uses no line: it is 1 away from both others, which are 1/2 apart.
    Case {
        name: "a platform without a line",
        platforms: 3,
        pairs: &[(5, 10), (0, 7), (0, 8)],
        divergence: Some(833_333_333_333),
        merges: &[(&[1], &[2], 500_000_000_000), (&[1, 2], &[3], ALL)],
        cuts: &[((99, 100), &[&[1, 2], &[3]])],
    },
    // 1 and 3 are as close as 2 and 4: the pair with the least member goes first. Then 1/2 joins all.
    Case {
        name: "two pairs of one height",
        platforms: 4,
        pairs: &[(1, 4), (3, 4), (2, 4), (2, 4), (6, 8), (1, 4)],
        divergence: Some(500_000_000_000),
        merges: &[
            (&[1], &[3], 250_000_000_000),
            (&[2], &[4], 250_000_000_000),
            (&[1, 3], &[2, 4], 500_000_000_000),
        ],
        cuts: &[
            ((0, 1), &[&[1], &[2], &[3], &[4]]),
            ((1, 4), &[&[1, 3], &[2, 4]]),
            ((1, 2), &[&[1, 2, 3, 4]]),
        ],
    },
];

/// The distances of pairs, as far as the numbers of lines fit.
fn fractions_of(alloc: Global, pairs: Pairs) -> Result<Fractions, NoMemory> {
    let mut fractions = Fractions::new(alloc);
    for (both, either) in pairs {
        if *both <= *either && *either < 4_294_967_296 {
            fractions.push(distance(*both, *either))?;
        }
    }
    Ok(fractions)
}

fn are_members(members: &Members, wanted: &[u32]) -> bool {
    members.as_slice() == wanted
}

fn is_merge(merge: &Merge, wanted: &(&[u32], &[u32], u64)) -> bool {
    are_members(&merge.left, wanted.0)
        && are_members(&merge.right, wanted.1)
        && grid(merge.height) == wanted.2
}

fn are_merges(merges: &[Merge], wanted: &[(&[u32], &[u32], u64)]) -> bool {
    if merges.len() != wanted.len() {
        return false;
    }
    for (merge, wanted) in merges.iter().zip(wanted) {
        if !is_merge(merge, wanted) {
            return false;
        }
    }
    true
}

fn are_classes(classes: &Classes, wanted: &[&[u32]]) -> bool {
    if classes.as_slice().len() != wanted.len() {
        return false;
    }
    for (members, wanted) in classes.as_slice().iter().zip(wanted) {
        if !are_members(members, *wanted) {
            return false;
        }
    }
    true
}

/// Whether the classes at a height are these.
fn cuts_into(
    alloc: Global,
    count: u32,
    pairs: &[Fraction],
    height: (u64, u64),
    wanted: &[&[u32]],
) -> Result<bool, NoMemory> {
    if pair_count(count) != pairs.len() as u64 || height.0 > height.1 || height.1 >= 4_294_967_296 {
        return Ok(false);
    }
    Ok(are_classes(
        &cut(alloc, count, pairs, distance(height.1 - height.0, height.1))?,
        wanted,
    ))
}

/// Whether the merges are these.
fn merges_into(
    alloc: Global,
    count: u32,
    pairs: &[Fraction],
    wanted: &[(&[u32], &[u32], u64)],
) -> Result<bool, NoMemory> {
    if pair_count(count) != pairs.len() as u64 {
        return Ok(false);
    }
    Ok(are_merges(merges(alloc, count, pairs)?.as_slice(), wanted))
}

fn all_cuts(alloc: Global, pairs: &[Fraction], case: &Case) -> Result<bool, NoMemory> {
    for (height, classes) in case.cuts {
        if !cuts_into(alloc, case.platforms, pairs, *height, *classes)? {
            return Ok(false);
        }
    }
    Ok(true)
}

fn holds(alloc: Global, case: &Case) -> Result<bool, NoMemory> {
    let fractions = fractions_of(alloc, case.pairs)?;
    let pairs = fractions.as_slice();
    Ok(
        divergence(pairs) == case.divergence
            && merges_into(alloc, case.platforms, pairs, case.merges)?
            && all_cuts(alloc, pairs, case)?,
    )
}

#[test]
fn platforms_are_clustered(rt: HostRuntime) -> Result<(), Fail> {
    for case in CASES {
        assert!(rt; holds(rt.alloc(), case)?, "{}", case.name);
    }
    Ok(())
}

/// Equal fractions by other numbers, and two that differ by little.
fn fractions_are_compared() -> bool {
    let half = distance(1, 2);
    let more = distance(2_147_483_646, 4_294_967_293);
    !less(half, distance(2, 4))
        && !less(distance(2, 4), half)
        && less(half, more)
        && !less(more, half)
}

#[test]
fn fractions_have_an_order(rt: HostRuntime) {
    assert!(rt; fractions_are_compared());
}

/// The merges of 32 platforms of which each uses the lines from its number on, up to 32: neighbours are close.
fn merges_of_many(alloc: Global) -> Result<usize, NoMemory> {
    let mut pairs = Fractions::new(alloc);
    for left in 0..32u64 {
        for right in left + 1..32 {
            pairs.push(distance(32 - right, 32 - left))?;
        }
    }
    if pair_count(32) != pairs.as_slice().len() as u64 {
        return Ok(0);
    }
    Ok(merges(alloc, 32, pairs.as_slice())?.as_slice().len())
}

#[test]
fn many_platforms_are_merged(rt: HostRuntime) -> Result<(), Fail> {
    assert_eq!(rt; merges_of_many(rt.alloc())?, 31);
    Ok(())
}
