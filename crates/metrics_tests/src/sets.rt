//! Setmaps and coverage, worked by hand.
use crate::made::{Spans, add_file, lines_of, used_of};
use cb_paths::NoMemory;
use cb_sets::{PLATFORM_LIMIT, PlatformSet, Setmap, average, coverage};
use std::alloc::Global;
use std::test::Fail;

fn is_shared<T: Send + Sync>() {}

/// A file: its counted lines, and those that each platform uses.
struct File {
    counted: Spans,
    used: &'static [Spans],
}

/// Files, and what their setmap has: its rows, each the members of a set and its lines, and its figures on the grid.
struct Case {
    name: &'static str,
    platforms: u32,
    files: &'static [File],
    rows: &'static [(&'static [u32], u64)],
    coverage: Option<u64>,
    average: Option<u64>,
}

/// The grid value of 1.
const ALL: u64 = 1_000_000_000_000;

const CASES: &[Case] = &[
    Case {
        name: "nothing",
        platforms: 0,
        files: &[],
        rows: &[],
        coverage: None,
        average: None,
    },
    // `#ifdef GPU`, one line, `#else`, one line, `#endif`, one line
    Case {
        name: "two platforms with five of six lines each",
        platforms: 2,
        files: &[File {
            counted: &[(1, 6)],
            used: &[&[(1, 1), (3, 6)], &[(1, 3), (5, 6)]],
        }],
        rows: &[(&[1], 1), (&[2], 1), (&[1, 2], 4)],
        coverage: Some(ALL),
        average: Some(833_333_333_333),
    },
    Case {
        name: "four files of one line, of which the middle one uses all",
        platforms: 3,
        files: &[
            File {
                counted: &[(1, 1)],
                used: &[&[(1, 1)], &[(1, 1)], &[]],
            },
            File {
                counted: &[(1, 1)],
                used: &[&[(1, 1)], &[(1, 1)], &[(1, 1)]],
            },
            File {
                counted: &[(1, 1)],
                used: &[&[(1, 1)], &[(1, 1)], &[(1, 1)]],
            },
            File {
                counted: &[(1, 1)],
                used: &[&[], &[(1, 1)], &[(1, 1)]],
            },
        ],
        rows: &[(&[1, 2], 1), (&[2, 3], 1), (&[1, 2, 3], 2)],
        coverage: Some(ALL),
        average: Some(833_333_333_333),
    },
    Case {
        name: "lines that nobody uses, and a platform that uses none",
        platforms: 2,
        files: &[File {
            counted: &[(10, 19), (100, 109)],
            used: &[&[(1, 12), (105, 200)], &[]],
        }],
        rows: &[(&[], 12), (&[1], 8)],
        coverage: Some(400_000_000_000),
        average: Some(200_000_000_000),
    },
    Case {
        name: "sets with as many members stand by their lists",
        platforms: 4,
        files: &[File {
            counted: &[(1, 7)],
            used: &[
                &[(1, 1), (4, 5), (7, 7)],
                &[(2, 2), (5, 6)],
                &[(3, 3), (6, 6)],
                &[(1, 1), (7, 7)],
            ],
        }],
        rows: &[
            (&[1], 1),
            (&[2], 1),
            (&[3], 1),
            (&[1, 2], 1),
            (&[1, 4], 2),
            (&[2, 3], 1),
        ],
        coverage: Some(ALL),
        // 4, 3, 2 and 2 of 7 lines
        average: Some(392_857_142_857),
    },
    Case {
        name: "no platform",
        platforms: 0,
        files: &[File {
            counted: &[(5, 9)],
            used: &[],
        }],
        rows: &[(&[], 5)],
        coverage: Some(0),
        average: None,
    },
];

fn add(alloc: Global, map: &mut Setmap, file: &File) -> Result<(), NoMemory> {
    let used = used_of(alloc, file.used)?;
    add_file(map, &lines_of(alloc, file.counted)?, used.as_slice())
}

fn setmap_of(alloc: Global, platforms: u32, files: &[File]) -> Result<Setmap, NoMemory> {
    let mut map = Setmap::new(alloc, platforms.min(PLATFORM_LIMIT));
    for file in files {
        add(alloc, &mut map, file)?;
    }
    Ok(map)
}

fn set_of(members: &[u32]) -> PlatformSet {
    let mut set = PlatformSet::none();
    for platform in members {
        set = set.with((*platform).clamp(1, PLATFORM_LIMIT));
    }
    set
}

/// Whether a setmap has these rows, and gives the lines of each by its set.
fn has_rows(map: &Setmap, wanted: &[(&[u32], u64)]) -> bool {
    if map.rows().len() != wanted.len() {
        return false;
    }
    for (row, (members, lines)) in map.rows().iter().zip(wanted) {
        let set = set_of(*members);
        if row.set != set || row.lines != *lines || map.lines(set) != *lines {
            return false;
        }
    }
    true
}

fn holds(alloc: Global, case: &Case) -> Result<bool, NoMemory> {
    let map = setmap_of(alloc, case.platforms, case.files)?;
    Ok(
        has_rows(&map, case.rows)
            && coverage(&map) == case.coverage
            && average(&map) == case.average,
    )
}

#[test]
fn setmaps_are_those_of_their_files(rt: HostRuntime) -> Result<(), Fail> {
    is_shared::<PlatformSet>();
    for case in CASES {
        assert!(rt; holds(rt.alloc(), case)?, "{}", case.name);
    }
    Ok(())
}

/// The setmap of 32 platforms, of which platform p uses the lines from p on, up to 40; line 50 is used by none.
fn many(alloc: Global) -> Result<Setmap, NoMemory> {
    let mut used = Vec::new(alloc);
    for platform in 0..PLATFORM_LIMIT {
        used.push(lines_of(alloc, &[(platform + 1, 40)])?)?;
    }
    let mut map = Setmap::new(alloc, PLATFORM_LIMIT);
    add_file(
        &mut map,
        &lines_of(alloc, &[(1, 40), (50, 50)])?,
        used.as_slice(),
    )?;
    Ok(map)
}

/// The total, what some platform uses, what a platform uses, and what two use both and either, of those platforms.
fn figures(alloc: Global) -> Result<[u64; 8], NoMemory> {
    let map = many(alloc)?;
    Ok([
        map.total(),
        map.used(),
        map.of(1),
        map.of(32),
        map.both(1, 32),
        map.either(32, 2),
        map.lines(set_of(&[1, 2, 3])),
        map.rows().len() as u64,
    ])
}

#[test]
fn thirty_two_platforms_are_told_apart(rt: HostRuntime) -> Result<(), Fail> {
    assert!(rt; figures(rt.alloc())? == [41, 40, 40, 9, 9, 39, 1, 33]);
    Ok(())
}

/// Sets by their calls: with a platform, of two sets, how many, and none.
fn sets_hold_their_members() -> bool {
    let some = set_of(&[1, 7, 32, 7]);
    let all = some.union(set_of(&[2, 7]));
    some.has(1)
        && some.has(32)
        && !some.has(2)
        && some.len() == 3
        && all == set_of(&[32, 7, 2, 1])
        && !all.is_empty()
        && PlatformSet::none().is_empty()
}

#[test]
fn sets_are_told(rt: HostRuntime) {
    assert!(rt; sets_hold_their_members());
}
