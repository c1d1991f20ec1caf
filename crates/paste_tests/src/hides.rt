//! Hide sets.
ghost use Rattle.std.specs.Prelude.{◌≤◌, length, IfOk};

use cb_paste::Hides;
use cb_paths::NoMemory;
use std::alloc::Global;
use std::test::Fail;

/// An arena with the set of some places.
fn arena_of(alloc: Global, places: &[u32]) -> Result<(Hides, u32), NoMemory>
    ensures { IfOk result (λ made. made.1 ≤ length made.0) }
{
    let mut arena = Hides::new(alloc);
    let mut set = 0;
    'places: for place in places {
        set = arena.with(set, *place)?;
    }
    Ok((arena, set))
}

/// Whether the set of some places has another.
fn has(alloc: Global, places: &[u32], place: u32) -> Result<bool, NoMemory> {
    let (arena, set) = arena_of(alloc, places)?;
    Ok(arena.has(set, place))
}

/// Whether the common part of a set and the set with one more place has it, and whether their union does.
fn joined(alloc: Global, places: &[u32], place: u32) -> Result<(bool, bool), NoMemory> {
    let (mut arena, set) = arena_of(alloc, places)?;
    let more = arena.with(set, place)?;
    let both = arena.both(set, more)?;
    let either = arena.either(set, more)?;
    Ok((arena.has(both, place), arena.has(either, place)))
}

/// The places of a set, a place, and whether the set has it.
const PLACES: &[([u32; 3], u32, bool)] = &[
    ([0, 1, 2], 0, true),
    ([0, 1, 2], 2, true),
    ([0, 1, 2], 3, false),
    ([7, 7, 4_294_967_295], 4_294_967_295, true),
    ([7, 7, 4_294_967_295], 4_294_967_294, false),
    ([6, 5, 13], 0, false),
];

#[test]
fn sets_have_their_places(rt: HostRuntime) -> Result<(), Fail> {
    for row in PLACES {
        assert!(rt;
            has(rt.alloc(), row.0.as_slice(), row.1)? == row.2,
            "at {}",
            row.1
        );
    }
    Ok(())
}

/// The places of a set, one more place, and whether the common part of the set and the set with it has it.
const JOINED: &[([u32; 3], u32, bool)] = &[
    ([1, 2, 3], 4, false),
    ([1, 2, 3], 3, true),
    ([0, 9, 65_535], 0, true),
    ([0, 9, 65_535], 65_534, false),
];

#[test]
fn common_parts_and_unions(rt: HostRuntime) -> Result<(), Fail> {
    for row in JOINED {
        assert!(rt;
            joined(rt.alloc(), row.0.as_slice(), row.1)? == (row.2, true),
            "at {}",
            row.1
        );
    }
    Ok(())
}
