//! Keepers, as a table of their calls.
use cb_outside::{KeepFault, Keeper, Kept, MemKeeper, NoKeeper, Numbers, Table};
use cb_paths::NoMemory;
use std::alloc::Global;
use std::test::Fail;

/// A call that changes what is kept.
#[derive(Clone, Copy)]
enum Change {
    Put(Table, &'static [u8], &'static [u8]),
    Remove(Table, &'static [u8]),
}

/// The calls that are made, and whether each is done.
const CHANGES: &[(Change, bool)] = &[
    (Change::Put(Table::Sources, b"b.c", b"two"), true),
    (Change::Put(Table::Sources, b"a.c", b"one"), true),
    (Change::Put(Table::Sources, b"a.c", b"three"), false),
    (Change::Put(Table::Analysis, b"", b"platforms"), true),
    (Change::Remove(Table::Sources, b"b.c"), false),
    (Change::Put(Table::Databases, b"c.json", b"[]"), true),
    (Change::Remove(Table::Databases, b"c.json"), true),
];

/// A keeper of which the third and the fifth call fail.
fn keeper(alloc: Global) -> Result<MemKeeper, NoMemory> {
    let fails = Numbers::from_slice(alloc, &[3, 5])?;
    Ok(MemKeeper::new(alloc, fails))
}

/// Makes one call.
fn make<K: Keeper>(keeper: &mut K, change: Change) -> Result<(), KeepFault> {
    match change {
        Change::Put(table, key, bytes) => keeper.put(table, key, bytes),
        Change::Remove(table, key) => keeper.remove(table, key),
    }
}

/// How many of the calls answer as wanted before the first that does not.
fn made_as_wanted(keeper: &mut MemKeeper) -> usize {
    for at in 0..CHANGES.len() {
        if make(keeper, CHANGES[at].0).is_ok() != CHANGES[at].1 {
            return at;
        }
    }
    CHANGES.len()
}

/// Whether an entry is the wanted one.
fn is_kept(kept: &Kept, table: Table, key: &[u8], bytes: &[u8]) -> bool {
    kept.table == table && kept.key.as_slice() == key && kept.bytes.as_slice() == bytes
}

/// Whether the entry of this number is the wanted one.
fn has_entry(keeper: &mut MemKeeper, at: u64, table: Table, key: &[u8], bytes: &[u8]) -> bool {
    let Ok(count) = keeper.count() else {
        return false;
    };
    if at >= count {
        return false;
    }
    match keeper.load(at) {
        Ok(kept) => is_kept(&kept, table, key, bytes),
        Err(_fault) => false,
    }
}

/// Whether the calls leave three entries, in the order of the tables and the keys.
fn keeps_its_tables(keeper: &mut MemKeeper) -> bool {
    made_as_wanted(keeper) == 7
        && keeper.count() == Ok(3)
        && has_entry(keeper, 0, Table::Analysis, b"", b"platforms")
        && has_entry(keeper, 1, Table::Sources, b"a.c", b"one")
        && has_entry(keeper, 2, Table::Sources, b"b.c", b"two")
}

#[test]
fn a_keeper_keeps_its_tables(rt: HostRuntime) -> Result<(), Fail> {
    assert!(rt; keeps_its_tables(&mut keeper(rt.alloc())?));
    Ok(())
}

#[test]
fn no_keeper_keeps_nothing(rt: HostRuntime) {
    let mut keeper = NoKeeper;
    assert!(rt; make(&mut keeper, CHANGES[0].0) == Ok(()) && keeper.count() == Ok(0));
}
