//! A keeper in memory.
ghost use Rattle.std.specs.Prelude.{◌≡◌, ◌<◌, ◌≤◌, ◌↔◌, Some, refl};
ghost use Rattle.std.specs.Prelude.{IfOk, IfSome, IsSomeAnd, IsErrOf, OnOk, OnErr, option_map, slice_get};
ghost use Rattle.cb_outside.specs.Outside.{Rose, one_more};
ghost use Rattle.cb_outside.specs.Memory.{IsDue};
ghost use Rattle.cb_outside.specs.Tables.{put, removed, changed, no_tables, entry_count, entries_of, AreEntries};

use crate::keeper::Keeper;
use crate::kept::{KeepFault, Kept, Table};
use crate::numbers::Numbers;
use crate::table_maps::TableMaps;
use std::alloc::Global;
use std::marker::Model;

/// A keeper that keeps its tables in memory, and fails at stated calls.
#[derive(Drop)]
pub struct MemKeeper {
    tables: TableMaps,
    fails: Numbers,
    calls: u64,
    faults: u64,
}

impl Model for MemKeeper {
    ghost use Rattle.cb_outside.specs.Memory.{KeeperState};

    ghost Value = { KeeperState };

    ghost view = { λ s. record {
      tables = s.tables;
      fails = s.fails;
      calls = s.calls;
      faults = s.faults;
    } };
}

impl MemKeeper {
    /// A keeper with nothing in it. Call number k, counted from 1, fails where k stands in `fails`.
    pub fn new(alloc: Global, fails: Numbers) -> MemKeeper
        ensures { result ≡ record {
          tables = no_tables;
          fails = fails;
          calls = 0;
          faults = 0;
        } }
    {
        MemKeeper {
            tables: TableMaps::new(alloc),
            fails,
            calls: 0,
            faults: 0,
        }
    }

    /// Counts a call, and its failure where it is one of those that are to fail.
    fn begin(&mut self) -> Result<(), KeepFault>
        ensures fails { IsErrOf result KeepFault.Failed ↔ IsDue self.old.fails self.old.calls }
        ensures no_memory { IsErrOf result KeepFault.NoMemory → ⊥ }
        ensures ok { OnOk result (self.new ≡ record self.old { calls = one_more self.old.calls }) }
        ensures failed { OnErr result (self.new ≡ record self.old {
          calls = one_more self.old.calls;
          faults = one_more self.old.faults;
        }) }
        ensures rose { OnErr result (Rose self.old.faults self.new.faults) }
        ensures never_falls { self.old.faults ≤ self.new.faults }
    {
        let fails = self.fails.has_next(self.calls);
        self.calls = self.calls.saturating_add(1);
        if fails {
            self.faults = self.faults.saturating_add(1);
            return Err(KeepFault::Failed);
        }
        Ok(())
    }
}

impl Keeper for MemKeeper {
    ghost tables = { λ s. Some s.tables };

    ghost order = { λ s. Some (entries_of s.tables) };

    ghost listed = { λ s. entry_count s.tables };

    ghost faults = { λ s. s.faults };

    ghost wants = { λ _. 0 };

    ghost lists_all = { λ _. refl };

    fn put(&mut self, table: Table, key: &[u8], bytes: &[u8]) -> Result<(), KeepFault>
        ensures rose { IsErrOf result KeepFault.Failed → Rose self.old.faults self.new.faults }
        ensures never_falls { self.old.faults ≤ self.new.faults }
        ensures fails { IsErrOf result KeepFault.Failed ↔ IsDue self.old.fails self.old.calls }
        ensures ok { OnOk result (self.new ≡ record self.old {
          tables = changed table (put key.now bytes.now) self.old.tables;
          calls = one_more self.old.calls;
        }) }
        ensures failed { IsErrOf result KeepFault.Failed → self.new ≡ record self.old {
          calls = one_more self.old.calls;
          faults = one_more self.old.faults;
        } }
        ensures no_memory { IsErrOf result KeepFault.NoMemory
            → self.new ≡ record self.old { calls = one_more self.old.calls } }
    {
        self.begin()?;
        self.tables.put(table, key, bytes)?;
        Ok(())
    }

    fn remove(&mut self, table: Table, key: &[u8]) -> Result<(), KeepFault>
        ensures rose { IsErrOf result KeepFault.Failed → Rose self.old.faults self.new.faults }
        ensures never_falls { self.old.faults ≤ self.new.faults }
        ensures fails { IsErrOf result KeepFault.Failed ↔ IsDue self.old.fails self.old.calls }
        ensures never_wants { IsErrOf result KeepFault.NoMemory → ⊥ }
        ensures ok { OnOk result (self.new ≡ record self.old {
          tables = changed table (removed key.now) self.old.tables;
          calls = one_more self.old.calls;
        }) }
        ensures failed { OnErr result (self.new ≡ record self.old {
          calls = one_more self.old.calls;
          faults = one_more self.old.faults;
        }) }
    {
        self.begin()?;
        self.tables.remove(table, key);
        Ok(())
    }

    fn count(&mut self) -> Result<u64, KeepFault>
        ensures rose { IsErrOf result KeepFault.Failed → Rose self.old.faults self.new.faults }
        ensures never_falls { self.old.faults ≤ self.new.faults }
        ensures fails { IsErrOf result KeepFault.Failed ↔ IsDue self.old.fails self.old.calls }
        ensures count { IfOk result (λ n. n ≡ entry_count self.old.tables) }
        ensures entries { OnOk result (AreEntries (entries_of self.old.tables) self.old.tables) }
        ensures kept { (IsErrOf result KeepFault.Failed → ⊥)
            → self.new ≡ record self.old { calls = one_more self.old.calls } }
        ensures failed { IsErrOf result KeepFault.Failed → self.new ≡ record self.old {
          calls = one_more self.old.calls;
          faults = one_more self.old.faults;
        } }
    {
        self.begin()?;
        match self.tables.count() {
            Some(count) => Ok(count),
            None => Err(KeepFault::NoMemory),
        }
    }

    fn load(&mut self, i: u64) -> Result<Kept, KeepFault>
        requires { i < entry_count self.old.tables }
        ensures rose { IsErrOf result KeepFault.Failed → Rose self.old.faults self.new.faults }
        ensures never_falls { self.old.faults ≤ self.new.faults }
        ensures fails { IsErrOf result KeepFault.Failed ↔ IsDue self.old.fails self.old.calls }
        ensures entry { IfOk result (λ kept. slice_get (entries_of self.old.tables) i ≡ Some kept) }
        ensures kept { (IsErrOf result KeepFault.Failed → ⊥)
            → self.new ≡ record self.old { calls = one_more self.old.calls } }
        ensures failed { IsErrOf result KeepFault.Failed → self.new ≡ record self.old {
          calls = one_more self.old.calls;
          faults = one_more self.old.faults;
        } }
    {
        self.begin()?;
        let kept = self.tables.load(i)?;
        Ok(kept)
    }
}
