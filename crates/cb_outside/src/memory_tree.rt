//! A tree in memory.
ghost use Rattle.std.specs.Prelude.{◌≡◌, ◌<◌, ◌≤◌, ◌↔◌, [], if◌then◌else◌, length, Some, None};
ghost use Rattle.std.specs.Prelude.{IfOk, IsSomeAnd, IsErrOf, IsTrue, OnOk, OnErr};
ghost use Rattle.std.specs.List.Sorted.{IsPermutation};
ghost use Rattle.cb_outside.specs.Outside.{Rose, one_more};
ghost use Rattle.cb_outside.specs.Memory.{IsDue};
ghost use Rattle.cb_outside.specs.Tables.{text_at, put};
ghost use Rattle.cb_outside.specs.Trees.{AreFiles, names_in};

use crate::listing::names_in;
use crate::names::Names;
use crate::numbers::Numbers;
use crate::tree::Tree;
use crate::tree_faults::{ListFault, ReadFault};
use cb_paths::{Bytes, Dir, NoMemory, Path};
use std::alloc::Global;
use std::collections::BTreeMap;
use std::marker::Model;

/// A tree of files in memory, which fails at stated calls.
#[derive(Drop)]
pub struct MemTree {
    alloc: Global,
    files: BTreeMap<Path, Bytes>,
    here: Dir,
    fails: Numbers,
    calls: u64,
    faults: u64,
}

impl Model for MemTree {
    ghost use Rattle.cb_outside.specs.Memory.{TreeState};

    ghost Value = { TreeState };

    ghost view = { λ s. record {
      files = s.files.entries;
      here = s.here;
      fails = s.fails;
      calls = s.calls;
      faults = s.faults;
    } };
}

impl MemTree {
    /// A tree without files, in which the program runs in the folder `here`. Call number k of `list` and `read`,
    /// counted from 1, fails where k stands in `fails`.
    pub fn new(alloc: Global, here: Dir, fails: Numbers) -> MemTree
        ensures { result ≡ record {
          files = [];
          here = here;
          fails = fails;
          calls = 0;
          faults = 0;
        } }
    {
        MemTree {
            alloc,
            files: BTreeMap::new(alloc),
            here,
            fails,
            calls: 0,
            faults: 0,
        }
    }

    /// Adds a file, in place of one at the same path. After a refusal the tree is as it was.
    pub fn add(&mut self, path: Path, bytes: Bytes) -> Result<(), NoMemory>
        ensures added { OnOk result (self.new ≡ record self.old { files = put path bytes self.old.files }) }
        ensures kept { OnErr result (self.new ≡ self.old) }
    {
        self.files.insert(path, bytes)?;
        Ok(())
    }

    /// Counts a call, and answers whether it is to fail.
    fn is_next_to_fail(&mut self) -> bool
        ensures fails { IsTrue result ↔ IsDue self.old.fails self.old.calls }
        ensures never_falls { self.old.faults ≤ self.new.faults }
        ensures counted { self.new ≡ record self.old {
          calls = one_more self.old.calls;
          faults = if result then one_more self.old.faults else self.old.faults;
        } }
    {
        let fails = self.fails.has_next(self.calls);
        self.calls = self.calls.saturating_add(1);
        if fails {
            self.faults = self.faults.saturating_add(1);
        }
        fails
    }
}

impl Tree for MemTree {
    ghost files = { λ s. Some s.files };

    ghost place = { λ s. s.here };

    ghost faults = { λ s. s.faults };

    fn here(&self) -> Result<Dir, NoMemory>
        ensures { IfOk result (λ folder. folder ≡ self.now.here) }
    {
        self.here.copy(self.alloc)
    }

    fn list(&mut self, folder: &[u8], limit: u64) -> Result<Names, ListFault>
        ensures names { IfOk result (λ names. names ≡ names_in folder.now self.old.files) }
        ensures permuted { IfOk result (λ names. IsPermutation (names_in folder.now self.old.files) names) }
        ensures paths { OnOk result (AreFiles self.old.files) }
        ensures within { IfOk result (λ names. length names ≤ limit) }
        ensures too_many { IsErrOf result ListFault.TooMany → limit < length (names_in folder.now self.old.files) }
        ensures rose { IsErrOf result ListFault.Failed → Rose self.old.faults self.new.faults }
        ensures never_falls { self.old.faults ≤ self.new.faults }

        ensures fails { IsErrOf result ListFault.Failed ↔ IsDue self.old.fails self.old.calls }
        ensures done { (IsErrOf result ListFault.Failed → ⊥)
            → self.new ≡ record self.old { calls = one_more self.old.calls } }
        ensures failed { IsErrOf result ListFault.Failed → self.new ≡ record self.old {
          calls = one_more self.old.calls;
          faults = one_more self.old.faults;
        } }
    {
        if self.is_next_to_fail() {
            return Err(ListFault::Failed);
        }
        let names = names_in(self.alloc, &self.files, folder)?;
        if names.len() as u64 > limit {
            return Err(ListFault::TooMany);
        }
        Ok(names)
    }

    fn read(&mut self, path: &Path, limit: u64) -> Result<Bytes, ReadFault>
        ensures content { IfOk result (λ bytes. text_at path.now self.old.files ≡ Some bytes) }
        ensures within { IfOk result (λ bytes. length bytes ≤ limit) }
        ensures absent { IsErrOf result ReadFault.Absent → text_at path.now self.old.files ≡ None }
        ensures too_long { IsErrOf result ReadFault.TooLong
            → IsSomeAnd (text_at path.now self.old.files) (λ bytes. limit < length bytes) }
        ensures rose { IsErrOf result ReadFault.Failed → Rose self.old.faults self.new.faults }
        ensures never_falls { self.old.faults ≤ self.new.faults }

        ensures fails { IsErrOf result ReadFault.Failed ↔ IsDue self.old.fails self.old.calls }
        ensures done { (IsErrOf result ReadFault.Failed → ⊥)
            → self.new ≡ record self.old { calls = one_more self.old.calls } }
        ensures failed { IsErrOf result ReadFault.Failed → self.new ≡ record self.old {
          calls = one_more self.old.calls;
          faults = one_more self.old.faults;
        } }
    {
        if self.is_next_to_fail() {
            return Err(ReadFault::Failed);
        }
        let Some(bytes) = self.files.get(path) else {
            return Err(ReadFault::Absent);
        };
        if bytes.len() as u64 > limit {
            return Err(ReadFault::TooLong);
        }
        let bytes = bytes.copy(self.alloc)?;
        Ok(bytes)
    }
}
