//! The tables of what is kept, in memory.
ghost use Rattle.std.specs.Prelude.{◌≡◌, ◌+◌, ◌<◌, ◌^◌, ◌≤◌, length, Some};
ghost use Rattle.std.specs.Prelude.{IfOk, IfSome, IfNone, OnOk, OnErr, slice_get};
ghost use Rattle.cb_outside.specs.Tables.{put, removed, changed, no_tables, entry_count, entries_of};
ghost use Rattle.cb_outside.specs.inner.Maps.{AllRise};

use crate::kept::{Kept, Table};
use crate::text_map::TextMap;
use cb_paths::NoMemory;
use std::alloc::Global;
use std::marker::Model;

/// The texts of each table.
#[derive(Drop)]
pub(crate) struct TableMaps {
    analysis: TextMap,
    databases: TextMap,
    sources: TextMap,
    measurements: TextMap,
}

impl Model for TableMaps {
    ghost use Rattle.cb_outside.specs.Tables.{Tables};

    ghost Value = { Tables };

    ghost view = { λ s. record {
      analysis = s.analysis;
      databases = s.databases;
      sources = s.sources;
      measurements = s.measurements;
    } };
}

impl TableMaps {
    /// Tables in which nothing is kept.
    pub(crate) fn new(alloc: Global) -> TableMaps
        ensures { result ≡ no_tables }
    {
        TableMaps {
            analysis: TextMap::new(alloc),
            databases: TextMap::new(alloc),
            sources: TextMap::new(alloc),
            measurements: TextMap::new(alloc),
        }
    }

    /// Puts bytes into a table at a key. After a refusal the tables are as they were.
    pub(crate) fn put(&mut self, table: Table, key: &[u8], bytes: &[u8]) -> Result<(), NoMemory>
        ensures kept { OnOk result (self.new ≡ changed table (put key.now bytes.now) self.old) }
        ensures unchanged { OnErr result (self.new ≡ self.old) }
    {
        match table {
            Table::Analysis => self.analysis.put(key, bytes),
            Table::Databases => self.databases.put(key, bytes),
            Table::Sources => self.sources.put(key, bytes),
            Table::Measurements => self.measurements.put(key, bytes),
        }
    }

    /// Takes what stands in a table at a key away, if something does.
    pub(crate) fn remove(&mut self, table: Table, key: &[u8])
        ensures { self.new ≡ changed table (removed key.now) self.old }
    {
        match table {
            Table::Analysis => self.analysis.remove(key),
            Table::Databases => self.databases.remove(key),
            Table::Sources => self.sources.remove(key),
            Table::Measurements => self.measurements.remove(key),
        }
    }

    /// The number of entries in all tables, unless no `u64` holds it.
    pub(crate) fn count(&self) -> Option<u64>
        ensures count { IfSome result (λ n. n ≡ entry_count self.now) }
        ensures rise { AllRise self.now }
    {
        let analysis = self.analysis.len() as u64;
        let databases = self.databases.len() as u64;
        let sources = self.sources.len() as u64;
        let measurements = self.measurements.len() as u64;
        analysis
            .checked_add(databases)?
            .checked_add(sources)?
            .checked_add(measurements)
    }

    /// The entry of this number, from 0, in the order of the tables and of the keys in each.
    pub(crate) fn load(&self, i: u64) -> Result<Kept, NoMemory>
        requires { i < entry_count self.now }
        ensures { IfOk result (λ kept. slice_get (entries_of self.now) i ≡ Some kept) }
    {
        let mut at = i as usize;
        if at < self.analysis.len() {
            return self.analysis.load(Table::Analysis, at);
        }
        at -= self.analysis.len();
        if at < self.databases.len() {
            return self.databases.load(Table::Databases, at);
        }
        at -= self.databases.len();
        if at < self.sources.len() {
            return self.sources.load(Table::Sources, at);
        }
        at -= self.sources.len();
        self.measurements.load(Table::Measurements, at)
    }
}
