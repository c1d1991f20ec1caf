//! Texts by their keys, in memory.
ghost use Rattle.std.specs.Prelude.{◌≡◌, ◌<◌, [], Some, length, map, IfOk, OnOk, OnErr, slice_get};
ghost use Rattle.cb_outside.specs.Tables.{put, removed, entries_in, Rise};

use crate::kept::{Kept, Table};
use cb_paths::{Bytes, NoMemory};
use std::alloc::Global;
use std::collections::BTreeMap;
use std::marker::Model;

/// A map from keys to bytes, in the order of the keys.
#[derive(Drop)]
pub(crate) struct TextMap {
    alloc: Global,
    map: BTreeMap<Vec<u8>, Bytes>,
}

impl Model for TextMap {
    ghost use Rattle.cb_outside.specs.Tables.{Texts};
    ghost use Rattle.cb_outside.specs.inner.Maps.{texts_of};

    ghost Value = { Texts };

    ghost view = { λ s. texts_of s.map.entries };
}

impl TextMap {
    /// No text.
    pub(crate) fn new(alloc: Global) -> TextMap
        ensures { result ≡ [] }
    {
        TextMap {
            alloc,
            map: BTreeMap::new(alloc),
        }
    }

    /// Puts bytes at a key, in place of those that stood there. After a refusal the map is as it was.
    pub(crate) fn put(&mut self, key: &[u8], bytes: &[u8]) -> Result<(), NoMemory>
        ensures kept { OnOk result (self.new ≡ put key.now bytes.now self.old) }
        ensures unchanged { OnErr result (self.new ≡ self.old) }
    {
        let key = Vec::from_slice(self.alloc, key)?;
        let bytes = Bytes::from_slice(self.alloc, bytes)?;
        self.map.insert(key, bytes)?;
        Ok(())
    }

    /// Takes the text at a key away, if one stands there.
    pub(crate) fn remove(&mut self, key: &[u8])
        ensures { self.new ≡ removed key.now self.old }
    {
        self.map.remove(key);
    }

    /// The number of texts.
    pub(crate) fn len(&self) -> usize
        ensures len { result ≡ length self.now }
        ensures rise { Rise self.now }
    {
        self.map.len()
    }

    /// The entry of this number, from 0, as one of a table.
    pub(crate) fn load(&self, table: Table, i: usize) -> Result<Kept, NoMemory>
        requires { i < length self.now }
        ensures { IfOk result (λ kept. slice_get (entries_in table self.now) i ≡ Some kept) }
    {
        match self.map.iter().nth(i) {
            Some((key, bytes)) => {
                let key = Bytes::from_slice(self.alloc, key.as_slice())?;
                let bytes = bytes.copy(self.alloc)?;
                Ok(Kept { table, key, bytes })
            }
            None => Err(NoMemory),
        }
    }
}
