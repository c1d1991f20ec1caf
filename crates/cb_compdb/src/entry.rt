//! The entries of a compilation database.
ghost use Rattle.std.specs.Prelude.{◌≡◌, ◌==◌, length, option_map, slice_get};

use cb_paths::{Bytes, Texts};
use std::marker::Model;

/// One run of a compiler.
#[derive(Drop)]
pub struct Entry {
    /// The folder in which the compiler runs.
    pub directory: Bytes,
    /// The source that is compiled.
    pub file: Bytes,
    /// The compiler and what it is given.
    pub words: Texts,
}

/// The entries of a database in their order, which contracts see as the list of them.
#[derive(Drop)]
pub struct Entries {
    pub(crate) items: Vec<Entry>,
}

impl Model for Entries {
    ghost use Rattle.std.specs.Prelude.{List};
    ghost use Rattle.cb_compdb.specs.declared.entry.Entry.{Entry};

    ghost Value = { List Entry };

    ghost view = { λ e. e.items.items };
}

impl Entries {
    /// The entries in order.
    pub fn as_slice(&self) -> &[Entry]
        ensures { result.now ≡ self.now }
    {
        self.items.as_slice()
    }

    /// The entry at a place, from 0; none where there are no more than so many.
    pub fn get(&self, place: usize) -> Option<&Entry>
        ensures { option_map (λ entry. entry.now) result ≡ slice_get self.now place }
    {
        self.items.as_slice().get(place)
    }

    /// The number of entries.
    pub fn len(&self) -> usize
        ensures { result ≡ length self.now }
    {
        self.items.len()
    }

    /// Whether there is no entry.
    pub fn is_empty(&self) -> bool
        ensures { result ≡ (length self.now == 0) }
    {
        self.items.is_empty()
    }
}
