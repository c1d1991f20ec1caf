//! The paths that a search has asked about.
ghost use Rattle.std.specs.Prelude.{◌≡◌, ◌==◌, [], length, slice_get, position, bytes_eq, OnOk, OnErr};
ghost use Rattle.std.specs.List.{IsDistinct};
ghost use Rattle.std.specs.Option.{option_copied};
ghost use Rattle.cb_include.specs.Seen.{has_path, with_path};

use cb_paths::{NoMemory, Path};
use indexmap::IndexSet;
use std::alloc::Global;
use std::marker::Model;

/// Distinct paths in the order in which they were first added. Contracts see them as the list of these.
#[derive(Drop)]
pub struct Probes {
    paths: IndexSet<Path>,
}

impl Model for Probes {
    ghost use Rattle.std.specs.Prelude.{List, ℕ};

    ghost Value = { List (List ℕ) };

    ghost view = { λ p. p.paths.keys };
}

impl Probes {
    /// No path. It takes no memory until the first one is added.
    pub fn new(alloc: Global) -> Probes
        ensures { result ≡ [] }
    {
        Probes {
            paths: IndexSet::new(alloc),
        }
    }

    /// Adds a path at the end, unless it is there. After a refusal the paths are as they were.
    pub fn add(&mut self, alloc: Global, path: &Path) -> Result<(), NoMemory>
        ensures added { OnOk result (self.new ≡ with_path self.old path.now) }
        ensures kept { OnErr result (self.new ≡ self.old) }
    {
        if self.has(path) {
            return Ok(());
        }
        let path = path.copy(alloc)?;
        self.insert(path)
    }

    /// Adds a path as `add` does, and takes it as it is.
    pub fn insert(&mut self, path: Path) -> Result<(), NoMemory>
        ensures added { OnOk result (self.new ≡ with_path self.old path) }
        ensures kept { OnErr result (self.new ≡ self.old) }
    {
        match self.paths.insert(path) {
            Ok(_is_new) => Ok(()),
            Err(_refused) => Err(NoMemory),
        }
    }

    /// Whether the path is there. It takes one look-up by hash.
    pub fn has(&self, path: &Path) -> bool
        ensures { result ≡ has_path self.now path.now }
    {
        self.paths.contains(path)
    }

    /// The place of a path, from 0, if it is there. It takes one look-up by hash.
    pub fn place_of(&self, path: &Path) -> Option<usize>
        ensures { result ≡ position (bytes_eq path.now) self.now }
    {
        self.paths.get_index_of(path)
    }

    /// The path at a place, from 0.
    pub fn get(&self, i: usize) -> Option<&Path>
        ensures { option_copied result ≡ slice_get self.now i }
    {
        self.paths.get_index(i)
    }

    /// The paths in order.
    pub fn as_slice(&self) -> &[Path]
        ensures paths { result.now ≡ self.now }
        ensures distinct { IsDistinct bytes_eq self.now }
    {
        self.paths.as_slice()
    }

    /// The number of paths.
    pub fn len(&self) -> usize
        ensures number { result ≡ length self.now }
        ensures distinct { IsDistinct bytes_eq self.now }
    {
        self.paths.len()
    }

    /// Whether there is no path.
    pub fn is_empty(&self) -> bool
        ensures { result ≡ (length self.now == 0) }
    {
        self.len() == 0
    }
}
