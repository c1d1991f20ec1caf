//! The paths of the sources that are read only once.
ghost use Rattle.std.specs.Prelude.{◌≡◌, [], OnOk, OnErr};
ghost use Rattle.cb_include.specs.Seen.{has_path, with_path};

use crate::probes::Probes;
use cb_paths::{NoMemory, Path};
use std::alloc::Global;
use std::marker::Model;

/// The paths of the sources that have said `#pragma once` (GCC's manual, "Alternatives to Wrapper #ifndef"), in the
/// order in which they first said it. Contracts see them as the list of these.
#[derive(Drop)]
pub struct Once {
    paths: Probes,
}

impl Model for Once {
    ghost use Rattle.std.specs.Prelude.{List, ℕ};

    ghost Value = { List (List ℕ) };

    ghost view = { λ o. o.paths };
}

impl Once {
    /// No path. It takes no memory until the first one is added.
    pub fn new(alloc: Global) -> Once
        ensures { result ≡ [] }
    {
        Once {
            paths: Probes::new(alloc),
        }
    }

    /// Adds a path, unless it is there. After a refusal the paths are as they were.
    pub fn add(&mut self, alloc: Global, path: &Path) -> Result<(), NoMemory>
        ensures added { OnOk result (self.new ≡ with_path self.old path.now) }
        ensures kept { OnErr result (self.new ≡ self.old) }
    {
        self.paths.add(alloc, path)
    }

    /// Whether the path is there. It takes one look-up by hash.
    pub fn has(&self, path: &Path) -> bool
        ensures { result ≡ has_path self.now path.now }
    {
        self.paths.has(path)
    }
}
