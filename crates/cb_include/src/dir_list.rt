//! Lists of folders.
ghost use Rattle.std.specs.Prelude.{◌≡◌, ◌++◌, ◌∷◌, ◌==◌, [], length, IfOk, OnOk, OnErr};

use cb_paths::{Dir, NoMemory};
use std::alloc::Global;
use std::marker::Model;

/// A vector of folders, which contracts see as the list of them.
#[derive(Drop)]
pub struct Dirs {
    items: Vec<Dir>,
}

impl Model for Dirs {
    ghost use Rattle.std.specs.Prelude.{List, ℕ};

    ghost Value = { List (List ℕ) };

    ghost view = { λ d. d.items.items };
}

impl Dirs {
    /// No folder. It takes no memory until the first one is added.
    pub fn new(alloc: Global) -> Dirs
        ensures { result ≡ [] }
    {
        Dirs {
            items: Vec::new(alloc),
        }
    }

    /// Adds a folder at the end. After a refusal the list is as it was.
    pub fn push(&mut self, dir: Dir) -> Result<(), NoMemory>
        ensures added { OnOk result (self.new ≡ self.old ++ dir ∷ []) }
        ensures kept { OnErr result (self.new ≡ self.old) }
    {
        match self.items.push(dir) {
            Ok(()) => Ok(()),
            Err(_refused) => Err(NoMemory),
        }
    }

    /// The folders in order.
    pub fn as_slice(&self) -> &[Dir]
        ensures { result.now ≡ self.now }
    {
        self.items.as_slice()
    }

    /// The number of folders.
    pub fn len(&self) -> usize
        ensures { result ≡ length self.now }
    {
        self.items.len()
    }

    /// Whether there is no folder.
    pub fn is_empty(&self) -> bool
        ensures { result ≡ (length self.now == 0) }
    {
        self.items.is_empty()
    }

    /// A second list of the same folders.
    pub fn copy(&self, alloc: Global) -> Result<Dirs, NoMemory>
        ensures { IfOk result (λ dirs. dirs ≡ self.now) }
    {
        let mut items = Vec::new(alloc);
        'dirs: for dir in self.as_slice() {
            items.push(dir.copy(alloc)?)?;
        }
        Ok(Dirs { items })
    }
}
