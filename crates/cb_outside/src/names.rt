//! Names in a folder.
ghost use Rattle.std.specs.Prelude.{◌≡◌, ◌==◌, ◌++◌, ◌∷◌, [], length, OnOk, OnErr};

use cb_paths::{Bytes, NoMemory};
use std::alloc::Global;
use std::marker::Model;

/// What a name stands for.
#[derive(Clone, Copy, Debug, PartialEq, Eq)]
pub enum NameKind {
    /// A plain file.
    File,
    /// A folder.
    Folder,
    /// Anything else, as a link.
    Other,
}

/// A name in a folder.
#[derive(Drop)]
pub struct Name {
    /// The name, without the folder.
    pub text: Bytes,
    /// What it stands for.
    pub kind: NameKind,
}

/// A vector of names, which contracts see as the list of them.
#[derive(Drop)]
pub struct Names {
    items: Vec<Name>,
}

impl Model for Names {
    ghost use Rattle.std.specs.Prelude.{List};
    ghost use Rattle.cb_outside.specs.declared.names.Name.{Name};

    ghost Value = { List Name };

    ghost view = { λ n. n.items.items };
}

impl Names {
    /// No name. It takes no memory until the first one is added.
    pub fn new(alloc: Global) -> Names
        ensures { result ≡ [] }
    {
        Names {
            items: Vec::new(alloc),
        }
    }

    /// Adds a name at the end. After a refusal the list is as it was.
    pub fn push(&mut self, name: Name) -> Result<(), NoMemory>
        ensures added { OnOk result (self.new ≡ self.old ++ name ∷ []) }
        ensures kept { OnErr result (self.new ≡ self.old) }
    {
        match self.items.push(name) {
            Ok(()) => Ok(()),
            Err(_refused) => Err(NoMemory),
        }
    }

    /// The names in order.
    pub fn as_slice(&self) -> &[Name]
        ensures { result.now ≡ self.now }
    {
        self.items.as_slice()
    }

    /// The number of names.
    pub fn len(&self) -> usize
        ensures { result ≡ length self.now }
    {
        self.items.len()
    }

    /// Whether there is no name.
    pub fn is_empty(&self) -> bool
        ensures { result ≡ (length self.now == 0) }
    {
        self.items.is_empty()
    }
}
