//! Files in memory.
ghost use Rattle.std.specs.Prelude.{◌≡◌, [], OnOk, OnErr, bytes_eq, refl};
ghost use Rattle.std.specs.Option.{option_map, is_some};
ghost use Rattle.indexmap.specs.IndexMap.{insert_entry};
ghost use Rattle.cb_pass.specs.Maps.{tree_at};
ghost use Rattle.cb_tree.specs.Skeleton.{skeleton};

use crate::files::Files;
use cb_include::Present;
use cb_paths::{NoMemory, Path};
use cb_tree::Tree;
use indexmap::IndexMap;
use std::alloc::Global;
use std::marker::Model;

/// Files in memory, which contracts see as a list of paths with their trees. Each look-up is one by hash.
#[derive(Drop)]
pub struct FileMap {
    trees: IndexMap<Path, Tree>,
}

impl Model for FileMap {
    ghost use Rattle.std.specs.Prelude.{List, ℕ};
    ghost use Rattle.cb_tree.specs.Nodes.{Node};

    ghost Value = { List (List ℕ × List Node) };

    ghost view = { λ m. m.trees.entries };
}

impl FileMap {
    /// No file. It takes no memory until the first one is put in.
    pub fn new(alloc: Global) -> FileMap
        ensures { result ≡ [] }
    {
        FileMap {
            trees: IndexMap::new(alloc),
        }
    }

    /// Puts a file at a path; it takes the place of one that is there. After a refusal the files are as they were.
    pub fn insert(&mut self, path: Path, tree: Tree) -> Result<(), NoMemory>
        ensures put { OnOk result (self.new ≡ insert_entry bytes_eq self.old path tree) }
        ensures kept { OnErr result (self.new ≡ self.old) }
    {
        match self.trees.insert(path, tree) {
            Ok(_before) => Ok(()),
            Err(_refused) => Err(NoMemory),
        }
    }
}

impl Present for FileMap {
    ghost holds = { λ files path. is_some (tree_at files path) };

    fn has(&self, path: &Path) -> bool {
        self.trees.contains_key(path)
    }
}

impl Files for FileMap {
    ghost skeletons = { λ files path. option_map skeleton (tree_at files path) };

    ghost use Rattle.cb_pass.specs.Maps.{some_skeleton};

    ghost has_tree = { some_skeleton };

    fn tree(&self, path: &Path) -> Option<&Tree> {
        self.trees.get(path)
    }
}
