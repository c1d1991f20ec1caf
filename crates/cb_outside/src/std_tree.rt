//! The files of the system, as a tree.
ghost use Rattle.std.specs.Prelude.{◌≡◌, ◌≤◌, if◌then◌else◌, length, codes, Some, None};
ghost use Rattle.std.specs.Prelude.{unwrap_or, IfOk, IfSome, IsErrOf, OnOk};
ghost use Rattle.std.specs.List.Sorted.{IsPermutation};
ghost use Rattle.cb_paths.specs.Paths.{is_absolute, folder_at};
ghost use Rattle.cb_outside.specs.Outside.{Rose, one_more};
ghost use Rattle.cb_outside.specs.Tables.{text_at};
ghost use Rattle.cb_outside.specs.Trees.{AreFiles, names_in};

use crate::names::Names;
use crate::system_files::{list_folder, read_file};
use crate::tree::Tree;
use crate::tree_faults::{ListFault, ReadFault};
use cb_paths::{Bytes, Dir, NoMemory, Path, PathFault};
use std::alloc::Global;
use std::env::{self, Env, VarError};
use std::fs::Files;
use std::marker::Model;

/// The files of the system, of which the top is the folder in which the program runs. It tells nothing of them. A link
/// is neither a file nor a folder, a folder that holds a name that is not UTF-8 is not listed, and a path that is not
/// UTF-8 is absent.
#[derive(Drop)]
pub struct StdTree<'a, R> {
    rt: &'a R,
    here: Dir,
    errors: u64,
}

impl<'a, R> Model for StdTree<'a, R> {
    ghost use Rattle.cb_outside.specs.Standard.{FilesState};

    ghost Value = { FilesState };

    ghost view = { λ s. record { here = s.here; faults = s.errors } };
}

impl<'a, R> StdTree<'a, R> {
    /// The files that this runtime reaches. The folder in which the program runs is that of the environment variable
    /// `PWD`, where it is an absolute path that names a folder, and else `/`.
    pub fn new(rt: &'a R) -> Result<StdTree<'a, R>, NoMemory>
    where
        R: Env + AllocGlobal,
        ensures { IfOk result (λ s. s.faults ≡ 0) }
    {
        let here = working_folder(rt)?;
        Ok(StdTree {
            rt,
            here,
            errors: 0,
        })
    }

    /// Counts a call that failed.
    fn count(&mut self, failed: bool)
        ensures counted { self.new
            ≡ record self.old { faults = if failed then one_more self.old.faults else self.old.faults } }
        ensures never_falls { self.old.faults ≤ self.new.faults }
    {
        if failed {
            self.errors = self.errors.saturating_add(1);
        }
    }
}

/// The folder that the environment tells.
fn working_folder<R: Env + AllocGlobal>(rt: &R) -> Result<Dir, NoMemory> {
    match env::var(rt, "PWD") {
        Ok(text) => absolute_or_top(rt.alloc(), text.as_bytes()),
        Err(VarError::OutOfMemory) => Err(NoMemory),
        Err(_) => Dir::top(rt.alloc()),
    }
}

/// The folder that a text names, where it is an absolute path that names one, and else `/`.
fn absolute_or_top(alloc: Global, text: &[u8]) -> Result<Dir, NoMemory>
    ensures { IfOk result (λ folder. folder
        ≡ (if is_absolute text.now then unwrap_or (folder_at text.now (codes "/")) (codes "/") else codes "/")) }
{
    let top = Dir::top(alloc)?;
    if !text.starts_with(b"/".as_slice()) {
        return Ok(top);
    }
    match Dir::read(alloc, text, &top) {
        Ok(folder) => Ok(folder),
        Err(PathFault::Bad(_bad)) => Ok(top),
        Err(PathFault::NoMemory) => Err(NoMemory),
    }
}

impl<'a, R: Files + AllocGlobal> Tree for StdTree<'a, R> {
    ghost files = { λ _. None };

    ghost place = { λ s. s.here };

    ghost faults = { λ s. s.faults };

    fn here(&self) -> Result<Dir, NoMemory>
        ensures { IfOk result (λ folder. folder ≡ self.now.here) }
    {
        self.here.copy(self.rt.alloc())
    }

    fn list(&mut self, folder: &[u8], limit: u64) -> Result<Names, ListFault>
        ensures names { IfOk result (λ names. IfSome None (λ told. IsPermutation (names_in folder.now told) names)) }
        ensures paths { OnOk result (IfSome None AreFiles) }
        ensures within { IfOk result (λ names. length names ≤ limit) }
        ensures rose { IsErrOf result ListFault.Failed → Rose self.old.faults self.new.faults }
        ensures steady { (IsErrOf result ListFault.Failed → ⊥) → self.new.faults ≡ self.old.faults }
        ensures never_falls { self.old.faults ≤ self.new.faults }
        ensures same_place { self.new.here ≡ self.old.here }

        ensures err { IsErrOf result ListFault.Failed → self.new.faults ≡ one_more self.old.faults }
    {
        let listed = list_folder(self.rt, self.rt.alloc(), folder, limit);
        self.count(matches!(&listed, Err(ListFault::Failed)));
        listed
    }

    fn read(&mut self, path: &Path, limit: u64) -> Result<Bytes, ReadFault>
        ensures content { IfOk result (λ bytes. IfSome None (λ told. text_at path.now told ≡ Some bytes)) }
        ensures within { IfOk result (λ bytes. length bytes ≤ limit) }
        ensures rose { IsErrOf result ReadFault.Failed → Rose self.old.faults self.new.faults }
        ensures steady { (IsErrOf result ReadFault.Failed → ⊥) → self.new.faults ≡ self.old.faults }
        ensures never_falls { self.old.faults ≤ self.new.faults }
        ensures same_place { self.new.here ≡ self.old.here }

        ensures err { IsErrOf result ReadFault.Failed → self.new.faults ≡ one_more self.old.faults }
    {
        let bytes = read_file(self.rt, self.rt.alloc(), path.bytes(), limit);
        self.count(matches!(&bytes, Err(ReadFault::Failed)));
        bytes
    }
}
