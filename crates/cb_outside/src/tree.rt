//! A tree of files.
ghost use Rattle.std.specs.Prelude.{◌≡◌, ℕ, ◌<◌, ◌≤◌, List, length, Option, Some, None};
ghost use Rattle.std.specs.Prelude.{IfOk, IfSome, IsSomeAnd, IsErrOf, OnOk};
ghost use Rattle.std.specs.List.Sorted.{IsPermutation};
ghost use Rattle.cb_outside.specs.Outside.{Rose};
ghost use Rattle.cb_outside.specs.Tables.{Texts, text_at};
ghost use Rattle.cb_outside.specs.Trees.{AreFiles, names_in};

use crate::names::Names;
use crate::tree_faults::{ListFault, ReadFault};
use cb_paths::{Bytes, Dir, NoMemory, Path};

/// A tree of files, which no call changes.
pub trait Tree {
    /// The files by their paths, where the object tells them.
    ghost files: { Self → Option Texts };

    /// The folder in which the program runs.
    ghost place: { Self → List ℕ };

    /// How many calls have failed. It never falls.
    ghost faults: { Self → ℕ };

    /// The folder in which the program runs.
    fn here(&self) -> Result<Dir, NoMemory>
        ensures { IfOk result (λ folder. folder ≡ place self.now) };

    /// The names in a folder, in any order. The folder is the bytes of its path, and the top is the empty text.
    /// `TooMany` where there are more than `limit`.
    fn list(&mut self, folder: &[u8], limit: u64) -> Result<Names, ListFault>
        ensures names { IfOk result
            (λ names. IfSome (files self.old) (λ told. IsPermutation (names_in folder.now told) names)) }
        ensures paths { OnOk result (IfSome (files self.old) AreFiles) }
        ensures within { IfOk result (λ names. length names ≤ limit) }
        ensures too_many { IsErrOf result ListFault.TooMany
            → IfSome (files self.old) (λ told. limit < length (names_in folder.now told)) }
        ensures failed { IsErrOf result ListFault.Failed → Rose (faults self.old) (faults self.new) }
        ensures steady { (IsErrOf result ListFault.Failed → ⊥) → faults self.new ≡ faults self.old }
        ensures never_falls { faults self.old ≤ faults self.new }
        ensures unchanged { files self.new ≡ files self.old }
        ensures same_place { place self.new ≡ place self.old };

    /// The bytes of a file. `Absent` where there is no such file, and `TooLong` where it has more than `limit` bytes.
    fn read(&mut self, path: &Path, limit: u64) -> Result<Bytes, ReadFault>
        ensures content { IfOk result (λ bytes. IfSome (files self.old) (λ told. text_at path.now told ≡ Some bytes)) }
        ensures within { IfOk result (λ bytes. length bytes ≤ limit) }
        ensures absent { IsErrOf result ReadFault.Absent
            → IfSome (files self.old) (λ told. text_at path.now told ≡ None) }
        ensures too_long { IsErrOf result ReadFault.TooLong
            → IfSome (files self.old) (λ told. IsSomeAnd (text_at path.now told) (λ bytes. limit < length bytes)) }
        ensures failed { IsErrOf result ReadFault.Failed → Rose (faults self.old) (faults self.new) }
        ensures steady { (IsErrOf result ReadFault.Failed → ⊥) → faults self.new ≡ faults self.old }
        ensures never_falls { faults self.old ≤ faults self.new }
        ensures unchanged { files self.new ≡ files self.old }
        ensures same_place { place self.new ≡ place self.old };
}
