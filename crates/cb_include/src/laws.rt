//! Laws of commands, of searches and of the paths that they ask about.
ghost use Rattle.std.specs.Prelude.{◌≡◌, ℕ, Bool, true, ◌||◌, ◌++◌, List, Some};
ghost use Rattle.std.specs.Bool.{Decides};
ghost use Rattle.std.specs.List.{find};
ghost use Rattle.cb_include.specs.Seen.{has_path, with_paths, up_to};
ghost use Rattle.cb_include.specs.declared.op.Op.{Op};
ghost use Rattle.cb_include.specs.declared.command.Command.{Command};

use crate::command::Command;
use crate::op::Op;

/// Comparison decides whether definitions are the same, and whether commands are.
pub fn same_values()
    ensures ops { (some other : Op) → Decides (⟦<Op as PartialEq>⟧.eq some other) (some ≡ other) }
    ensures commands { (some other : Command) → Decides (⟦<Command as PartialEq>⟧.eq some other) (some ≡ other) }
{}

/// A search depends on nothing but its probes: where a second test agrees with a first one on the paths up to the first
/// that passes, it finds the same path, after the same ones. And the path that is found passes, and is among those
/// asked about.
pub fn one_search()
    ensures found { (some other : List ℕ → Bool) (paths : List (List ℕ))
        → ((path : List ℕ) → has_path (up_to some paths) path ≡ true → some path ≡ other path)
        → find other paths ≡ find some paths }
    ensures probed { (some other : List ℕ → Bool) (paths : List (List ℕ))
        → ((path : List ℕ) → has_path (up_to some paths) path ≡ true → some path ≡ other path)
        → up_to other paths ≡ up_to some paths }
    ensures present { (some : List ℕ → Bool) (found : List ℕ) (paths : List (List ℕ)) → find some paths ≡ Some found
        → some found ≡ true }
    ensures asked { (some : List ℕ → Bool) (found : List ℕ) (paths : List (List ℕ)) → find some paths ≡ Some found
        → has_path (up_to some paths) found ≡ true }
{}

/// Paths that are added stand behind those that are there, which keep their places; and no other path is there then.
pub fn added_paths()
    ensures has { (old others : List (List ℕ)) (path : List ℕ)
        → has_path (with_paths old others) path ≡ (has_path old path || has_path others path) }
    ensures longer { (old others : List (List ℕ)) → (more : List (List ℕ)) × (with_paths old others ≡ old ++ more) }
{}
