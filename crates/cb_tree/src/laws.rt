//! Laws of the readings and nestings of sources.
ghost use Rattle.std.specs.Prelude.{List, ℕ, ◌≡◌};
ghost use Rattle.cb_tree.specs.Groups.{kinds_of};
ghost use Rattle.cb_tree.specs.Nesting.{places_of, places_from};
ghost use Rattle.cb_tree.specs.Nodes.{Node, AreCounted};
ghost use Rattle.cb_tree.specs.Sound.{IsRead, Reading, Sound};
ghost use Rattle.cb_tree.specs.declared.part.Part.{Part};

use cb_tokens::{one_cut, some_cut};

/// A source is read in one way: as the nodes of its one cut, or as its first fault.
pub fn one_reading()
    ensures { (source : List ℕ) (a b : Reading) → IsRead source a → IsRead source b → a ≡ b }
{
    one_cut();
}

/// Every source has a reading, and the nodes of a sound one are counted: each has a line, and no line stands in two.
pub fn every_reading()
    ensures some { (source : List ℕ) → (reading : Reading) × IsRead source reading }
    ensures counted { (source : List ℕ) (nodes : List Node) → IsRead source (Sound nodes) → AreCounted nodes }
{
    some_cut();
}

/// Nodes are nested in one way at most: parts in which these nodes stand in order, each in its role, are the same.
pub fn one_nesting()
    ensures { (nodes : List Node) (a b : List Part) → places_of a ≡ places_from 1 (kinds_of nodes)
        → places_of b ≡ places_from 1 (kinds_of nodes) → a ≡ b }
{}
