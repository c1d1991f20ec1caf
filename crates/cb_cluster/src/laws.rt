//! Laws of merges and classes.
ghost use Rattle.std.specs.Prelude.{ℕ, ◌≡◌, List, length};
ghost use Rattle.cb_diverge.specs.declared.fraction.Fraction.{Fraction};
ghost use Rattle.cb_cluster.specs.declared.link.Link.{Link};
ghost use Rattle.cb_cluster.specs.declared.merge.Merge.{Merge};
ghost use Rattle.cb_cluster.specs.Links.{links_of, pairs_of};
ghost use Rattle.cb_cluster.specs.Names.{singles, clusters_of};
ghost use Rattle.cb_cluster.specs.Merging.{AreMerges, names_after, HeightsRise};
ghost use Rattle.cb_cluster.specs.Chains.{AreClasses};

/// The heights of merges do not fall.
pub fn heights_rise()
    ensures { (links : List Link) (names : List ℕ) (ms : List Merge) → AreMerges links names ms → HeightsRise ms }
{}

/// There is one list of merges at most, and one list of classes at each height; and the classes are the clusters that stand
/// after the merges of at most that height.
pub fn one_clustering()
    ensures merges { (links : List Link) (names : List ℕ) (some other : List Merge)
        → AreMerges links names some → AreMerges links names other → some ≡ other }
    ensures classes { (links : List Link) (count : ℕ) (h : Fraction) (some other : List (List ℕ))
        → AreClasses links count h some → AreClasses links count h other → some ≡ other }
    ensures agree { (count : ℕ) (pairs : List Fraction) (h : Fraction) (ms : List Merge) (classes : List (List ℕ))
        → AreMerges (links_of count pairs) (singles count) ms → AreClasses (links_of count pairs) count h classes
        → classes ≡ clusters_of (names_after h (singles count) ms) }
{}
