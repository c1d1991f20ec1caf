//! The files that a pass reads.
ghost use Rattle.std.specs.Prelude.{◌≡◌, ℕ, List, Option, [], OnOk, OnErr, bytes_eq};
ghost use Rattle.std.specs.Option.{option_copied, option_map, is_some};
ghost use Rattle.cb_tree.specs.Skeleton.{Bone, skeleton};

use cb_include::Present;
use cb_paths::Path;
use cb_tree::Tree;

/// The files that a pass reads: a map from paths to trees.
pub trait Files: Present {
    /// The skeleton of the file at the path of these bytes, if it is present.
    ghost skeletons: { Self → List ℕ → Option (List Bone) };

    /// The tree of the file at a path, if it is present.
    fn tree(&self, path: &Path) -> Option<&Tree>
        ensures { option_map skeleton (option_copied result) ≡ skeletons self.now path.now };

    /// A file is present where it has a tree.
    ghost has_tree: { (files : Self) (path : List ℕ) → Self.holds files path ≡ is_some (skeletons files path) };
}
