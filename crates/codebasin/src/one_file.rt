//! One source as the files of a pass.
ghost use Rattle.std.specs.Prelude.{◌≡◌, bytes_eq};
ghost use Rattle.codebasin.specs.Specialise.{source_path, only};

use cb_include::Present;
use cb_pass::Files;
use cb_paths::Path;
use cb_tree::Tree;

/// The path of the source.
pub(crate) const SOURCE_PATH: &[u8] = b"input.c";

/// The files of a pass over one source: that source alone.
#[derive(Clone, Copy)]
pub(crate) struct OneFile<'a> {
    /// The tree of the source.
    pub(crate) tree: &'a Tree,
}

impl Present for OneFile<'_> {
    ghost holds = { λ file path. bytes_eq path source_path };

    fn has(&self, path: &Path) -> bool {
        path.bytes() == SOURCE_PATH
    }
}

impl Files for OneFile<'_> {
    ghost skeletons = { λ file path. only file.tree.now path };

    ghost use Rattle.codebasin.specs.inner.OneFile.{only_has_tree};

    ghost has_tree = { λ file path. only_has_tree file.tree.now path };

    fn tree(&self, path: &Path) -> Option<&Tree> {
        if self.has(path) {
            Some(self.tree)
        } else {
            None
        }
    }
}
