//! An analysis.
ghost use Rattle.std.specs.Prelude.{◌≡◌, ◌≤◌, length, option_map};
ghost use Rattle.std.specs.List.Sorted.{IsStrictlySortedBy};
ghost use Rattle.std.specs.Ordering.{nat_cmp};
ghost use Rattle.std.specs.Cmp.Lexicographic.{slice_cmp};
ghost use Rattle.cb_analysis.specs.Analyses.{some_match};

use crate::pattern::Pattern;
use crate::platform::Platform;
use cb_paths::{Bytes, Path};
use std::marker::Model;

/// What an analysis file says. Contracts see it as its contents.
#[derive(Drop)]
pub struct Analysis {
    pub(crate) platforms: Vec<Platform>,
    pub(crate) root: Option<Bytes>,
    pub(crate) exclude: Vec<Pattern>,
    pub(crate) skip: Vec<Pattern>,
}

impl Model for Analysis {
    ghost use Rattle.cb_analysis.specs.Analyses.{Contents, ArePlatforms};

    ghost Value = { Contents };

    ghost view = { λ a. record { platforms = a.platforms.items; root = a.root; exclude = a.exclude.items; skip = a.skip.items } };

    ghost invariant = { λ a. ArePlatforms a.platforms.items };
}

/// Whether one of the patterns matches a path.
fn some_match(patterns: &[Pattern], path: &[u8]) -> bool
    ensures { result ≡ some_match patterns.now path.now }
{
    patterns.iter().any(|pattern| pattern.matches(path))
}

impl Analysis {
    ghost use Rattle.cb_analysis.specs.Analyses.{names_of, counts, skips};

    /// The platforms, by the bytes of their names. There are at most 32.
    pub fn platforms(&self) -> &[Platform]
        ensures platforms { result.now ≡ self.now.platforms }
        ensures rising { IsStrictlySortedBy (slice_cmp nat_cmp) (names_of self.now.platforms) }
        ensures few { length self.now.platforms ≤ 32 }
    {
        self.platforms.as_slice()
    }

    /// The text at `codebase.root`, which names the folder that the databases mean by the top.
    pub fn root(&self) -> Option<&[u8]>
        ensures { option_map (λ root. root.now) result ≡ self.now.root }
    {
        match &self.root {
            Some(root) => Some(root.as_slice()),
            None => None,
        }
    }

    /// Whether the source at a path counts: no pattern of `codebase.exclude` matches the path.
    pub fn counts(&self, path: &Path) -> bool
        ensures { result ≡ counts self.now path.now }
    {
        !some_match(self.exclude.as_slice(), path.bytes())
    }

    /// Whether the file at a path is kept from being loaded: a pattern of `codebase.skip` matches the path.
    pub fn skips(&self, path: &Path) -> bool
        ensures { result ≡ skips self.now path.now }
    {
        some_match(self.skip.as_slice(), path.bytes())
    }
}
