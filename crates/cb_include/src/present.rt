//! Which paths are present.
ghost use Rattle.std.specs.Prelude.{◌≡◌, ℕ, Bool, List};

use cb_paths::Path;

/// What tells which paths are present.
pub trait Present {
    /// Whether there is a file at the path of these bytes.
    ghost holds: { Self → List ℕ → Bool };

    /// Whether there is a file at the path.
    fn has(&self, path: &Path) -> bool
        ensures { result ≡ holds self.now path.now };
}
