//! Paths of sources.
ghost use Rattle.std.specs.Prelude.{◌≡◌, Some, IfOk, IfErr};
ghost use Rattle.cb_paths.specs.Paths.{path_of, path_fault, fitting, Tells};
ghost use Rattle.cb_paths.specs.inner.Trails.{IsBelow};
ghost use Rattle.cb_paths.specs.Languages.{language_of};

use crate::bad_path::{BadPath, PathFault};
use crate::bytes::Bytes;
use crate::language::Language;
use crate::limits::PATH_BYTE_LIMIT;
use crate::memory::NoMemory;
use crate::suffix::language_of;
use crate::trail::{Trail, has_control, is_absolute};
use std::alloc::Global;
use std::marker::Model;

/// A normal path below the top: parts with a slash between two, none of them empty, `.` or `..`. Contracts see it as its bytes.
#[derive(Drop)]
pub struct Path {
    text: Bytes,
}

impl Model for Path {
    ghost use Rattle.std.specs.Prelude.{◌≡◌, List, ℕ, Some};

    ghost Value = { List ℕ };

    ghost use Rattle.cb_paths.specs.Paths.{path_of};

    ghost view = { λ p. p.text };

    ghost invariant = { λ p. path_of p.text ≡ Some p.text };
}

impl Path {
    /// The normal path that a text names: empty parts and `.` are dropped, and a part goes away together with a `..` behind it. Refused
    /// where the text has more than 1,024 bytes, holds a control byte, begins with a slash or leads out of the top by a `..`, or where
    /// no part is left; the first of these decides.
    pub fn read(alloc: Global, text: &[u8]) -> Result<Path, PathFault>
        ensures path { IfOk result (λ p. path_of text.now ≡ Some p) }
        ensures bad { IfErr result (λ e. Tells e (path_fault text.now)) }
    {
        if text.len() > PATH_BYTE_LIMIT {
            return Err(PathFault::Bad(BadPath::TooLong));
        }
        if has_control(text) {
            return Err(PathFault::Bad(BadPath::Control));
        }
        if is_absolute(text) {
            return Err(PathFault::Bad(BadPath::Outside));
        }
        let mut trail = Trail::new(alloc);
        trail.walk(text)?;
        if trail.climbed {
            return Err(PathFault::Bad(BadPath::Outside));
        }
        if trail.text.len() == 0 {
            return Err(PathFault::Bad(BadPath::Empty));
        }
        let text = Bytes::from_slice(alloc, &trail.text[1..])?;
        Ok(Path { text })
    }

    /// The path of a text that is normal, unless it is too long or has a control byte.
    pub(crate) fn fitting(alloc: Global, text: &[u8]) -> Result<Option<Path>, NoMemory>
        requires { IsBelow text.now }
        ensures { IfOk result (λ p. p ≡ fitting text.now) }
    {
        if text.len() > PATH_BYTE_LIMIT {
            return Ok(None);
        }
        if has_control(text) {
            return Ok(None);
        }
        let text = Bytes::from_slice(alloc, text)?;
        Ok(Some(Path { text }))
    }

    /// The bytes of the path. Reading them gives the same path again.
    pub fn bytes(&self) -> &[u8]
        ensures bytes { result.now ≡ self.now }
        ensures normal { path_of self.now ≡ Some self.now }
    {
        self.text.as_slice()
    }

    /// A second path of the same bytes.
    pub fn copy(&self, alloc: Global) -> Result<Path, NoMemory>
        ensures { IfOk result (λ p. p ≡ self.now) }
    {
        let text = self.text.copy(alloc)?;
        Ok(Path { text })
    }

    /// The language of the source, by what follows the last `.` of the last part; none where no language has such a suffix.
    pub fn language(&self) -> Option<Language>
        ensures { result ≡ language_of self.now }
    {
        language_of(self.text.as_slice())
    }
}
