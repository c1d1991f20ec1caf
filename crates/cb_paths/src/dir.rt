//! Folders.
ghost use Rattle.std.specs.Prelude.{◌≡◌, ◌++◌, [], ◌∷◌, List, ℕ, true, Some, IfOk, IfErr, IfSome, IfNone, if◌then◌else◌, codes};
ghost use Rattle.std.specs.List.{list_all};
ghost use Rattle.cb_paths.specs.Parts.{parts_of, rooted};
ghost use Rattle.cb_paths.specs.Paths.{Tells, is_absolute, folder_text, folder_at, folder_fault, file_at, folder_of, holding_fault};
ghost use Rattle.cb_paths.specs.inner.Trails.{Stands, is_plain};

use crate::bad_path::{BadPath, PathFault};
use crate::bytes::Bytes;
use crate::limits::FOLDER_BYTE_LIMIT;
use crate::memory::NoMemory;
use crate::path::Path;
use crate::trail::{Trail, has_control, is_absolute};
use std::alloc::Global;
use std::marker::Model;

/// An absolute normal folder: `/`, or parts with a slash before each, none of them empty, `.` or `..`. Contracts see it as its bytes.
#[derive(Drop)]
pub struct Dir {
    text: Bytes,
}

impl Model for Dir {
    ghost use Rattle.std.specs.Prelude.{List, ℕ};

    ghost Value = { List ℕ };

    ghost use Rattle.cb_paths.specs.inner.Trails.{IsFolder};

    ghost view = { λ d. d.text };

    ghost invariant = { λ d. IsFolder d.text };
}

/// The walk over the parts that a text names from a folder.
fn trail_from(alloc: Global, text: &[u8], base: &[u8]) -> Result<Trail, NoMemory>
    ensures { IfOk result (Stands ((if is_absolute text.now then [] else parts_of base.now) ++ parts_of text.now)) }
{
    let mut trail = Trail::new(alloc);
    if is_absolute(text) {
        trail.walk(text)?;
        return Ok(trail);
    }
    trail.walk(base)?;
    trail.walk(text)?;
    Ok(trail)
}

/// The text of the folder at which a walk stands.
fn text_of(alloc: Global, trail: &Trail) -> Result<Bytes, NoMemory>
    ensures { IfOk result (λ text. (parts : List (List ℕ)) → trail.now.text.items ≡ rooted parts → text ≡ folder_text parts) }
{
    if trail.text.len() == 0 {
        return Bytes::from_slice(alloc, b"/");
    }
    Bytes::from_slice(alloc, trail.text.as_slice())
}

impl Dir {
    /// The folder `/`.
    pub fn top(alloc: Global) -> Result<Dir, NoMemory>
        ensures { IfOk result (λ d. d ≡ codes "/") }
    {
        let text = Bytes::from_slice(alloc, b"/")?;
        Ok(Dir { text })
    }

    /// The folder that a text names: from the top where it begins with a slash, else from `base`; a `..` at the top stays there.
    /// Refused where the text or the folder has more than 4,096 bytes, and else where the text holds a control byte.
    pub fn read(alloc: Global, text: &[u8], base: &Dir) -> Result<Dir, PathFault>
        ensures folder { IfOk result (λ d. folder_at text.now base.now ≡ Some d) }
        ensures bad { IfErr result (λ e. Tells e (folder_fault text.now base.now)) }
    {
        if text.len() > FOLDER_BYTE_LIMIT {
            return Err(PathFault::Bad(BadPath::TooLong));
        }
        let trail = trail_from(alloc, text, base.text.as_slice())?;
        let folder = text_of(alloc, &trail)?;
        if folder.len() > FOLDER_BYTE_LIMIT {
            return Err(PathFault::Bad(BadPath::TooLong));
        }
        if has_control(text) {
            return Err(PathFault::Bad(BadPath::Control));
        }
        Ok(Dir { text: folder })
    }

    /// The bytes of the folder. Reading them, from any folder, gives the same folder again.
    pub fn bytes(&self) -> &[u8]
        ensures bytes { result.now ≡ self.now }
        ensures normal { (base : List ℕ) → folder_at self.now base ≡ Some self.now }
    {
        self.text.as_slice()
    }

    /// A second folder of the same bytes.
    pub fn copy(&self, alloc: Global) -> Result<Dir, NoMemory>
        ensures { IfOk result (λ d. d ≡ self.now) }
    {
        let text = self.text.copy(alloc)?;
        Ok(Dir { text })
    }

    /// The folder of a path below a root. Refused only where it has more than 4,096 bytes.
    pub fn folder_of(alloc: Global, root: &Dir, path: &Path) -> Result<Dir, PathFault>
        ensures folder { IfOk result (λ d. folder_of root.now path.now ≡ Some d) }
        ensures bad { IfErr result (λ e. Tells e (holding_fault root.now path.now)) }
    {
        let trail = trail_above(alloc, root.text.as_slice(), path.bytes())?;
        let folder = text_of(alloc, &trail)?;
        if folder.len() > FOLDER_BYTE_LIMIT {
            return Err(PathFault::Bad(BadPath::TooLong));
        }
        Ok(Dir { text: folder })
    }

    /// The path below a root that a text names, read from `base` as a folder is; none where it names none below the root, or one that
    /// has more than 1,024 bytes or a control byte.
    pub fn file(
        alloc: Global,
        text: &[u8],
        base: &Dir,
        root: &Dir,
    ) -> Result<Option<Path>, NoMemory>
        ensures { IfOk result (λ p. p ≡ file_at text.now base.now root.now) }
    {
        let trail = trail_from(alloc, text, base.text.as_slice())?;
        match behind(front_of(root.text.as_slice()), trail.text.as_slice()) {
            Some(rest) => Path::fitting(alloc, rest),
            None => Ok(None),
        }
    }
}

/// The walk over the parts of a root and of a path, and up from it.
fn trail_above(alloc: Global, root: &[u8], path: &[u8]) -> Result<Trail, NoMemory>
    ensures { IfOk result (Stands (parts_of root.now ++ parts_of path.now ++ parts_of (codes ".."))) }
{
    let mut trail = Trail::new(alloc);
    trail.walk(root)?;
    trail.walk(path)?;
    trail.walk(b"..")?;
    Ok(trail)
}

/// The text of a folder without the slash of the top.
fn front_of(folder: &[u8]) -> &[u8]
    ensures { (parts : List (List ℕ)) → list_all is_plain parts ≡ true → folder.now ≡ folder_text parts → result.now ≡ rooted parts }
{
    if folder.len() == 1 {
        &folder[..0]
    } else {
        folder
    }
}

/// What stands behind a front and a slash.
fn behind<'a>(front: &[u8], text: &'a [u8]) -> Option<&'a [u8]>
    ensures some { IfSome result (λ rest. text.now ≡ front.now ++ 47 ∷ rest.now) }
    ensures none { IfNone result ((rest : List ℕ) → text.now ≡ front.now ++ 47 ∷ rest → ⊥) }
{
    let len = front.len();
    if text.len() <= len {
        return None;
    }
    if text[len] != b'/' {
        return None;
    }
    if &text[..len] != front {
        return None;
    }
    Some(&text[len + 1..])
}
