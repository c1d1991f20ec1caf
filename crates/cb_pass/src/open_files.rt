//! The files that are being read.
ghost use Rattle.std.specs.Prelude.{◌≡◌, ◌∷◌, [], IfOk, OnOk};
ghost use Rattle.cb_pass.specs.inner.Moves.{Arrives};

use crate::open_file::OpenFile;
use cb_paths::NoMemory;
use cb_tree::NodeKind;
use std::alloc::Global;
use std::marker::Model;
use std::mem;

/// The files that are being read: the innermost one, and those around it.
#[derive(Drop)]
pub(crate) struct OpenFiles<'a> {
    pub(crate) innermost: OpenFile<'a>,
    /// The files around it, the outermost one first.
    around: Vec<OpenFile<'a>>,
}

impl<'a> Model for OpenFiles<'a> {
    ghost use Rattle.std.specs.Prelude.{List, ◌∷◌, reverse};
    ghost use Rattle.cb_pass.specs.inner.Trails.{Opened};

    ghost Value = { List Opened };

    ghost view = { λ f. f.innermost ∷ reverse f.around.items };
}

impl<'a> OpenFiles<'a> {
    /// One file.
    pub(crate) fn new(alloc: Global, file: OpenFile<'a>) -> OpenFiles<'a>
        ensures { result ≡ file.entry ∷ [] }
    {
        OpenFiles {
            innermost: file,
            around: Vec::new(alloc),
        }
    }

    /// Enters a file.
    pub(crate) fn enter(&mut self, file: OpenFile<'a>) -> Result<(), NoMemory>
        ensures { OnOk result (self.new ≡ file.entry ∷ self.old) }
    {
        let outer = mem::replace(&mut self.innermost, file);
        match self.around.push(outer) {
            Ok(()) => Ok(()),
            Err(_refused) => Err(NoMemory),
        }
    }

    /// Goes to the next node that is reached, and answers its kind; none where all files end.
    pub(crate) fn settle(&mut self) -> Result<Option<NodeKind>, NoMemory>
        ensures { IfOk result (λ kind. Arrives self.old self.new kind) }
    {
        'files: loop {
            if let Some(kind) = self.innermost.settle()? {
                return Ok(Some(kind));
            }
            match self.around.pop() {
                Some(file) => self.innermost = file,
                None => return Ok(None),
            }
        }
    }
}
