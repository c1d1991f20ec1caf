//! The notes of a pass.
ghost use Rattle.std.specs.Prelude.{◌≡◌, [], OnOk};
ghost use Rattle.cb_pass.specs.Notes.{noted};

use crate::note::{Note, NoteKind};
use cb_paths::{Bytes, NoMemory, Path};
use indexmap::IndexSet;
use std::alloc::Global;
use std::marker::Model;

/// The notes of a pass, each once, which contracts see as the list of them in the order in which they were left first.
#[derive(Drop)]
pub(crate) struct Notes {
    notes: IndexSet<Note>,
}

impl Model for Notes {
    ghost use Rattle.std.specs.Prelude.{List};
    ghost use Rattle.cb_pass.specs.declared.note.Note.{Note};

    ghost Value = { List Note };

    ghost view = { λ n. n.notes.keys };
}

impl Notes {
    /// No note. It takes no memory until the first one is left.
    pub(crate) fn new(alloc: Global) -> Notes
        ensures { result ≡ [] }
    {
        Notes {
            notes: IndexSet::new(alloc),
        }
    }

    /// Leaves a note, unless it is there.
    #[tactic(auto, unfolding(crate::specs::Notes::noted))]
    pub(crate) fn leave(
        &mut self,
        alloc: Global,
        path: &Path,
        node: u32,
        kind: NoteKind,
        detail: &[u8],
    ) -> Result<(), NoMemory>
        ensures { OnOk result (self.new
            ≡ noted (record { path = path.now; node = node; kind = kind; detail = detail.now }) self.old) }
    {
        let path = path.copy(alloc)?;
        let detail = Bytes::from_slice(alloc, detail)?;
        let note = Note {
            path,
            node,
            kind,
            detail,
        };
        self.notes.insert(note)?;
        Ok(())
    }

    /// The notes in order.
    pub(crate) fn as_slice(&self) -> &[Note]
        ensures { result.now ≡ self.now }
    {
        self.notes.as_slice()
    }
}
