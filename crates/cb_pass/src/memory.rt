//! What a pass knows apart from where it stands.
ghost use Rattle.std.specs.Prelude.{◌≡◌, Bool, IfOk, OnOk, []};
ghost use Rattle.cb_include.specs.Seen.{has_path, with_path};
ghost use Rattle.cb_macro.specs.Maps.{found, IsChange};
ghost use Rattle.cb_pass.specs.Answers.{Defines};
ghost use Rattle.cb_pass.specs.Passes.{first_macros};
ghost use Rattle.cb_pass.specs.States.{State};
ghost use Rattle.cb_pass.specs.Steps.{with_note, answered};
ghost use Rattle.cb_pass.specs.inner.Memos.{with_memo};

use crate::note::NoteKind;
use crate::note_list::Notes;
use crate::starting::first_macros;
use cb_include::Once;
use cb_macro::{Defined, Macros};
use cb_paths::{Language, NoMemory, Path};
use std::alloc::Global;
use std::marker::Model;

/// The macros of a pass, the files that it does not enter again, and its notes.
#[derive(Drop)]
pub(crate) struct Memory {
    pub(crate) macros: Macros,
    pub(crate) once: Once,
    pub(crate) notes: Notes,
}

impl Model for Memory {
    ghost use Rattle.cb_pass.specs.inner.Memos.{Memo};

    ghost Value = { Memo };

    ghost view = { λ m. record { macros = m.macros; once = m.once; notes = m.notes } };
}

impl Memory {
    /// The macros at the start of a source in a language, no file and no note.
    pub(crate) fn new(alloc: Global, language: Language) -> Result<Memory, NoMemory>
        ensures { IfOk result (λ m. m ≡ record { macros = first_macros language; once = []; notes = [] }) }
    {
        Ok(Memory {
            macros: first_macros(alloc, language)?,
            once: Once::new(alloc),
            notes: Notes::new(alloc),
        })
    }

    /// Leaves a note, unless it is there.
    pub(crate) fn note(
        &mut self,
        alloc: Global,
        path: &Path,
        node: u32,
        kind: NoteKind,
        detail: &[u8],
    ) -> Result<(), NoMemory>
        ensures { OnOk result ((s : State) → with_memo self.new s
            ≡ with_note (record { path = path.now; node = node }) kind detail.now (with_memo self.old s)) }
    {
        self.notes.leave(alloc, path, node, kind, detail)
    }

    /// Enters a file no more.
    pub(crate) fn read_once(&mut self, alloc: Global, path: &Path) -> Result<(), NoMemory>
        ensures { OnOk result ((s : State) → with_memo self.new s
            ≡ record (with_memo self.old s) { once = with_path self.old.once path.now }) }
    {
        self.once.add(alloc, path)
    }

    /// Whether a file is not entered again.
    pub(crate) fn is_read_once(&self, path: &Path) -> bool
        ensures { result ≡ has_path self.now.once path.now }
    {
        self.once.has(path)
    }

    /// Defines a macro, and notes it where another definition stood.
    pub(crate) fn define(
        &mut self,
        alloc: Global,
        path: &Path,
        node: u32,
        defined: Defined,
    ) -> Result<(), NoMemory>
        ensures { OnOk result ((different : Bool)
            × IsChange (found self.old.macros defined.name) defined.body different
            × ((s : State) → with_memo self.new s
            ≡ answered (record { path = path.now; node = node }) [] (Defines defined.name defined.body different)
            (with_memo self.old s))) }
    {
        let name = defined.name.copy(alloc)?;
        let different = self.macros.define(alloc, defined)?;
        if different {
            self.notes
                .leave(alloc, path, node, NoteKind::Redefined, name.as_slice())?;
        }
        Ok(())
    }
}
