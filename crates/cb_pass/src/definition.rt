//! What `#define`, `#undef`, `-D` and `-U` do, and the directives that only leave something to be known.
ghost use Rattle.std.specs.Prelude.{◌≡◌, ℕ, Bool, List, IfOk, OnOk, MatchResult};
ghost use Rattle.cb_paths.specs.declared.language.Language.{Language as Tongue};
ghost use Rattle.cb_tokens.specs.declared.token.Token.{Token as Piece};
ghost use Rattle.std.specs.Option.{option_copied};
ghost use Rattle.cb_macro.specs.Maps.{found, IsChange};
ghost use Rattle.cb_macro.specs.declared.fault.DefineFault.TheVariants as faults;
ghost use Rattle.cb_include.specs.declared.op.Op.{Op as Told};
ghost use Rattle.cb_pass.specs.Answers.{Answer as Said, Defines, Wordless, IsAnswered, Word, undefines_or_not};
ghost use Rattle.cb_pass.specs.States.{State};
ghost use Rattle.cb_pass.specs.Steps.{answered, word_of};
ghost use Rattle.cb_pass.specs.inner.Memos.{with_memo};
ghost use Rattle.cb_pass.specs.inner.Moves.{HasEffect};
ghost use Rattle.cb_tree.specs.declared.node.NodeKind.TheVariants as kinds;

use crate::effect::Effect;
use crate::memory::Memory;
use crate::note::NoteKind;
use cb_include::Op;
use cb_macro::{DefineFault, Defined, define_word, read_define, undef_name, undef_word};
use cb_paths::{Bytes, NoMemory, Path};
use cb_tokens::Token;
use std::alloc::Global;

impl Memory {
    /// Defines what was read as a definition, or notes that it is none, with this word.
    fn define_read(
        &mut self,
        alloc: Global,
        path: &Path,
        node: u32,
        read: Result<Defined, DefineFault>,
        word: &[u8],
    ) -> Result<(), NoMemory>
        ensures { OnOk result (MatchResult read
            (λ defined. (different : Bool) × IsChange (found self.old.macros defined.name) defined.body different
            × ((s : State) → with_memo self.new s ≡ answered (record { path = path.now; node = node }) word.now
            (Defines defined.name defined.body different) (with_memo self.old s)))
            (λ fault. (fault ≡ faults.Bad) × ((s : State) → with_memo self.new s
            ≡ answered (record { path = path.now; node = node }) word.now Wordless (with_memo self.old s)))) }
    {
        match read {
            Ok(defined) => {
                self.define(alloc, path, node, defined)?;
                Ok(())
            }
            Err(DefineFault::Bad) => self.note(alloc, path, node, NoteKind::BadDefine, word),
            Err(DefineFault::NoMemory) => Err(NoMemory),
        }
    }

    /// Undefines a name, or notes that there is none, with this word.
    fn undefine(
        &mut self,
        alloc: Global,
        path: &Path,
        node: u32,
        name: Option<&[u8]>,
        word: &[u8],
    ) -> Result<(), NoMemory>
        ensures { OnOk result ((s : State) → with_memo self.new s
            ≡ answered (record { path = path.now; node = node }) word.now
            (undefines_or_not (option_copied name.entry)) (with_memo self.old s)) }
    {
        match name {
            Some(name) => {
                self.macros.undef(name);
                Ok(())
            }
            None => {
                self.note(alloc, path, node, NoteKind::BadDefine, word)?;
                Ok(())
            }
        }
    }

    /// `#define`
    pub(crate) fn define_tokens(
        &mut self,
        alloc: Global,
        path: &Path,
        node: u32,
        tokens: &[Token],
    ) -> Result<Effect, NoMemory>
        ensures { IfOk result (λ e. (language : Tongue)
            → HasEffect language kinds.Define (record { path = path.now; node = node }) tokens.now
            self.old self.new e.condition e.header) }
    {
        let read = read_define(alloc, tokens);
        self.define_read(alloc, path, node, read, b"")?;
        Ok(Effect::nothing())
    }

    /// `#undef`
    pub(crate) fn undef_tokens(
        &mut self,
        alloc: Global,
        path: &Path,
        node: u32,
        tokens: &[Token],
    ) -> Result<Effect, NoMemory>
        ensures { IfOk result (λ e. (language : Tongue)
            → HasEffect language kinds.Undef (record { path = path.now; node = node }) tokens.now
            self.old self.new e.condition e.header) }
    {
        self.undefine(alloc, path, node, undef_name(tokens), b"")?;
        Ok(Effect::nothing())
    }

    /// `#pragma once`
    pub(crate) fn once(&mut self, alloc: Global, path: &Path) -> Result<Effect, NoMemory>
        ensures { IfOk result (λ e. (language : Tongue) (node : ℕ) (tokens : List Piece)
            → HasEffect language kinds.Once (record { path = path.now; node = node }) tokens
            self.old self.new e.condition e.header) }
    {
        self.read_once(alloc, path)?;
        Ok(Effect::nothing())
    }

    /// `#error`
    pub(crate) fn error(
        &mut self,
        alloc: Global,
        path: &Path,
        node: u32,
    ) -> Result<Effect, NoMemory>
        ensures { IfOk result (λ e. (language : Tongue) (tokens : List Piece)
            → HasEffect language kinds.Error (record { path = path.now; node = node }) tokens
            self.old self.new e.condition e.header) }
    {
        self.note(alloc, path, node, NoteKind::ErrorReached, b"")?;
        Ok(Effect::nothing())
    }

    /// A word of `-D` or `-U`.
    pub(crate) fn take_word(&mut self, alloc: Global, path: &Path, op: &Op) -> Result<(), NoMemory>
        ensures { OnOk result ((language : Tongue) → (answer : Said)
            × IsAnswered language self.old.macros (Word op.now) answer
            × ((s : State) → with_memo self.new s
            ≡ answered (record { path = path.now; node = 0 }) (word_of op.now) answer (with_memo self.old s))) }
    {
        match op {
            Op::Define(word) => {
                let read = define_word(alloc, word.as_slice());
                self.define_read(alloc, path, 0, read, word.as_slice())
            }
            Op::Undef(word) => {
                let name = undef_word(alloc, word.as_slice())?;
                self.undefine(alloc, path, 0, bytes_of(&name), word.as_slice())
            }
        }
    }
}

/// The bytes of a name.
fn bytes_of(name: &Option<Bytes>) -> Option<&[u8]>
    ensures { option_copied result ≡ name.now }
{
    match name {
        Some(name) => Some(name.as_slice()),
        None => None,
    }
}
