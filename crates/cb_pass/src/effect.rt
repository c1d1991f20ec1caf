//! What a directive does, but for its section and for the file that it includes.
ghost use Rattle.std.specs.Prelude.{◌≡◌, false, [], None, IfOk, OnOk};
ghost use Rattle.std.specs.Option.{option_copied};
ghost use Rattle.cb_paths.specs.declared.language.Language.{Language as Tongue};
ghost use Rattle.cb_pass.specs.States.{State};
ghost use Rattle.cb_pass.specs.Steps.{answered, first_name, has_macro, lacks_macro, name_noted, truth as holds_in};
ghost use Rattle.cb_pass.specs.inner.Memos.{with_memo};
ghost use Rattle.cb_pass.specs.inner.Moves.{HasEffect, named_by};
ghost use Rattle.cb_pass.specs.inner.Said.{said};
ghost use Rattle.cb_tree.specs.declared.node.NodeKind.TheVariants as kinds;

use crate::answer::{Reply, header_named, truth};
use crate::memory::Memory;
use crate::note::NoteKind;
use cb_include::Header;
use cb_macro::Macros;
use cb_paths::{Language, NoMemory, Path};
use cb_tokens::Token;
use cb_tree::NodeKind;
use std::alloc::Global;

/// What a directive says to the walk.
#[derive(Drop)]
pub(crate) struct Effect {
    /// Whether its condition holds; false where it has none.
    pub(crate) condition: bool,
    /// The header that it names.
    pub(crate) header: Option<Header>,
}

impl Effect {
    /// It says nothing.
    pub(crate) fn nothing() -> Effect
        ensures { result ≡ record { condition = false; header = None } }
    {
        Effect {
            condition: false,
            header: None,
        }
    }

    /// It has this condition.
    fn of_condition(condition: bool) -> Effect
        ensures { result ≡ record { condition = condition; header = None } }
    {
        Effect {
            condition,
            header: None,
        }
    }
}

/// Whether a condition holds by its reply.
fn holds(reply: &Reply) -> bool
    ensures { result ≡ holds_in (said reply.now) }
{
    match reply {
        Reply::Holds(holds) => *holds,
        Reply::Faulty(_) => false,
        Reply::Names(_) => false,
        Reply::Nameless => false,
        Reply::Long => false,
    }
}

/// The header that a reply names.
fn header_in(reply: Reply) -> Option<Header>
    ensures { result ≡ named_by (said reply) }
{
    match reply {
        Reply::Names(header) => Some(header),
        Reply::Holds(_) => None,
        Reply::Faulty(_) => None,
        Reply::Nameless => None,
        Reply::Long => None,
    }
}

/// The identifier that stands first.
fn first_name(tokens: &[Token]) -> Option<&[u8]>
    ensures { option_copied result ≡ first_name tokens.now }
{
    match tokens {
        [] => None,
        [token, ..] => {
            if token.is_identifier() {
                Some(token.text.as_slice())
            } else {
                None
            }
        }
    }
}

/// Whether a name is there and is defined.
fn has_macro(macros: &Macros, name: Option<&[u8]>) -> bool
    ensures { result ≡ has_macro (option_copied name.entry) macros.now }
{
    match name {
        Some(name) => macros.get(name).is_some(),
        None => false,
    }
}

/// Whether a name is there and is not defined.
fn lacks_macro(macros: &Macros, name: Option<&[u8]>) -> bool
    ensures { result ≡ lacks_macro (option_copied name.entry) macros.now }
{
    match name {
        Some(name) => macros.get(name).is_none(),
        None => false,
    }
}

impl Memory {
    /// Notes what is wrong with a reply.
    fn note_reply(
        &mut self,
        alloc: Global,
        path: &Path,
        node: u32,
        reply: &Reply,
    ) -> Result<(), NoMemory>
        ensures { OnOk result ((s : State) → with_memo self.new s
            ≡ answered (record { path = path.now; node = node }) [] (said reply.now) (with_memo self.old s)) }
    {
        match reply {
            Reply::Holds(_) => Ok(()),
            Reply::Faulty(bad) => {
                self.note(
                    alloc,
                    path,
                    node,
                    NoteKind::BadCondition,
                    bad.name().as_bytes(),
                )?;
                Ok(())
            }
            Reply::Names(_) => Ok(()),
            Reply::Nameless => {
                self.note(alloc, path, node, NoteKind::BadInclude, b"")?;
                Ok(())
            }
            Reply::Long => {
                self.note(alloc, path, node, NoteKind::TooLong, b"")?;
                Ok(())
            }
        }
    }

    /// Notes a name that is missing.
    fn note_name(
        &mut self,
        alloc: Global,
        path: &Path,
        node: u32,
        name: Option<&[u8]>,
    ) -> Result<(), NoMemory>
        ensures { OnOk result ((s : State) → with_memo self.new s
            ≡ name_noted (record { path = path.now; node = node }) (option_copied name.entry)
            (with_memo self.old s)) }
    {
        match name {
            Some(_name) => Ok(()),
            None => {
                self.note(alloc, path, node, NoteKind::BadCondition, b"Malformed")?;
                Ok(())
            }
        }
    }

    /// `#if` and `#elif`.
    fn look_at(
        &mut self,
        alloc: Global,
        language: Language,
        path: &Path,
        node: u32,
        tokens: &[Token],
    ) -> Result<Effect, NoMemory>
        ensures { IfOk result (λ e. HasEffect language kinds.If (record { path = path.now; node = node }) tokens.now
            self.old self.new e.condition e.header) }
    {
        let reply = truth(alloc, &self.macros, language, tokens)?;
        self.note_reply(alloc, path, node, &reply)?;
        Ok(Effect::of_condition(holds(&reply)))
    }

    /// `#ifdef`
    fn look_for(
        &mut self,
        alloc: Global,
        path: &Path,
        node: u32,
        tokens: &[Token],
    ) -> Result<Effect, NoMemory>
        ensures { IfOk result (λ e. (language : Tongue)
            → HasEffect language kinds.Ifdef (record { path = path.now; node = node }) tokens.now
            self.old self.new e.condition e.header) }
    {
        let name = first_name(tokens);
        let condition = has_macro(&self.macros, name);
        self.note_name(alloc, path, node, name)?;
        Ok(Effect::of_condition(condition))
    }

    /// `#ifndef`
    fn look_for_none(
        &mut self,
        alloc: Global,
        path: &Path,
        node: u32,
        tokens: &[Token],
    ) -> Result<Effect, NoMemory>
        ensures { IfOk result (λ e. (language : Tongue)
            → HasEffect language kinds.Ifndef (record { path = path.now; node = node }) tokens.now
            self.old self.new e.condition e.header) }
    {
        let name = first_name(tokens);
        let condition = lacks_macro(&self.macros, name);
        self.note_name(alloc, path, node, name)?;
        Ok(Effect::of_condition(condition))
    }

    /// `#include`
    fn include(
        &mut self,
        alloc: Global,
        language: Language,
        path: &Path,
        node: u32,
        tokens: &[Token],
    ) -> Result<Effect, NoMemory>
        ensures { IfOk result (λ e. HasEffect language kinds.Include (record { path = path.now; node = node })
            tokens.now
            self.old self.new e.condition e.header) }
    {
        let reply = header_named(alloc, &self.macros, language, tokens)?;
        self.note_reply(alloc, path, node, &reply)?;
        Ok(Effect {
            condition: false,
            header: header_in(reply),
        })
    }

    /// What a directive of the kind does, with these tokens behind its name.
    pub(crate) fn act(
        &mut self,
        alloc: Global,
        language: Language,
        kind: NodeKind,
        path: &Path,
        node: u32,
        tokens: &[Token],
    ) -> Result<Effect, NoMemory>
        ensures { IfOk result (λ e. HasEffect language kind (record { path = path.now; node = node }) tokens.now
            self.old self.new e.condition e.header) }
    {
        match kind {
            NodeKind::If => self.look_at(alloc, language, path, node, tokens),
            NodeKind::Elif => self.look_at(alloc, language, path, node, tokens),
            NodeKind::Ifdef => self.look_for(alloc, path, node, tokens),
            NodeKind::Ifndef => self.look_for_none(alloc, path, node, tokens),
            NodeKind::Include => self.include(alloc, language, path, node, tokens),
            NodeKind::Define => self.define_tokens(alloc, path, node, tokens),
            NodeKind::Undef => self.undef_tokens(alloc, path, node, tokens),
            NodeKind::Once => self.once(alloc, path),
            NodeKind::Error => self.error(alloc, path, node),
            NodeKind::Text => Ok(Effect::nothing()),
            NodeKind::Else => Ok(Effect::nothing()),
            NodeKind::Endif => Ok(Effect::nothing()),
            NodeKind::Other => Ok(Effect::nothing()),
        }
    }
}
