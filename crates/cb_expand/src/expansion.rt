//! Expansion of tokens.
ghost use Rattle.std.specs.Prelude.{◌≡◌, ◌<◌, ◌≤◌, ◌↔◌, IsTrue, IfOk, OnOk, Err, None, [], length};
ghost use Rattle.cb_expand.specs.Expansion.{IsReplacement, IsTooDear};
ghost use Rattle.cb_expand.specs.inner.Works.{IsWork, Stepped, state_of, Exceeds};
ghost use Rattle.cb_expand.specs.inner.Sources.{IsEnd, IsRunFrom};

use crate::fault::ExpandFault;
use crate::front::read_front;
use crate::mode::Mode;
use crate::reading::read;
use crate::source::{done_of, with_plain, work_of};
use crate::standing::{is_plain_next, stand_plain};
use crate::steps::{end_list, resume};
use crate::work::{Call, Work};
use cb_macro::Macros;
use cb_tokens::{Token, Tokens};
use std::alloc::Global;

/// Whether nothing is left to do.
fn is_done(work: &Work, call: &Option<Call>) -> bool
    ensures { IsTrue result ↔ IsEnd work.now call.now }
{
    call.is_none() && work.frames.is_empty() && work.row.tokens.is_empty()
}

/// The next step within lists: lets tokens of the innermost list stand, reads an identifier, or ends the list.
fn step_in_list(
    alloc: Global,
    macros: &Macros,
    mode: Mode,
    work: &mut Work,
) -> Result<Option<Call>, ExpandFault>
    requires work { IsWork (length macros.now) work.old None }
    requires more { IsEnd work.old None → ⊥ }
    ensures steps { IfOk result (λ behind. Stepped macros.now mode work.old None work.new behind) }
    ensures long { result ≡ Err ExpandFault.TooLong
        → Exceeds macros.now mode (state_of macros.now work.old None) work.old.used }
{
    if is_plain_next(work) {
        stand_plain(work)?;
        return Ok(None);
    }
    if work.row.tokens.len() > work.floor {
        return read(alloc, macros, mode, work);
    }
    let call = end_list(work)?;
    Ok(call)
}

/// The next step.
fn step(
    alloc: Global,
    macros: &Macros,
    mode: Mode,
    work: &mut Work,
    call: Option<Call>,
) -> Result<Option<Call>, ExpandFault>
    requires work { IsWork (length macros.now) work.old call }
    requires more { IsEnd work.old call → ⊥ }
    ensures steps { IfOk result (λ behind. Stepped macros.now mode work.old call work.new behind) }
    ensures long { result ≡ Err ExpandFault.TooLong
        → Exceeds macros.now mode (state_of macros.now work.old call) work.old.used }
{
    match call {
        Some(call) => resume(alloc, macros, work, call),
        None => step_in_list(alloc, macros, mode, work),
    }
}

/// Goes on until nothing is left to do.
fn run(alloc: Global, macros: &Macros, mode: Mode, work: &mut Work) -> Result<(), ExpandFault>
    requires { IsWork (length macros.now) work.old None }
    ensures ran { OnOk result (IsRunFrom macros.now mode work.old work.new) }
    ensures long { result ≡ Err ExpandFault.TooLong
        → Exceeds macros.now mode (state_of macros.now work.old None) work.old.used }
{
    let mut call = None;
    'steps: while !is_done(work, &call) {
        call = step(alloc, macros, mode, work, call)?;
    }
    Ok(())
}

/// What tokens become when macros are replaced among them, and what these put in is read again together with what
/// stands behind it (6.10.3, 6.10.3.4, and in conditions 6.10.1). Each replacement costs 1 and the number of the tokens
/// that it puts in, and each argument that is expanded costs that once. It is `TooLong` exactly where no expansion of the
/// tokens costs `COST_LIMIT` or less, and then ends as soon as that is certain. Its other error is out of memory.
///
/// Tokens are looked up once each, and only copied or replaced, up to the first name of a macro that puts in more than one token
/// that is no identifier.
pub fn expand(
    alloc: Global,
    macros: &Macros,
    tokens: &[Token],
    mode: Mode,
) -> Result<Tokens, ExpandFault>
    ensures tokens { IfOk result (λ out. IsReplacement macros.now mode tokens.now out) }
    ensures long { result ≡ Err ExpandFault.TooLong → IsTooDear macros.now mode tokens.now }
{
    let mut out = Tokens::from_vec(Vec::with_capacity(alloc, tokens.len())?);
    let front = read_front(alloc, macros, mode, tokens, &mut out)?;
    if front.count == tokens.len() {
        return Ok(out);
    }
    let mut work = work_of(alloc, &tokens[front.count..], front.paid)?;
    run(alloc, macros, mode, &mut work)?;
    let all = with_plain(out, done_of(work))?;
    Ok(all)
}
