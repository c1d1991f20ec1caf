//! What becomes of the token that is read next: it stands, it is answered, or it is replaced.
ghost use Rattle.std.specs.Prelude.{◌≡◌, ◌<◌, ◌≤◌, None, length, IfOk, OnOk};
ghost use Rattle.cb_paste.specs.Shades.{seen};
ghost use Rattle.cb_expand.specs.declared.mode.Mode.{Mode as Tongue};
ghost use Rattle.cb_expand.specs.Heads.{Named, Head, answer_token};
ghost use Rattle.cb_expand.specs.inner.Rows.{signs, between, AreEnds};
ghost use Rattle.cb_expand.specs.inner.Works.{IsWork, Exceeds, Stepped, row_of, state_of};
ghost use Rattle.cb_expand.specs.inner.Readings.{Taken, IsOpened, head_of, rest_of, reading, named_call};

use crate::calling::{begin_call, call_ends};
use crate::fault::ExpandFault;
use crate::heading::{Heading, heading_of};
use crate::limits::COST_LIMIT;
use crate::mode::Mode;
use crate::numbers::{digit_of, small};
use crate::steps::put_in;
use crate::work::{Call, Work};
use cb_macro::Macros;
use cb_paste::WorkToken;
use cb_paths::NoMemory;
use cb_tokens::TokenKind;
use std::alloc::Global;

/// Replaces the name of an object-like macro.
fn replace_name(
    alloc: Global,
    macros: &Macros,
    work: &mut Work,
    token: &WorkToken,
    place: usize,
) -> Result<(), ExpandFault>
    requires work { IsWork (length macros.now) work.old None }
    requires place { place < length macros.now }
    requires token { token.now.hides ≤ length work.old.arena }
    ensures taken { (mode : Tongue)
        → head_of macros.now mode work.old token.now ≡ named_call macros.now work.old token.now place
        → OnOk result (Taken macros.now mode work.old token.now work.new None) }
    ensures long { (mode : Tongue)
        → head_of macros.now mode work.old token.now ≡ named_call macros.now work.old token.now place
        → result ≡ Err ExpandFault.TooLong
        → Exceeds macros.now mode (reading macros.now work.old token.now) work.old.used }
{
    if work.used + work.frames.len() >= COST_LIMIT {
        return Err(ExpandFault::TooLong);
    }
    let hides = work.arena.with(token.hides, small(place)?)?;
    put_in(alloc, macros, work, place, &mut [], token.spaced, hides)
}

/// Lets a token stand that was read.
pub(crate) fn stand(work: &mut Work, token: WorkToken) -> Result<(), NoMemory>
    ensures row { work.new.row ≡ work.old.row }
    ensures taken { (ms : Named) (mode : Tongue) → IsWork (length ms) work.old None → token.hides ≤ length work.old.arena
        → head_of ms mode work.old token ≡ Head.Stands (seen work.old.arena token) (rest_of work.old)
        → OnOk result (Taken ms mode work.old token work.new None) }
{
    work.done.push(token)?;
    Ok(())
}

/// Puts the number in place of `defined` and its name, behind which so many tokens stand.
fn answer(
    alloc: Global,
    work: &mut Work,
    token: WorkToken,
    is_defined: bool,
    height: usize,
) -> Result<(), NoMemory>
    requires row { AreEnds (signs work.old.row.tokens.items) work.old.row.ends.items }
    ensures { (ms : Named) (mode : Tongue) → IsWork (length ms) work.old None → token.hides ≤ length work.old.arena
        → work.old.floor ≤ height → height ≤ length work.old.row.tokens.items
        → head_of ms mode work.old token ≡ Head.Stands (answer_token (seen work.old.arena token) is_defined)
        (between work.old.floor height (row_of work.old))
        → OnOk result (Taken ms mode work.old token work.new None) }
{
    work.row.truncate(height);
    let text = digit_of(alloc, is_defined)?;
    work.done.push(WorkToken {
        kind: TokenKind::Number,
        spaced: token.spaced,
        text,
        hides: token.hides,
    })?;
    Ok(())
}

/// Reads the arguments of a call, where a parenthesis opens behind its name: the name stands where they have no end, or are
/// of another number than the parameters.
fn read_call(
    alloc: Global,
    macros: &Macros,
    work: &mut Work,
    token: WorkToken,
    place: usize,
) -> Result<Option<Call>, ExpandFault>
    requires work { IsWork (length macros.now) work.old None }
    requires token { token.hides ≤ length work.old.arena }
    requires place { place < length macros.now }
    requires some { work.old.floor < length work.old.row.tokens.items }
    ensures taken { (mode : Tongue)
        → IsOpened macros.now work.old token place (head_of macros.now mode work.old token)
        → IfOk result (λ behind. Taken macros.now mode work.old token work.new behind) }
    ensures long { (mode : Tongue)
        → IsOpened macros.now work.old token place (head_of macros.now mode work.old token)
        → result ≡ Err ExpandFault.TooLong
        → Exceeds macros.now mode (reading macros.now work.old token) work.old.used }
{
    work.row.keep_ends()?;
    match call_ends(alloc, macros, work, place)? {
        None => {
            stand(work, token)?;
            Ok(None)
        }
        Some(gathered) => {
            let call = begin_call(alloc, macros, work, &token, place, gathered)?;
            Ok(Some(call))
        }
    }
}

/// Deals with a token that was taken from the row.
fn deal(
    alloc: Global,
    macros: &Macros,
    mode: Mode,
    work: &mut Work,
    token: WorkToken,
) -> Result<Option<Call>, ExpandFault>
    requires work { IsWork (length macros.now) work.old None }
    requires token { token.hides ≤ length work.old.arena }
    ensures taken { IfOk result (λ behind. Taken macros.now mode work.old token work.new behind) }
    ensures long { result ≡ Err ExpandFault.TooLong
        → Exceeds macros.now mode (reading macros.now work.old token) work.old.used }
{
    let heading = heading_of(macros, mode, work, &token)?;
    match heading {
        Heading::Stands => {
            stand(work, token)?;
            Ok(None)
        }
        Heading::Asks(is_defined, height) => {
            answer(alloc, work, token, is_defined, height)?;
            Ok(None)
        }
        Heading::Object(place) => {
            replace_name(alloc, macros, work, &token, place)?;
            Ok(None)
        }
        Heading::Function(place) => read_call(alloc, macros, work, token, place),
    }
}

/// Reads the next token of the innermost list.
pub(crate) fn read(
    alloc: Global,
    macros: &Macros,
    mode: Mode,
    work: &mut Work,
) -> Result<Option<Call>, ExpandFault>
    requires work { IsWork (length macros.now) work.old None }
    requires more { work.old.floor < length work.old.row.tokens.items }
    ensures steps { IfOk result (λ behind. Stepped macros.now mode work.old None work.new behind) }
    ensures long { result ≡ Err ExpandFault.TooLong
        → Exceeds macros.now mode (state_of macros.now work.old None) work.old.used }
{
    let token = work.row.pop();
    deal(alloc, macros, mode, work, token)
}
