//! A call begins: its arguments are taken apart, and copied where they are wanted as written.
ghost use Rattle.std.specs.Prelude.{◌≡◌, ◌==◌, ◌&&◌, ◌||◌, ◌-◌, ◌<◌, ◌≤◌, ℕ, None, Some, [], length, reverse, take};
ghost use Rattle.std.specs.Prelude.{IfOk, IfSome, Err, if◌then◌else◌};
ghost use Rattle.cb_paste.specs.Sets.{hides, Extends};
ghost use Rattle.cb_paste.specs.declared.work_token.WorkToken.{WorkToken as Held};
ghost use Rattle.cb_expand.specs.Heads.{Head};
ghost use Rattle.cb_macro.specs.Definitions.{all_parameters};
ghost use Rattle.cb_expand.specs.declared.mode.Mode.{Mode as Tongue};
ghost use Rattle.cb_expand.specs.inner.Gathers.{AreDescending, last_of};
ghost use Rattle.cb_expand.specs.inner.Rows.{signs, AreEnds, IsRow};
ghost use Rattle.cb_expand.specs.inner.Works.{IsWork, Exceeds};
ghost use Rattle.cb_expand.specs.inner.Readings.{Taken, IsOpened, IsCalled, IsCalledBy, IsEnded, head_of, reading};
ghost use Rattle.cb_expand.specs.inner.Lefts.{IsLeft, AreLefts, begin_of};

use crate::fault::ExpandFault;
use crate::gathering::{Gathered, argument_ends};
use crate::limits::COST_LIMIT;
use crate::numbers::small;
use crate::row::Row;
use crate::work::{Call, Left, Work};
use cb_macro::{Macro, Macros};
use cb_paste::{Hides, WorkToken};
use cb_paths::NoMemory;
use std::alloc::Global;

/// A second token of the same form, white space, bytes and hide set.
fn copy_of(alloc: Global, token: &WorkToken) -> Result<WorkToken, NoMemory>
    ensures { IfOk result (λ copy. copy ≡ token.now) }
{
    let text = token.text.copy(alloc)?;
    Ok(WorkToken {
        kind: token.kind,
        spaced: token.spaced,
        text,
        hides: token.hides,
    })
}

/// Copies of tokens of a row, in the order in which they are read.
fn copies(alloc: Global, tokens: &[WorkToken]) -> Result<Vec<WorkToken>, NoMemory>
    ensures { IfOk result (λ copies. copies.items ≡ reverse tokens.now) }
{
    let mut copies = Vec::with_capacity(alloc, tokens.len())?;
    let mut at = tokens.len();
    'tokens: while at > 0 {
        at -= 1;
        let copy = copy_of(alloc, &tokens[at])?;
        copies.push(copy)?;
    }
    Ok(copies)
}

/// Copies of the tokens where they are wanted as written, and else none.
fn wanted(alloc: Global, tokens: &[WorkToken], is_raw: bool) -> Result<Vec<WorkToken>, NoMemory>
    ensures { IfOk result (λ wanted. wanted.items ≡ (if is_raw then reverse tokens.now else [])) }
{
    if is_raw {
        return copies(alloc, tokens);
    }
    Ok(Vec::new(alloc))
}

/// The argument of a parameter between two heights of a row.
fn left_of(
    alloc: Global,
    tokens: &[WorkToken],
    body: &Macro,
    at: usize,
    end: usize,
    from: usize,
) -> Result<Left, NoMemory>
    requires at { at < length (all_parameters body.now) }
    requires end { end ≤ from }
    requires from { from ≤ length tokens.now }
    ensures { IfOk result (IsLeft body.now tokens.now at end from) }
{
    let raw = wanted(alloc, &tokens[end..from], body.is_raw(at))?;
    Ok(Left {
        raw,
        end,
        is_shown: body.is_shown(at),
    })
}

/// The height below which the argument of a parameter begins.
fn begin_below(ends: &[usize], height: usize, at: usize) -> usize
    requires { at ≤ length ends.now }
    ensures { result ≡ begin_of height ends.now at }
{
    if at == 0 {
        height
    } else {
        ends[at - 1].saturating_sub(1)
    }
}

/// The arguments of a call between their ends in a row, the first one last.
fn lefts(
    alloc: Global,
    tokens: &[WorkToken],
    body: &Macro,
    ends: &[usize],
    height: usize,
) -> Result<Vec<Left>, NoMemory>
    requires few { length ends.now ≤ length (all_parameters body.now) }
    requires height { height ≤ length tokens.now }
    requires descending { AreDescending height 0 ends.now }
    ensures { IfOk result (λ lefts. AreLefts body.now tokens.now 0 height ends.now (reverse lefts.items)) }
{
    let mut lefts = Vec::with_capacity(alloc, ends.len())?;
    let mut at = ends.len();
    'ends: while at > 0 {
        at -= 1;
        let from = begin_below(ends, height, at);
        let left = left_of(alloc, tokens, body, at, ends[at], from)?;
        lefts.push(left)?;
    }
    Ok(lefts)
}

/// The hide set of what a call puts in: what both the name and the closing parenthesis hide, and the macro.
fn hides_of(arena: &mut Hides, name: u32, close: u32, place: usize) -> Result<u32, NoMemory>
    requires name { name ≤ length arena.old }
    requires close { close ≤ length arena.old }
    ensures places { IfOk result (λ s. (n : ℕ) → hides arena.new s n
        ≡ ((n == place) || (hides arena.old name n && hides arena.old close n))) }
    ensures within { IfOk result (λ s. s ≤ length arena.new) }
    ensures kept { Extends arena.old arena.new }
{
    let both = arena.both(name, close)?;
    let set = arena.with(both, small(place)?)?;
    Ok(set)
}

/// The height of the parenthesis that closes a call.
fn close_of(ends: &[usize], height: usize) -> usize
    ensures { result ≡ last_of height ends.now }
{
    if ends.is_empty() {
        height
    } else {
        ends[ends.len() - 1]
    }
}

/// Takes the opening parenthesis away where no argument stands behind it, so that an end stands on top.
fn uncover(row: &mut Row, has_arguments: bool)
    requires { AreEnds (signs row.old.tokens.items) row.old.ends.items }
    ensures tokens { row.new.tokens.items ≡ (if has_arguments then row.old.tokens.items
        else take (length row.old.tokens.items - 1) row.old.tokens.items) }
    ensures kept { AreEnds (signs row.new.tokens.items) row.new.ends.items }
{
    if has_arguments {
        return;
    }
    let height = row.tokens.len().saturating_sub(1);
    row.truncate(height);
}

/// Where the arguments of a call end, behind the parenthesis on top of the row; None where it is no call.
pub(crate) fn call_ends(
    alloc: Global,
    macros: &Macros,
    work: &Work,
    place: usize,
) -> Result<Option<Gathered>, NoMemory>
    requires row { IsRow (signs work.now.row.tokens.items) work.now.row.ends.items }
    requires place { place < length macros.now }
    requires some { work.now.floor < length work.now.row.tokens.items }
    ensures ended { IfOk result (λ o. IfSome o (λ g. IsEnded macros.now work.now place g.ends.items)) }
    ensures called { (t : Held) (h : Head) → IsOpened macros.now work.now t place h
        → IfOk result (IsCalledBy macros.now work.now t place h) }
{
    let body = macros.at(place);
    let height = work.row.tokens.len() - 1;
    argument_ends(
        alloc,
        &work.row,
        work.floor,
        height,
        body.parameter_count(),
        body.is_variadic(),
    )
}

/// Takes the arguments of a call apart, and the opening parenthesis away where it has none.
pub(crate) fn begin_call(
    alloc: Global,
    macros: &Macros,
    work: &mut Work,
    token: &WorkToken,
    place: usize,
    gathered: Gathered,
) -> Result<Call, ExpandFault>
    requires work { IsWork (length macros.now) work.old None }
    requires token { token.now.hides ≤ length work.old.arena }
    requires ended { IsEnded macros.now work.old place gathered.ends.items }
    ensures taken { (mode : Tongue)
        → IsCalled macros.now work.old token.now place gathered.ends.items gathered.lacks_rest
        (head_of macros.now mode work.old token.now)
        → IfOk result (λ call. Taken macros.now mode work.old token.now work.new (Some call)) }
    ensures long { (mode : Tongue)
        → IsCalled macros.now work.old token.now place gathered.ends.items gathered.lacks_rest
        (head_of macros.now mode work.old token.now)
        → result ≡ Err ExpandFault.TooLong
        → Exceeds macros.now mode (reading macros.now work.old token.now) work.old.used }
{
    if work.used + work.frames.len() >= COST_LIMIT {
        return Err(ExpandFault::TooLong);
    }
    let ends = gathered.ends.as_slice();
    let height = work.row.tokens.len() - 1;
    let close = work.row.tokens[close_of(ends, height) - 1].hides;
    let hides = hides_of(&mut work.arena, token.hides, close, place)?;
    let body = macros.at(place);
    let left = lefts(alloc, work.row.tokens.as_slice(), body, ends, height)?;
    uncover(&mut work.row, !ends.is_empty());
    let arguments = Vec::with_capacity(alloc, body.parameter_count())?;
    Ok(Call {
        place,
        spaced: token.spaced,
        hides,
        arguments,
        left,
        lacks_rest: gathered.lacks_rest,
    })
}
