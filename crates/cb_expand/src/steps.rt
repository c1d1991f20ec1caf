//! The steps of the machine.
ghost use Rattle.std.specs.Prelude.{◌≡◌, ◌+◌, ◌<◌, ◌≤◌, None, Some, [], length, IfOk, OnOk, IsSome, List, ℕ, ◌++◌};
ghost use Rattle.cb_paste.specs.Shades.{AreIn};
ghost use Rattle.cb_paste.specs.Puts.{AreArgumentsIn};
ghost use Rattle.cb_expand.specs.declared.mode.Mode.{Mode};
ghost use Rattle.cb_expand.specs.Heads.{Named};
ghost use Rattle.cb_expand.specs.inner.Machine.{Between};
ghost use Rattle.cb_expand.specs.inner.Rows.{signs, AreEnds};
ghost use Rattle.cb_expand.specs.inner.Works.{put_of, raws, became, lacking, Added, IsWork, Stepped, IsReplaceable, resumed, outer_of, state_of, Goes, Exceeds, weight};

use crate::fault::ExpandFault;
use crate::limits::COST_LIMIT;
use crate::work::{Call, Frame, Left, Work};
use cb_macro::Macros;
use cb_paste::{Argument, PasteFault, Site, substitute};
use cb_paths::NoMemory;
use std::alloc::Global;
use std::mem;

/// The tokens that most arguments become at most. Room for them is made at once: a whole run takes 1 % less time so
/// (`bench/passes --shape conditions`).
const FEW_TOKENS: usize = 8;

/// What it means here that nothing was put in.
fn fault_of(fault: PasteFault) -> ExpandFault
    ensures { result ≡ ExpandFault.TooLong → fault ≡ PasteFault.TooLong }
{
    match fault {
        PasteFault::TooLong => ExpandFault::TooLong,
        PasteFault::NoMemory => ExpandFault::NoMemory,
    }
}

/// Puts in what replaces a call, and pays for it.
pub(crate) fn put_in(
    alloc: Global,
    macros: &Macros,
    work: &mut Work,
    place: usize,
    arguments: &mut [Argument],
    spaced: bool,
    hides: u32,
) -> Result<(), ExpandFault>
    requires place { place < length macros.now }
    requires arguments { AreArgumentsIn (length work.old.arena) arguments.old }
    requires hides { hides ≤ length work.old.arena }
    requires tokens { AreIn (length work.old.arena) work.old.row.tokens.items }
    requires row { AreEnds (signs work.old.row.tokens.items) work.old.row.ends.items }
    requires limit { work.old.used + length work.old.frames.items < 65536 }
    ensures added { OnOk result (Added work.old work.new (put_of macros.now work.old.arena place spaced hides arguments.old)) }
    ensures long { result ≡ Err ExpandFault.TooLong
        → 65536 < work.old.used + length work.old.frames.items + (1 + length (put_of macros.now work.old.arena place spaced hides arguments.old)) }
{
    let parts = macros.at(place).parts();
    let room = COST_LIMIT - 1 - work.used - work.frames.len();
    let site = Site {
        spaced,
        hides,
        room,
    };
    let added = substitute(
        alloc,
        &mut work.arena,
        parts,
        arguments,
        site,
        &mut work.row.tokens,
    );
    let count = match added {
        Ok(count) => count,
        Err(fault) => return Err(fault_of(fault)),
    };
    work.used += 1 + count;
    Ok(())
}

/// Ends the innermost list where nothing of it is left: the call whose argument it is, which can go on.
pub(crate) fn end_list(work: &mut Work) -> Result<Option<Call>, NoMemory>
    requires { work.old.floor ≡ length work.old.row.tokens.items }
    ensures { (ms : Named) (mode : Mode) → IsWork (length ms) work.old None → 0 < length work.old.frames.items
        → IfOk result (λ call. Stepped ms mode work.old None work.new call) }
{
    let Some(frame) = work.frames.pop() else {
        return Ok(None);
    };
    let Frame {
        mut call,
        raw,
        floor,
        done,
    } = frame;
    let expanded = mem::replace(&mut work.done, done);
    call.arguments.push(Argument { raw, expanded })?;
    work.floor = floor;
    Ok(Some(call))
}

/// The arguments with an empty one where nothing stands for `...`.
fn all_arguments(
    alloc: Global,
    arguments: Vec<Argument>,
    lacks_rest: bool,
) -> Result<Vec<Argument>, NoMemory>
    ensures raws { (sets : List (List ℕ)) → IfOk result (λ all. raws sets all.items ≡ raws sets arguments.items ++ lacking lacks_rest) }
    ensures became { (sets : List (List ℕ)) → IfOk result (λ all. became sets all.items ≡ became sets arguments.items ++ lacking lacks_rest) }
    ensures within { (count : ℕ) → AreArgumentsIn count arguments.items → IfOk result (λ all. AreArgumentsIn count all.items) }
{
    let mut arguments = arguments;
    if !lacks_rest {
        return Ok(arguments);
    }
    arguments.push(Argument {
        raw: Vec::new(alloc),
        expanded: Vec::new(alloc),
    })?;
    Ok(arguments)
}

/// Puts in what replaces a call of which all arguments are ready, where its closing parenthesis was read.
fn replace(alloc: Global, macros: &Macros, work: &mut Work, call: Call) -> Result<(), ExpandFault>
    requires left { call.left.items ≡ [] }
    requires work { IsReplaceable (length macros.now) work.old call }
    ensures steps { OnOk result ((mode : Mode)
        → Goes macros.now mode (Between (resumed macros.now work.old call) (outer_of macros.now work.old)) work.old.used (state_of macros.now work.new None) work.new.used) }
    ensures kept { OnOk result (IsWork (length macros.now) work.new None) }
    ensures smaller { OnOk result (weight work.new < weight work.old + 2) }
    ensures long { (mode : Mode) → result ≡ Err ExpandFault.TooLong
        → Exceeds macros.now mode (Between (resumed macros.now work.old call) (outer_of macros.now work.old)) work.old.used }
{
    let Call {
        place,
        spaced,
        hides,
        arguments,
        left: _left,
        lacks_rest,
    } = call;
    let mut arguments = all_arguments(alloc, arguments, lacks_rest)?;
    put_in(
        alloc,
        macros,
        work,
        place,
        arguments.as_mut_slice(),
        spaced,
        hides,
    )
}

/// Goes on with a call: takes its next argument from the row, or replaces it.
pub(crate) fn resume(
    alloc: Global,
    macros: &Macros,
    work: &mut Work,
    call: Call,
) -> Result<Option<Call>, ExpandFault>
    requires { IsWork (length macros.now) work.old (Some call) }
    ensures steps { (mode : Mode) → IfOk result (λ behind. Stepped macros.now mode work.old (Some call) work.new behind) }
    ensures long { (mode : Mode) → result ≡ Err ExpandFault.TooLong → Exceeds macros.now mode (state_of macros.now work.old (Some call)) work.old.used }
{
    let mut call = call;
    let height = work.row.tokens.len().saturating_sub(1);
    work.row.truncate(height);
    let Some(left) = call.left.pop() else {
        replace(alloc, macros, work, call)?;
        return Ok(None);
    };
    let Left { raw, end, is_shown } = left;
    if is_shown {
        let room = Vec::with_capacity(alloc, FEW_TOKENS)?;
        let done = mem::replace(&mut work.done, room);
        let floor = work.floor;
        work.frames.push(Frame {
            call,
            raw,
            floor,
            done,
        })?;
        work.floor = end;
        return Ok(None);
    }
    work.row.truncate(end);
    call.arguments.push(Argument {
        raw,
        expanded: Vec::new(alloc),
    })?;
    Ok(Some(call))
}
