//! A replacement list without `##` goes straight onto the stack, its last part first.
ghost use Rattle.std.specs.Prelude.{◌≡◌, ◌<◌, ◌≤◌, ◌++◌, [], true, List, ℕ, map, length, IfOk, OnOk};
ghost use Rattle.cb_paste.specs.Sets.{hides, Extends};
ghost use Rattle.cb_paste.specs.Shades.{seen, waiting, all_shaded, first_spaced, AreIn};
ghost use Rattle.cb_paste.specs.Joins.{reals};
ghost use Rattle.cb_paste.specs.Puts.{seen_argument, seen_arguments, given_at, put_from, AreArgumentsIn};
ghost use Rattle.cb_paste.specs.inner.Uses.{is_used_plainly, Kept};
ghost use Rattle.cb_paste.specs.inner.Plain.{is_plain, plain_of, plain_all};

use crate::argument::{Argument, take_tokens, tokens_of};
use crate::fault::PasteFault;
use crate::hides::Hides;
use crate::part::{Part, Shape, is_looked_for, is_used_plainly};
use crate::quoting::quoted;
use crate::site::Site;
use crate::stacking::{copy_argument, move_argument, push_own};
use crate::work_token::WorkToken;
use cb_paths::NoMemory;
use cb_tokens::TokenKind;
use std::alloc::Global;

/// How many tokens a part puts in.
fn count_of(arguments: &[Argument], part: &Part) -> usize
    ensures { (sets : List (List ℕ)) → result
        ≡ length (plain_of (map (seen_argument sets) arguments.now) part.now.spaced part.now.shape) }
{
    match &part.shape {
        Shape::Fixed(..) => 1,
        Shape::Parameter(i) => tokens_of(arguments, *i, false).len(),
        Shape::Quoted(_) => 1,
    }
}

/// How many tokens all parts put in; `TooLong` where there is no room for so many.
fn count_all(arguments: &[Argument], parts: &[Part], room: usize) -> Result<usize, PasteFault>
    ensures count { (sets : List (List ℕ)) → IfOk result (λ count. count
        ≡ length (plain_all (map (seen_argument sets) arguments.now) parts.now)) }
    ensures room { IfOk result (λ count. count ≤ room) }
    ensures long { (sets : List (List ℕ)) → result ≡ Err PasteFault.TooLong
        → room < length (plain_all (map (seen_argument sets) arguments.now) parts.now) }
{
    let mut count = 0;
    'parts: for at in 0..parts.len() {
        let more = count_of(arguments, &parts[at]);
        if more > room - count {
            return Err(PasteFault::TooLong);
        }
        count += more;
    }
    Ok(count)
}

/// Puts a parameter's argument onto the stack after its own expansion: its own tokens where it was seen that no earlier part
/// takes them, and else copies.
fn push_argument(
    alloc: Global,
    arena: &mut Hides,
    arguments: &mut [Argument],
    earlier: &[Part],
    i: usize,
    spaced: bool,
    extra: u32,
    stack: &mut Vec<WorkToken>,
) -> Result<(), NoMemory>
    requires given { AreArgumentsIn (length arena.old) arguments.old }
    requires extra { extra ≤ length arena.old }
    requires stack { AreIn (length arena.old) stack.old.items }
    ensures put { OnOk result (waiting arena.new stack.new.items ≡ all_shaded (hides arena.old extra)
        (first_spaced spaced (given_at (seen_arguments arena.old arguments.old) i).expanded)
        ++ waiting arena.old stack.old.items) }
    ensures within { OnOk result (AreIn (length arena.new) stack.new.items) }
    ensures others { Kept (is_used_plainly earlier.now) arguments.old arguments.new }
    ensures kept { Extends arena.old arena.new }
{
    let tokens = tokens_of(arguments, i, false);
    if !is_looked_for(earlier, tokens.len()) || is_used_plainly(earlier, false, i) {
        copy_argument(alloc, arena, tokens, spaced, extra, stack)?;
        return Ok(());
    }
    let tokens = take_tokens(alloc, arguments, i, false);
    move_argument(arena, tokens, spaced, extra, stack)?;
    Ok(())
}

/// Puts a part onto the stack.
fn push_part(
    alloc: Global,
    arena: &mut Hides,
    arguments: &mut [Argument],
    earlier: &[Part],
    part: &Part,
    extra: u32,
    stack: &mut Vec<WorkToken>,
) -> Result<(), NoMemory>
    requires given { AreArgumentsIn (length arena.old) arguments.old }
    requires extra { extra ≤ length arena.old }
    requires stack { AreIn (length arena.old) stack.old.items }
    ensures put { OnOk result (waiting arena.new stack.new.items ≡ all_shaded (hides arena.old extra)
        (plain_of (seen_arguments arena.old arguments.old) part.now.spaced part.now.shape)
        ++ waiting arena.old stack.old.items) }
    ensures within { OnOk result (AreIn (length arena.new) stack.new.items) }
    ensures others { Kept (is_used_plainly earlier.now) arguments.old arguments.new }
    ensures kept { Extends arena.old arena.new }
{
    match &part.shape {
        Shape::Fixed(kind, text) => {
            let text = text.copy(alloc)?;
            push_own(*kind, part.spaced, text, extra, stack)?;
            Ok(())
        }
        Shape::Parameter(i) => {
            let spaced = part.spaced;
            push_argument(alloc, arena, arguments, earlier, *i, spaced, extra, stack)?;
            Ok(())
        }
        Shape::Quoted(i) => {
            let text = quoted(alloc, tokens_of(arguments, *i, true))?;
            push_own(TokenKind::Str, part.spaced, text, extra, stack)?;
            Ok(())
        }
    }
}

/// Puts all parts onto the stack.
fn push_parts(
    alloc: Global,
    arena: &mut Hides,
    arguments: &mut [Argument],
    parts: &[Part],
    extra: u32,
    stack: &mut Vec<WorkToken>,
) -> Result<(), NoMemory>
    requires given { AreArgumentsIn (length arena.old) arguments.old }
    requires extra { extra ≤ length arena.old }
    requires stack { AreIn (length arena.old) stack.old.items }
    ensures put { OnOk result (waiting arena.new stack.new.items ≡ all_shaded (hides arena.old extra)
        (plain_all (seen_arguments arena.old arguments.old) parts.now)
        ++ waiting arena.old stack.old.items) }
    ensures within { OnOk result (AreIn (length arena.new) stack.new.items) }
    ensures kept { Extends arena.old arena.new }
{
    let mut at = parts.len();
    'parts: while at > 0 {
        at -= 1;
        let part = &parts[at];
        let earlier = &parts[..at];
        push_part(alloc, arena, arguments, earlier, part, extra, stack)?;
    }
    Ok(())
}

/// Puts the tokens of a replacement list without `##` onto the stack, and answers how many there are.
pub(crate) fn put_plain(
    alloc: Global,
    arena: &mut Hides,
    parts: &[Part],
    arguments: &mut [Argument],
    site: Site,
    stack: &mut Vec<WorkToken>,
) -> Result<usize, PasteFault>
    requires plain { is_plain parts.now ≡ true }
    requires arguments { AreArgumentsIn (length arena.old) arguments.old }
    requires stack { AreIn (length arena.old) stack.old.items }
    requires extra { site.hides ≤ length arena.old }
    ensures put { OnOk result (waiting arena.new stack.new.items ≡ all_shaded (hides arena.old site.hides)
        (reals (put_from (seen_arguments arena.old arguments.old) [] parts.now))
        ++ waiting arena.old stack.old.items) }
    ensures count { IfOk result (λ count. count
        ≡ length (reals (put_from (seen_arguments arena.old arguments.old) [] parts.now))) }
    ensures room { IfOk result (λ count. count ≤ site.room) }
    ensures long { result ≡ Err PasteFault.TooLong
        → (site.room < length (reals (put_from (seen_arguments arena.old arguments.old) [] parts.now)))
        × (stack.new ≡ stack.old) }
    ensures within { OnOk result (AreIn (length arena.new) stack.new.items) }
    ensures kept { Extends arena.old arena.new }
{
    let count = count_all(arguments, parts, site.room)?;
    push_parts(alloc, arena, arguments, parts, site.hides, stack)?;
    Ok(count)
}
