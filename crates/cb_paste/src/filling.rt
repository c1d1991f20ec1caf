//! The parts of a replacement list are put in, one behind the other.
ghost use Rattle.std.specs.Prelude.{◌≡◌, ◌<◌, ◌≤◌, [], map, length, IfOk, OnOk};
ghost use Rattle.cb_paste.specs.Sets.{Extends};
ghost use Rattle.cb_paste.specs.Joins.{reals};
ghost use Rattle.cb_paste.specs.Puts.{seen_arguments, given_at, AreArgumentsIn, parameter_puts, shape_puts, put_one, put_from};
ghost use Rattle.cb_paste.specs.inner.Slots.{token_count, seen_slots, AreSlotsIn};
ghost use Rattle.cb_paste.specs.inner.Uses.{is_used, Kept};

use crate::argument::{Argument, take_tokens, tokens_of};
use crate::copying::put_argument;
use crate::fault::PasteFault;
use crate::hides::Hides;
use crate::moving::put_moved;
use crate::part::{Part, Shape, is_beside, is_looked_for, is_used};
use crate::putting::put;
use crate::quoting::quoted;
use crate::slots::{Slots, own_slot};
use cb_tokens::TokenKind;
use std::alloc::Global;

/// Puts the tokens of a parameter's argument behind what stands, beside `##` or not: its own where it was seen that no later
/// part takes them, and else copies.
fn put_given(
    alloc: Global,
    arena: &mut Hides,
    slots: &mut Slots,
    arguments: &mut [Argument],
    part: &Part,
    i: usize,
    later: &[Part],
    beside: bool,
    room: usize,
) -> Result<(), PasteFault>
    requires stands { AreSlotsIn (length arena.old) slots.old }
    requires few { token_count slots.old ≤ room }
    requires given { AreArgumentsIn (length arena.old) arguments.old }
    ensures put { OnOk result (seen_slots arena.new slots.new ≡ put_one (seen_slots arena.old slots.old) part.now.glued
        (parameter_puts beside part.now.spaced (given_at (seen_arguments arena.old arguments.old) i))) }
    ensures long { result ≡ Err PasteFault.TooLong → room < length
        (reals (put_one (seen_slots arena.old slots.old) part.now.glued
        (parameter_puts beside part.now.spaced (given_at (seen_arguments arena.old arguments.old) i)))) }
    ensures within { OnOk result (AreSlotsIn (length arena.new) slots.new) }
    ensures fits { OnOk result (token_count slots.new ≤ room) }
    ensures others { Kept (is_used later.now) arguments.old arguments.new }
    ensures kept { Extends arena.old arena.new }
{
    let tokens = tokens_of(arguments, i, beside);
    if !is_looked_for(later, tokens.len()) || is_used(later, beside, i) {
        put_argument(alloc, arena, slots, tokens, part, beside, room)?;
        return Ok(());
    }
    let tokens = take_tokens(alloc, arguments, i, beside);
    put_moved(alloc, arena, slots, tokens, part, beside, room)?;
    Ok(())
}

/// Puts a part behind what stands, beside `##` or not.
fn put_part(
    alloc: Global,
    arena: &mut Hides,
    slots: &mut Slots,
    arguments: &mut [Argument],
    part: &Part,
    later: &[Part],
    beside: bool,
    room: usize,
) -> Result<(), PasteFault>
    requires stands { AreSlotsIn (length arena.old) slots.old }
    requires few { token_count slots.old ≤ room }
    requires given { AreArgumentsIn (length arena.old) arguments.old }
    ensures put { OnOk result (seen_slots arena.new slots.new ≡ put_one (seen_slots arena.old slots.old) part.now.glued
        (shape_puts (seen_arguments arena.old arguments.old) beside part.now.spaced part.now.shape)) }
    ensures long { result ≡ Err PasteFault.TooLong → room < length
        (reals (put_one (seen_slots arena.old slots.old) part.now.glued
        (shape_puts (seen_arguments arena.old arguments.old) beside part.now.spaced part.now.shape))) }
    ensures within { OnOk result (AreSlotsIn (length arena.new) slots.new) }
    ensures fits { OnOk result (token_count slots.new ≤ room) }
    ensures others { Kept (is_used later.now) arguments.old arguments.new }
    ensures kept { Extends arena.old arena.new }
{
    match &part.shape {
        Shape::Fixed(kind, text) => {
            let text = text.copy(alloc)?;
            let slot = own_slot(*kind, part.spaced, text);
            put(alloc, arena, slots, part.glued, slot, room)?;
            Ok(())
        }
        Shape::Parameter(i) => {
            let i = *i;
            put_given(alloc, arena, slots, arguments, part, i, later, beside, room)?;
            Ok(())
        }
        Shape::Quoted(i) => {
            let text = quoted(alloc, tokens_of(arguments, *i, true))?;
            let slot = own_slot(TokenKind::Str, part.spaced, text);
            put(alloc, arena, slots, part.glued, slot, room)?;
            Ok(())
        }
    }
}

/// Puts all parts in, one behind the other.
pub(crate) fn put_all(
    alloc: Global,
    arena: &mut Hides,
    parts: &[Part],
    arguments: &mut [Argument],
    room: usize,
) -> Result<Slots, PasteFault>
    requires { AreArgumentsIn (length arena.old) arguments.old }
    ensures put { IfOk result (λ slots. seen_slots arena.new slots
        ≡ put_from (seen_arguments arena.old arguments.old) [] parts.now) }
    ensures long { result ≡ Err PasteFault.TooLong → room < length
        (reals (put_from (seen_arguments arena.old arguments.old) [] parts.now)) }
    ensures within { IfOk result (λ slots. AreSlotsIn (length arena.new) slots) }
    ensures fits { IfOk result (λ slots. token_count slots ≤ room) }
    ensures kept { Extends arena.old arena.new }
{
    let mut slots = Slots::with_capacity(alloc, parts.len())?;
    'parts: for at in 0..parts.len() {
        let part = &parts[at];
        let beside = is_beside(parts, at);
        let later = &parts[at + 1..];
        put_part(
            alloc, arena, &mut slots, arguments, part, later, beside, room,
        )?;
    }
    Ok(slots)
}
