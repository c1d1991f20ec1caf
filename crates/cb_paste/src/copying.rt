//! Arguments are put in by copies of their tokens.
ghost use Rattle.std.specs.Prelude.{◌≡◌, ◌<◌, ◌≤◌, ◌++◌, ◌∷◌, false, map, length, OnOk};
ghost use Rattle.cb_paste.specs.Sets.{Extends};
ghost use Rattle.cb_paste.specs.Shades.{seen, AreIn};
ghost use Rattle.cb_paste.specs.Joins.{reals};
ghost use Rattle.cb_paste.specs.Puts.{put_one};
ghost use Rattle.cb_paste.specs.inner.Slots.{token_count, seen_slots, as_slot, AreSlotsIn};
ghost use Rattle.cb_paste.specs.inner.Given.{tokens_puts};

use crate::fault::PasteFault;
use crate::hides::Hides;
use crate::part::Part;
use crate::putting::put;
use crate::slots::{Slot, Slots};
use crate::work_token::WorkToken;
use std::alloc::Global;

/// Puts copies of tokens behind what stands.
fn put_tokens(
    alloc: Global,
    slots: &mut Slots,
    tokens: &[WorkToken],
    room: usize,
) -> Result<(), PasteFault>
    requires { token_count slots.old ≤ room }
    ensures put { OnOk result (slots.new ≡ slots.old ++ map as_slot tokens.now) }
    ensures fits { OnOk result (token_count slots.new ≤ room) }
    ensures long { result ≡ Err PasteFault.TooLong → room < token_count (slots.old ++ map as_slot tokens.now) }
{
    'tokens: for at in 0..tokens.len() {
        let token = tokens[at].copy(alloc)?;
        slots.push(token.into_slot(), room)?;
    }
    Ok(())
}

/// Puts an argument of at least one token behind what stands, the first with its parameter's white space.
fn put_some(
    alloc: Global,
    arena: &mut Hides,
    slots: &mut Slots,
    first: &WorkToken,
    rest: &[WorkToken],
    part: &Part,
    room: usize,
) -> Result<(), PasteFault>
    requires stands { AreSlotsIn (length arena.old) slots.old }
    requires new { AreIn (length arena.old) (first.now ∷ rest.now) }
    ensures put { OnOk result (seen_slots arena.new slots.new ≡ put_one (seen_slots arena.old slots.old) part.now.glued
        (tokens_puts false part.now.spaced (map (seen arena.old) (first.now ∷ rest.now)))) }
    ensures long { result ≡ Err PasteFault.TooLong → room < length
        (reals (put_one (seen_slots arena.old slots.old) part.now.glued
        (tokens_puts false part.now.spaced (map (seen arena.old) (first.now ∷ rest.now))))) }
    ensures within { OnOk result (AreSlotsIn (length arena.new) slots.new) }
    ensures fits { OnOk result (token_count slots.new ≤ room) }
    ensures kept { Extends arena.old arena.new }
{
    let first = first.copy(alloc)?;
    let slot = first.with_space(part.spaced).into_slot();
    put(alloc, arena, slots, part.glued, slot, room)?;
    put_tokens(alloc, slots, rest, room)?;
    Ok(())
}

/// Puts an argument behind what stands: an empty one is a placemarker beside `##`, and else nothing.
pub(crate) fn put_argument(
    alloc: Global,
    arena: &mut Hides,
    slots: &mut Slots,
    tokens: &[WorkToken],
    part: &Part,
    beside: bool,
    room: usize,
) -> Result<(), PasteFault>
    requires stands { AreSlotsIn (length arena.old) slots.old }
    requires few { token_count slots.old ≤ room }
    requires new { AreIn (length arena.old) tokens.now }
    ensures put { OnOk result (seen_slots arena.new slots.new ≡ put_one (seen_slots arena.old slots.old) part.now.glued
        (tokens_puts beside part.now.spaced (map (seen arena.old) tokens.now))) }
    ensures long { result ≡ Err PasteFault.TooLong → room < length
        (reals (put_one (seen_slots arena.old slots.old) part.now.glued
        (tokens_puts beside part.now.spaced (map (seen arena.old) tokens.now)))) }
    ensures within { OnOk result (AreSlotsIn (length arena.new) slots.new) }
    ensures fits { OnOk result (token_count slots.new ≤ room) }
    ensures kept { Extends arena.old arena.new }
{
    match tokens.split_first() {
        Some((first, rest)) => {
            put_some(alloc, arena, slots, first, rest, part, room)?;
            Ok(())
        }
        None => {
            if beside {
                put(
                    alloc,
                    arena,
                    slots,
                    part.glued,
                    Slot::Mark(part.spaced),
                    room,
                )?;
                return Ok(());
            }
            Ok(())
        }
    }
}
