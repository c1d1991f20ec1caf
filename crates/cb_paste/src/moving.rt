//! Arguments that are not used again are put in by their own tokens.
ghost use Rattle.std.specs.Prelude.{◌≡◌, ◌<◌, ◌≤◌, ◌++◌, ◌∷◌, false, map, length, OnOk};
ghost use Rattle.std.specs.Vec.Iter.{into_iter_items};
ghost use Rattle.cb_paste.specs.Sets.{Extends};
ghost use Rattle.cb_paste.specs.Shades.{seen, AreIn};
ghost use Rattle.cb_paste.specs.Joins.{reals};
ghost use Rattle.cb_paste.specs.Puts.{put_one};
ghost use Rattle.cb_paste.specs.inner.Slots.{token_count, seen_slots, as_slot, AreSlotsIn};
ghost use Rattle.cb_paste.specs.inner.Given.{tokens_puts};

use crate::fault::PasteFault;
use crate::hides::Hides;
use crate::part::Part;
use crate::putting::put;
use crate::slots::{Slot, Slots};
use crate::work_token::WorkToken;
use std::alloc::Global;
use std::vec::IntoIter;

/// Moves the tokens that are left behind what stands.
fn put_rest(
    slots: &mut Slots,
    mut tokens: IntoIter<WorkToken>,
    room: usize,
) -> Result<(), PasteFault>
    requires { token_count slots.old ≤ room }
    ensures put { OnOk result (slots.new ≡ slots.old ++ map as_slot (into_iter_items tokens)) }
    ensures fits { OnOk result (token_count slots.new ≤ room) }
    ensures long { result ≡ Err PasteFault.TooLong
        → room < token_count (slots.old ++ map as_slot (into_iter_items tokens)) }
{
    'tokens: while let Some(token) = tokens.next() {
        slots.push(token.into_slot(), room)?;
    }
    Ok(())
}

/// Moves an argument of at least one token behind what stands, the first with its parameter's white space.
fn put_first(
    alloc: Global,
    arena: &mut Hides,
    slots: &mut Slots,
    first: WorkToken,
    rest: IntoIter<WorkToken>,
    part: &Part,
    room: usize,
) -> Result<(), PasteFault>
    requires stands { AreSlotsIn (length arena.old) slots.old }
    requires new { AreIn (length arena.old) (first ∷ into_iter_items rest) }
    ensures put { OnOk result (seen_slots arena.new slots.new ≡ put_one (seen_slots arena.old slots.old) part.now.glued
        (tokens_puts false part.now.spaced (map (seen arena.old) (first ∷ into_iter_items rest)))) }
    ensures long { result ≡ Err PasteFault.TooLong → room < length
        (reals (put_one (seen_slots arena.old slots.old) part.now.glued
        (tokens_puts false part.now.spaced (map (seen arena.old) (first ∷ into_iter_items rest))))) }
    ensures within { OnOk result (AreSlotsIn (length arena.new) slots.new) }
    ensures fits { OnOk result (token_count slots.new ≤ room) }
    ensures kept { Extends arena.old arena.new }
{
    let slot = first.with_space(part.spaced).into_slot();
    put(alloc, arena, slots, part.glued, slot, room)?;
    put_rest(slots, rest, room)?;
    Ok(())
}

/// Moves an argument behind what stands: an empty one is a placemarker beside `##`, and else nothing.
pub(crate) fn put_moved(
    alloc: Global,
    arena: &mut Hides,
    slots: &mut Slots,
    tokens: Vec<WorkToken>,
    part: &Part,
    beside: bool,
    room: usize,
) -> Result<(), PasteFault>
    requires stands { AreSlotsIn (length arena.old) slots.old }
    requires few { token_count slots.old ≤ room }
    requires new { AreIn (length arena.old) tokens.items }
    ensures put { OnOk result (seen_slots arena.new slots.new ≡ put_one (seen_slots arena.old slots.old) part.now.glued
        (tokens_puts beside part.now.spaced (map (seen arena.old) tokens.items))) }
    ensures long { result ≡ Err PasteFault.TooLong → room < length
        (reals (put_one (seen_slots arena.old slots.old) part.now.glued
        (tokens_puts beside part.now.spaced (map (seen arena.old) tokens.items)))) }
    ensures within { OnOk result (AreSlotsIn (length arena.new) slots.new) }
    ensures fits { OnOk result (token_count slots.new ≤ room) }
    ensures kept { Extends arena.old arena.new }
{
    let mut tokens = tokens.into_iter();
    match tokens.next() {
        Some(first) => {
            put_first(alloc, arena, slots, first, tokens, part, room)?;
            Ok(())
        }
        None => {
            if beside {
                put(
                    alloc,
                    arena,
                    slots,
                    part.glued,
                    Slot::Mark(part.spaced),
                    room,
                )?;
                return Ok(());
            }
            Ok(())
        }
    }
}
