//! One more is put behind what stands, or joined to its last.
ghost use Rattle.std.specs.Prelude.{◌≡◌, ◌<◌, ◌≤◌, ◌++◌, ◌∷◌, [], length, OnOk};
ghost use Rattle.cb_paste.specs.Sets.{Extends};
ghost use Rattle.cb_paste.specs.Joins.{onto_last, reals};
ghost use Rattle.cb_paste.specs.Puts.{put_one};
ghost use Rattle.cb_paste.specs.inner.Slots.{token_count, seen_slot, seen_slots, IsSlotIn, AreSlotsIn};
ghost use Rattle.cb_paste.specs.inner.Glued.{glued_slots};

use crate::fault::PasteFault;
use crate::hides::Hides;
use crate::joining::{Glued, glue};
use crate::slots::{Slot, Slots};
use std::alloc::Global;

/// Puts what two sides of `##` make behind what stands.
fn push_glued(slots: &mut Slots, glued: Glued, room: usize) -> Result<(), PasteFault>
    ensures put { OnOk result (slots.new ≡ slots.old ++ glued_slots glued) }
    ensures fits { OnOk result (token_count slots.new ≤ room) }
    ensures long { result ≡ Err PasteFault.TooLong → room < token_count (slots.old ++ glued_slots glued) }
{
    match glued {
        Glued::One(slot) => {
            slots.push(slot, room)?;
            Ok(())
        }
        Glued::Two(left, right) => {
            slots.push(left, room)?;
            slots.push(right, room)?;
            Ok(())
        }
    }
}

/// Joins one more to the last of what stands.
#[inline(never)]
fn put_glued(
    alloc: Global,
    arena: &mut Hides,
    slots: &mut Slots,
    slot: Slot,
    room: usize,
) -> Result<(), PasteFault>
    requires stands { AreSlotsIn (length arena.old) slots.old }
    requires new { IsSlotIn (length arena.old) slot }
    ensures put { OnOk result (seen_slots arena.new slots.new
        ≡ onto_last (seen_slots arena.old slots.old) (seen_slot arena.old slot ∷ [])) }
    ensures long { result ≡ Err PasteFault.TooLong → room < length
        (reals (onto_last (seen_slots arena.old slots.old) (seen_slot arena.old slot ∷ []))) }
    ensures within { OnOk result (AreSlotsIn (length arena.new) slots.new) }
    ensures fits { OnOk result (token_count slots.new ≤ room) }
    ensures kept { Extends arena.old arena.new }
{
    match slots.pop() {
        None => {
            slots.push(slot, room)?;
            Ok(())
        }
        Some(last) => {
            let glued = glue(alloc, arena, last, slot)?;
            push_glued(slots, glued, room)?;
            Ok(())
        }
    }
}

/// Puts one more behind what stands, or joins it to the last.
#[inline]
pub(crate) fn put(
    alloc: Global,
    arena: &mut Hides,
    slots: &mut Slots,
    glued: bool,
    slot: Slot,
    room: usize,
) -> Result<(), PasteFault>
    requires stands { AreSlotsIn (length arena.old) slots.old }
    requires new { IsSlotIn (length arena.old) slot }
    ensures put { OnOk result (seen_slots arena.new slots.new
        ≡ put_one (seen_slots arena.old slots.old) glued (seen_slot arena.old slot ∷ [])) }
    ensures long { result ≡ Err PasteFault.TooLong → room < length
        (reals (put_one (seen_slots arena.old slots.old) glued (seen_slot arena.old slot ∷ []))) }
    ensures within { OnOk result (AreSlotsIn (length arena.new) slots.new) }
    ensures fits { OnOk result (token_count slots.new ≤ room) }
    ensures kept { Extends arena.old arena.new }
{
    if glued {
        put_glued(alloc, arena, slots, slot, room)?;
        return Ok(());
    }
    slots.push(slot, room)?;
    Ok(())
}
