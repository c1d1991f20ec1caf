//! What was put in goes onto the stack of the tokens to be read.
ghost use Rattle.std.specs.Prelude.{◌≡◌, ◌≤◌, ◌++◌, ◌∷◌, List, ℕ, map, length, OnOk};
ghost use Rattle.cb_paste.specs.Sets.{hides, Extends};
ghost use Rattle.cb_paste.specs.Shades.{seen, waiting, shaded, all_shaded, first_spaced, AreIn};
ghost use Rattle.cb_paste.specs.Joins.{real_of, reals};
ghost use Rattle.cb_paste.specs.inner.Slots.{seen_slot, seen_slots, IsSlotIn, AreSlotsIn};

use crate::hides::Hides;
use crate::slots::{Slot, Slots};
use crate::work_token::WorkToken;
use cb_paths::NoMemory;

/// Puts a token onto the stack, with another hide set joined to its own.
#[inline(always)]
pub(crate) fn push_token(
    arena: &mut Hides,
    token: WorkToken,
    extra: u32,
    stack: &mut Vec<WorkToken>,
) -> Result<(), NoMemory>
    requires token { token.hides ≤ length arena.old }
    requires extra { extra ≤ length arena.old }
    requires stack { AreIn (length arena.old) stack.old.items }
    ensures put { OnOk result (waiting arena.new stack.new.items
        ≡ shaded (hides arena.old extra) (seen arena.old token) ∷ waiting arena.old stack.old.items) }
    ensures within { OnOk result (AreIn (length arena.new) stack.new.items) }
    ensures kept { Extends arena.old arena.new }
{
    let hides = arena.either(extra, token.hides)?;
    let token = WorkToken {
        kind: token.kind,
        spaced: token.spaced,
        text: token.text,
        hides,
    };
    stack.push(token)?;
    Ok(())
}

/// Puts a token onto the stack so, and nothing for a placemarker.
fn push_slot(
    arena: &mut Hides,
    slot: Slot,
    extra: u32,
    stack: &mut Vec<WorkToken>,
) -> Result<(), NoMemory>
    requires slot { IsSlotIn (length arena.old) slot }
    requires extra { extra ≤ length arena.old }
    requires stack { AreIn (length arena.old) stack.old.items }
    ensures put { OnOk result (waiting arena.new stack.new.items
        ≡ all_shaded (hides arena.old extra) (real_of (seen_slot arena.old slot))
        ++ waiting arena.old stack.old.items) }
    ensures within { OnOk result (AreIn (length arena.new) stack.new.items) }
    ensures kept { Extends arena.old arena.new }
{
    match slot {
        Slot::Mark(_) => Ok(()),
        Slot::Real { token, .. } => {
            push_token(arena, token, extra, stack)?;
            Ok(())
        }
    }
}

/// Puts all that stands onto the stack so, the last first.
pub(crate) fn push_slots(
    arena: &mut Hides,
    mut slots: Slots,
    extra: u32,
    stack: &mut Vec<WorkToken>,
) -> Result<(), NoMemory>
    requires slots { AreSlotsIn (length arena.old) slots }
    requires extra { extra ≤ length arena.old }
    requires stack { AreIn (length arena.old) stack.old.items }
    ensures put { OnOk result (waiting arena.new stack.new.items
        ≡ all_shaded (hides arena.old extra) (reals (seen_slots arena.old slots))
        ++ waiting arena.old stack.old.items) }
    ensures within { OnOk result (AreIn (length arena.new) stack.new.items) }
    ensures kept { Extends arena.old arena.new }
{
    'slots: while let Some(slot) = slots.pop() {
        push_slot(arena, slot, extra, stack)?;
    }
    Ok(())
}

/// Gives the next token of the stack such white space.
pub(crate) fn space_first(stack: &mut Vec<WorkToken>, spaced: bool)
    ensures put { (sets : List (List ℕ)) → waiting sets stack.new.items
        ≡ first_spaced spaced (waiting sets stack.old.items) }
    ensures within { (count : ℕ) → AreIn count stack.old.items → AreIn count stack.new.items }
{
    let count = stack.len();
    if count == 0 {
        return;
    }
    stack[count - 1].spaced = spaced;
}
