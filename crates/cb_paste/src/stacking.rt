//! Tokens that nothing joins go onto the stack, the last of them first.
ghost use Rattle.std.specs.Prelude.{◌≡◌, ◌≤◌, ◌++◌, ◌∷◌, List, ℕ, map, length, OnOk};
ghost use Rattle.cb_paste.specs.Sets.{hides, Extends};
ghost use Rattle.cb_paste.specs.Shades.{seen, waiting, shaded, all_shaded, first_spaced, AreIn};
ghost use Rattle.cb_paste.specs.Puts.{own_token};

use crate::hides::Hides;
use crate::placing::{push_token, space_first};
use crate::work_token::WorkToken;
use cb_paths::{Bytes, NoMemory};
use cb_tokens::TokenKind;
use std::alloc::Global;

/// Puts a token that hid nothing yet onto the stack, with a hide set.
pub(crate) fn push_own(
    kind: TokenKind,
    spaced: bool,
    text: Bytes,
    set: u32,
    stack: &mut Vec<WorkToken>,
) -> Result<(), NoMemory>
    ensures put { (sets : List (List ℕ)) → OnOk result (waiting sets stack.new.items
        ≡ shaded (hides sets set) (own_token kind spaced text) ∷ waiting sets stack.old.items) }
    ensures within { (count : ℕ) → set ≤ count → AreIn count stack.old.items → OnOk result (AreIn count stack.new.items) }
{
    stack.push(WorkToken {
        kind,
        spaced,
        text,
        hides: set,
    })?;
    Ok(())
}

/// Puts copies of tokens onto the stack, with another hide set joined to their own.
fn push_copies(
    alloc: Global,
    arena: &mut Hides,
    tokens: &[WorkToken],
    extra: u32,
    stack: &mut Vec<WorkToken>,
) -> Result<(), NoMemory>
    requires tokens { AreIn (length arena.old) tokens.now }
    requires extra { extra ≤ length arena.old }
    requires stack { AreIn (length arena.old) stack.old.items }
    ensures put { OnOk result (waiting arena.new stack.new.items
        ≡ all_shaded (hides arena.old extra) (map (seen arena.old) tokens.now) ++ waiting arena.old stack.old.items) }
    ensures within { OnOk result (AreIn (length arena.new) stack.new.items) }
    ensures kept { Extends arena.old arena.new }
{
    let mut at = tokens.len();
    'tokens: while at > 0 {
        at -= 1;
        let token = tokens[at].copy(alloc)?;
        push_token(arena, token, extra, stack)?;
    }
    Ok(())
}

/// Puts tokens onto the stack, with another hide set joined to their own.
fn push_moved(
    arena: &mut Hides,
    mut tokens: Vec<WorkToken>,
    extra: u32,
    stack: &mut Vec<WorkToken>,
) -> Result<(), NoMemory>
    requires tokens { AreIn (length arena.old) tokens.items }
    requires extra { extra ≤ length arena.old }
    requires stack { AreIn (length arena.old) stack.old.items }
    ensures put { OnOk result (waiting arena.new stack.new.items
        ≡ all_shaded (hides arena.old extra) (map (seen arena.old) tokens.items) ++ waiting arena.old stack.old.items) }
    ensures within { OnOk result (AreIn (length arena.new) stack.new.items) }
    ensures kept { Extends arena.old arena.new }
{
    'tokens: while let Some(token) = tokens.pop() {
        push_token(arena, token, extra, stack)?;
    }
    Ok(())
}

/// Puts copies of an argument's tokens onto the stack so, the first with its parameter's white space.
pub(crate) fn copy_argument(
    alloc: Global,
    arena: &mut Hides,
    tokens: &[WorkToken],
    spaced: bool,
    extra: u32,
    stack: &mut Vec<WorkToken>,
) -> Result<(), NoMemory>
    requires tokens { AreIn (length arena.old) tokens.now }
    requires extra { extra ≤ length arena.old }
    requires stack { AreIn (length arena.old) stack.old.items }
    ensures put { OnOk result (waiting arena.new stack.new.items
        ≡ all_shaded (hides arena.old extra) (first_spaced spaced (map (seen arena.old) tokens.now))
        ++ waiting arena.old stack.old.items) }
    ensures within { OnOk result (AreIn (length arena.new) stack.new.items) }
    ensures kept { Extends arena.old arena.new }
{
    if tokens.is_empty() {
        return Ok(());
    }
    push_copies(alloc, arena, tokens, extra, stack)?;
    space_first(stack, spaced);
    Ok(())
}

/// Puts an argument's own tokens onto the stack so.
pub(crate) fn move_argument(
    arena: &mut Hides,
    tokens: Vec<WorkToken>,
    spaced: bool,
    extra: u32,
    stack: &mut Vec<WorkToken>,
) -> Result<(), NoMemory>
    requires tokens { AreIn (length arena.old) tokens.items }
    requires extra { extra ≤ length arena.old }
    requires stack { AreIn (length arena.old) stack.old.items }
    ensures put { OnOk result (waiting arena.new stack.new.items
        ≡ all_shaded (hides arena.old extra) (first_spaced spaced (map (seen arena.old) tokens.items))
        ++ waiting arena.old stack.old.items) }
    ensures within { OnOk result (AreIn (length arena.new) stack.new.items) }
    ensures kept { Extends arena.old arena.new }
{
    if tokens.is_empty() {
        return Ok(());
    }
    push_moved(arena, tokens, extra, stack)?;
    space_first(stack, spaced);
    Ok(())
}
