//! The operator `##`: what stands at its sides is joined.
ghost use Rattle.std.specs.Prelude.{◌≡◌, ◌≤◌, ◌++◌, true, ℕ, List, Some, take, map, length, IfOk, IfSome};
ghost use Rattle.std.specs.List.{list_all};
ghost use Rattle.cb_tokens.specs.Forms.{is_name_byte};
ghost use Rattle.cb_tokens.specs.Kinds.{token_kind};
ghost use Rattle.cb_paste.specs.Sets.{Extends};
ghost use Rattle.cb_paste.specs.Shades.{seen};
ghost use Rattle.cb_paste.specs.Joins.{glue, joined_as};
ghost use Rattle.cb_paste.specs.inner.Slots.{seen_slot, seen_slots, IsSlotIn, AreSlotsIn};
ghost use Rattle.cb_paste.specs.inner.Glued.{glued_slots};

use crate::hides::Hides;
use crate::slots::Slot;
use crate::work_token::WorkToken;
use cb_paths::{Bytes, NoMemory};
use cb_tokens::{TokenKind, token_kind};
use std::alloc::Global;

/// What two sides of `##` make.
#[derive(Drop)]
pub(crate) enum Glued {
    /// One.
    One(Slot),
    /// Two: they cannot be joined.
    Two(Slot, Slot),
}

/// Whether an identifier goes on over a byte.
#[tactic(auto, unfolding(cb_tokens::specs::Forms::is_name_byte, cb_tokens::specs::Forms::is_name_start))]
fn is_name_byte(byte: u8) -> bool
    ensures { result ≡ is_name_byte byte }
{
    byte.is_ascii_alphabetic()
        || byte == b'_'
        || byte == b'$'
        || byte >= 128
        || byte.is_ascii_digit()
}

/// Whether all bytes are bytes of names.
fn are_name_bytes(bytes: &[u8]) -> bool
    ensures { result ≡ list_all is_name_byte bytes.now }
{
    bytes.iter().all(|byte| is_name_byte(*byte))
}

/// Whether bytes that stand behind a token of such a form make no other form of it.
fn goes_on(kind: TokenKind, bytes: &[u8]) -> bool
    ensures { result ≡ true → (front : List ℕ) → token_kind front ≡ Some kind
        → token_kind (front ++ bytes.now) ≡ Some kind }
{
    match kind {
        TokenKind::Identifier => are_name_bytes(bytes),
        TokenKind::Number => are_name_bytes(bytes),
        TokenKind::Char | TokenKind::Str | TokenKind::Punct | TokenKind::Other => false,
    }
}

/// The form of a text, where that of so many bytes at its front may be known: these are then not read again if the
/// others are bytes of names.
fn kind_of(text: &[u8], len: usize, known: Option<TokenKind>) -> Option<TokenKind>
    requires within { len ≤ length text.now }
    requires known { IfSome known (λ kind. token_kind (take len text.now) ≡ Some kind) }
    ensures { result ≡ token_kind text.now }
{
    if let Some(kind) = known {
        if goes_on(kind, &text[len..]) {
            return Some(kind);
        }
    }
    token_kind(text)
}

/// A token with more bytes behind its own.
fn with_more(alloc: Global, left: WorkToken, right: &[u8]) -> Result<WorkToken, NoMemory>
    ensures { IfOk result (λ t. t ≡ record left { text = left.text ++ right.now }) }
{
    let WorkToken {
        kind,
        spaced,
        text,
        hides,
    } = left;
    let mut text = text.into_vec(alloc)?;
    text.extend_from_slice(right)?;
    let text = Bytes::from_vec(alloc, text)?;
    Ok(WorkToken {
        kind,
        spaced,
        text,
        hides,
    })
}

/// A token with so many of its bytes.
fn cut(alloc: Global, token: WorkToken, len: usize) -> Result<WorkToken, NoMemory>
    ensures { IfOk result (λ t. t ≡ record token { text = take len token.text }) }
{
    let WorkToken {
        kind,
        spaced,
        text,
        hides,
    } = token;
    let mut text = text.into_vec(alloc)?;
    text.truncate(len);
    let text = Bytes::from_vec(alloc, text)?;
    Ok(WorkToken {
        kind,
        spaced,
        text,
        hides,
    })
}

/// What two tokens make, where the form of the left one's bytes may be known.
fn join(
    alloc: Global,
    arena: &mut Hides,
    left: WorkToken,
    known: Option<TokenKind>,
    right: WorkToken,
) -> Result<Glued, NoMemory>
    requires left { left.hides ≤ length arena.old }
    requires right { right.hides ≤ length arena.old }
    requires known { IfSome known (λ kind. token_kind left.text ≡ Some kind) }
    ensures glued { IfOk result (λ g. seen_slots arena.new (glued_slots g)
        ≡ joined_as (seen arena.old left) (seen arena.old right) (token_kind (left.text ++ right.text))) }
    ensures within { IfOk result (λ g. AreSlotsIn (length arena.new) (glued_slots g)) }
    ensures kept { Extends arena.old arena.new }
{
    let len = left.text.len();
    let whole = with_more(alloc, left, right.text.as_slice())?;
    match kind_of(whole.text.as_slice(), len, known) {
        None => {
            let left = cut(alloc, whole, len)?;
            Ok(Glued::Two(left.into_slot(), right.with_space(false).into_slot()))
        }
        Some(kind) => {
            let hides = arena.both(whole.hides, right.hides)?;
            let token = WorkToken {
                kind,
                spaced: whole.spaced,
                text: whole.text,
                hides,
            };
            Ok(Glued::One(Slot::Real {
                token,
                joined: true,
            }))
        }
    }
}

/// What two sides of `##` make.
pub(crate) fn glue(
    alloc: Global,
    arena: &mut Hides,
    left: Slot,
    right: Slot,
) -> Result<Glued, NoMemory>
    requires left { IsSlotIn (length arena.old) left }
    requires right { IsSlotIn (length arena.old) right }
    ensures glued { IfOk result (λ g. seen_slots arena.new (glued_slots g)
        ≡ glue (seen_slot arena.old left) (seen_slot arena.old right)) }
    ensures within { IfOk result (λ g. AreSlotsIn (length arena.new) (glued_slots g)) }
    ensures kept { Extends arena.old arena.new }
{
    match left {
        Slot::Mark(spaced) => Ok(Glued::One(right.with_space(spaced))),
        Slot::Real { token, joined } => match right {
            Slot::Mark(_) => Ok(Glued::One(Slot::Real { token, joined })),
            Slot::Real { token: other, .. } => {
                let known = if joined { Some(token.kind) } else { None };
                let glued = join(alloc, arena, token, known, other)?;
                Ok(glued)
            }
        },
    }
}
