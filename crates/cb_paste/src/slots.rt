//! What a call puts in, while it may still be joined.
ghost use Rattle.std.specs.Prelude.{◌≡◌, ◌<◌, ◌≤◌, [], ◌∷◌, ◌++◌, ℕ, List, IfOk, OnOk, MatchOption};
ghost use Rattle.cb_paste.specs.inner.Slots.{token_count, spaced_slot, seen_slot, IsSlotIn};
ghost use Rattle.cb_paste.specs.Joins.{Real};
ghost use Rattle.cb_paste.specs.Puts.{own_token};

use crate::fault::PasteFault;
use crate::work_token::WorkToken;
use cb_paths::{Bytes, NoMemory};
use cb_tokens::TokenKind;
use std::alloc::Global;
use std::marker::Model;

/// What stands at a side of `##`.
#[derive(Drop)]
pub(crate) enum Slot {
    /// A placemarker, with its parameter's white space.
    Mark(bool),
    /// A token.
    Real {
        /// It.
        token: WorkToken,
        /// Whether `##` made it, so that its form is known to be that of its bytes.
        joined: bool,
    },
}

/// What stands so far, with the number of its tokens. Contracts see it as the list of it.
#[derive(Drop)]
pub(crate) struct Slots {
    items: Vec<Slot>,
    tokens: usize,
}

impl Model for Slots {
    ghost use Rattle.std.specs.Prelude.{List, ◌≡◌};
    ghost use Rattle.cb_paste.specs.declared.slots.Slot.{Slot};

    ghost Value = { List Slot };

    ghost use Rattle.cb_paste.specs.inner.Slots.{token_count};

    ghost view = { λ s. s.items.items };

    ghost invariant = { λ s. s.tokens ≡ token_count s.items.items };
}

impl Slot {
    /// How many tokens it is.
    fn tokens(&self) -> usize
        ensures { result ≡ token_count (self.now ∷ []) }
    {
        match self {
            Slot::Mark(_) => 0,
            Slot::Real { .. } => 1,
        }
    }

    /// The same with such white space before it.
    pub fn with_space(self, spaced: bool) -> Slot
        ensures { result ≡ spaced_slot spaced self }
    {
        match self {
            Slot::Mark(_) => Slot::Mark(spaced),
            Slot::Real { token, joined } => Slot::Real {
                token: token.with_space(spaced),
                joined,
            },
        }
    }
}

impl Slots {
    /// Nothing stands, and so many can stand before more memory is taken.
    pub fn with_capacity(alloc: Global, count: usize) -> Result<Slots, NoMemory>
        ensures { IfOk result (λ slots. slots ≡ []) }
    {
        let items = Vec::with_capacity(alloc, count)?;
        Ok(Slots { items, tokens: 0 })
    }

    /// How many tokens stand.
    pub fn tokens(&self) -> usize
        ensures { result ≡ token_count self.now }
    {
        self.tokens
    }

    /// Puts one more behind the others. It is `TooLong` where there is no room for so many tokens.
    #[inline]
    pub fn push(&mut self, slot: Slot, room: usize) -> Result<(), PasteFault>
        ensures put { OnOk result (self.new ≡ self.old ++ slot ∷ []) }
        ensures fits { OnOk result (token_count self.new ≤ room) }
        ensures long { result ≡ Err PasteFault.TooLong → room < token_count (self.old ++ slot ∷ []) }
    {
        let tokens = self.tokens + slot.tokens();
        if tokens > room {
            return Err(PasteFault::TooLong);
        }
        self.items.push(slot)?;
        self.tokens = tokens;
        Ok(())
    }

    /// Takes the last one away.
    pub fn pop(&mut self) -> Option<Slot>
        ensures { MatchOption result ((self.old ≡ []) × (self.new ≡ [])) (λ slot. self.old ≡ self.new ++ slot ∷ []) }
    {
        match self.items.pop() {
            None => None,
            Some(slot) => {
                self.tokens -= slot.tokens();
                Some(slot)
            }
        }
    }
}

/// A token that hides nothing yet, as it stands before any `##`.
pub(crate) fn own_slot(kind: TokenKind, spaced: bool, text: Bytes) -> Slot
    ensures seen { (sets : List (List ℕ)) → seen_slot sets result ≡ Real (own_token kind spaced text) }
    ensures within { (count : ℕ) → IsSlotIn count result }
{
    let token = WorkToken {
        kind,
        spaced,
        text,
        hides: 0,
    };
    token.into_slot()
}
