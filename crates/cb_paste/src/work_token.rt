//! Tokens with their hide sets.
ghost use Rattle.std.specs.Prelude.{◌≡◌, IfOk};
ghost use Rattle.cb_paste.specs.inner.Slots.{as_slot};

use crate::slots::Slot;
use cb_paths::{Bytes, NoMemory};
use cb_tokens::TokenKind;
use std::alloc::Global;

/// A token that is being expanded.
#[derive(Drop)]
pub struct WorkToken {
    /// Its form.
    pub kind: TokenKind,
    /// Whether white space stands before it.
    pub spaced: bool,
    /// Its hide set, by the place in an arena `Hides`. It lies beside the two small ones, so that a token takes 24 bytes.
    pub hides: u32,
    /// Its bytes.
    pub text: Bytes,
}

impl WorkToken {
    /// The token with such white space before it.
    pub(crate) fn with_space(self, spaced: bool) -> WorkToken
        ensures { result ≡ record self { spaced = spaced } }
    {
        WorkToken {
            kind: self.kind,
            spaced,
            text: self.text,
            hides: self.hides,
        }
    }

    /// A second token of the same form, white space, bytes and hide set.
    pub(crate) fn copy(&self, alloc: Global) -> Result<WorkToken, NoMemory>
        ensures { IfOk result (λ token. token ≡ self.now) }
    {
        let text = self.text.copy(alloc)?;
        Ok(WorkToken {
            kind: self.kind,
            spaced: self.spaced,
            text,
            hides: self.hides,
        })
    }

    /// The token as it stands before any `##`.
    pub(crate) fn into_slot(self) -> Slot
        ensures { result ≡ as_slot self }
    {
        Slot::Real {
            token: self,
            joined: false,
        }
    }
}
