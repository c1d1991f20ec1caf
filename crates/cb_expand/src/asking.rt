//! The name that `defined` asks for.
ghost use Rattle.std.specs.Prelude.{◌≡◌, ℕ, List, ◌<◌, ◌≤◌, None, Some, length, MatchOption};
ghost use Rattle.std.specs.List.{slice_index_or};
ghost use Rattle.cb_paste.specs.declared.work_token.WorkToken.{WorkToken as Held};
ghost use Rattle.cb_expand.specs.Heads.{asked_of};
ghost use Rattle.cb_expand.specs.inner.Rows.{between};
ghost use Rattle.cb_expand.specs.inner.Works.{seen_all};

use crate::sign::sign_of;
use cb_paste::WorkToken;

/// A name that `defined` asks for.
#[derive(Clone, Copy)]
pub(crate) struct Asked {
    /// Where the name lies.
    pub(crate) name: usize,
    /// How many tokens stand from behind the name or its closing parenthesis down.
    pub(crate) height: usize,
}

/// The name in `X` or `( X )` on top of a row.
pub(crate) fn asked_name(tokens: &[WorkToken], floor: usize) -> Option<Asked>
    requires { floor ≤ length tokens.now }
    ensures within { MatchOption result (floor ≤ length tokens.now) (λ a. (a.name < length tokens.now) × (floor ≤ a.height) × (a.height < length tokens.now)) }
    ensures asked { (sets : List (List ℕ)) → MatchOption result
        (asked_of (between floor (length tokens.now) (seen_all sets tokens.now)) ≡ None)
        (λ a. (name : Held) → slice_index_or tokens.now a.name name ≡ name
        → asked_of (between floor (length tokens.now) (seen_all sets tokens.now)) ≡ Some (name.text, between floor a.height (seen_all sets tokens.now))) }
{
    let height = tokens.len();
    if height == floor {
        return None;
    }
    let first = &tokens[height - 1];
    if first.kind.is_identifier() {
        return Some(Asked {
            name: height - 1,
            height: height - 1,
        });
    }
    if height - floor < 3 {
        return None;
    }
    let name = &tokens[height - 2];
    let close = &tokens[height - 3];
    if !sign_of(first.kind, first.text.as_slice()).is_open() {
        return None;
    }
    if !name.kind.is_identifier() {
        return None;
    }
    if !sign_of(close.kind, close.text.as_slice()).is_close() {
        return None;
    }
    Some(Asked {
        name: height - 2,
        height: height - 3,
    })
}
