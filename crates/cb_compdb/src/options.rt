//! The effects of the words of a compiler, one after the other.
ghost use Rattle.std.specs.Prelude.{◌≡◌, ◌∷◌, ◌<◌, [], drop, length, MatchOption, IfSome};
ghost use Rattle.cb_compdb.specs.Options.{effects_of};

use crate::form::{Form, OptionKind, form_of};
use cb_paths::Bytes;

/// What an option does, with its text.
#[derive(Clone, Copy)]
pub(crate) struct Effect<'a> {
    pub(crate) kind: OptionKind,
    pub(crate) text: &'a [u8],
}

/// The words behind the first one.
pub(crate) fn behind_first(words: &[Bytes]) -> &[Bytes]
    ensures { result.now ≡ drop 1 words.now }
{
    match words.split_first() {
        Some((_first, behind)) => behind,
        None => words,
    }
}

/// The first effect of words, and the words behind it; none where they have no effect.
pub(crate) fn next_effect(words: &[Bytes]) -> Option<(Effect<'_>, &[Bytes])>
    ensures effect { MatchOption result (effects_of words.now ≡ [])
        (λ p. effects_of words.now ≡ (p.0.kind, p.0.text.now) ∷ effects_of p.1.now) }
    ensures shorter { IfSome result (λ p. length p.1.now < length words.now) }
{
    let mut left = words;
    'words: while let Some((word, behind)) = left.split_first() {
        match form_of(word.as_slice()) {
            Form::With(kind, text) => return Some((Effect { kind, text }, behind)),
            Form::Takes(kind) => {
                let (text, behind) = behind.split_first()?;
                let text = text.as_slice();
                return Some((Effect { kind, text }, behind));
            }
            Form::Skips => left = behind_first(behind),
            Form::Passed => left = behind,
        }
    }
    None
}
