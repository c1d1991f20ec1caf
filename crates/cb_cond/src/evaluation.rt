//! The meaning of a whole condition.
ghost use Rattle.std.specs.Prelude.{length};
ghost use Rattle.cb_cond.specs.inner.Rests.{left};
ghost use Rattle.cb_cond.specs.Symbols.{symbols};
ghost use Rattle.cb_cond.specs.Faults.{IsTooDeep};
ghost use Rattle.cb_cond.specs.inner.Attempts.{HasRoom, IsReadAs, IsAttempt};

use crate::frames::{Frame, Position, read_symbol, whole};
use crate::meaning::Meaning;
use crate::prefixes::Prefixes;
use crate::rest::Rest;
use crate::symbols::token_symbol;
use cb_paths::Language;

/// What came of reading a condition in a room of fixed size.
#[derive(Clone, Copy)]
pub(crate) enum Attempt {
    /// The meaning of the condition, or nothing where the tokens are none.
    Read(Option<Meaning>),
    /// The room may be too small.
    Crowded,
}

/// Reads a condition in a room.
fn meaning_in(language: Language, mut rest: Rest, frames: &mut [Frame]) -> Attempt
    ensures { IsAttempt (symbols language (left rest.entry)) (length frames.old) result }
{
    let mut position = Position::start(frames.len());
    'tokens: while let Some(token) = rest.next() {
        if position.top == 0 {
            return Attempt::Crowded;
        }
        let Some(next) = read_symbol(frames, position, token_symbol(language, token)) else {
            return Attempt::Read(None);
        };
        position = next;
    }
    Attempt::Read(whole(frames, position))
}

/// The frames for conditions of fewer tokens than that, which never need as many: a whole run over such conditions takes 3 % less
/// time so than where they begin with 32 (`bench/passes --shape macros`).
const FEW_FRAMES: usize = 8;

/// The frames that are enough for most conditions, also where macros put their parentheses: a whole run takes 4 % less time so
/// than with 16, where more of them are read twice (`bench/passes --shape conditions`).
const MANY_FRAMES: usize = 32;

/// The frames that are enough for each condition that is not too deep: in each open parenthesis and outside an operator of
/// each of the ten levels may wait, and then there are the parentheses and the choices themselves. One stays free.
const ALL_FRAMES: usize = 3083;

/// Reads a condition in a small room.
#[inline(never)]
fn meaning_in_few(language: Language, rest: Rest) -> Attempt
    ensures { IsAttempt (symbols language (left rest.entry)) FEW_FRAMES result }
{
    let mut frames = [Frame::Inside(Prefixes::NONE); FEW_FRAMES];
    meaning_in(language, rest, &mut frames)
}

/// Reads a condition in a larger room.
#[inline(never)]
fn meaning_in_many(language: Language, rest: Rest) -> Attempt
    ensures { IsAttempt (symbols language (left rest.entry)) MANY_FRAMES result }
{
    let mut frames = [Frame::Inside(Prefixes::NONE); MANY_FRAMES];
    meaning_in(language, rest, &mut frames)
}

/// Reads a condition in the largest room.
#[inline(never)]
fn meaning_in_all(language: Language, rest: Rest) -> Attempt
    ensures { IsAttempt (symbols language (left rest.entry)) ALL_FRAMES result }
{
    let mut frames = [Frame::Inside(Prefixes::NONE); ALL_FRAMES];
    meaning_in(language, rest, &mut frames)
}

/// The meaning of a condition that is not too deep, or nothing where the tokens are none.
pub(crate) fn meaning_of(language: Language, rest: Rest) -> Option<Meaning>
    requires { ¬ (IsTooDeep (symbols language (left rest))) }
    ensures { IsReadAs (symbols language (left rest.entry)) result }
{
    if rest.len() < FEW_FRAMES {
        if let Attempt::Read(meaning) = meaning_in_few(language, rest) {
            return meaning;
        }
    }
    if let Attempt::Read(meaning) = meaning_in_many(language, rest) {
        return meaning;
    }
    match meaning_in_all(language, rest) {
        Attempt::Read(meaning) => meaning,
        Attempt::Crowded => None,
    }
}
