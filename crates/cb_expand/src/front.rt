//! The front of a source: its tokens stand, `defined` is answered, and names are replaced that become one token, up to the first
//! name of another macro.
ghost use Rattle.std.specs.Prelude.{◌≡◌, ◌<◌, ◌≤◌, ◌++◌, ◌&&◌, List, None, [], map, length, IfOk, IfSome};
ghost use Rattle.cb_tokens.specs.Kinds.{is_identifier_kind};
ghost use Rattle.cb_tokens.specs.declared.token.Token.{Token as Given};
ghost use Rattle.cb_expand.specs.declared.mode.Mode.{Mode as Tongue};
ghost use Rattle.cb_expand.specs.Arguments.{sign_of_token, is_open, is_close};
ghost use Rattle.cb_expand.specs.Heads.{asked, asked_of};
ghost use Rattle.cb_expand.specs.Expansion.{bare};
ghost use Rattle.cb_expand.specs.inner.Fronts.{IsAsked, IsFront, PutsOne, WasPut, AreRead};

use crate::limits::COST_LIMIT;
use crate::mode::Mode;
use crate::numbers::digit_of;
use crate::sign::sign_of;
use cb_macro::{Macro, Macros};
use cb_paste::Shape;
use cb_paths::NoMemory;
use cb_tokens::{Token, TokenKind, Tokens};
use std::alloc::Global;

/// A name that `defined` asks for.
#[derive(Clone, Copy)]
pub(crate) struct Asked {
    /// Where the name stands behind `defined`.
    pub(crate) name: usize,
    /// How many tokens it is with its parentheses.
    pub(crate) count: usize,
}

/// The name in `X` or `( X )` at the front of tokens.
fn asked_in(tokens: &[Token]) -> Option<Asked>
    ensures { IsAsked tokens.now (asked_of (map bare tokens.now)) result }
{
    if tokens.is_empty() {
        return None;
    }
    let first = &tokens[0];
    if first.is_identifier() {
        return Some(Asked { name: 0, count: 1 });
    }
    if tokens.len() < 3 {
        return None;
    }
    if !is_enclosed(first, &tokens[1], &tokens[2]) {
        return None;
    }
    Some(Asked { name: 1, count: 3 })
}

/// Whether these are `(`, an identifier and `)`.
fn is_enclosed(first: &Token, name: &Token, last: &Token) -> bool
    ensures { result ≡ (is_open (sign_of_token (bare first.now)) && is_identifier_kind name.now.kind && is_close (sign_of_token (bare last.now))) }
{
    sign_of(first.kind, first.text.as_slice()).is_open()
        && name.is_identifier()
        && sign_of(last.kind, last.text.as_slice()).is_close()
}

/// The name that a token asks for, where it is `defined` in a condition.
#[tactic(auto, unfolding(crate::specs::Heads::asked))]
fn asked_by(mode: Mode, token: &Token, rest: &[Token]) -> Option<Asked>
    ensures { IsAsked rest.now (asked mode (bare token.now) (map bare rest.now)) result }
{
    match mode {
        Mode::Plain => None,
        Mode::Condition => {
            if !token.is_identifier() {
                return None;
            }
            if token.text.as_slice() != b"defined".as_slice() {
                return None;
            }
            asked_in(rest)
        }
    }
}

/// What stands at the front of a source.
#[derive(Clone, Copy)]
pub(crate) enum Front {
    /// A token that stands.
    Stays,
    /// `defined`: whether the name behind it is that of a macro, and how many tokens that is with its parentheses.
    Asks(bool, usize),
    /// The name of the macro in a place.
    Names(usize),
}

/// What a token at the front of a source is that asks for no name.
fn unasked_front(macros: &Macros, token: &Token) -> Front
    ensures { (mode : Tongue) (rest : List Given) → asked mode (bare token.now) (map bare rest) ≡ None
        → IsFront macros.now mode token.now rest result }
{
    if !token.is_identifier() {
        return Front::Stays;
    }
    match macros.place_of(token.text.as_slice()) {
        Some(place) => Front::Names(place),
        None => Front::Stays,
    }
}

/// What stands at the front of a source.
fn front_of(macros: &Macros, mode: Mode, token: &Token, rest: &[Token]) -> Front
    ensures { IsFront macros.now mode token.now rest.now result }
{
    match asked_by(mode, token, rest) {
        None => unasked_front(macros, token),
        Some(asked) => {
            let name = &rest[asked.name];
            let is_defined = macros.place_of(name.text.as_slice()).is_some();
            Front::Asks(is_defined, asked.count)
        }
    }
}

/// How much of a source was read from its front, and what that cost.
#[derive(Clone, Copy)]
pub(crate) struct Progress {
    /// How many tokens were read.
    pub(crate) count: usize,
    /// What was paid for those that were replaced.
    pub(crate) paid: usize,
}

/// What the name of a macro costs that puts in one token.
const COST_OF_ONE: usize = 2;

/// The one token that the name of a macro becomes, with this white space before it, where the macro has no parameters and that
/// token is no identifier.
fn one_token(alloc: Global, body: &Macro, spaced: bool) -> Result<Option<Token>, NoMemory>
    ensures { IfOk result (λ made. IfSome made (λ token. (token.spaced ≡ spaced) × PutsOne body.now token)) }
{
    if body.is_function() {
        return Ok(None);
    }
    let parts = body.parts();
    if parts.len() != 1 {
        return Ok(None);
    }
    let part = &parts[0];
    if part.glued {
        return Ok(None);
    }
    match &part.shape {
        Shape::Fixed(kind, text) => {
            if kind.is_identifier() {
                return Ok(None);
            }
            let text = text.copy(alloc)?;
            Ok(Some(Token {
                kind: *kind,
                spaced,
                text,
            }))
        }
        _ => Ok(None),
    }
}

/// Puts the token that the macro in a place becomes behind others, where that is one alone: whether it did.
fn put_name(
    alloc: Global,
    macros: &Macros,
    place: usize,
    spaced: bool,
    out: &mut Tokens,
) -> Result<bool, NoMemory>
    requires { place < length macros.now }
    ensures { IfOk result (WasPut macros.now place spaced out.old out.new) }
{
    match one_token(alloc, macros.at(place), spaced)? {
        None => Ok(false),
        Some(token) => {
            out.push(token)?;
            Ok(true)
        }
    }
}

/// Reads the first token of a source, with the name that it asks for: how many tokens were read, and what that cost, which is at
/// most `room`. What became of them is put behind others. A name that may become more than one token is not read.
fn read_first(
    alloc: Global,
    macros: &Macros,
    mode: Mode,
    tokens: &[Token],
    room: usize,
    out: &mut Tokens,
) -> Result<Progress, NoMemory>
    requires { 0 < length tokens.now }
    ensures read { IfOk result (λ progress. (read : List Given) × (out.new ≡ out.old ++ read)
        × AreRead macros.now mode tokens.now progress.count read progress.paid) }
    ensures within { IfOk result (λ progress. progress.paid ≤ room) }
{
    let token = &tokens[0];
    match front_of(macros, mode, token, &tokens[1..]) {
        Front::Stays => {
            out.push(token.copy(alloc)?)?;
            Ok(Progress { count: 1, paid: 0 })
        }
        Front::Asks(is_defined, count) => {
            let text = digit_of(alloc, is_defined)?;
            out.push(Token {
                kind: TokenKind::Number,
                spaced: token.spaced,
                text,
            })?;
            let count = count + 1;
            Ok(Progress { count, paid: 0 })
        }
        Front::Names(place) => {
            if room < COST_OF_ONE {
                return Ok(Progress { count: 0, paid: 0 });
            }
            let was_put = put_name(alloc, macros, place, token.spaced, out)?;
            if !was_put {
                return Ok(Progress { count: 0, paid: 0 });
            }
            Ok(Progress {
                count: 1,
                paid: COST_OF_ONE,
            })
        }
    }
}

/// Reads a source up to the first name of a macro that is not asked for and may become more than one token: how many tokens were
/// read, and what that cost. What became of them is put out.
pub(crate) fn read_front(
    alloc: Global,
    macros: &Macros,
    mode: Mode,
    tokens: &[Token],
    out: &mut Tokens,
) -> Result<Progress, NoMemory>
    requires { out.old ≡ [] }
    ensures read { IfOk result (λ progress. AreRead macros.now mode tokens.now progress.count out.new progress.paid) }
    ensures limit { IfOk result (λ progress. progress.paid ≤ 65536) }
{
    let mut at = 0;
    let mut paid = 0;
    'tokens: while at < tokens.len() {
        let room = COST_LIMIT - paid;
        let read = read_first(alloc, macros, mode, &tokens[at..], room, out)?;
        at += read.count;
        paid += read.paid;
        if read.count == 0 {
            return Ok(Progress { count: at, paid });
        }
    }
    Ok(Progress { count: at, paid })
}
