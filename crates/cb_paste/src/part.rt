//! Parts of replacement lists.
ghost use Rattle.std.specs.Prelude.{◌≡◌, ◌+◌, ◌<◌, ◌||◌, true, false, length, drop};
ghost use Rattle.cb_paste.specs.Puts.{next_glued};
ghost use Rattle.cb_paste.specs.inner.Plain.{is_plain};
ghost use Rattle.cb_paste.specs.inner.Uses.{same_form, takes, is_used, is_used_plainly};

use cb_paths::Bytes;
use cb_tokens::TokenKind;

/// A part of a macro's replacement list. A `##` between two parts is none of its own: the second one is glued.
#[derive(Drop)]
pub struct Part {
    /// Whether a `##` stands before it.
    pub glued: bool,
    /// Whether white space stands before it.
    pub spaced: bool,
    /// What it puts in.
    pub shape: Shape,
}

/// What a part puts in.
#[derive(Drop)]
pub enum Shape {
    /// A token of the replacement list: its form and its bytes.
    Fixed(TokenKind, Bytes),
    /// The argument of a parameter, by its place among the parameters, from 0.
    Parameter(usize),
    /// A `#` with its parameter: the string of the argument as written.
    Quoted(usize),
}

/// Whether there is such a part, and it is glued.
fn is_glued(parts: &[Part], at: usize) -> bool
    ensures { result ≡ next_glued (drop at parts.now) }
{
    match parts.get(at) {
        None => false,
        Some(part) => part.glued,
    }
}

/// Whether a part stands at a side of `##`.
pub(crate) fn is_beside(parts: &[Part], at: usize) -> bool
    requires { at < length parts.now }
    ensures { result ≡ (next_glued (drop at parts.now) || next_glued (drop (at + 1) parts.now)) }
{
    if is_glued(parts, at) {
        return true;
    }
    is_glued(parts, at + 1)
}

/// Whether no `##` stands in a replacement list.
pub(crate) fn is_plain(parts: &[Part]) -> bool
    ensures { result ≡ is_plain parts.now }
{
    parts.iter().all(|part| !part.glued)
}

/// In how many parts a further use of an argument is looked for at least. Without a bound a long list would take the square
/// of its length.
const LOOK: usize = 64;

/// Whether a further use of an argument of so many tokens is looked for in these parts: where they are few, or where that
/// costs no more than a copy of the tokens.
pub(crate) fn is_looked_for(parts: &[Part], count: usize) -> bool {
    parts.len() <= LOOK || parts.len() <= count
}

/// Whether both are the tokens as written, or both those after the argument's own expansion.
fn same_form(beside: bool, raw: bool) -> bool
    ensures { result ≡ same_form beside raw }
{
    if beside {
        return raw;
    }
    !raw
}

/// Whether a part, beside `##` or not, puts in the tokens of a parameter's argument: those as written (`raw`), or those after
/// its own expansion.
fn takes(part: &Part, beside: bool, raw: bool, i: usize) -> bool
    ensures { result ≡ takes part.now.shape beside raw i }
{
    match &part.shape {
        Shape::Fixed(..) => false,
        Shape::Parameter(j) => same_form(beside, raw) && *j == i,
        Shape::Quoted(j) => raw && *j == i,
    }
}

/// Whether one of the parts does, where no part behind them is glued.
pub(crate) fn is_used(parts: &[Part], raw: bool, i: usize) -> bool
    ensures { result ≡ is_used parts.now raw i }
{
    let mut at = 0;
    'parts: while at < parts.len() {
        if takes(&parts[at], is_beside(parts, at), raw, i) {
            return true;
        }
        at += 1;
    }
    false
}

/// Whether one of the parts does, where none stands beside `##`.
pub(crate) fn is_used_plainly(parts: &[Part], raw: bool, i: usize) -> bool
    ensures { result ≡ is_used_plainly parts.now raw i }
{
    parts.iter().any(|part| takes(part, false, raw, i))
}
