//! The items of a replacement list, and the parts that `##` makes of them.
ghost use Rattle.std.specs.Prelude.{◌≡◌, ◌+◌, ◌<◌, ◌≤◌, List, ◌∷◌, ◌++◌, length, drop, IfOk, Option};
ghost use Rattle.cb_macro.specs.Definitions.{parameter_of, all_parameters};
ghost use Rattle.cb_macro.specs.Parts.{token_item, quoted_item, quoted_at, items, glues};
ghost use Rattle.cb_macro.specs.declared.item.Item.{Item};
ghost use Rattle.cb_macro.specs.inner.Reading.{quoted_front};

use crate::names::Names;
use crate::signs::{reads_hash, reads_paste};
use cb_paste::{Part, Shape};
use cb_paths::NoMemory;
use cb_tokens::Token;
use std::alloc::Global;

/// An item of a replacement list: a token, or `#` with its parameter.
#[derive(Drop)]
pub(crate) struct Item {
    /// What it puts in.
    pub(crate) shape: Shape,
    /// Whether white space stands before it.
    pub(crate) spaced: bool,
    /// Whether it is `##`.
    pub(crate) pastes: bool,
}

/// What stands before an item.
#[derive(Clone, Copy)]
pub(crate) enum Before {
    /// Nothing.
    Nothing,
    /// An item that `##` may join to the next one.
    Operand,
    /// Such an item, and `##`.
    Paste,
}

/// The place of the parameter that a token names.
#[tactic(auto, unfolding(crate::specs::Definitions::parameter_of))]
pub(crate) fn parameter_place(names: &Names, token: &Token) -> Option<usize>
    ensures { result ≡ parameter_of names.now token.now }
{
    if token.is_identifier() {
        names.place(token.text.as_slice())
    } else {
        None
    }
}

/// The place of the parameter that `#` turns into a string, where these tokens begin with both in a function-like
/// macro.
fn quoted_place(is_function: bool, names: &Names, tokens: &[Token]) -> Option<usize>
    ensures { result ≡ quoted_front is_function names.now tokens.now }
{
    match tokens {
        [hash, operand, ..] => {
            if is_function && reads_hash(hash) {
                parameter_place(names, operand)
            } else {
                None
            }
        }
        _ => None,
    }
}

/// A token as an item.
fn item_of(alloc: Global, names: &Names, token: &Token) -> Result<Item, NoMemory>
    ensures { IfOk result (λ item. item ≡ token_item names.now token.now) }
{
    let pastes = reads_paste(token);
    let spaced = token.spaced;
    if let Some(place) = parameter_place(names, token) {
        let shape = Shape::Parameter(place);
        return Ok(Item {
            shape,
            spaced,
            pastes,
        });
    }
    let text = token.text.copy(alloc)?;
    let shape = Shape::Fixed(token.kind, text);
    Ok(Item {
        shape,
        spaced,
        pastes,
    })
}

/// Puts an item behind the parts, unless it is a `##` that joins the next one; and answers what stands before that.
#[tactic(auto, unfolding(crate::specs::Parts::glues))]
fn push_item(parts: &mut Vec<Part>, before: Before, item: Item) -> Result<Before, NoMemory>
    ensures { IfOk result (λ after. (more : List Item) → parts.new.items ++ glues after more ≡ parts.old.items ++ glues before (item ∷ more)) }
{
    let glued = match before {
        Before::Nothing => false,
        Before::Operand => {
            if item.pastes {
                return Ok(Before::Paste);
            }
            false
        }
        Before::Paste => true,
    };
    parts.push(Part {
        glued,
        spaced: item.spaced,
        shape: item.shape,
    })?;
    Ok(Before::Operand)
}

/// The first item of tokens, and how many of them it takes.
fn next_item(
    alloc: Global,
    is_function: bool,
    names: &Names,
    tokens: &[Token],
) -> Result<(Item, usize), NoMemory>
    requires { 0 < length tokens.now }
    ensures item { IfOk result (λ r. items is_function names.now tokens.now ≡ r.0 ∷ items is_function names.now (drop r.1 tokens.now)) }
    ensures taken { IfOk result (λ r. (0 < r.1) × (r.1 ≤ length tokens.now)) }
{
    let token = &tokens[0];
    if let Some(place) = quoted_place(is_function, names, tokens) {
        let item = Item {
            shape: Shape::Quoted(place),
            spaced: token.spaced,
            pastes: false,
        };
        return Ok((item, 2));
    }
    let item = item_of(alloc, names, token)?;
    Ok((item, 1))
}

/// The parts of a replacement list.
pub(crate) fn read_parts(
    alloc: Global,
    is_function: bool,
    names: &Names,
    tokens: &[Token],
) -> Result<Vec<Part>, NoMemory>
    ensures { IfOk result (λ parts. parts.items ≡ glues Before.Nothing (items is_function names.now tokens.now)) }
{
    let mut parts = Vec::with_capacity(alloc, tokens.len())?;
    let mut before = Before::Nothing;
    let mut at = 0;
    'tokens: while at < tokens.len() {
        let (item, taken) = next_item(alloc, is_function, names, &tokens[at..])?;
        before = push_item(&mut parts, before, item)?;
        at += taken;
    }
    Ok(parts)
}
