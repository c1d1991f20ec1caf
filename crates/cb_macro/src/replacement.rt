//! Replacement lists: whether they keep the constraints, and copies of them.
ghost use Rattle.std.specs.Prelude.{◌≡◌, ◌||◌, ◌++◌, IfOk, OnOk};
ghost use Rattle.std.specs.List.{list_any};
ghost use Rattle.cb_macro.specs.Signs.{is_named, rest_name};
ghost use Rattle.cb_tokens.specs.declared.token.Token.{Token};
ghost use Rattle.cb_macro.specs.Definitions.{begins_with_paste, ends_with_paste, begins_with_parameter, hashes_name_parameters, without_front_space, may_stand, all_parameters};

use crate::item::parameter_place;
use crate::names::Names;
use crate::parameters::Parameters;
use crate::signs::{reads_hash, reads_paste, reads_rest_name};
use cb_paths::NoMemory;
use cb_tokens::Token;
use std::alloc::Global;

/// Whether `##` stands first or last.
#[tactic(auto, unfolding(crate::specs::Definitions::begins_with_paste, crate::specs::Definitions::ends_with_paste))]
fn pastes_at_end(tokens: &[Token]) -> bool
    ensures { result ≡ (begins_with_paste tokens.now || ends_with_paste tokens.now) }
{
    if tokens.is_empty() {
        return false;
    }
    reads_paste(&tokens[0]) || reads_paste(&tokens[tokens.len() - 1])
}

/// Whether the first token names a parameter.
#[tactic(auto, unfolding(crate::specs::Definitions::begins_with_parameter))]
fn parameter_first(names: &Names, tokens: &[Token]) -> bool
    ensures { result ≡ begins_with_parameter names.now tokens.now }
{
    match tokens {
        [] => false,
        [first, ..] => parameter_place(names, first).is_some(),
    }
}

/// Whether a parameter stands behind each `#`.
#[tactic(auto, unfolding(crate::specs::Definitions::hashes_name_parameters))]
fn hashes_have_parameters(names: &Names, tokens: &[Token]) -> bool
    ensures { result ≡ hashes_name_parameters names.now tokens.now }
{
    for at in 0..tokens.len() {
        if reads_hash(&tokens[at]) && !parameter_first(names, &tokens[at + 1..]) {
            return false;
        }
    }
    true
}

/// Whether `__VA_ARGS__` stands among the tokens.
fn has_rest_name(tokens: &[Token]) -> bool
    ensures { result ≡ list_any (is_named rest_name) tokens.now }
{
    tokens.iter().any(|token| reads_rest_name(token))
}

/// Whether a replacement list keeps the constraints.
#[tactic(auto, unfolding(crate::specs::Definitions::may_stand))]
pub(crate) fn keeps_constraints(
    is_function: bool,
    parameters: &Parameters,
    names: &Names,
    tokens: &[Token],
) -> bool
    requires { names.now ≡ all_parameters (record { is_function = is_function; parameters = parameters.now.names.items; is_variadic = parameters.now.is_variadic; replacement = tokens.now }) }
    ensures { result ≡ may_stand (record { is_function = is_function; parameters = parameters.now.names.items; is_variadic = parameters.now.is_variadic; replacement = tokens.now }) }
{
    !pastes_at_end(tokens)
        && (!is_function || hashes_have_parameters(names, tokens))
        && (parameters.is_variadic || !has_rest_name(tokens))
}

/// Puts copies of tokens behind others.
fn push_copies(alloc: Global, copies: &mut Vec<Token>, tokens: &[Token]) -> Result<(), NoMemory>
    ensures { OnOk result (copies.new.items ≡ copies.old.items ++ tokens.now) }
{
    for token in tokens {
        copies.push(token.copy(alloc)?)?;
    }
    Ok(())
}

/// A copy of a replacement list, without white space before its first token.
#[tactic(auto, unfolding(crate::specs::Definitions::without_front_space))]
pub(crate) fn copy_replacement(alloc: Global, tokens: &[Token]) -> Result<Vec<Token>, NoMemory>
    ensures { IfOk result (λ copies. copies.items ≡ without_front_space tokens.now) }
{
    let mut copies = Vec::with_capacity(alloc, tokens.len())?;
    if tokens.is_empty() {
        return Ok(copies);
    }
    let first = &tokens[0];
    let text = first.text.copy(alloc)?;
    copies.push(Token {
        kind: first.kind,
        spaced: false,
        text,
    })?;
    push_copies(alloc, &mut copies, &tokens[1..])?;
    Ok(copies)
}
