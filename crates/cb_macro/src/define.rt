//! From the tokens after `define` to a macro.
ghost use Rattle.std.specs.Prelude.{◌≡◌, ◌<◌, None, Some, IfOk, IfErr, IfSome, position, codes, length};
ghost use Rattle.cb_tokens.specs.declared.token.Token.{Token};
ghost use Rattle.cb_macro.specs.Signs.{is_sign};
ghost use Rattle.cb_macro.specs.Definitions.{defines, body_of, object_body, function_body, function_like, checked, all_parameters, without_front_space};
ghost use Rattle.cb_macro.specs.inner.Reading.{OnBad};

use crate::body::Macro;
use crate::fault::DefineFault;
use crate::names::Names;
use crate::parameters::{Parameters, all_names, read_parameters};
use crate::replacement::{copy_replacement, keeps_constraints};
use crate::signs::{may_name, reads};
use cb_paths::Bytes;
use cb_tokens::Token;
use std::alloc::Global;

/// A name with its definition.
#[derive(Drop)]
pub struct Defined {
    /// The name.
    pub name: Bytes,
    /// What it is defined as.
    pub body: Macro,
}

/// The macro with these parameters and this replacement list, where that keeps the constraints.
#[tactic(auto, unfolding(crate::specs::Definitions::checked))]
fn checked_macro(
    alloc: Global,
    is_function: bool,
    parameters: Parameters,
    names: &Names,
    tokens: &[Token],
) -> Result<Macro, DefineFault>
    requires { names.now ≡ all_parameters (record { is_function = is_function; parameters = parameters.names.items; is_variadic = parameters.is_variadic; replacement = without_front_space tokens.now }) }
    ensures read { IfOk result (λ m. checked (record { is_function = is_function; parameters = parameters.names.items; is_variadic = parameters.is_variadic; replacement = without_front_space tokens.now }) ≡ Some m) }
    ensures bad { IfErr result (λ fault. OnBad fault (checked (record { is_function = is_function; parameters = parameters.names.items; is_variadic = parameters.is_variadic; replacement = without_front_space tokens.now }) ≡ None)) }
{
    let replacement = copy_replacement(alloc, tokens)?;
    if !keeps_constraints(is_function, &parameters, names, &replacement) {
        return Err(DefineFault::Bad);
    }
    let body = Macro::of(alloc, is_function, parameters, names, replacement)?;
    Ok(body)
}

/// The object-like macro with this replacement list.
#[tactic(auto, unfolding(crate::specs::Definitions::object_body, crate::specs::Definitions::all_parameters))]
fn object_macro(alloc: Global, tokens: &[Token]) -> Result<Macro, DefineFault>
    ensures read { IfOk result (λ m. object_body tokens.now ≡ Some m) }
    ensures bad { IfErr result (λ fault. OnBad fault (object_body tokens.now ≡ None)) }
{
    let parameters = Parameters {
        names: Vec::new(alloc),
        is_variadic: false,
    };
    let names = Names::new(alloc);
    checked_macro(alloc, false, parameters, &names, tokens)
}

/// The function-like macro with these parameters and this replacement list.
#[tactic(auto, unfolding(crate::specs::Definitions::function_like, crate::specs::Definitions::all_parameters))]
fn macro_with(alloc: Global, parameters: Parameters, tokens: &[Token]) -> Result<Macro, DefineFault>
    ensures read { IfOk result (λ m. function_like tokens.now (record { names = parameters.names.items; is_variadic = parameters.is_variadic }) ≡ Some m) }
    ensures bad { IfErr result (λ fault. OnBad fault (function_like tokens.now (record { names = parameters.names.items; is_variadic = parameters.is_variadic }) ≡ None)) }
{
    let names = all_names(alloc, &parameters.names, parameters.is_variadic)?;
    checked_macro(alloc, true, parameters, &names, tokens)
}

/// The place of the first `)`, from 0.
fn place_of_close(tokens: &[Token]) -> Option<usize>
    ensures place { result ≡ position (is_sign (codes ")")) tokens.now }
    ensures within { IfSome result (λ n. n < length tokens.now) }
{
    tokens.iter().position(|token| reads(token, b")"))
}

/// The function-like macro of what stands behind its `(`.
#[tactic(auto, unfolding(crate::specs::Definitions::function_body))]
fn function_macro(alloc: Global, tokens: &[Token]) -> Result<Macro, DefineFault>
    ensures read { IfOk result (λ m. function_body tokens.now ≡ Some m) }
    ensures bad { IfErr result (λ fault. OnBad fault (function_body tokens.now ≡ None)) }
{
    let Some(close) = place_of_close(tokens) else {
        return Err(DefineFault::Bad);
    };
    let parameters = read_parameters(alloc, &tokens[..close])?;
    macro_with(alloc, parameters, &tokens[close + 1..])
}

/// The macro of what stands behind its name.
#[tactic(auto, unfolding(crate::specs::Definitions::body_of, crate::specs::Definitions::is_called))]
fn macro_of(alloc: Global, tokens: &[Token]) -> Result<Macro, DefineFault>
    ensures read { IfOk result (λ m. body_of tokens.now ≡ Some m) }
    ensures bad { IfErr result (λ fault. OnBad fault (body_of tokens.now ≡ None)) }
{
    if tokens.len() > 0 && reads(&tokens[0], b"(") && !tokens[0].spaced {
        return function_macro(alloc, &tokens[1..]);
    }
    object_macro(alloc, tokens)
}

/// What the tokens after `define` define.
///
/// `Bad` comes exactly where they are no definition: the name is missing, or is `defined` or `__VA_ARGS__`; the list
/// of parameters is malformed, names one twice or names `__VA_ARGS__`; `##` stands first or last in the replacement
/// list; a `#` in a function-like macro has no parameter behind it; or `__VA_ARGS__` stands in the replacement list of
/// a macro without `...`. Its other error is out of memory. It takes time in proportion to the tokens' bytes.
#[tactic(auto, unfolding(crate::specs::Definitions::defines))]
pub fn read_define(alloc: Global, tokens: &[Token]) -> Result<Defined, DefineFault>
    ensures defined { IfOk result (λ defined. defines tokens.now ≡ Some (defined.name, defined.body)) }
    ensures bad { result ≡ Err DefineFault.Bad → defines tokens.now ≡ None }
{
    if tokens.is_empty() || !may_name(&tokens[0]) {
        return Err(DefineFault::Bad);
    }
    let body = macro_of(alloc, &tokens[1..])?;
    let name = tokens[0].text.copy(alloc)?;
    Ok(Defined { name, body })
}
