//! Lists of parameters.
ghost use Rattle.std.specs.Prelude.{◌≡◌, true, false, ◌&&◌, not, ◌++◌, [], ◌∷◌, IfOk, IfErr, if◌then◌else◌};
ghost use Rattle.std.specs.List.{list_any};
ghost use Rattle.std.specs.Str.{bytes_eq};
ghost use Rattle.cb_macro.specs.Signs.{rest_name};
ghost use Rattle.cb_macro.specs.Definitions.{parameters_of, are_distinct};
ghost use Rattle.cb_macro.specs.inner.Reading.{OnBad, IsStep};

use crate::fault::DefineFault;
use crate::names::Names;
use crate::signs::{REST_NAME, reads};
use cb_paths::Bytes;
use cb_tokens::Token;
use std::alloc::Global;

/// What a list of parameters says.
#[derive(Drop)]
pub(crate) struct Parameters {
    /// The names of the parameters.
    pub(crate) names: Vec<Bytes>,
    /// Whether `...` stands behind them.
    pub(crate) is_variadic: bool,
}

/// What stands at the front of a list of parameters.
#[derive(Clone, Copy)]
pub(crate) enum Step<'a> {
    /// No parameter.
    Bad,
    /// `...` and nothing else.
    Rest,
    /// The last parameter.
    Last(&'a [u8]),
    /// A parameter and a comma.
    More(&'a [u8]),
}

/// What stands at the front of these tokens.
#[tactic(auto, unfolding(crate::specs::Definitions::some_parameters))]
fn step_at(tokens: &[Token]) -> Step<'_>
    ensures { IsStep tokens.now result }
{
    match tokens {
        [] => Step::Bad,
        [last] => {
            if reads(last, b"...") {
                Step::Rest
            } else if last.is_identifier() {
                Step::Last(last.text.as_slice())
            } else {
                Step::Bad
            }
        }
        [name, comma, ..] => {
            if name.is_identifier() && reads(comma, b",") {
                Step::More(name.text.as_slice())
            } else {
                Step::Bad
            }
        }
    }
}

/// The parameters between the parentheses of a list.
#[tactic(auto, unfolding(crate::specs::Definitions::parameters_of))]
pub(crate) fn read_parameters(alloc: Global, tokens: &[Token]) -> Result<Parameters, DefineFault>
    ensures read { IfOk result (λ p. parameters_of tokens.now ≡ Some (record { names = p.names.items; is_variadic = p.is_variadic })) }
    ensures bad { IfErr result (λ fault. OnBad fault (parameters_of tokens.now ≡ None)) }
{
    let mut names = Vec::new(alloc);
    if tokens.is_empty() {
        return Ok(Parameters {
            names,
            is_variadic: false,
        });
    }
    let mut at = 0;
    'names: while at < tokens.len() {
        match step_at(&tokens[at..]) {
            Step::Bad => return Err(DefineFault::Bad),
            Step::Rest => {
                return Ok(Parameters {
                    names,
                    is_variadic: true,
                });
            }
            Step::Last(name) => {
                names.push(Bytes::from_slice(alloc, name)?)?;
                return Ok(Parameters {
                    names,
                    is_variadic: false,
                });
            }
            Step::More(name) => {
                names.push(Bytes::from_slice(alloc, name)?)?;
                at += 2;
            }
        }
    }
    Err(DefineFault::Bad)
}

/// The names with which a replacement list speaks of arguments. `Bad` tells that a name stands twice or is
/// `__VA_ARGS__`.
pub(crate) fn all_names(
    alloc: Global,
    names: &[Bytes],
    is_variadic: bool,
) -> Result<Names, DefineFault>
    ensures read { IfOk result (λ all. all ≡ names.now ++ (if is_variadic then rest_name ∷ [] else [])) }
    ensures distinct { IfOk result (λ all. (are_distinct names.now && not (list_any (bytes_eq rest_name) names.now)) ≡ true) }
    ensures bad { IfErr result (λ fault. OnBad fault ((are_distinct names.now && not (list_any (bytes_eq rest_name) names.now)) ≡ false)) }
{
    let mut all = Names::new(alloc);
    for name in names {
        if !all.add(alloc, name.as_slice())? {
            return Err(DefineFault::Bad);
        }
    }
    if all.has(REST_NAME) {
        return Err(DefineFault::Bad);
    }
    if is_variadic {
        let _ = all.add(alloc, REST_NAME)?;
    }
    Ok(all)
}
