//! Whether a condition holds.
ghost use Rattle.std.specs.Prelude.{◌≡◌, true, false};
ghost use Rattle.cb_cond.specs.Symbols.{symbols};
ghost use Rattle.cb_cond.specs.Faults.{IsAnswer, IsTooWide};
ghost use Rattle.cb_cond.specs.inner.Rests.{left};

use crate::bad_condition::BadCondition;
use crate::evaluation::meaning_of;
use crate::meaning::Value;
use crate::nesting::is_too_deep;
use crate::rest::Rest;
use crate::symbol::Symbol;
use crate::symbols::token_symbol;
use cb_paths::Language;
use cb_tokens::Token;

/// Whether some integer is 2^64 or more.
fn has_wide(language: Language, mut rest: Rest) -> bool
    ensures wide { result ≡ true → IsTooWide (symbols language (left rest.entry)) }
    ensures narrow { result ≡ false → ¬ (IsTooWide (symbols language (left rest.entry))) }
{
    'tokens: while let Some(token) = rest.next() {
        let symbol = token_symbol(language, token);
        if let Symbol::WideInteger = symbol {
            return true;
        }
    }
    false
}

/// Whether a condition holds of which nothing has been read.
fn answer(rest: Rest, language: Language) -> Result<bool, BadCondition>
    ensures { IsAnswer (symbols language (left rest.entry)) result }
{
    if is_too_deep(rest) {
        return Err(BadCondition::TooDeep);
    }
    let Some(meaning) = meaning_of(language, rest) else {
        if has_wide(language, rest) {
            return Err(BadCondition::TooWide);
        }
        return Err(BadCondition::Malformed);
    };
    match meaning.value {
        Value::Bits(bits) => Ok(bits != 0),
        Value::ZeroDivisor => Err(BadCondition::ZeroDivisor),
        Value::Shift => Err(BadCondition::Shift),
    }
}

/// Whether the condition of an `#if` or `#elif` holds: these are its tokens after replacement.
///
/// It holds where the value of its syntax tree is not 0. `TooDeep` is answered before `TooWide`, which is answered
/// before `Malformed`; `ZeroDivisor` or `Shift` is what evaluation from the left meets first. An operand that is not
/// evaluated, as the right one of `0 && 1 / 0`, makes no fault. No memory is taken.
pub fn value(tokens: &[Token], language: Language) -> Result<bool, BadCondition>
    ensures { IsAnswer (symbols language tokens.now) result }
{
    answer(Rest::new(tokens), language)
}
