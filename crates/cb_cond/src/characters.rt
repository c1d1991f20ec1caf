//! Character constants of one byte.
ghost use Rattle.std.specs.Prelude.{◌≡◌, ℕ, ◌≤◌, ◌^◌, false, MatchOption};
ghost use Rattle.std.specs.List.{list_all};
ghost use Rattle.cb_cond.specs.Integers.{is_digit};
ghost use Rattle.cb_cond.specs.Characters.{simple_escape, small, is_octal_escape, is_hexadecimal_escape, escape, quoted, character};

use crate::integers::{amount_of, is_digit_of};
use crate::symbol::Symbol;

/// A signed number.
#[tactic(auto)]
fn number(bits: u64) -> Symbol
    ensures { result ≡ Symbol.Number bits false }
{
    Symbol::Number {
        bits,
        unsigned: false,
    }
}

/// What an escape of one letter stands for.
#[tactic(auto, unfolding(crate::specs::Characters::simple_escape))]
fn simple(letter: u8) -> Symbol
    ensures { result ≡ simple_escape letter }
{
    match letter {
        b'\'' | b'"' | b'?' | b'\\' => number(u64::from(letter)),
        b'a' => number(7),
        b'b' => number(8),
        b'f' => number(12),
        b'n' => number(10),
        b'r' => number(13),
        b't' => number(9),
        b'v' => number(11),
        _ => Symbol::Stray,
    }
}

/// The symbol of a number, where it is below 128.
#[tactic(auto, unfolding(crate::specs::Characters::small))]
fn below_128(amount: Option<u64>) -> Symbol
    ensures { (n : ℕ) → MatchOption amount (2 ^ 64 ≤ n) (λ m. m ≡ n) → result ≡ small n }
{
    match amount {
        Some(bits) if bits < 128 => number(bits),
        _ => Symbol::Stray,
    }
}

/// Whether all of these are digits of the base.
fn all_digits(base: u64, bytes: &[u8]) -> bool
    ensures { result ≡ list_all (is_digit base) bytes.now }
{
    bytes.iter().all(|byte| is_digit_of(base, *byte))
}

/// What an escape is, behind its backslash.
#[tactic(auto, unfolding(crate::specs::Characters::escape, crate::specs::Characters::is_octal_escape, crate::specs::Characters::is_hexadecimal_escape))]
fn escaped(bytes: &[u8]) -> Symbol
    ensures { result ≡ escape bytes.now }
{
    if bytes.len() == 0 {
        return Symbol::Stray;
    }
    if bytes.len() <= 3 && all_digits(8, bytes) {
        return below_128(amount_of(8, bytes));
    }
    if bytes.len() == 1 {
        return simple(bytes[0]);
    }
    if bytes[0] == b'x' && all_digits(16, &bytes[1..]) {
        return below_128(amount_of(16, &bytes[1..]));
    }
    Symbol::Stray
}

/// What stands between the quotes.
#[tactic(auto, unfolding(crate::specs::Characters::quoted, crate::specs::Characters::small))]
fn between_quotes(bytes: &[u8]) -> Symbol
    ensures { result ≡ quoted bytes.now }
{
    if bytes.len() == 0 {
        return Symbol::Stray;
    }
    if bytes[0] == b'\\' {
        return escaped(&bytes[1..]);
    }
    if bytes.len() == 1 && bytes[0] != b'\'' {
        return below_128(Some(u64::from(bytes[0])));
    }
    Symbol::Stray
}

/// What a character constant is to the grammar.
#[inline(always)]
#[tactic(auto, unfolding(crate::specs::Characters::character))]
pub(crate) fn character_symbol(text: &[u8]) -> Symbol
    ensures { result ≡ character text.now }
{
    if text.len() < 2 || text[0] != b'\'' || text[text.len() - 1] != b'\'' {
        return Symbol::Stray;
    }
    between_quotes(&text[1..text.len() - 1])
}
