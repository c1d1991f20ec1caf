//! Integer constants.
ghost use Rattle.std.specs.Prelude.{◌≡◌, ℕ, ◌≤◌, ◌<◌, ◌^◌, ◌==◌, List, length, take, true, false, IfSome, MatchOption, slice_index};
ghost use Rattle.std.specs.List.{prefix_len};
ghost use Rattle.cb_cond.specs.Integers.{digit_value, is_digit, are_digits, next_amount, amount, signed_suffixes, unsigned_suffixes, is_among, base_of, mark_len, number, with_suffix, is_digit_byte, behind_mark, integer};

use crate::symbol::Symbol;

/// The value of a digit in a byte, and 16 of another byte.
#[inline(always)]
#[tactic(auto, unfolding(crate::specs::Integers::digit_value))]
fn digit(byte: u8) -> u8
    ensures value { result ≡ digit_value byte }
    ensures small { result ≤ 16 }
{
    match byte {
        b'0'..=b'9' => byte - b'0',
        b'a'..=b'f' => byte - b'a' + 10,
        b'A'..=b'F' => byte - b'A' + 10,
        _ => 16,
    }
}

/// The value of a digit, and 16 of another byte.
#[inline(always)]
fn value_of_digit(byte: u8) -> u64
    ensures value { result ≡ digit_value byte }
    ensures small { result ≤ 16 }
{
    u64::from(digit(byte))
}

/// Whether the byte is a digit of the base.
#[tactic(auto, unfolding(crate::specs::Integers::is_digit))]
pub(crate) fn is_digit_of(base: u64, byte: u8) -> bool
    ensures { result ≡ is_digit base byte }
{
    value_of_digit(byte) < base
}

/// Whether these are digits of the base, with each `'` between two of them.
#[tactic(auto, using(crate::proofs::Digits::steps))]
fn has_digits(base: u64, bytes: &[u8]) -> bool
    ensures { result ≡ are_digits base false bytes.now }
{
    let mut after = false;
    for byte in bytes {
        if *byte == b'\'' {
            if !after {
                return false;
            }
            after = false;
        } else {
            if !is_digit_of(base, *byte) {
                return false;
            }
            after = true;
        }
    }
    after
}

/// The number with one digit more, or nothing where it is 2^64 or more. A `'` is dropped.
#[tactic(auto, unfolding(crate::specs::Integers::next_amount))]
fn with_digit(base: u64, sum: u64, byte: u8) -> Option<u64>
    ensures { MatchOption result (2 ^ 64 ≤ next_amount base sum byte) (λ n. n ≡ next_amount base sum byte) }
{
    if byte == b'\'' {
        return Some(sum);
    }
    let Some(product) = sum.checked_mul(base) else {
        return None;
    };
    product.checked_add(value_of_digit(byte))
}

/// The number that digits are, or nothing where it is 2^64 or more.
#[tactic(auto, using(crate::proofs::Digits::steps), unfolding(crate::specs::Integers::amount))]
pub(crate) fn amount_of(base: u64, digits: &[u8]) -> Option<u64>
    requires { 1 ≤ base }
    ensures { MatchOption result (2 ^ 64 ≤ amount base digits.now) (λ n. n ≡ amount base digits.now) }
{
    let mut sum: u64 = 0;
    for byte in digits {
        let Some(more) = with_digit(base, sum, *byte) else {
            return None;
        };
        sum = more;
    }
    Some(sum)
}

/// Whether a suffix belongs to signed integers.
#[tactic(auto, unfolding(crate::specs::Integers::is_among, crate::specs::Integers::signed_suffixes))]
fn is_signed_suffix(text: &[u8]) -> bool
    ensures { result ≡ is_among signed_suffixes text.now }
{
    matches!(text, b"" | b"l" | b"L" | b"ll" | b"LL")
}

/// Whether a suffix belongs to unsigned integers.
#[tactic(auto, unfolding(crate::specs::Integers::is_among, crate::specs::Integers::unsigned_suffixes))]
fn is_unsigned_suffix(text: &[u8]) -> bool
    ensures { result ≡ is_among unsigned_suffixes text.now }
{
    match text {
        b"u" | b"U" | b"ul" | b"uL" | b"Ul" | b"UL" | b"lu" | b"Lu" | b"lU" | b"LU" => true,
        b"ull" | b"uLL" | b"Ull" | b"ULL" | b"llu" | b"LLu" | b"llU" | b"LLU" => true,
        _ => false,
    }
}

/// The base of an integer, by its first bytes.
#[tactic(auto, unfolding(crate::specs::Integers::base_of, crate::specs::Integers::mark_len))]
fn base(text: &[u8]) -> u64
    ensures value { result ≡ base_of text.now }
    ensures some { 1 ≤ result }
    ensures hexadecimal { result ≤ 16 }
    ensures marked { (mark_len result ≡ 2) → 2 ≤ length text.now }
{
    if text.len() == 0 || text[0] != b'0' {
        return 10;
    }
    if text.len() == 1 {
        return 8;
    }
    match text[1] {
        b'x' | b'X' => 16,
        b'b' | b'B' => 2,
        _ => 8,
    }
}

/// The symbol of a number, where it is below 2^64.
#[tactic(auto, unfolding(crate::specs::Integers::number))]
fn number_symbol(amount: Option<u64>, unsigned: bool) -> Symbol
    ensures { (n : ℕ) → MatchOption amount (2 ^ 64 ≤ n) (λ m. m ≡ n) → result ≡ number n unsigned }
{
    match amount {
        Some(bits) => Symbol::Number {
            bits,
            unsigned: unsigned || bits >= 1 << 63,
        },
        None => Symbol::WideInteger,
    }
}

/// The symbol of digits and their suffix.
#[tactic(auto, unfolding(crate::specs::Integers::with_suffix))]
fn suffixed(base: u64, digits: &[u8], suffix: &[u8]) -> Symbol
    requires { 1 ≤ base }
    ensures { result ≡ with_suffix base digits.now suffix.now }
{
    if !has_digits(base, digits) {
        return Symbol::Stray;
    }
    if is_signed_suffix(suffix) {
        return number_symbol(amount_of(base, digits), false);
    }
    if is_unsigned_suffix(suffix) {
        return number_symbol(amount_of(base, digits), true);
    }
    Symbol::Stray
}

/// How many bytes of digits a text begins with.
#[tactic(auto, unfolding(crate::specs::Integers::is_digit_byte))]
fn digits_len(base: u64, text: &[u8]) -> usize
    ensures value { result ≡ prefix_len (is_digit_byte base) text.now }
    ensures within { result ≤ length text.now }
{
    text.iter()
        .take_while(|byte| is_digit_of(base, **byte) || **byte == b'\'')
        .count()
}

/// How many digits a text begins with, and their number, or nothing where it is 2^64 or more.
#[inline(always)]
fn leading_number(base: u64, text: &[u8]) -> Option<(usize, u64)>
    requires { base ≤ 16 }
    ensures len { IfSome result (λ number. number.0 ≡ prefix_len (is_digit base) text.now) }
    ensures value { IfSome result (λ number. number.1 ≡ amount base (take number.0 text.now)) }
    ensures within { IfSome result (λ number. number.0 ≤ length text.now) }
{
    let mut sum: u64 = 0;
    let mut len = 0;
    'digits: while len < text.len() {
        let digit = value_of_digit(text[len]);
        if digit >= base {
            return Some((len, sum));
        }
        sum = sum.checked_mul(base)?.checked_add(digit)?;
        len += 1;
    }
    Some((len, sum))
}

/// The symbol of a number, by its suffix.
#[inline(always)]
#[tactic(auto, unfolding(crate::specs::Integers::with_suffix))]
fn ended(bits: u64, suffix: &[u8]) -> Symbol
    ensures { (base : ℕ) (digits : List ℕ) → are_digits base false digits ≡ true → bits ≡ amount base digits → result ≡ with_suffix base digits suffix.now }
{
    if is_signed_suffix(suffix) {
        return number_symbol(Some(bits), false);
    }
    if is_unsigned_suffix(suffix) {
        return number_symbol(Some(bits), true);
    }
    Symbol::Stray
}

/// What stands behind the mark of an integer, whatever it is.
#[inline(never)]
#[tactic(auto, unfolding(crate::specs::Integers::behind_mark))]
fn general(base: u64, text: &[u8]) -> Symbol
    requires { 1 ≤ base }
    ensures { result ≡ behind_mark base text.now }
{
    let (digits, suffix) = text.split_at(digits_len(base, text));
    suffixed(base, digits, suffix)
}

/// Whether a `'` stands there.
#[inline(always)]
fn is_quote_at(text: &[u8], place: usize) -> bool
    ensures { result ≡ (slice_index text.now place == 39) }
{
    place < text.len() && text[place] == b'\''
}

/// What stands behind the mark of an integer: mostly a few digits without a `'`, which are gone over once.
#[inline(always)]
fn unmarked(base: u64, text: &[u8]) -> Symbol
    requires some { 1 ≤ base }
    requires hexadecimal { base ≤ 16 }
    ensures { result ≡ behind_mark base text.now }
{
    if let Some((len, bits)) = leading_number(base, text) {
        if len > 0 && !is_quote_at(text, len) {
            return ended(bits, &text[len..]);
        }
    }
    general(base, text)
}

/// What a number is to the grammar.
#[inline(always)]
#[tactic(auto, unfolding(crate::specs::Integers::integer, crate::specs::Integers::behind_mark, crate::specs::Integers::mark_len))]
pub(crate) fn integer_symbol(text: &[u8]) -> Symbol
    ensures { result ≡ integer text.now }
{
    let base = base(text);
    let text = if base == 16 || base == 2 {
        &text[2..]
    } else {
        text
    };
    unmarked(base, text)
}
