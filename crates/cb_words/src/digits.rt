//! Numbers of decimal digits.
ghost use Rattle.std.specs.Prelude.{◌≡◌, ◌^◌, ◌<◌, ◌≤◌, length, IfSome, is_some};
ghost use Rattle.std.specs.List.{list_all};
ghost use Rattle.std.specs.Char.{is_ascii_digit};
ghost use Rattle.std.specs.Str.Parse.{digits_value};
ghost use Rattle.cb_measure.specs.Figures.{counted_digits};
ghost use Rattle.cb_words.specs.Values.{in_range, number_in};

use crate::fault::BadWords;

/// The digits of a number at most.
const DIGIT_LIMIT: usize = 10;

/// The number that digits spell, or nothing where a byte is none.
fn number(digits: &[u8]) -> Option<u64>
    requires { length digits.now ≤ 10 }
    ensures digits { is_some result ≡ list_all is_ascii_digit digits.now }
    ensures value { IfSome result (λ n. n ≡ digits_value 10 digits.now) }
{
    let mut number: u64 = 0;
    for digit in digits {
        if !digit.is_ascii_digit() {
            return None;
        }
        number = number * 10 + u64::from(*digit - b'0');
    }
    Some(number)
}

/// The number of one to ten digits, or nothing where the text is none.
#[tactic(auto, unfolding(cb_measure::specs::Figures::counted_digits))]
fn counted(digits: &[u8]) -> Option<u64>
    ensures { result ≡ counted_digits 10 digits.now }
{
    if digits.is_empty() || digits.len() > DIGIT_LIMIT {
        return None;
    }
    number(digits)
}

/// A number, if it is in its range.
fn in_range(low: u32, high: u32, number: u64) -> Result<u32, BadWords>
    ensures { result ≡ in_range low high number }
{
    if u64::from(low) <= number && number <= u64::from(high) {
        Ok(number as u32)
    } else {
        Err(BadWords::OutOfRange)
    }
}

/// The number of one to ten decimal digits that a text is, if it is in its range.
pub(crate) fn number_in(low: u32, high: u32, text: &[u8]) -> Result<u32, BadWords>
    ensures { result ≡ number_in low high text.now }
{
    match counted(text) {
        Some(number) => in_range(low, high, number),
        None => Err(BadWords::BadNumber),
    }
}
