//! The figure of a run: a decimal number, kept in millionths.
ghost use Rattle.std.specs.Prelude.{◌≡◌, ◌-◌, ◌*◌, ◌^◌, ◌<◌, ◌≤◌, length, take, IfSome, IsSome, is_some, true};
ghost use Rattle.std.specs.List.{list_all, prefix_len};
ghost use Rattle.std.specs.Char.{is_ascii_digit};
ghost use Rattle.std.specs.Str.Parse.{digits_value};
ghost use Rattle.cb_measure.specs.Figures.{is_no_point, counted_digits, sixths, kept, with_fraction, figure_of, figure};

/// The millionths of one.
const UNIT: u64 = 1_000_000;

/// The powers of ten up to a million.
const POWERS: [u64; 7] = [1, 10, 100, 1_000, 10_000, 100_000, 1_000_000];

/// The number that digits spell, or nothing where a byte is none.
fn number(digits: &[u8]) -> Option<u64>
    requires { length digits.now ≤ 18 }
    ensures digits { is_some result ≡ list_all is_ascii_digit digits.now }
    ensures value { IfSome result (λ n. n ≡ digits_value 10 digits.now) }
    ensures within { IfSome result (λ n. n < 10 ^ length digits.now) }
{
    let mut number: u64 = 0;
    for digit in digits {
        if !digit.is_ascii_digit() {
            return None;
        }
        number = number * 10 + u64::from(*digit - b'0');
    }
    Some(number)
}

/// The number of digits of which there are at least one and at most so many, or nothing where the text is none.
#[tactic(auto, unfolding(crate::specs::Figures::counted_digits))]
fn counted(most: usize, digits: &[u8]) -> Option<u64>
    requires { most ≤ 18 }
    ensures value { result ≡ counted_digits most digits.now }
    ensures within { IfSome result (λ n. n < 10 ^ most) }
{
    if digits.is_empty() || digits.len() > most {
        return None;
    }
    number(digits)
}

/// The millionths that the digits behind a point spell. Those behind the sixth are dropped.
fn millionths(fraction: &[u8]) -> Option<u64>
    ensures digits { list_all is_ascii_digit fraction.now ≡ true → IsSome result }
    ensures value { IfSome result (λ n. n ≡ sixths fraction.now) }
    ensures within { IfSome result (λ n. n < UNIT) }
{
    let first = &fraction[..fraction.len().min(6)];
    let number = number(first)?;
    Some(number * POWERS[6 - first.len()])
}

/// A figure, unless it is positive and 0 in millionths.
#[tactic(auto, unfolding(crate::specs::Figures::kept))]
fn kept(digits: u64, figure: u64) -> Option<u64>
    ensures value { result ≡ kept digits figure }
    ensures same { IfSome result (λ n. n ≡ figure) }
{
    if figure == 0 && digits > 0 {
        None
    } else {
        Some(figure)
    }
}

/// The figure of so many units and of the digits behind a point, or nothing where it is none.
fn with_fraction(units: u64, fraction: &[u8]) -> Option<u64>
    requires { units < 10 ^ 9 }
    ensures value { result ≡ with_fraction units fraction.now }
    ensures within { IfSome result (λ n. n < 10 ^ 15) }
{
    let all = counted(18, fraction)?;
    let parts = millionths(fraction)?;
    kept(units + all, units * UNIT + parts)
}

/// The figure of the bytes up to a point and of those from it on, or nothing where they are none.
#[tactic(auto, unfolding(crate::specs::Figures::figure_of))]
fn figure_of(whole: &[u8], rest: &[u8]) -> Option<u64>
    ensures value { result ≡ figure_of whole.now rest.now }
    ensures within { IfSome result (λ n. n < 10 ^ 15) }
{
    let units = counted(9, whole)?;
    if rest.is_empty() {
        return Some(units * UNIT);
    }
    with_fraction(units, &rest[1..])
}

/// How many bytes stand before the first point.
fn whole_len(text: &[u8]) -> usize
    ensures value { result ≡ prefix_len is_no_point text.now }
    ensures within { result ≤ length text.now }
{
    text.iter().take_while(|byte| **byte != b'.').count()
}

/// The figure of a field in millionths, 0 of an empty one, or nothing where the field has none.
#[tactic(auto, unfolding(crate::specs::Figures::figure))]
pub(crate) fn figure(text: &[u8]) -> Option<u64>
    ensures value { result ≡ figure text.now }
    ensures within { IfSome result (λ n. n < 10 ^ 15) }
{
    if text.is_empty() {
        return Some(0);
    }
    let (whole, rest) = text.split_at(whole_len(text));
    figure_of(whole, rest)
}
