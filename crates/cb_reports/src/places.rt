//! Grid values as decimals.
ghost use Rattle.std.specs.Prelude.{◌≡◌, ◌++◌, ◌≤◌, OnOk};
ghost use Rattle.cb_reports.specs.Places.{two_digits, hundredths, ten_thousandths, rounded as rounded_of, four_places, six_places, percent};

use crate::text::Text;
use cb_paths::NoMemory;

/// A grid value in units of 10^-4, rounded to the nearest one and halves up.
fn rounded(value: u64) -> u64
    requires { value ≤ 1000000000000 }
    ensures { result ≡ rounded_of value }
{
    (value + 50_000_000) / 100_000_000
}

/// Adds the last two digits of a number.
fn add_two_digits(text: &mut Text, number: u64) -> Result<(), NoMemory>
    ensures { OnOk result (text.new ≡ text.old ++ two_digits number) }
{
    text.add(&[b'0' + (number / 10 % 10) as u8, b'0' + (number % 10) as u8])
}

/// Adds a grid value with four places.
pub(crate) fn add_four_places(text: &mut Text, value: u64) -> Result<(), NoMemory>
    requires { value ≤ 1000000000000 }
    ensures { OnOk result (text.new ≡ text.old ++ four_places value) }
{
    let number = rounded(value);
    text.add_number(number / 10_000)?;
    text.add(b".")?;
    add_two_digits(text, number / 100)?;
    add_two_digits(text, number)
}

/// Adds a grid value in percent, with two places.
pub(crate) fn add_percent(text: &mut Text, value: u64) -> Result<(), NoMemory>
    requires { value ≤ 1000000000000 }
    ensures { OnOk result (text.new ≡ text.old ++ percent value) }
{
    let number = rounded(value);
    text.add_number(number / 100)?;
    text.add(b".")?;
    add_two_digits(text, number)
}

/// Adds a grid value with six places.
pub(crate) fn add_six_places(text: &mut Text, value: u64) -> Result<(), NoMemory>
    ensures { OnOk result (text.new ≡ text.old ++ six_places value) }
{
    let number = ((u128::from(value) + 500_000) / 1_000_000) as u64;
    text.add_number(number / 1_000_000)?;
    text.add(b".")?;
    add_two_digits(text, number / 10_000)?;
    add_two_digits(text, number / 100)?;
    add_two_digits(text, number)
}
