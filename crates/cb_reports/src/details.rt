//! The details of notes.
ghost use Rattle.std.specs.Prelude.{◌≡◌, ◌++◌, ◌<◌, OnOk};
ghost use Rattle.std.specs.List.{flat_map};
ghost use Rattle.cb_reports.specs.Details.{hex_digit as hex_digit_of, escaped, detail_text};

use crate::text::Text;
use cb_paths::NoMemory;

/// A hexadecimal digit in lower case.
fn hex_digit(number: u8) -> u8
    requires { number < 16 }
    ensures { result ≡ hex_digit_of number }
{
    if number < 10 {
        b'0' + number
    } else {
        87 + number
    }
}

/// Adds a byte: itself where it is printable, but a backslash twice, and any other byte as its number.
fn add_escaped(text: &mut Text, byte: u8) -> Result<(), NoMemory>
    ensures { OnOk result (text.new ≡ text.old ++ escaped byte) }
{
    if byte == b'\\' {
        return text.add(b"\\\\");
    }
    if byte >= 32 && byte <= 126 {
        return text.add(&[byte]);
    }
    text.add(&[b'\\', b'x', hex_digit(byte / 16), hex_digit(byte % 16)])
}

/// Adds bytes one by one.
fn add_all_escaped(text: &mut Text, detail: &[u8]) -> Result<(), NoMemory>
    ensures { OnOk result (text.new ≡ text.old ++ flat_map escaped detail.now) }
{
    for byte in detail {
        add_escaped(text, *byte)?;
    }
    Ok(())
}

/// Adds a detail; an empty one is a hyphen.
pub(crate) fn add_detail(text: &mut Text, detail: &[u8]) -> Result<(), NoMemory>
    ensures { OnOk result (text.new ≡ text.old ++ detail_text detail.now) }
{
    if detail.is_empty() {
        return text.add(b"-");
    }
    add_all_escaped(text, detail)
}
