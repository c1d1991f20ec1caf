//! Preprocessing numbers.
ghost use Rattle.std.specs.Prelude.{◌≡◌};
ghost use Rattle.cb_tokens.specs.Forms.{continues_number, is_number_rest};
ghost use Rattle.cb_tokens.specs.inner.Scan.{IsLongest};

use crate::runs::byte_at;
use crate::table::is_name_byte;

/// Whether a number goes on over a byte between its neighbours, of which `after` is 0 where there is none.
#[tactic(auto, unfolding(crate::specs::Forms::continues_number))]
pub(crate) fn continues_number(before: u8, byte: u8, after: u8) -> bool
    ensures { result ≡ continues_number before byte after }
{
    if is_name_byte(byte) || byte == b'.' {
        return true;
    }
    match byte {
        b'+' | b'-' => matches!(before, b'e' | b'E' | b'p' | b'P'),
        b'\'' => is_name_byte(before) && is_name_byte(after),
        _ => false,
    }
}

/// The number of bytes that a number goes on over, behind a byte of it.
pub(crate) fn number_rest(before: u8, bytes: &[u8]) -> usize
    ensures { IsLongest (is_number_rest before) bytes.now result }
{
    let mut last = before;
    let mut n = 0;
    'bytes: while n < bytes.len() {
        let byte = bytes[n];
        if !continues_number(last, byte, byte_at(bytes, n + 1)) {
            return n;
        }
        last = byte;
        n += 1;
    }
    n
}
