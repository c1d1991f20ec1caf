//! Punctuators.
ghost use Rattle.std.specs.Prelude.{◌≡◌, true, take, [], ◌∷◌};
ghost use Rattle.cb_tokens.specs.Forms.{is_punctuator};
ghost use Rattle.cb_tokens.specs.inner.Scan.{IsLongest};

use crate::runs::byte_at;
use crate::table::is_second;

/// Whether the byte is a punctuator.
#[tactic(auto, unfolding(crate::specs::Forms::is_punctuator, crate::specs::Forms::punctuators))]
pub(crate) fn is_single(byte: u8) -> bool
    ensures { result ≡ is_punctuator (byte ∷ []) }
{
    match byte {
        b'[' | b']' | b'(' | b')' | b'{' | b'}' | b'~' | b'?' | b';' | b',' | b'.' | b'/' => true,
        b'-' | b'+' | b'&' | b'*' | b'!' | b'%' | b'<' | b'>' | b'^' | b'|' | b':' | b'=' | b'#' =>
            true,
        _ => false,
    }
}

/// Whether the two bytes are a punctuator.
#[tactic(auto, unfolding(crate::specs::Forms::is_punctuator, crate::specs::Forms::punctuators))]
pub(crate) fn is_pair(first: u8, second: u8) -> bool
    ensures { result ≡ is_punctuator (first ∷ second ∷ []) }
{
    match first {
        b'-' => matches!(second, b'-' | b'>' | b'='),
        b'+' => matches!(second, b'+' | b'='),
        b'&' => matches!(second, b'&' | b'='),
        b'|' => matches!(second, b'|' | b'='),
        b'<' => matches!(second, b'<' | b'=' | b':' | b'%'),
        b'>' => matches!(second, b'>' | b'='),
        b'%' => matches!(second, b'=' | b'>' | b':'),
        b'=' | b'!' | b'*' | b'/' | b'^' => second == b'=',
        b'#' => second == b'#',
        b':' => second == b'>',
        _ => false,
    }
}

/// Whether the three bytes are a punctuator.
#[tactic(auto, unfolding(crate::specs::Forms::is_punctuator, crate::specs::Forms::punctuators))]
pub(crate) fn is_triple(first: u8, second: u8, third: u8) -> bool
    ensures { result ≡ is_punctuator (first ∷ second ∷ third ∷ []) }
{
    match first {
        b'.' => second == b'.' && third == b'.',
        b'<' => second == b'<' && third == b'=',
        b'>' => second == b'>' && third == b'=',
        _ => false,
    }
}

/// Whether the four bytes are a punctuator.
#[tactic(auto, unfolding(crate::specs::Forms::is_punctuator, crate::specs::Forms::punctuators))]
pub(crate) fn is_quadruple(first: u8, second: u8, third: u8, fourth: u8) -> bool
    ensures { result ≡ is_punctuator (first ∷ second ∷ third ∷ fourth ∷ []) }
{
    first == b'%' && second == b':' && third == b'%' && fourth == b':'
}

/// The number of bytes of the longest punctuator at the front, whose first byte is one.
pub(crate) fn punctuator_len(bytes: &[u8]) -> usize
    requires { is_punctuator (take 1 bytes.now) ≡ true }
    ensures { IsLongest is_punctuator bytes.now result }
{
    let second = byte_at(bytes, 1);
    if !is_second(second) {
        return 1;
    }
    let first = byte_at(bytes, 0);
    let third = byte_at(bytes, 2);
    if is_quadruple(first, second, third, byte_at(bytes, 3)) {
        4
    } else if is_triple(first, second, third) {
        3
    } else if is_pair(first, second) {
        2
    } else {
        1
    }
}
