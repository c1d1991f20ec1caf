//! Classes of bytes, by what may begin with them.
ghost use Rattle.std.specs.Prelude.{◌≡◌};
ghost use Rattle.cb_tokens.specs.inner.Classes.{class_of};

/// What may begin with a byte.
#[derive(Clone, Copy)]
pub(crate) enum Class {
    /// White bytes.
    White,
    /// The end of a logical line.
    LineFeed,
    /// An identifier.
    Name,
    /// An identifier, or the prefix of a quote.
    Prefix,
    /// A number.
    Digit,
    /// A number or a punctuator.
    Point,
    /// A comment or a punctuator.
    Slash,
    /// A character constant, a string, or a quote without its end.
    Quote,
    /// A punctuator of one byte that begins no longer one.
    Single,
    /// A punctuator of one byte that begins longer ones.
    Operator,
    /// Nothing but a token of this one byte.
    Stray,
}

/// The class of a byte.
#[tactic(auto, unfolding(crate::specs::inner::Classes::class_of, crate::specs::Forms::is_white, crate::specs::Forms::is_name_start, crate::specs::Forms::is_prefix_letter, crate::specs::Forms::is_quote))]
pub(crate) fn class_of(byte: u8) -> Class
    ensures { result ≡ class_of byte }
{
    match byte {
        b'L' | b'u' | b'U' => Class::Prefix,
        b'a'..=b'z' | b'A'..=b'Z' | b'_' | b'$' | 0x80..=0xff => Class::Name,
        b'0'..=b'9' => Class::Digit,
        b' ' | b'\t' | 0x0b | 0x0c | b'\r' => Class::White,
        b'\n' => Class::LineFeed,
        b'\'' | b'"' => Class::Quote,
        b'.' => Class::Point,
        b'/' => Class::Slash,
        b'[' | b']' | b'(' | b')' | b'{' | b'}' | b'~' | b'?' | b';' | b',' => Class::Single,
        b'-' | b'+' | b'&' | b'*' | b'!' | b'%' | b'<' | b'>' | b'^' | b'|' | b':' | b'=' | b'#' =>
            Class::Operator,
        _ => Class::Stray,
    }
}
