//! Which bytes are white, go on with an identifier, are quiet, and stand second in a punctuator.
ghost use Rattle.std.specs.Prelude.{◌≡◌};
ghost use Rattle.cb_tokens.specs.Forms.{is_white, is_name_byte};
ghost use Rattle.cb_tokens.specs.Plain.{is_quiet};
ghost use Rattle.cb_tokens.specs.inner.Scan.{is_second};

/// Whether it is white.
#[inline]
#[tactic(auto, unfolding(crate::specs::Forms::is_white))]
pub(crate) fn is_white(byte: u8) -> bool
    ensures { result ≡ is_white byte }
{
    byte == b' ' || byte == b'\t' || byte == 11 || byte == 12 || byte == b'\r'
}

/// Whether an identifier goes on with it.
#[inline]
#[tactic(auto, unfolding(crate::specs::Forms::is_name_byte, crate::specs::Forms::is_name_start))]
pub(crate) fn is_name_byte(byte: u8) -> bool
    ensures { result ≡ is_name_byte byte }
{
    byte.is_ascii_alphabetic()
        || byte == b'_'
        || byte == b'$'
        || byte >= 128
        || byte.is_ascii_digit()
}

/// Whether no line end, no quote and no comment begins with it.
#[inline]
#[tactic(auto, unfolding(crate::specs::Plain::is_quiet, crate::specs::Forms::is_quote))]
pub(crate) fn is_quiet(byte: u8) -> bool
    ensures { result ≡ is_quiet byte }
{
    !(byte == b'\n' || byte == b'\'' || byte == b'"' || byte == b'/')
}

/// Whether it is the second byte of some punctuator.
#[inline]
#[tactic(auto, unfolding(crate::specs::inner::Scan::is_second))]
pub(crate) fn is_second(byte: u8) -> bool
    ensures { result ≡ is_second byte }
{
    byte == b'#'
        || byte == b'%'
        || byte == b'&'
        || byte == b'+'
        || byte == b'-'
        || byte == b'.'
        || byte == b':'
        || byte == b'<'
        || byte == b'='
        || byte == b'>'
        || byte == b'|'
}
