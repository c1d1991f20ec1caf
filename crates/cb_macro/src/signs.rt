//! The tokens that mean something in a definition.
ghost use Rattle.std.specs.Prelude.{◌≡◌};
ghost use Rattle.std.specs.Str.{bytes_eq};
ghost use Rattle.cb_macro.specs.Signs.{is_punctuator_kind, is_sign, is_hash, is_paste, rest_name, is_named, is_macro_name};

use cb_tokens::{Token, TokenKind};

/// The name of the arguments that `...` stands for.
pub(crate) const REST_NAME: &[u8] = b"__VA_ARGS__";

/// Whether two texts have the same bytes.
pub(crate) fn same_bytes(text: &[u8], other: &[u8]) -> bool
    ensures { result ≡ bytes_eq text.now other.now }
{
    text == other
}

/// Whether this is the kind of a punctuator.
fn of_punctuator(kind: TokenKind) -> bool
    ensures { result ≡ is_punctuator_kind kind }
{
    match kind {
        TokenKind::Punct => true,
        _ => false,
    }
}

/// Whether a token is the punctuator of these bytes.
#[tactic(auto, unfolding(crate::specs::Signs::is_sign))]
pub(crate) fn reads(token: &Token, bytes: &[u8]) -> bool
    ensures { result ≡ is_sign bytes.now token.now }
{
    of_punctuator(token.kind) && same_bytes(token.text.as_slice(), bytes)
}

/// Whether a token is `#`.
#[tactic(auto, unfolding(crate::specs::Signs::is_hash))]
pub(crate) fn reads_hash(token: &Token) -> bool
    ensures { result ≡ is_hash token.now }
{
    reads(token, b"#") || reads(token, b"%:")
}

/// Whether a token is `##`.
#[tactic(auto, unfolding(crate::specs::Signs::is_paste))]
pub(crate) fn reads_paste(token: &Token) -> bool
    ensures { result ≡ is_paste token.now }
{
    reads(token, b"##") || reads(token, b"%:%:")
}

/// Whether a token is `__VA_ARGS__`.
#[tactic(auto, unfolding(crate::specs::Signs::is_named))]
pub(crate) fn reads_rest_name(token: &Token) -> bool
    ensures { result ≡ is_named rest_name token.now }
{
    token.is_identifier() && same_bytes(token.text.as_slice(), REST_NAME)
}

/// Whether a token may name a macro.
#[tactic(auto, unfolding(crate::specs::Signs::is_macro_name))]
pub(crate) fn may_name(token: &Token) -> bool
    ensures { result ≡ is_macro_name token.now }
{
    let text = token.text.as_slice();
    token.is_identifier() && !(same_bytes(text, b"defined") || same_bytes(text, REST_NAME))
}
