//! The header that tokens name as they are written.
ghost use Rattle.std.specs.Prelude.{◌≡◌, ◌∷◌, ◌++◌, ◌-◌, length, take, IfOk, OnOk};
ghost use Rattle.std.specs.Option.{option_copied, option_map};
ghost use Rattle.cb_pass.specs.Headers.{between_quotes, up_to_greater, space_before};
ghost use Rattle.cb_pass.specs.Headers.{quote_header, angle_header, header_of};

use cb_include::Header;
use cb_paths::{Bytes, NoMemory};
use cb_tokens::{Token, TokenKind};
use std::alloc::Global;

/// The header that tokens begin with, if they begin with one.
pub(crate) fn header_of(alloc: Global, tokens: &[Token]) -> Result<Option<Header>, NoMemory>
    ensures { IfOk result (λ header. header ≡ header_of tokens.now) }
{
    match tokens {
        [] => Ok(None),
        [first, rest @ ..] => header_from(alloc, first, rest),
    }
}

/// The header that tokens begin with: the first of them, and the others.
fn header_from(alloc: Global, first: &Token, rest: &[Token]) -> Result<Option<Header>, NoMemory>
    ensures { IfOk result (λ header. header ≡ header_of (first.now ∷ rest.now)) }
{
    if let TokenKind::Str = first.kind {
        return quoted(alloc, first.text.as_slice());
    }
    if first.text.as_slice() == b"<".as_slice() {
        return angled(alloc, rest);
    }
    Ok(None)
}

/// What stands between the quotes of a string without a prefix.
fn between_quotes(text: &[u8]) -> Option<&[u8]>
    ensures { option_copied result ≡ between_quotes text.now }
{
    match text {
        [b'"', rest @ ..] => Some(without_last(rest)),
        _ => None,
    }
}

/// Bytes without the last.
fn without_last(bytes: &[u8]) -> &[u8]
    ensures { result.now ≡ take (length bytes.now - 1) bytes.now }
{
    if bytes.is_empty() {
        return bytes;
    }
    &bytes[..bytes.len() - 1]
}

/// The header that a string is.
fn quoted(alloc: Global, text: &[u8]) -> Result<Option<Header>, NoMemory>
    ensures { IfOk result (λ header. header ≡ option_map quote_header (between_quotes text.now)) }
{
    match between_quotes(text) {
        Some(inner) => {
            let text = Bytes::from_slice(alloc, inner)?;
            Ok(Some(Header { angle: false, text }))
        }
        None => Ok(None),
    }
}

/// The header that stands between `<`, behind which these tokens stand, and the first `>` among them.
fn angled(alloc: Global, tokens: &[Token]) -> Result<Option<Header>, NoMemory>
    ensures { IfOk result (λ header. header ≡ option_map angle_header (up_to_greater tokens.now)) }
{
    match up_to_greater(alloc, tokens)? {
        Some(text) => {
            let text = Bytes::from_vec(alloc, text)?;
            Ok(Some(Header { angle: true, text }))
        }
        None => Ok(None),
    }
}

/// Puts a space behind a text where white space stands before a token.
fn push_space(text: &mut Vec<u8>, token: &Token) -> Result<(), NoMemory>
    ensures { OnOk result (text.new.items ≡ text.old.items ++ space_before token.now) }
{
    if token.spaced {
        text.push(b' ')?;
    }
    Ok(())
}

/// The spellings up to the first `>`, joined.
fn up_to_greater(alloc: Global, tokens: &[Token]) -> Result<Option<Vec<u8>>, NoMemory>
    ensures { IfOk result (λ text. option_map (λ t. t.items) text ≡ up_to_greater tokens.now) }
{
    let mut text = Vec::new(alloc);
    'tokens: for token in tokens {
        push_space(&mut text, token)?;
        if token.text.as_slice() == b">".as_slice() {
            return Ok(Some(text));
        }
        text.extend_from_slice(token.text.as_slice())?;
    }
    Ok(None)
}
