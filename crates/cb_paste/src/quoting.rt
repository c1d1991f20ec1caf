//! The operator `#`: the string of an argument.
ghost use Rattle.std.specs.Prelude.{◌≡◌, ◌++◌, ◌∷◌, ◌&&◌, not, if◌then◌else◌, List, ℕ, [], map, IfOk, OnOk};
ghost use Rattle.cb_paste.specs.Shades.{seen};
ghost use Rattle.cb_paste.specs.Strings.{escaped, spelled, quoted};

use crate::work_token::WorkToken;
use cb_paths::{Bytes, NoMemory};
use cb_tokens::TokenKind;
use std::alloc::Global;

/// Puts a byte of a literal behind a text, a backslash before it where it is `"` or a backslash.
fn push_escaped_byte(text: &mut Vec<u8>, byte: u8) -> Result<(), NoMemory>
    ensures { OnOk result (text.new.items ≡ text.old.items ++ escaped (byte ∷ [])) }
{
    if byte == b'"' {
        text.extend_from_slice(b"\\\"")?;
        return Ok(());
    }
    if byte == b'\\' {
        text.extend_from_slice(b"\\\\")?;
        return Ok(());
    }
    text.push(byte)?;
    Ok(())
}

/// Puts the bytes of a literal behind a text.
fn push_escaped(text: &mut Vec<u8>, bytes: &[u8]) -> Result<(), NoMemory>
    ensures { OnOk result (text.new.items ≡ text.old.items ++ escaped bytes.now) }
{
    'bytes: for byte in bytes {
        push_escaped_byte(text, *byte)?;
    }
    Ok(())
}

/// Puts the spelling of a token behind a text.
fn push_spelled(text: &mut Vec<u8>, token: &WorkToken) -> Result<(), NoMemory>
    ensures { OnOk result (text.new.items ≡ text.old.items ++ spelled token.now.kind token.now.text) }
{
    match token.kind {
        TokenKind::Char => push_escaped(text, token.text.as_slice())?,
        TokenKind::Str => push_escaped(text, token.text.as_slice())?,
        TokenKind::Identifier | TokenKind::Number | TokenKind::Punct | TokenKind::Other => {
            text.extend_from_slice(token.text.as_slice())?
        }
    }
    Ok(())
}

/// Puts a token behind a text, and a space before it where white space stands there and it is not the first.
fn push_token(text: &mut Vec<u8>, token: &WorkToken, is_first: bool) -> Result<(), NoMemory>
    ensures { OnOk result (text.new.items ≡ text.old.items
        ++ ((if token.now.spaced && not is_first then 32 ∷ [] else []) ++ spelled token.now.kind token.now.text)) }
{
    if token.spaced && !is_first {
        text.push(b' ')?;
    }
    push_spelled(text, token)?;
    Ok(())
}

/// The string of the tokens of an argument.
pub(crate) fn quoted(alloc: Global, tokens: &[WorkToken]) -> Result<Bytes, NoMemory>
    ensures { IfOk result (λ text. (sets : List (List ℕ)) → text ≡ quoted (map (seen sets) tokens.now)) }
{
    let mut text = Vec::new(alloc);
    text.push(b'"')?;
    'tokens: for at in 0..tokens.len() {
        push_token(&mut text, &tokens[at], at == 0)?;
    }
    text.push(b'"')?;
    let text = Bytes::from_vec(alloc, text)?;
    Ok(text)
}
