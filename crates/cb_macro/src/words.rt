//! The words after `-D` and `-U` of a compiler's command.
ghost use Rattle.std.specs.Prelude.{◌≡◌, ◌==◌, ◌<◌, None, Some, length, position, IfOk, IfSome};
ghost use Rattle.cb_tokens.specs.declared.token.Token.{Token};
ghost use Rattle.cb_macro.specs.Words.{first_line, definition_text, first_tokens, AreLogicalLines, WordDefines, WordUndefines};

use crate::define::{Defined, read_define};
use crate::fault::DefineFault;
use crate::undef::undef_name;
use cb_paths::{Bytes, NoMemory};
use cb_tokens::{LexFault, Lexed, Token, tokens};
use std::alloc::Global;

/// The place of the first such byte, from 0.
fn place_of_byte(bytes: &[u8], byte: u8) -> Option<usize>
    ensures place { result ≡ position (λ b. b == byte) bytes.now }
    ensures within { IfSome result (λ n. n < length bytes.now) }
{
    bytes.iter().position(|b| *b == byte)
}

/// A word up to its first LF.
fn line_of(word: &[u8]) -> &[u8]
    ensures { result.now ≡ first_line word.now }
{
    match place_of_byte(word, b'\n') {
        Some(end) => &word[..end],
        None => word,
    }
}

/// What follows `define` for a word after `-D`.
#[tactic(auto, unfolding(crate::specs::Words::definition_text))]
fn text_of_definition(alloc: Global, word: &[u8]) -> Result<Vec<u8>, NoMemory>
    ensures { IfOk result (λ text. text.items ≡ definition_text word.now) }
{
    let line = line_of(word);
    let mut text = Vec::new(alloc);
    match place_of_byte(line, b'=') {
        Some(sign) => {
            text.extend_from_slice(&line[..sign])?;
            text.push(b' ')?;
            text.extend_from_slice(&line[sign + 1..])?;
            Ok(text)
        }
        None => {
            text.extend_from_slice(line)?;
            text.push(b' ')?;
            text.push(b'1')?;
            Ok(text)
        }
    }
}

/// The logical lines of a text, where it has a cut.
fn lines_of(alloc: Global, text: &[u8]) -> Result<Option<Lexed>, NoMemory>
    ensures { IfOk result (λ lines. AreLogicalLines text.now lines) }
{
    match tokens(alloc, text) {
        Ok(lexed) => Ok(Some(lexed)),
        Err(LexFault::OpenComment(_line)) => Ok(None),
        Err(LexFault::NoMemory) => Err(NoMemory),
    }
}

/// The tokens of the first logical line.
fn tokens_of_first(lexed: &Lexed) -> &[Token]
    ensures { result.now ≡ first_tokens lexed.now }
{
    if lexed.is_empty() {
        return &[];
    }
    lexed.tokens(0)
}

/// What a word after `-D` defines. The word is cut at its first LF; its first `=` becomes a space, and where it has
/// none a space and `1` stand behind it; the tokens of that text are read as those behind `#define`. So `-DA` defines
/// `A` as `1`, and `-DA=` as nothing.
///
/// `Bad` comes exactly where they are no definition, or where a block comment in the text has no end. Its other
/// error is out of memory.
pub fn define_word(alloc: Global, word: &[u8]) -> Result<Defined, DefineFault>
    ensures defined { IfOk result (λ defined. WordDefines word.now (Some (defined.name, defined.body))) }
    ensures bad { result ≡ Err DefineFault.Bad → WordDefines word.now None }
{
    let text = text_of_definition(alloc, word)?;
    match lines_of(alloc, &text)? {
        Some(lexed) => read_define(alloc, tokens_of_first(&lexed)),
        None => Err(DefineFault::Bad),
    }
}

/// The name that a word after `-U` undefines. The word is cut at its first LF, and its tokens are read as those
/// behind `#undef`. None comes exactly where they name no macro, or where a block comment in the word has no end.
pub fn undef_word(alloc: Global, word: &[u8]) -> Result<Option<Bytes>, NoMemory>
    ensures { IfOk result (λ name. WordUndefines word.now name) }
{
    let Some(lexed) = lines_of(alloc, line_of(word))? else {
        return Ok(None);
    };
    match undef_name(tokens_of_first(&lexed)) {
        Some(name) => Ok(Some(Bytes::from_slice(alloc, name)?)),
        None => Ok(None),
    }
}
