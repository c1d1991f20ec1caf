//! What a source expands to, as a text.
use cb_expand::{ExpandFault, Mode, expand, is_untouched};
use cb_macro::{DefineFault, Macros, define_word};
use cb_paths::NoMemory;
use cb_tokens::{Lexed, Token, Tokens, tokens};
use std::alloc::Global;

/// Defines what a word after `-D` says.
fn add(alloc: Global, macros: &mut Macros, word: &str) -> Result<(), NoMemory> {
    match define_word(alloc, word.as_bytes()) {
        Ok(defined) => {
            let _ = macros.define(alloc, defined)?;
            Ok(())
        }
        Err(DefineFault::Bad) => Ok(()),
        Err(DefineFault::NoMemory) => Err(NoMemory),
    }
}

/// The macros that words after `-D` define, one on each line.
fn macros_of(alloc: Global, words: &str) -> Result<Macros, NoMemory> {
    let mut macros = Macros::new(alloc);
    for word in words.split('\n') {
        add(alloc, &mut macros, word)?;
    }
    Ok(macros)
}

/// The logical lines of a source.
fn lines_of(alloc: Global, source: &str) -> Result<Lexed, NoMemory> {
    match tokens(alloc, source.as_bytes()) {
        Ok(lexed) => Ok(lexed),
        Err(_) => Err(NoMemory),
    }
}

/// The tokens of the first logical line.
fn first_line(lexed: &Lexed) -> &[Token] {
    if lexed.is_empty() {
        return &[];
    }
    lexed.tokens(0)
}

/// What the first line of a source expands to; None where that is too long.
pub(crate) fn expanded(
    alloc: Global,
    words: &str,
    source: &str,
    mode: Mode,
) -> Result<Option<Tokens>, NoMemory> {
    let macros = macros_of(alloc, words)?;
    let lexed = lines_of(alloc, source)?;
    match expand(alloc, &macros, first_line(&lexed), mode) {
        Ok(out) => Ok(Some(out)),
        Err(ExpandFault::TooLong) => Ok(None),
        Err(ExpandFault::NoMemory) => Err(NoMemory),
    }
}

/// The bytes of tokens, each but the first with a space where white space stands before it.
pub(crate) fn text_of(alloc: Global, tokens: &[Token]) -> Result<Vec<u8>, NoMemory> {
    let mut text = Vec::new(alloc);
    for token in tokens {
        if token.spaced && !text.is_empty() {
            text.push(b' ')?;
        }
        text.extend_from_slice(token.text.as_slice())?;
    }
    Ok(text)
}

/// Whether the first line of a source expands to tokens of a text.
pub(crate) fn becomes(
    alloc: Global,
    words: &str,
    source: &str,
    mode: Mode,
    expected: &str,
) -> Result<bool, NoMemory> {
    match expanded(alloc, words, source, mode)? {
        Some(out) => {
            let text = text_of(alloc, out.as_slice())?;
            Ok(text.as_slice() == expected.as_bytes())
        }
        None => Ok(false),
    }
}

/// Whether the first line of a source stays as it is.
pub(crate) fn is_alone(
    alloc: Global,
    words: &str,
    source: &str,
    mode: Mode,
) -> Result<bool, NoMemory> {
    let macros = macros_of(alloc, words)?;
    let lexed = lines_of(alloc, source)?;
    Ok(is_untouched(&macros, first_line(&lexed), mode))
}
