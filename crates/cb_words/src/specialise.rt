//! The words behind the command `specialise`.
ghost use Rattle.std.specs.Prelude.{◌≡◌, ◌<◌, ◌↔◌, length, map, string_bytes, All, IsTrue, Ok, Err};
ghost use Rattle.std.specs.Prelude.{IfOk, IfErr, IfNone, IfSome, Some, None};
ghost use Rattle.std.specs.Option.{option_copied, option_map};
ghost use Rattle.cb_words.specs.Faults.{HasCause};
ghost use Rattle.cb_words.specs.Specialise.{joined_word, before, words_in, IsDefinition, Defines};

use crate::fault::{BadWords, WordsFault};
use crate::word_list::DefinitionWords;
use cb_macro::{DefineFault, define_word, one_word};
use cb_paths::{Bytes, NoMemory};
use std::alloc::Global;

/// What stands behind `-D` in a word that begins with it.
fn joined_word(word: &[u8]) -> Option<&[u8]>
    ensures { option_copied result ≡ joined_word word.now }
{
    match word {
        [b'-', b'D', ..] => Some(&word[2..]),
        _ => None,
    }
}

/// The word of the `-D` at the front of the words, in one of them or in two, and the words behind it.
fn first_word<'a>(words: &'a [String]) -> Option<(&'a [u8], &'a [String])>
    requires { 0 < length words.now }
    ensures none { IfNone result (words_in (map string_bytes words.now) ≡ None) }
    ensures word { IfSome result (λ found. words_in (map string_bytes words.now)
        ≡ before (Some found.0.now) (words_in (map string_bytes found.1.now))) }
    ensures fewer { IfSome result (λ found. length found.1.now < length words.now) }
{
    let first = words[0].as_bytes();
    if first == b"-D".as_slice() && 1 < words.len() {
        Some((words[1].as_bytes(), &words[2..]))
    } else {
        Some((joined_word(first)?, &words[1..]))
    }
}

/// The words of each `-D`, in one word or in two, or nothing where a word is no part of such.
#[tactic(auto, using(crate::proofs::FoundWords::found_push))]
fn words_in(alloc: Global, words: &[String]) -> Result<Option<Vec<Bytes>>, NoMemory>
    ensures { IfOk result (λ found. option_map (λ found. found.items) found
        ≡ words_in (map string_bytes words.now)) }
{
    let mut found = Vec::new(alloc);
    let mut rest = words;
    'words: while !rest.is_empty() {
        let Some((word, behind)) = first_word(rest) else {
            return Ok(None);
        };
        found.push(Bytes::from_slice(alloc, word)?)?;
        rest = behind;
    }
    Ok(Some(found))
}

/// Whether the word of a `-D` is a definition.
fn is_definition(alloc: Global, word: &[u8]) -> Result<bool, NoMemory>
    ensures { IfOk result (λ is. IsTrue is ↔ IsDefinition word.now) }
{
    one_word();
    match define_word(alloc, word) {
        Ok(_defined) => Ok(true),
        Err(DefineFault::Bad) => Ok(false),
        Err(DefineFault::NoMemory) => Err(NoMemory),
    }
}

/// Whether each of these words is a definition.
fn are_definitions(alloc: Global, words: &[Bytes]) -> Result<bool, NoMemory>
    ensures { IfOk result (λ are. IsTrue are ↔ All IsDefinition words.now) }
{
    'words: for word in words {
        if !is_definition(alloc, word.as_slice())? {
            return Ok(false);
        }
    }
    Ok(true)
}

/// The words of each `-D` behind the command `specialise`.
pub(crate) fn defined(alloc: Global, words: &[String]) -> Result<DefinitionWords, WordsFault>
    ensures words { IfOk result (λ found. Defines (map string_bytes words.now) (Ok found)) }
    ensures bad { IfErr result (λ e. HasCause e (λ bad. Defines (map string_bytes words.now) (Err bad))) }
{
    let Some(found) = words_in(alloc, words)? else {
        return Err(WordsFault::Bad(BadWords::UnknownOption));
    };
    if are_definitions(alloc, found.as_slice())? {
        Ok(DefinitionWords::from_vec(found))
    } else {
        Err(WordsFault::Bad(BadWords::BadDefinition))
    }
}
