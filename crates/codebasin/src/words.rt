//! The arguments of the program.
ghost use Rattle.std.specs.Prelude.{◌≡◌, ◌<◌, ◌↔◌, length, map, string_bytes, All, IsTrue};
ghost use Rattle.std.specs.Prelude.{IfOk, IfNone, IfSome, MatchOption, Some, None};
ghost use Rattle.std.specs.Option.{option_copied, option_map};
ghost use Rattle.codebasin.specs.Words.{joined_word, before, words_in, words_asked};
ghost use Rattle.codebasin.specs.Words.{Specialise, IsDefinition, Asks, AsksNothing};

use cb_macro::{DefineFault, define_word, one_word};
use cb_paths::{Bytes, NoMemory};
use std::alloc::Global;

/// What stands behind `-D` in an argument that begins with it.
fn joined_word(argument: &[u8]) -> Option<&[u8]>
    ensures { option_copied result ≡ joined_word argument.now }
{
    match argument {
        [b'-', b'D', ..] => Some(&argument[2..]),
        _ => None,
    }
}

/// The word of the `-D` at the front of the arguments, in one of them or in two, and the arguments behind it.
fn first_word<'a>(arguments: &'a [String]) -> Option<(&'a [u8], &'a [String])>
    requires { 0 < length arguments.now }
    ensures none { IfNone result (words_in (map string_bytes arguments.now) ≡ None) }
    ensures word { IfSome result (λ found. words_in (map string_bytes arguments.now)
        ≡ before (Some found.0.now) (words_in (map string_bytes found.1.now))) }
    ensures fewer { IfSome result (λ found. length found.1.now < length arguments.now) }
{
    let first = arguments[0].as_bytes();
    if first == b"-D".as_slice() && 1 < arguments.len() {
        Some((arguments[1].as_bytes(), &arguments[2..]))
    } else {
        Some((joined_word(first)?, &arguments[1..]))
    }
}

/// The words of each `-D`, in one argument or in two, or nothing where an argument is no part of such.
#[tactic(auto, using(crate::proofs::CommandWords::found_push))]
fn words_in(alloc: Global, arguments: &[String]) -> Result<Option<Vec<Bytes>>, NoMemory>
    ensures { IfOk result (λ words. option_map (λ found. found.items) words
        ≡ words_in (map string_bytes arguments.now)) }
{
    let mut words = Vec::new(alloc);
    let mut rest = arguments;
    'words: while !rest.is_empty() {
        let Some((word, behind)) = first_word(rest) else {
            return Ok(None);
        };
        words.push(Bytes::from_slice(alloc, word)?)?;
        rest = behind;
    }
    Ok(Some(words))
}

/// The words of each `-D` behind the command `specialise`, or nothing where the arguments are not such.
fn words_asked(alloc: Global, arguments: &[String]) -> Result<Option<Vec<Bytes>>, NoMemory>
    ensures { IfOk result (λ words. option_map (λ found. found.items) words
        ≡ words_asked (map string_bytes arguments.now)) }
{
    let Some((first, rest)) = arguments.split_first() else {
        return Ok(None);
    };
    if first.as_bytes() == b"specialise".as_slice() {
        words_in(alloc, rest)
    } else {
        Ok(None)
    }
}

/// Whether the word of a `-D` is a definition.
fn is_definition(alloc: Global, word: &[u8]) -> Result<bool, NoMemory>
    ensures { IfOk result (λ is. IsTrue is ↔ IsDefinition word.now) }
{
    one_word();
    match define_word(alloc, word) {
        Ok(_defined) => Ok(true),
        Err(DefineFault::Bad) => Ok(false),
        Err(DefineFault::NoMemory) => Err(NoMemory),
    }
}

/// Whether each of these words is a definition.
fn are_definitions(alloc: Global, words: &[Bytes]) -> Result<bool, NoMemory>
    ensures { IfOk result (λ are. IsTrue are ↔ All IsDefinition words.now) }
{
    'words: for word in words {
        if !is_definition(alloc, word.as_slice())? {
            return Ok(false);
        }
    }
    Ok(true)
}

/// The words of each `-D` of a run of `specialise`, or nothing where the arguments are no command.
pub(crate) fn asked(alloc: Global, arguments: &[String]) -> Result<Option<Vec<Bytes>>, NoMemory>
    ensures { IfOk result (λ words. MatchOption words (AsksNothing (map string_bytes arguments.now))
        (λ found. Asks (map string_bytes arguments.now) (Specialise found.items))) }
{
    let Some(words) = words_asked(alloc, arguments)? else {
        return Ok(None);
    };
    if are_definitions(alloc, words.as_slice())? {
        Ok(Some(words))
    } else {
        Ok(None)
    }
}
