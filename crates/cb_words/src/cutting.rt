//! The words behind a command are cut into parts.
ghost use Rattle.std.specs.Prelude.{◌≡◌, ◌==◌, ◌<◌, ◌∷◌, length, position, IfSome, map, string_bytes, IfOk, option_map};
ghost use Rattle.cb_words.specs.OptionNames.{name_of};
ghost use Rattle.cb_words.specs.Parts.{option_named, joined, begins_as_option, other_part, own_part, parts_of};
ghost use Rattle.cb_words.specs.inner.Forms.{part_of};

use crate::option_name::OptionName;
use crate::part::{Form, Part};
use cb_paths::NoMemory;
use std::alloc::Global;

/// The option that a word names, among these.
fn option_named(options: &[OptionName], word: &[u8]) -> Option<OptionName>
    ensures { result ≡ option_named options.now word.now }
{
    'options: for option in options {
        if option.name() == word {
            return Some(*option);
        }
    }
    None
}

/// Where the first `=` of a word stands.
fn equals_at(word: &[u8]) -> Option<usize>
    ensures value { result ≡ position (λ b. b == 61) word.now }
    ensures within { IfSome result (λ at. at < length word.now) }
{
    word.iter().position(|byte| *byte == b'=')
}

/// The option whose name stands before the first `=` of a word, with what stands behind it as its value.
fn joined<'a>(options: &[OptionName], word: &'a [u8]) -> Option<Form<'a>>
    ensures { option_map part_of result ≡ joined options.now word.now }
{
    let Some(at) = equals_at(word) else {
        return None;
    };
    let Some(option) = option_named(options, &word[..at]) else {
        return None;
    };
    Some(Form::Given(option, &word[at + 1..]))
}

/// Whether a word begins with `-`.
fn begins_as_option(word: &[u8]) -> bool
    ensures { result ≡ begins_as_option word.now }
{
    match word.split_first() {
        Some((first, _)) => *first == b'-',
        None => false,
    }
}

/// What a word is that gives no value to an option.
fn other_part<'a>(word: &'a [u8]) -> Form<'a>
    ensures { part_of result ≡ other_part word.now }
{
    if begins_as_option(word) {
        Form::Stray
    } else {
        Form::Plain(word)
    }
}

/// What a word is that does not name an option.
fn own_part<'a>(options: &[OptionName], word: &'a [u8]) -> Form<'a>
    ensures { part_of result ≡ own_part options.now word.now }
{
    match joined(options, word) {
        Some(form) => form,
        None => other_part(word),
    }
}

/// The first part of the words, and the words behind it.
fn first_part<'a>(options: &[OptionName], words: &'a [String]) -> (Form<'a>, &'a [String])
    requires { 0 < length words.now }
    ensures part { parts_of options.now (map string_bytes words.now)
        ≡ part_of result.0 ∷ parts_of options.now (map string_bytes result.1.now) }
    ensures fewer { length result.1.now < length words.now }
{
    let word = words[0].as_bytes();
    let Some(option) = option_named(options, word) else {
        return (own_part(options, word), &words[1..]);
    };
    if words.len() > 1 {
        (Form::Given(option, words[1].as_bytes()), &words[2..])
    } else {
        (Form::Lone(option), &words[1..])
    }
}

/// The parts of the words behind a command with these options.
pub(crate) fn parts_of<'a>(
    alloc: Global,
    options: &[OptionName],
    words: &'a [String],
) -> Result<Vec<Part<'a>>, NoMemory>
    ensures { IfOk result (λ parts. parts.items ≡ parts_of options.now (map string_bytes words.now)) }
{
    let mut parts = Vec::new(alloc);
    let mut rest = words;
    'words: while !rest.is_empty() {
        let (form, behind) = first_part(options, rest);
        parts.push(Part::new(form))?;
        rest = behind;
    }
    Ok(parts)
}
