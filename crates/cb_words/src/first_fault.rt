//! The first fault of the words behind a command.
ghost use Rattle.std.specs.Prelude.{◌≡◌, [], map, string_bytes, Ok, IfOk, IfErr};
ghost use Rattle.std.specs.List.{list_any};
ghost use Rattle.cb_words.specs.Faults.{Refuses};
ghost use Rattle.cb_words.specs.Parts.{is_of, part_fault, first_fault, cut_words};

use crate::cutting::parts_of;
use crate::fault::{BadWords, WordsFault};
use crate::option_name::OptionName;
use crate::part::{Form, Part};
use std::alloc::Global;

/// Whether one of the parts is of an option.
fn is_given(parts: &[Part], option: OptionName) -> bool
    ensures { result ≡ list_any (is_of option) parts.now }
{
    parts.iter().any(|part| part.is_of(option))
}

/// What is wrong with a part behind others, if something is.
fn part_fault(before: &[Part], part: &Part) -> Option<BadWords>
    ensures { result ≡ part_fault before.now part.now }
{
    match part.form {
        Form::Given(option, _) => {
            if is_given(before, option) {
                Some(BadWords::RepeatedOption)
            } else {
                None
            }
        }
        Form::Lone(option) => {
            if is_given(before, option) {
                Some(BadWords::RepeatedOption)
            } else {
                Some(BadWords::MissingValue)
            }
        }
        Form::Stray => Some(BadWords::UnknownOption),
        Form::Plain(_) => None,
    }
}

/// The first fault of the parts.
fn first_fault(parts: &[Part]) -> Option<BadWords>
    ensures { result ≡ first_fault [] parts.now }
{
    'parts: for i in 0..parts.len() {
        if let Some(bad) = part_fault(&parts[..i], &parts[i]) {
            return Some(bad);
        }
    }
    None
}

/// The parts of the words behind a command with these options, or their first fault.
pub(crate) fn cut_words<'a>(
    alloc: Global,
    options: &[OptionName],
    words: &'a [String],
) -> Result<Vec<Part<'a>>, WordsFault>
    ensures parts { IfOk result (λ parts. cut_words options.now (map string_bytes words.now) ≡ Ok parts.items) }
    ensures bad { IfErr result (λ e. Refuses e (cut_words options.now (map string_bytes words.now))) }
{
    let parts = parts_of(alloc, options, words)?;
    match first_fault(parts.as_slice()) {
        Some(bad) => Err(WordsFault::Bad(bad)),
        None => Ok(parts),
    }
}
