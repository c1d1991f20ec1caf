//! The values of options, and the words that are none.
ghost use Rattle.std.specs.Prelude.{◌≡◌, ◌++◌, ◌∷◌, [], Ok, IfOk, IfErr, OnOk};
ghost use Rattle.std.specs.Option.{option_copied};
ghost use Rattle.std.specs.List.{filter_map};
ghost use Rattle.cb_words.specs.Faults.{Refuses};
ghost use Rattle.cb_words.specs.declared.option_name.OptionName.TheVariants as name;
ghost use Rattle.cb_words.specs.Values.{value_in, plain_word, plain_words, kind_named, kind_or_summary, folder_or_here};
ghost use Rattle.cb_words.specs.Values.{path_in, path_or_none, needed_number, workers_or_one};

use crate::digits::number_in;
use crate::fault::{BadWords, WordsFault};
use crate::option_name::OptionName;
use crate::part::Part;
use cb_paths::{Bytes, Dir, NoMemory, Path, PathFault, Texts};
use cb_reports::Kind;
use std::alloc::Global;

/// The workers at most.
const WORKER_LIMIT: u32 = 64;

/// The first value that parts give to an option.
fn value_in<'a>(parts: &[Part<'a>], option: OptionName) -> Option<&'a [u8]>
    ensures { option_copied result ≡ value_in option parts.now }
{
    'parts: for part in parts {
        if let Some(value) = part.value_of(option) {
            return Some(value);
        }
    }
    None
}

/// Adds the word of a part, if it is of no option.
fn push_plain_word(alloc: Global, words: &mut Texts, part: &Part) -> Result<(), NoMemory>
    ensures { OnOk result (words.new ≡ words.old ++ filter_map plain_word (part.now ∷ [])) }
{
    match part.plain_word() {
        Some(word) => {
            let word = Bytes::from_slice(alloc, word)?;
            words.push(word)
        }
        None => Ok(()),
    }
}

/// The words that are of no option.
fn all_plain_words(alloc: Global, parts: &[Part]) -> Result<Texts, NoMemory>
    ensures { IfOk result (λ words. words ≡ filter_map plain_word parts.now) }
{
    let mut words = Texts::new(alloc);
    'parts: for part in parts {
        push_plain_word(alloc, &mut words, part)?;
    }
    Ok(words)
}

/// The words that are of no option, if there are so many.
pub(crate) fn plain_words(alloc: Global, parts: &[Part], count: usize) -> Result<Texts, WordsFault>
    ensures words { IfOk result (λ words. plain_words count parts.now ≡ Ok words) }
    ensures bad { IfErr result (λ e. Refuses e (plain_words count parts.now)) }
{
    let words = all_plain_words(alloc, parts)?;
    if words.len() == count {
        Ok(words)
    } else {
        Err(WordsFault::Bad(BadWords::WrongCount))
    }
}

/// The kind of report that a text names.
fn kind_named(name: &[u8]) -> Option<Kind>
    ensures { result ≡ kind_named name.now }
{
    Kind::read(name)
}

/// The kind of report; the summary where no option gives one.
pub(crate) fn kind(parts: &[Part]) -> Result<Kind, BadWords>
    ensures { result ≡ kind_or_summary (value_in name.Kind parts.now) }
{
    let Some(text) = value_in(parts, OptionName::Kind) else {
        return Ok(Kind::Summary);
    };
    match kind_named(text) {
        Some(kind) => Ok(kind),
        None => Err(BadWords::UnknownKind),
    }
}

/// The folder that the databases mean by the top, from the folder in which the program runs; this one where no option gives one.
pub(crate) fn root(alloc: Global, parts: &[Part], here: &Dir) -> Result<Dir, WordsFault>
    ensures folder { IfOk result (λ root. folder_or_here here.now (value_in name.Root parts.now) ≡ Ok root) }
    ensures bad { IfErr result (λ e. Refuses e (folder_or_here here.now (value_in name.Root parts.now))) }
{
    let Some(text) = value_in(parts, OptionName::Root) else {
        let root = here.copy(alloc)?;
        return Ok(root);
    };
    match Dir::read(alloc, text, here) {
        Ok(root) => Ok(root),
        Err(PathFault::Bad(_)) => Err(WordsFault::Bad(BadWords::BadFolder)),
        Err(PathFault::NoMemory) => Err(WordsFault::NoMemory),
    }
}

/// The path that a text names.
pub(crate) fn path_in(alloc: Global, text: &[u8]) -> Result<Path, WordsFault>
    ensures path { IfOk result (λ path. path_in text.now ≡ Ok path) }
    ensures bad { IfErr result (λ e. Refuses e (path_in text.now)) }
{
    match Path::read(alloc, text) {
        Ok(path) => Ok(path),
        Err(PathFault::Bad(_)) => Err(WordsFault::Bad(BadWords::BadPath)),
        Err(PathFault::NoMemory) => Err(WordsFault::NoMemory),
    }
}

/// The path of the measurements; none where no option gives one.
pub(crate) fn measurements(alloc: Global, parts: &[Part]) -> Result<Option<Path>, WordsFault>
    ensures path { IfOk result (λ path. path_or_none (value_in name.Measurements parts.now) ≡ Ok path) }
    ensures bad { IfErr result (λ e. Refuses e (path_or_none (value_in name.Measurements parts.now))) }
{
    let Some(text) = value_in(parts, OptionName::Measurements) else {
        return Ok(None);
    };
    match path_in(alloc, text) {
        Ok(path) => Ok(Some(path)),
        Err(fault) => Err(fault),
    }
}

/// The number of workers; 1 where no option gives one.
pub(crate) fn workers(parts: &[Part]) -> Result<u32, BadWords>
    ensures { result ≡ workers_or_one (value_in name.Workers parts.now) }
{
    match value_in(parts, OptionName::Workers) {
        Some(text) => number_in(1, WORKER_LIMIT, text),
        None => Ok(1),
    }
}

/// The number that an option gives, which must stand.
pub(crate) fn needed_number(
    parts: &[Part],
    option: OptionName,
    low: u32,
    high: u32,
) -> Result<u32, BadWords>
    ensures { result ≡ needed_number low high (value_in option parts.now) }
{
    match value_in(parts, option) {
        Some(text) => number_in(low, high, text),
        None => Err(BadWords::MissingOption),
    }
}
