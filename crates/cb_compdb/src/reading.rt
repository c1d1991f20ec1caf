//! The entries of a file, or its first fault.
ghost use Rattle.std.specs.Prelude.{◌≡◌, ◌≤◌, length, map, codes, Some, None, option_map, option_and_then, IfOk, IfErr};
ghost use Rattle.serde_json.specs.Data.{Data};
ghost use Rattle.serde_json.specs.Errors.{IsMemory};
ghost use Rattle.serde_json.specs.View.{view};
ghost use Rattle.serde_json.specs.Find.{get};
ghost use Rattle.cb_compdb.specs.Databases.{IsDatabase, HasEntries, AreEntries, IsEntry, items_in, text_at, texts_of};
ghost use Rattle.cb_compdb.specs.Faults.{Tells};
ghost use Rattle.cb_compdb.specs.inner.Items.{AreWords, LacksWords, IsWrong, TellsItem, TellsValue, fault_at};

use crate::entry::{Entries, Entry};
use crate::fault::{BadDatabase, DatabaseFault, ItemFault};
use crate::splitting::split;
use cb_paths::{Bytes, NoMemory, Texts};
use serde_json::{Error, Value};
use std::alloc::Global;

/// The entries of a database at most.
const ENTRY_LIMIT: usize = 20_000;

/// The text that stands at a key of a value.
fn text_at<'v>(value: &'v Value, key: &str) -> Option<&'v str>
    ensures { option_map (λ text. text.now) result ≡ text_at key.now (view value.now) }
{
    match value.get(key) {
        Some(found) => found.as_str(),
        None => None,
    }
}

/// The texts of values that are all texts; none where one is not.
fn texts_of(alloc: Global, values: &[Value]) -> Result<Option<Texts>, NoMemory>
    ensures { IfOk result (λ texts. texts ≡ texts_of (map view values.now)) }
{
    let mut texts = Texts::new(alloc);
    'texts: for value in values {
        match value.as_str() {
            Some(text) => texts.push(Bytes::from_slice(alloc, text.as_bytes())?)?,
            None => return Ok(None),
        }
    }
    Ok(Some(texts))
}

/// The texts of an array of texts; none where the value is something else.
fn texts_in(alloc: Global, value: &Value) -> Result<Option<Texts>, NoMemory>
    ensures { IfOk result (λ texts. texts ≡ option_and_then texts_of (items_in (view value.now))) }
{
    match value.as_array() {
        Some(values) => texts_of(alloc, values.as_slice()),
        None => Ok(None),
    }
}

/// The words of an item that has no `arguments`.
fn command_words(alloc: Global, value: &Value) -> Result<Texts, ItemFault>
    requires { get (codes "arguments") (view value.now) ≡ None }
    ensures words { IfOk result (AreWords (view value.now)) }
    ensures fault { IfErr result (LacksWords (view value.now)) }
{
    let Some(command) = text_at(value, "command") else {
        return Err(ItemFault::Field);
    };
    match split(alloc, command.as_bytes())? {
        Some(words) => Ok(words),
        None => Err(ItemFault::OpenQuote),
    }
}

/// The words of an item.
fn words_of(alloc: Global, value: &Value) -> Result<Texts, ItemFault>
    ensures words { IfOk result (AreWords (view value.now)) }
    ensures fault { IfErr result (LacksWords (view value.now)) }
{
    match value.get("arguments") {
        Some(list) => match texts_in(alloc, list)? {
            Some(words) => Ok(words),
            None => Err(ItemFault::Field),
        },
        None => command_words(alloc, value),
    }
}

/// The entry that an item is.
fn entry_of(alloc: Global, value: &Value) -> Result<Entry, ItemFault>
    ensures entry { IfOk result (IsEntry (view value.now)) }
    ensures fault { IfErr result (IsWrong (view value.now)) }
{
    if !value.is_object() {
        return Err(ItemFault::NotObject);
    }
    let Some(directory) = text_at(value, "directory") else {
        return Err(ItemFault::Field);
    };
    let Some(file) = text_at(value, "file") else {
        return Err(ItemFault::Field);
    };
    let words = words_of(alloc, value)?;
    let directory = Bytes::from_slice(alloc, directory.as_bytes())?;
    let file = Bytes::from_slice(alloc, file.as_bytes())?;
    Ok(Entry {
        directory,
        file,
        words,
    })
}

/// The fault of a database in which the item at a place has a fault.
fn fault_at(place: u32, fault: ItemFault) -> DatabaseFault
    ensures { result ≡ fault_at place fault }
{
    match fault {
        ItemFault::NotObject => DatabaseFault::Bad(BadDatabase::NotObject(place)),
        ItemFault::Field => DatabaseFault::Bad(BadDatabase::Field(place)),
        ItemFault::OpenQuote => DatabaseFault::Bad(BadDatabase::OpenQuote(place)),
        ItemFault::NoMemory => DatabaseFault::NoMemory,
    }
}

/// The entries that items are, or the first fault of one.
fn entries_of(alloc: Global, values: &[Value]) -> Result<Entries, DatabaseFault>
    requires { length values.now ≤ ENTRY_LIMIT }
    ensures entries { IfOk result (AreEntries (map view values.now)) }
    ensures fault { IfErr result (λ fault. TellsItem fault (map view values.now)) }
{
    let mut items = Vec::new(alloc);
    'items: for place in 0..values.len() {
        match entry_of(alloc, &values[place]) {
            Ok(entry) => items.push(entry)?,
            Err(fault) => return Err(fault_at(place as u32, fault)),
        }
    }
    Ok(Entries { items })
}

/// The entries of an array, or its first fault.
fn entries_in(alloc: Global, values: &[Value]) -> Result<Entries, DatabaseFault>
    ensures entries { IfOk result
        (λ entries. (d : Data) → items_in d ≡ Some (map view values.now) → HasEntries d entries) }
    ensures fault { IfErr result (λ fault. (d : Data) → items_in d ≡ Some (map view values.now) → TellsValue fault d) }
{
    if values.len() > ENTRY_LIMIT {
        return Err(DatabaseFault::Bad(BadDatabase::TooMany));
    }
    entries_of(alloc, values)
}

/// The entries of a JSON value, or its first fault.
fn database(alloc: Global, value: &Value) -> Result<Entries, DatabaseFault>
    ensures entries { IfOk result (HasEntries (view value.now)) }
    ensures fault { IfErr result (λ fault. TellsValue fault (view value.now)) }
{
    match value.as_array() {
        Some(values) => entries_in(alloc, values.as_slice()),
        None => Err(DatabaseFault::Bad(BadDatabase::NotArray)),
    }
}

/// Why a file was not read as JSON.
fn refusal(error: &Error) -> DatabaseFault
    ensures memory { IsMemory error.now → result ≡ DatabaseFault.NoMemory }
    ensures json { ¬ IsMemory error.now → result ≡ DatabaseFault.Bad BadDatabase.NotJson }
{
    if error.is_memory() {
        DatabaseFault::NoMemory
    } else {
        DatabaseFault::Bad(BadDatabase::NotJson)
    }
}

/// Reads a compilation database: a JSON array of at most 20,000 objects, each with the texts `directory` and `file`,
/// and with `arguments`, an array of texts, or else `command`, a text that is split into words. It answers the entries
/// in their order, or the first fault of the file; its other error is out of memory.
pub fn read(alloc: Global, bytes: &[u8]) -> Result<Entries, DatabaseFault>
    ensures entries { IfOk result (IsDatabase bytes.now) }
    ensures fault { IfErr result (λ fault. Tells fault bytes.now) }
{
    match Value::from_slice(alloc, bytes) {
        Ok(value) => database(alloc, &value),
        Err(error) => Err(refusal(&error)),
    }
}
