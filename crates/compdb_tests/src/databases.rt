//! Databases: their entries, the words of commands, and the first fault.
use cb_compdb::{BadDatabase, DatabaseFault, Entries, Entry, one_database, one_splitting, read};
use cb_paths::{Bytes, NoMemory};
use std::alloc::Global;
use std::test::Fail;

/// The number of a file's fault and its entry, and 0 and the number of entries of one that is read.
fn outcome(alloc: Global, file: &[u8]) -> Result<(u32, u32), NoMemory> {
    match read(alloc, file) {
        Ok(entries) => Ok((0, entries.len().min(100_000) as u32)),
        Err(DatabaseFault::Bad(bad)) => Ok((bad.number(), place_of(bad))),
        Err(DatabaseFault::NoMemory) => Err(NoMemory),
    }
}

fn place_of(bad: BadDatabase) -> u32 {
    match bad {
        BadDatabase::NotObject(place) | BadDatabase::Field(place) | BadDatabase::OpenQuote(place) =>
            place,
        _ => 0,
    }
}

/// A file, the number of its first fault, and its entry; 0 and the number of entries where there is none.
type Row = (&'static [u8], u32, u32);

/// Files that are no database as a whole, or whose items are no objects.
const FORMS: &[Row] = &[
    // No JSON: nothing, a byte order mark, an end that lacks, a text behind the value, bytes that are no UTF-8.
    (b"", 1, 0),
    (b"\xef\xbb\xbf[]", 1, 0),
    (b"[", 1, 0),
    (b"[] []", 1, 0),
    (b"[\"\xff\"]", 1, 0),
    (b"[{\"directory\":1}", 1, 0),
    // No array.
    (b"{}", 2, 0),
    (b"null", 2, 0),
    (b"\"[]\"", 2, 0),
    // No entry at all is no fault.
    (b" [ ]\n", 0, 0),
    // No object.
    (b"[1]", 3, 0),
    (b"[[]]", 3, 0),
    (
        b"[{\"directory\":\"/\",\"file\":\"a.c\",\"command\":\"\"},null,{}]",
        3,
        1,
    ),
];

/// Items that lack a field, or have one of another type.
const FIELDS: &[Row] = &[
    // Each field missing, and of another type.
    (b"[{}]", 4, 0),
    (b"[{\"file\":\"a.c\",\"command\":\"cc\"}]", 4, 0),
    (
        b"[{\"directory\":null,\"file\":\"a.c\",\"command\":\"cc\"}]",
        4,
        0,
    ),
    (b"[{\"directory\":\"/\",\"command\":\"cc\"}]", 4, 0),
    (
        b"[{\"directory\":\"/\",\"file\":[\"a.c\"],\"command\":\"cc\"}]",
        4,
        0,
    ),
    (b"[{\"directory\":\"/\",\"file\":\"a.c\"}]", 4, 0),
    (
        b"[{\"directory\":\"/\",\"file\":\"a.c\",\"command\":[\"cc\"]}]",
        4,
        0,
    ),
    (
        b"[{\"directory\":\"/\",\"file\":\"a.c\",\"arguments\":\"cc\"}]",
        4,
        0,
    ),
    (
        b"[{\"directory\":\"/\",\"file\":\"a.c\",\"arguments\":[\"cc\",1]}]",
        4,
        0,
    ),
    // Where `arguments` stands, `command` is not looked at, whatever either of them is.
    (
        b"[{\"directory\":\"/\",\"file\":\"a.c\",\"arguments\":null,\"command\":\"cc\"}]",
        4,
        0,
    ),
    (
        b"[{\"directory\":\"/\",\"file\":\"a.c\",\"arguments\":[],\"command\":\"cc 'a\"}]",
        0,
        1,
    ),
    (
        b"[{\"directory\":\"/\",\"file\":\"a.c\",\"arguments\":[\"cc 'a\"],\"command\":1}]",
        0,
        1,
    ),
];

/// Quotes without an end, and which of two faults comes first.
const ORDER: &[Row] = &[
    // A quote without an end.
    (
        b"[{\"directory\":\"/\",\"file\":\"a.c\",\"command\":\"cc 'a\"}]",
        5,
        0,
    ),
    (
        b"[{\"directory\":\"/\",\"file\":\"a.c\",\"command\":\"cc \\\"a\"}]",
        5,
        0,
    ),
    (
        b"[{\"directory\":\"/\",\"file\":\"a.c\",\"command\":\"cc \\\"a\\\\\"}]",
        5,
        0,
    ),
    (
        b"[{\"directory\":\"/\",\"file\":\"a.c\",\"command\":\"cc \\\"a\\\\\\\"\"}]",
        5,
        0,
    ),
    // In one entry a field comes before a quote; of two entries the first one decides.
    (b"[{\"directory\":\"/\",\"command\":\"cc 'a\"}]", 4, 0),
    (
        b"[{\"directory\":\"/\",\"file\":\"a.c\",\"command\":\"cc 'a\"},1]",
        5,
        0,
    ),
    (
        b"[{\"directory\":\"/\",\"file\":\"a.c\",\"command\":\"cc 'a\"},{}]",
        5,
        0,
    ),
    (
        b"[{},{\"directory\":\"/\",\"file\":\"a.c\",\"command\":\"cc 'a\"}]",
        4,
        0,
    ),
    (b"[{},1]", 4, 0),
    (b"[1,{}]", 3, 0),
    // Of a key that stands twice the last value counts, also where the first has another type.
    (
        b"[{\"directory\":1,\"file\":\"a.c\",\"command\":\"cc\",\"directory\":\"/\"}]",
        0,
        1,
    ),
    (
        b"[{\"directory\":\"/\",\"file\":\"a.c\",\"command\":\"cc\",\"directory\":1}]",
        4,
        0,
    ),
    // Other keys are passed over.
    (
        b"[{\"directory\":\"/\",\"file\":\"a.c\",\"command\":\"cc\",\"output\":7,\"x\":{}}]",
        0,
        1,
    ),
];

#[test]
fn files_have_a_form(rt: HostRuntime) -> Result<(), Fail> {
    one_database();
    for row in FORMS {
        assert!(rt;
            outcome(rt.alloc(), row.0)? == (row.1, row.2),
            "{}",
            row.0.escape_ascii()
        );
    }
    Ok(())
}

#[test]
fn entries_have_fields(rt: HostRuntime) -> Result<(), Fail> {
    for row in FIELDS {
        assert!(rt;
            outcome(rt.alloc(), row.0)? == (row.1, row.2),
            "{}",
            row.0.escape_ascii()
        );
    }
    Ok(())
}

#[test]
fn the_first_fault_is_told(rt: HostRuntime) -> Result<(), Fail> {
    for row in ORDER {
        assert!(rt;
            outcome(rt.alloc(), row.0)? == (row.1, row.2),
            "{}",
            row.0.escape_ascii()
        );
    }
    Ok(())
}

/// Adds an array of so many items, and then an end.
fn put_many(file: &mut Vec<u8>, count: u32, item: &[u8], end: &[u8]) -> Result<(), NoMemory> {
    file.extend_from_slice(b"[")?;
    for at in 0..count {
        file.extend_from_slice(if at > 0 { b"," } else { b"" })?;
        file.extend_from_slice(item)?;
    }
    file.extend_from_slice(end)?;
    Ok(())
}

/// What a file comes to that is an array of so many items, and then of an end.
fn outcome_of_many(
    alloc: Global,
    count: u32,
    item: &[u8],
    end: &[u8],
) -> Result<(u32, u32), NoMemory> {
    let mut file = Vec::new(alloc);
    put_many(&mut file, count, item, end)?;
    outcome(alloc, file.as_slice())
}

const ITEM: &[u8] = b"{\"directory\":\"/\",\"file\":\"a.c\",\"arguments\":[]}";

/// So many items, the item, the end of the file, and what it comes to.
const MANY: &[(u32, &[u8], &[u8], u32, u32)] = &[
    (20_000, ITEM, b"]", 0, 20_000),
    (20_001, ITEM, b"]", 6, 0),
    (20_000, b"1", b"]", 3, 0),
    (20_001, b"1", b"]", 6, 0),
    (20_001, b"1", b"", 1, 0),
];

/// The limit is told behind the reading as JSON, and before any entry is looked at.
#[test]
fn entries_are_limited(rt: HostRuntime) -> Result<(), Fail> {
    for row in MANY {
        assert!(rt;
            outcome_of_many(rt.alloc(), row.0, row.1, row.2)? == (row.3, row.4),
            "{} items, {}",
            row.0,
            row.3
        );
    }
    Ok(())
}

/// Whether a fault has this number and this name.
fn is_told(bad: BadDatabase, number: u32, name: &str) -> bool {
    bad.number() == number && bad.name() == name
}

/// Faults, and the number and the name of each.
const FAULTS: &[(BadDatabase, u32, &str)] = &[
    (BadDatabase::NotJson, 1, "NotJson"),
    (BadDatabase::NotArray, 2, "NotArray"),
    (BadDatabase::NotObject(7), 3, "NotObject"),
    (BadDatabase::Field(7), 4, "Field"),
    (BadDatabase::OpenQuote(7), 5, "OpenQuote"),
    (BadDatabase::TooMany, 6, "TooMany"),
];

#[test]
fn faults_have_names(rt: HostRuntime) {
    for row in FAULTS {
        assert!(rt; is_told(row.0, row.1, row.2), "{}", row.2);
    }
}

/// Adds words, each in brackets.
fn put_words(text: &mut Vec<u8>, words: &[Bytes]) -> Result<(), NoMemory> {
    for word in words {
        text.push(b'<')?;
        text.extend_from_slice(word.as_slice())?;
        text.push(b'>')?;
    }
    Ok(())
}

/// Whether an entry has these words, each in brackets.
fn has_words(alloc: Global, entry: &Entry, wanted: &[u8]) -> Result<bool, NoMemory> {
    let mut text = Vec::new(alloc);
    put_words(&mut text, entry.words.as_slice())?;
    Ok(text.as_slice() == wanted)
}

/// Adds a database whose one entry has a command, as it is written in JSON.
fn put_database(file: &mut Vec<u8>, command: &[u8]) -> Result<(), NoMemory> {
    file.extend_from_slice(b"[{\"directory\":\"/\",\"file\":\"a.c\",\"command\":\"")?;
    file.extend_from_slice(command)?;
    file.extend_from_slice(b"\"}]")?;
    Ok(())
}

/// Whether the first entry of a file has these words, each in brackets.
fn begins_with(alloc: Global, file: &[u8], wanted: &[u8]) -> Result<bool, NoMemory> {
    match read(alloc, file) {
        Ok(entries) => match entries.get(0) {
            Some(entry) => has_words(alloc, entry, wanted),
            None => Ok(false),
        },
        Err(DatabaseFault::Bad(_)) => Ok(false),
        Err(DatabaseFault::NoMemory) => Err(NoMemory),
    }
}

/// Whether a command, as it is written in JSON, is split into these words.
fn splits_into(alloc: Global, command: &[u8], wanted: &[u8]) -> Result<bool, NoMemory> {
    let mut file = Vec::new(alloc);
    put_database(&mut file, command)?;
    begins_with(alloc, file.as_slice(), wanted)
}

/// Commands, as they are written in JSON, and their words.
const SPLIT: &[(&[u8], &[u8])] = &[
    // Gaps: space, HT, LF and CR, and no others.
    (b"cc -c a.c", b"<cc><-c><a.c>"),
    (b"  cc \\t -c\\na.c\\r\\n", b"<cc><-c><a.c>"),
    (b"a\\u000bb\\fc\\u00a0d", b"<a\x0bb\x0cc\xc2\xa0d>"),
    (b"", b""),
    (b" \\n", b""),
    // Quotes stand anywhere in a word, and end none.
    (b"\\\"a b\\\"c'd e'f g", b"<a bcd ef><g>"),
    (b"-DA=\\\"\\\" '' \\\"\\\" b", b"<-DA=><><><b>"),
    (b"'\\\"' \\\"'\\\"", b"<\"><'>"),
    (b"'a\\nb' \\\"c\\td\\\"", b"<a\nb><c\td>"),
    // A backslash gives the next byte outside quotes and inside double ones, and is itself inside single ones.
    (
        b"a\\\\ b \\\\' \\\\\\\" \\\\\\\\ \\\\n",
        b"<a b><'><\"><\\><n>",
    ),
    (b"\\\"a\\\\\\\"b\\\\\\\\c\\\\nd\\\"", b"<a\"b\\cnd>"),
    (b"'a\\\\b' '\\\\'", b"<a\\b><\\>"),
    (b"a\\\\\\nb", b"<a\nb>"),
    // A backslash at the very end is itself.
    (b"a\\\\", b"<a\\>"),
    (b"a \\\\", b"<a><\\>"),
    (b"''\\\\", b"<\\>"),
];

#[test]
fn commands_are_split(rt: HostRuntime) -> Result<(), Fail> {
    one_splitting();
    for row in SPLIT {
        assert!(rt;
            splits_into(rt.alloc(), row.0, row.1)?,
            "{}",
            row.0.escape_ascii()
        );
    }
    Ok(())
}

fn is_text(text: &Bytes, wanted: &[u8]) -> bool {
    text.as_slice() == wanted
}

/// Whether an entry has these fields.
fn has_fields(
    alloc: Global,
    entry: &Entry,
    wanted: (&[u8], &[u8], &[u8]),
) -> Result<bool, NoMemory> {
    let (directory, file, words) = wanted;
    if !is_text(&entry.directory, directory) || !is_text(&entry.file, file) {
        return Ok(false);
    }
    has_words(alloc, entry, words)
}

/// Whether the entry at a place has these fields; none is wanted of one that is not there.
fn has_entry(
    alloc: Global,
    entries: &Entries,
    place: usize,
    wanted: Option<(&[u8], &[u8], &[u8])>,
) -> Result<bool, NoMemory> {
    match (entries.get(place), wanted) {
        (Some(entry), Some(wanted)) => has_fields(alloc, entry, wanted),
        (None, None) => Ok(place >= entries.len() && place >= entries.as_slice().len()),
        _ => Ok(false),
    }
}

/// The same of the entry of a file.
fn tells(
    alloc: Global,
    file: &[u8],
    place: usize,
    wanted: Option<(&[u8], &[u8], &[u8])>,
) -> Result<bool, NoMemory> {
    match read(alloc, file) {
        Ok(entries) => has_entry(alloc, &entries, place, wanted),
        Err(DatabaseFault::Bad(_)) => Ok(false),
        Err(DatabaseFault::NoMemory) => Err(NoMemory),
    }
}

const TWICE: &[u8] =
    b"[{\"file\":\"a.c\",\"directory\":\"/w\",\"arguments\":[\"cc\",\"\",\"-D\\u00e4 b\"]},{\"file\":\"a.c\",\"directory\":\"\",\"command\":\"cc -c a.c\"}]";

/// Places, and the directory, the file and the words of the entry there.
const TOLD: &[(usize, Option<(&[u8], &[u8], &[u8])>)] = &[
    (0, Some((b"/w", b"a.c", b"<cc><><-D\xc3\xa4 b>"))),
    (1, Some((b"", b"a.c", b"<cc><-c><a.c>"))),
    (2, None),
];

#[test]
fn entries_stand_in_their_order(rt: HostRuntime) -> Result<(), Fail> {
    for row in TOLD {
        assert!(rt; tells(rt.alloc(), TWICE, row.0, row.1)?, "entry {}", row.0);
    }
    Ok(())
}
