//! Edits among all inputs.
use crate::edits::{has_text, path_of};
use cb_inputs::{Inputs, Refused};
use cb_outside::{MemKeeper, NoKeeper, Numbers};
use cb_paths::{NoMemory, Path};
use std::alloc::Global;
use std::test::Fail;

/// An edit of inputs.
#[derive(Clone, Copy)]
enum Edit {
    /// Puts an analysis.
    Analysis(&'static [u8]),
    /// Puts measurements.
    Measurements(&'static [u8]),
    /// Puts a source.
    Source(&'static [u8]),
    /// Takes the source away.
    NoSource,
    /// Puts a database.
    Database(&'static [u8]),
    /// Takes the database away.
    NoDatabase,
}

/// What an edit answers; that of a source or of a database is at the path.
fn answer(
    alloc: Global,
    inputs: &mut Inputs,
    keeper: &mut MemKeeper,
    path: &Path,
    edit: Edit,
) -> Result<(), Refused> {
    match edit {
        Edit::Analysis(bytes) => inputs.put_analysis(alloc, keeper, bytes),
        Edit::Measurements(bytes) => inputs.put_measurements(alloc, keeper, bytes),
        Edit::Source(bytes) => inputs.put_source(alloc, keeper, path, bytes),
        Edit::NoSource => inputs.remove_source(keeper, path),
        Edit::Database(bytes) => inputs.put_database(alloc, keeper, path, bytes),
        Edit::NoDatabase => inputs.remove_database(keeper, path),
    }
}

/// An edit, the text that it answers, and how many sources and databases it leaves.
type Row = (Edit, &'static [u8], usize, usize);

/// The edits of a source.
const SOURCES: &[Row] = &[
    (Edit::Source(b"x;\n"), b"", 1, 0),
    (
        Edit::Source(b"#endif"),
        b"bad source 4 StrayEndif line 1",
        1,
        0,
    ),
    (Edit::NoSource, b"store failed", 1, 0),
    (Edit::Source(b"y;\n"), b"", 1, 0),
    (Edit::NoSource, b"", 0, 0),
    (Edit::NoSource, b"not found", 0, 0),
    (Edit::Source(b""), b"", 1, 0),
];

/// The edits of the other inputs.
const OTHERS: &[Row] = &[
    (
        Edit::Analysis(b""),
        b"bad analysis 2 NoPlatform platform",
        0,
        0,
    ),
    (
        Edit::Analysis(b"[platform.a]\ncommands = \"a.json\"\n"),
        b"",
        0,
        0,
    ),
    (Edit::NoDatabase, b"not found", 0, 0),
    (Edit::Database(b"{}"), b"bad database 2 NotArray", 0, 0),
    (Edit::Database(b"[]"), b"store failed", 0, 0),
    (Edit::Database(b"[]"), b"", 0, 1),
    (
        Edit::Measurements(b""),
        b"bad measurements 1 Header row 1",
        0,
        1,
    ),
    (
        Edit::Measurements(b"problem,platform,application,fom\n"),
        b"",
        0,
        1,
    ),
    (Edit::NoDatabase, b"", 0, 0),
];

/// Whether an edit answers the wanted text.
fn is_answered(
    alloc: Global,
    inputs: &mut Inputs,
    keeper: &mut MemKeeper,
    row: &Row,
) -> Result<bool, NoMemory> {
    let path = path_of(alloc, b"a.json")?;
    let answer = answer(alloc, inputs, keeper, &path, row.0);
    has_text(alloc, answer, row.1)
}

/// Whether so many sources and databases stand as an edit leaves.
fn are_left(inputs: &Inputs, row: &Row) -> bool {
    inputs.sources().len() == row.2 && inputs.databases().len() == row.3
}

/// The number of the first edit that answers another text, or leaves another number of sources or of databases.
fn first_wrong(
    alloc: Global,
    inputs: &mut Inputs,
    keeper: &mut MemKeeper,
    rows: &[Row],
) -> Result<Option<usize>, NoMemory> {
    for (at, row) in rows.iter().enumerate() {
        if !is_answered(alloc, inputs, keeper, row)? || !are_left(inputs, row) {
            return Ok(Some(at));
        }
    }
    Ok(None)
}

/// The same of edits of empty inputs, where the second call of the keeper fails.
fn wrong_edit(alloc: Global, rows: &[Row]) -> Result<Option<usize>, NoMemory> {
    let fails = Numbers::from_slice(alloc, &[2])?;
    first_wrong(
        alloc,
        &mut Inputs::new(alloc),
        &mut MemKeeper::new(alloc, fails),
        rows,
    )
}

#[test]
fn sources_are_edited_among_all(rt: HostRuntime) -> Result<(), Fail> {
    assert_eq!(rt; wrong_edit(rt.alloc(), SOURCES)?, None);
    Ok(())
}

#[test]
fn other_inputs_are_edited_among_all(rt: HostRuntime) -> Result<(), Fail> {
    assert_eq!(rt; wrong_edit(rt.alloc(), OTHERS)?, None);
    Ok(())
}

/// Whether inputs are empty.
fn are_empty(inputs: &Inputs) -> bool {
    inputs.analysis().get().is_none()
        && inputs.databases().len() == 0
        && inputs.sources().len() == 0
        && inputs.measurements().get().is_none()
}

#[test]
fn inputs_begin_empty(rt: HostRuntime) -> Result<(), Fail> {
    assert!(rt; are_empty(&Inputs::new(rt.alloc())));
    Ok(())
}

/// The text of an analysis of 32 platforms with one database.
fn analysis_of_32(alloc: Global) -> Result<Vec<u8>, NoMemory> {
    let mut text = Vec::new(alloc);
    for number in 0u8..32 {
        text.extend_from_slice(b"[platform.")?;
        text.push(b'a' + number / 16)?;
        text.push(b'a' + number % 16)?;
        text.extend_from_slice(b"]\ncommands = \"a.json\"\n")?;
    }
    Ok(text)
}

/// The text of a database of one entry and so many more.
fn database_of(alloc: Global, more: usize) -> Result<Vec<u8>, NoMemory> {
    let mut text = Vec::new(alloc);
    text.push(b'[')?;
    for _ in 0..more {
        text.extend_from_slice(b"{\"directory\":\"\",\"file\":\"\",\"arguments\":[]},")?;
    }
    text.extend_from_slice(b"{\"directory\":\"\",\"file\":\"\",\"arguments\":[]}]")?;
    Ok(text)
}

/// What a put of a database of one entry and so many more answers.
fn put_entries(alloc: Global, inputs: &mut Inputs, more: usize) -> Result<(), Refused> {
    let text = database_of(alloc, more)?;
    let path = path_of(alloc, b"a.json")?;
    inputs.put_database(alloc, &mut NoKeeper, &path, text.as_slice())
}

/// What a put of an analysis of 32 platforms answers.
fn put_platforms(alloc: Global, inputs: &mut Inputs) -> Result<(), Refused> {
    let text = analysis_of_32(alloc)?;
    inputs.put_analysis(alloc, &mut NoKeeper, text.as_slice())
}

/// Puts of a database of one entry and so many more, or of the analysis of 32 platforms, and the text that each
/// answers.
const PUTS: &[(Option<usize>, &[u8])] = &[
    (Some(625), b""),
    (None, b"limit commands 20032 20000"),
    (Some(624), b""),
    (None, b""),
    (Some(625), b"limit commands 20032 20000"),
];

/// Whether a put answers the wanted text.
fn is_put(
    alloc: Global,
    inputs: &mut Inputs,
    row: &(Option<usize>, &[u8]),
) -> Result<bool, NoMemory> {
    let answer = match row.0 {
        Some(more) => put_entries(alloc, inputs, more),
        None => put_platforms(alloc, inputs),
    };
    has_text(alloc, answer, row.1)
}

/// The number of the first put that answers another text.
fn wrong_put(alloc: Global, inputs: &mut Inputs) -> Result<Option<usize>, NoMemory> {
    for (at, row) in PUTS.iter().enumerate() {
        if !is_put(alloc, inputs, row)? {
            return Ok(Some(at));
        }
    }
    Ok(None)
}

#[test]
fn commands_have_a_limit(rt: HostRuntime) -> Result<(), Fail> {
    assert_eq!(rt; wrong_put(rt.alloc(), &mut Inputs::new(rt.alloc()))?, None);
    Ok(())
}
