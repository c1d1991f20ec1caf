//! Sources and databases that are put and taken away.
use cb_inputs::{Databases, Refused, Sources};
use cb_outside::{Keeper, MemKeeper, NoKeeper, Numbers};
use cb_paths::{NoMemory, Path, PathFault};
use std::alloc::Global;
use std::test::Fail;

/// An edit of sources or of databases.
#[derive(Clone, Copy)]
enum Edit {
    /// Puts these bytes at a path.
    Put(&'static [u8], &'static [u8]),
    /// Takes away what stands at a path.
    Remove(&'static [u8]),
}

/// Whether an answer has this text, which is empty where the edit is accepted.
pub(crate) fn has_text(
    alloc: Global,
    answer: Result<(), Refused>,
    expected: &[u8],
) -> Result<bool, NoMemory> {
    let mut text = Vec::new(alloc);
    if let Err(refused) = answer {
        refused.push_text(&mut text)?;
    }
    Ok(text.as_slice() == expected)
}

/// The path that a text names.
pub(crate) fn path_of(alloc: Global, text: &[u8]) -> Result<Path, NoMemory> {
    match Path::read(alloc, text) {
        Ok(path) => Ok(path),
        Err(PathFault::Bad(_)) => Err(NoMemory),
        Err(PathFault::NoMemory) => Err(NoMemory),
    }
}

/// What an edit of sources answers.
fn edit_sources<K: Keeper>(
    alloc: Global,
    sources: &mut Sources,
    keeper: &mut K,
    edit: Edit,
) -> Result<(), Refused> {
    match edit {
        Edit::Put(path, bytes) => {
            let path = path_of(alloc, path)?;
            sources.put(alloc, keeper, &path, bytes)
        }
        Edit::Remove(path) => {
            let path = path_of(alloc, path)?;
            sources.remove(keeper, &path)
        }
    }
}

/// Whether a source of these bytes, of so many nodes, stands at a path.
fn has_source(
    alloc: Global,
    sources: &Sources,
    path: &[u8],
    bytes: &[u8],
    nodes: u32,
) -> Result<bool, NoMemory> {
    let path = path_of(alloc, path)?;
    match sources.get(&path) {
        Some(source) => Ok(source.bytes.as_slice() == bytes && source.tree.len() == nodes),
        None => Ok(false),
    }
}

/// What an edit of databases answers.
fn edit_databases(alloc: Global, databases: &mut Databases, edit: Edit) -> Result<(), Refused> {
    match edit {
        Edit::Put(path, bytes) => {
            let path = path_of(alloc, path)?;
            databases.put(alloc, &mut NoKeeper, &path, bytes)
        }
        Edit::Remove(path) => {
            let path = path_of(alloc, path)?;
            databases.remove(&mut NoKeeper, &path)
        }
    }
}

/// Edits of sources, the text that each answers, and how many sources it leaves.
const SOURCES: &[(Edit, &[u8], usize)] = &[
    (Edit::Put(b"a.c", b"x;\n"), b"", 1),
    (
        Edit::Put(b"b.c", b"\n#if A\n"),
        b"bad source 6 OpenIf line 2",
        1,
    ),
    (Edit::Remove(b"b.c"), b"not found", 1),
    (Edit::Put(b"b/c.h", b""), b"store failed", 1),
    (
        Edit::Put(b"b/c.h", b"#endif"),
        b"bad source 4 StrayEndif line 1",
        1,
    ),
    (Edit::Put(b"b/c.h", b"#if A\nz;\n#endif\n"), b"", 2),
    (Edit::Put(b"a.c", b"y;\n"), b"store failed", 2),
    (Edit::Put(b"a.c", b"y;\n"), b"", 2),
    (Edit::Remove(b"a.c"), b"store failed", 2),
    (Edit::Remove(b"a.c"), b"", 1),
    (Edit::Remove(b"a.c"), b"not found", 1),
];

/// Whether an edit of sources answers the wanted text and leaves the wanted number of sources.
fn is_source_edit(
    alloc: Global,
    sources: &mut Sources,
    keeper: &mut MemKeeper,
    row: &(Edit, &[u8], usize),
) -> Result<bool, NoMemory> {
    let answer = edit_sources(alloc, sources, keeper, row.0);
    Ok(has_text(alloc, answer, row.1)? && sources.len() == row.2)
}

/// The number of the first edit of sources that answers another text, or leaves another number of sources.
fn wrong_source(
    alloc: Global,
    sources: &mut Sources,
    keeper: &mut MemKeeper,
) -> Result<Option<usize>, NoMemory> {
    for (at, row) in SOURCES.iter().enumerate() {
        if !is_source_edit(alloc, sources, keeper, row)? {
            return Ok(Some(at));
        }
    }
    Ok(None)
}

/// Whether the edits answer as they should, where the second, fourth and sixth call of the keeper fail, and leave the one
/// source that they should.
fn are_edited(alloc: Global, sources: &mut Sources) -> Result<bool, NoMemory> {
    let fails = Numbers::from_slice(alloc, &[2, 4, 6])?;
    let wrong = wrong_source(alloc, sources, &mut MemKeeper::new(alloc, fails))?;
    Ok(wrong.is_none() && has_source(alloc, sources, b"b/c.h", b"#if A\nz;\n#endif\n", 3)?)
}

#[test]
fn sources_are_edited(rt: HostRuntime) -> Result<(), Fail> {
    assert!(rt; are_edited(rt.alloc(), &mut Sources::new(rt.alloc()))?);
    Ok(())
}

/// Edits of databases, the text that each answers, and how many databases it leaves.
const DATABASES: &[(Edit, &[u8], usize)] = &[
    (Edit::Put(b"one.json", b"[]"), b"", 1),
    (Edit::Put(b"two.json", b"{}"), b"bad database 2 NotArray", 1),
    (
        Edit::Put(b"two.json", b"[1]"),
        b"bad database 3 NotObject 0",
        1,
    ),
    (Edit::Put(b"one.json", b" [ ] "), b"", 1),
    (Edit::Remove(b"two.json"), b"not found", 1),
    (Edit::Remove(b"one.json"), b"", 0),
    (Edit::Remove(b"one.json"), b"not found", 0),
];

/// Whether an edit of databases answers the wanted text and leaves the wanted number of databases.
fn is_database_edit(
    alloc: Global,
    databases: &mut Databases,
    row: &(Edit, &[u8], usize),
) -> Result<bool, NoMemory> {
    let answer = edit_databases(alloc, databases, row.0);
    Ok(has_text(alloc, answer, row.1)? && databases.len() == row.2)
}

/// The number of the first edit of databases that answers another text, or leaves another number of databases.
fn wrong_database(alloc: Global, databases: &mut Databases) -> Result<Option<usize>, NoMemory> {
    for (at, row) in DATABASES.iter().enumerate() {
        if !is_database_edit(alloc, databases, row)? {
            return Ok(Some(at));
        }
    }
    Ok(None)
}

#[test]
fn databases_are_edited(rt: HostRuntime) -> Result<(), Fail> {
    assert_eq!(rt;
        wrong_database(rt.alloc(), &mut Databases::new(rt.alloc()))?,
        None
    );
    Ok(())
}

/// Whether a put of an empty database answers this text.
fn is_put(
    alloc: Global,
    databases: &mut Databases,
    path: &[u8],
    expected: &[u8],
) -> Result<bool, NoMemory> {
    let path = path_of(alloc, path)?;
    let answer = databases.put(alloc, &mut NoKeeper, &path, b"[]");
    has_text(alloc, answer, expected)
}

/// Whether 64 databases can be put.
fn are_64_put(alloc: Global, databases: &mut Databases) -> Result<bool, NoMemory> {
    for number in 0u8..64 {
        if !is_put(
            alloc,
            databases,
            &[b'a' + number / 8, b'a' + number % 8],
            b"",
        )? {
            return Ok(false);
        }
    }
    Ok(true)
}

/// Whether there is room for 64 databases and no more, and for another one in the place of one that stands there.
fn has_room_for_64(alloc: Global, databases: &mut Databases) -> Result<bool, NoMemory> {
    Ok(
        are_64_put(alloc, databases)?
            && is_put(alloc, databases, b"aa", b"")?
            && is_put(alloc, databases, b"zz", b"limit databases 65 64")?,
    )
}

#[test]
fn databases_have_a_limit(rt: HostRuntime) -> Result<(), Fail> {
    assert!(rt; has_room_for_64(rt.alloc(), &mut Databases::new(rt.alloc()))?);
    Ok(())
}
