//! Trees of files in memory and over the system, as tables of their calls.
use cb_outside::{
    Gate, ListFault, MemTree, Name, NameKind, NoGate, Numbers, ReadFault, StdTree, Tree,
};
use cb_paths::{Bytes, Dir, NoMemory, Path};
use std::alloc::Global;
use std::fs;
use std::test::Fail;

/// Files, of which the last one stands in place of one before it.
const FILES: &[(&[u8], &[u8])] = &[
    (b"src/x/d.c", b"d"),
    (b"a.c", b"short"),
    (b"src.c", b""),
    (b"src/b.c", b"b"),
    (b"src/x/c.c", b"c"),
    (b"src/x-y/e.c", b"e"),
    (b"a.c", b"int a;"),
];

/// The path of a text.
fn path_of(alloc: Global, text: &[u8]) -> Result<Path, NoMemory> {
    match Path::read(alloc, text) {
        Ok(path) => Ok(path),
        Err(_fault) => Err(NoMemory),
    }
}

/// A tree without files, of which the calls of these numbers fail.
fn no_files(alloc: Global, fails: &[u64]) -> Result<MemTree, NoMemory> {
    let fails = Numbers::from_slice(alloc, fails)?;
    let here = Dir::top(alloc)?;
    Ok(MemTree::new(alloc, here, fails))
}

/// Adds a file.
fn add(alloc: Global, tree: &mut MemTree, path: &[u8], bytes: &[u8]) -> Result<(), NoMemory> {
    let bytes = Bytes::from_slice(alloc, bytes)?;
    let path = path_of(alloc, path)?;
    tree.add(path, bytes)
}

/// Adds the files.
fn add_files(alloc: Global, tree: &mut MemTree) -> Result<(), NoMemory> {
    for row in FILES {
        add(alloc, tree, row.0, row.1)?;
    }
    Ok(())
}

/// A tree of the files, of which the calls of these numbers fail.
fn tree_of(alloc: Global, fails: &[u64]) -> Result<MemTree, NoMemory> {
    let mut tree = no_files(alloc, fails)?;
    add_files(alloc, &mut tree)?;
    Ok(tree)
}

/// Whether names are the wanted ones, in this order.
fn are_names(names: &[Name], wanted: &[(&[u8], NameKind)]) -> bool {
    if names.len() != wanted.len() {
        return false;
    }
    for at in 0..names.len() {
        if names[at].text.as_slice() != wanted[at].0 || names[at].kind != wanted[at].1 {
            return false;
        }
    }
    true
}

/// Whether a folder has the wanted names, and no more.
fn lists<T: Tree>(tree: &mut T, folder: &[u8], wanted: &[(&[u8], NameKind)]) -> bool {
    match tree.list(folder, wanted.len() as u64) {
        Ok(names) => are_names(names.as_slice(), wanted),
        Err(_fault) => false,
    }
}

/// Names in folders.
const NAMES: &[(&[u8], &[(&[u8], NameKind)])] = &[
    (
        b"",
        &[
            (b"a.c", NameKind::File),
            (b"src.c", NameKind::File),
            (b"src", NameKind::Folder),
        ],
    ),
    (
        b"src",
        &[
            (b"b.c", NameKind::File),
            (b"x-y", NameKind::Folder),
            (b"x", NameKind::Folder),
        ],
    ),
    (
        b"src/x",
        &[(b"c.c", NameKind::File), (b"d.c", NameKind::File)],
    ),
    (b"sr", &[]),
];

/// How many folders have the wanted names before the first that has not.
fn listed_as_wanted(tree: &mut MemTree) -> usize {
    for at in 0..NAMES.len() {
        if !lists(tree, NAMES[at].0, NAMES[at].1) {
            return at;
        }
    }
    NAMES.len()
}

#[test]
fn folders_are_listed(rt: HostRuntime) -> Result<(), Fail> {
    assert!(rt; listed_as_wanted(&mut tree_of(rt.alloc(), &[])?) == 4);
    Ok(())
}

/// The fault of a listing of the top, if there is one.
fn list_fault<T: Tree>(tree: &mut T, limit: u64) -> Option<ListFault> {
    tree.list(b"", limit).err()
}

/// Whether a tree of which the second call fails refuses as wanted.
fn lists_are_refused(tree: &mut MemTree) -> bool {
    list_fault(tree, 2) == Some(ListFault::TooMany)
        && list_fault(tree, 3) == Some(ListFault::Failed)
        && list_fault(tree, 3) == None
}

#[test]
fn a_listing_is_refused(rt: HostRuntime) -> Result<(), Fail> {
    assert!(rt; lists_are_refused(&mut tree_of(rt.alloc(), &[2])?));
    Ok(())
}

/// Whether a reading gives the wanted bytes or fault.
fn reads<T: Tree>(tree: &mut T, path: &Path, limit: u64, wanted: Result<&[u8], ReadFault>) -> bool {
    match tree.read(path, limit) {
        Ok(bytes) => Ok(bytes.as_slice()) == wanted,
        Err(fault) => Err(fault) == wanted,
    }
}

/// Whether a file of six bytes is read, unless the limit is lower.
fn is_read_whole<T: Tree>(tree: &mut T, path: &Path) -> bool {
    reads(tree, path, 5, Err(ReadFault::TooLong)) && reads(tree, path, 6, Ok(b"int a;"))
}

/// Whether a file is read.
fn file_is_read<T: Tree>(alloc: Global, tree: &mut T, path: &[u8]) -> Result<bool, NoMemory> {
    let path = path_of(alloc, path)?;
    Ok(is_read_whole(tree, &path))
}

/// Whether a reading answers a fault.
fn is_refused<T: Tree>(
    alloc: Global,
    tree: &mut T,
    path: &[u8],
    fault: ReadFault,
) -> Result<bool, NoMemory> {
    let path = path_of(alloc, path)?;
    Ok(reads(tree, &path, 6, Err(fault)))
}

/// Whether a tree of which the third call fails answers as wanted.
fn memory_is_read(alloc: Global, tree: &mut MemTree) -> Result<bool, NoMemory> {
    Ok(
        file_is_read(alloc, tree, b"a.c")?
            && is_refused(alloc, tree, b"a.c", ReadFault::Failed)?
            && is_refused(alloc, tree, b"src", ReadFault::Absent)?,
    )
}

#[test]
fn files_are_read(rt: HostRuntime) -> Result<(), Fail> {
    assert!(rt; memory_is_read(rt.alloc(), &mut tree_of(rt.alloc(), &[3])?)?);
    Ok(())
}

/// Whether a name stands among those at the top, as a file.
fn has_file<T: Tree>(tree: &mut T, wanted: &[u8]) -> bool {
    match tree.list(b"", 1_000_000) {
        Ok(names) => is_file_among(names.as_slice(), wanted),
        Err(_fault) => false,
    }
}

/// Whether a name stands among others, as a file.
fn is_file_among(names: &[Name], wanted: &[u8]) -> bool {
    for name in names {
        if name.text.as_slice() == wanted && name.kind == NameKind::File {
            return true;
        }
    }
    false
}

/// Whether the system's tree has a file of six bytes, and not another one.
fn system_is_read<T: Tree>(alloc: Global, tree: &mut T) -> Result<bool, NoMemory> {
    Ok(
        file_is_read(alloc, tree, b"tree-test.c")?
            && is_refused(alloc, tree, b"tree-test.d", ReadFault::Absent)?
            && has_file(tree, b"tree-test.c"),
    )
}

#[test]
fn the_files_of_the_system_are_read(rt: HostRuntime) -> Result<(), Fail> {
    fs::write(&rt, "tree-test.c", b"int a;")?;
    assert!(rt; system_is_read(rt.alloc(), &mut StdTree::new(&rt)?)?);
    fs::remove_file(&rt, "tree-test.c")?;
    Ok(())
}

#[test]
fn a_gate_lets_through(_rt: HostRuntime) {
    NoGate.enter(1);
}
