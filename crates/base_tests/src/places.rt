//! Paths, folders and languages.
use cb_paths::{Bytes, Dir, Language, NoMemory, Path, PathFault};
use std::alloc::Global;
use std::test::Fail;

fn is_shared<T: Send + Sync>() {}

/// What a reading gives: the bytes, or the number of the fault.
#[derive(Clone, Copy)]
enum Wanted {
    Text(&'static [u8]),
    Fault(u32),
}

/// Whether a fault is the wanted one.
fn is_fault(fault: PathFault, wanted: Wanted) -> Result<bool, NoMemory> {
    match (fault, wanted) {
        (PathFault::Bad(bad), Wanted::Fault(number)) => Ok(
            bad.number() == number && !bad.name().is_empty(),
        ),
        (PathFault::NoMemory, _) => Err(NoMemory),
        (PathFault::Bad(_bad), Wanted::Text(_text)) => Ok(false),
    }
}

/// Whether bytes are the wanted ones.
fn is_text(bytes: &[u8], wanted: Wanted) -> bool {
    match wanted {
        Wanted::Text(text) => bytes == text,
        Wanted::Fault(_number) => false,
    }
}

fn path_is(alloc: Global, text: &[u8], wanted: Wanted) -> Result<bool, NoMemory> {
    match Path::read(alloc, text) {
        Ok(path) => Ok(is_text(path.copy(alloc)?.bytes(), wanted)),
        Err(fault) => is_fault(fault, wanted),
    }
}

/// Texts of paths, and what the reading of each gives.
const PATHS: &[(&[u8], Wanted)] = &[
    (b"a/./b/../c.c", Wanted::Text(b"a/c.c")),
    (b"a//b/", Wanted::Text(b"a/b")),
    (b"a/b/../../c", Wanted::Text(b"c")),
    (b"...", Wanted::Text(b"...")),
    (b"a/..", Wanted::Fault(1)),
    (b"", Wanted::Fault(1)),
    (b"../a", Wanted::Fault(3)),
    (b"a/../../b", Wanted::Fault(3)),
    (b"/a", Wanted::Fault(3)),
    (b"a\x01", Wanted::Fault(4)),
    (b"/a\x7f", Wanted::Fault(4)),
];

#[test]
fn paths_are_read(rt: HostRuntime) -> Result<(), Fail> {
    is_shared::<Path>();
    for row in PATHS {
        assert!(rt;
            path_is(rt.alloc(), row.0, row.1)?,
            "a path of {} bytes",
            row.0.len()
        );
    }
    Ok(())
}

#[test]
fn paths_have_a_longest_length(rt: HostRuntime) -> Result<(), Fail> {
    let longest = [b'a'; 1024];
    let longer = [b'a'; 1025];
    assert!(rt;
        path_is(rt.alloc(), &longer, Wanted::Fault(2))?,
        "a path of {} bytes",
        longer.len()
    );
    assert!(rt; Path::read(rt.alloc(), &longest).is_ok());
    Ok(())
}

/// The folder that texts name one after another, from the top.
fn folder(alloc: Global, base: &[u8], text: &[u8]) -> Result<Dir, PathFault> {
    let base = Dir::read(alloc, base, &Dir::top(alloc)?)?;
    Dir::read(alloc, text, &base)
}

fn folder_is(alloc: Global, base: &[u8], text: &[u8], wanted: Wanted) -> Result<bool, NoMemory> {
    match folder(alloc, base, text) {
        Ok(folder) => Ok(is_text(folder.copy(alloc)?.bytes(), wanted)),
        Err(fault) => is_fault(fault, wanted),
    }
}

/// A folder, the text of one from there, and what the reading gives.
const FOLDERS: &[(&[u8], &[u8], Wanted)] = &[
    (b"/a/b", b"../x", Wanted::Text(b"/a/x")),
    (b"/a", b"../../x", Wanted::Text(b"/x")),
    (b"/a", b"/b/./c//", Wanted::Text(b"/b/c")),
    (b"/a", b"..", Wanted::Text(b"/")),
    (b"/a", b"", Wanted::Text(b"/a")),
    (b"/a", b"\x1f", Wanted::Fault(4)),
];

#[test]
fn folders_are_read(rt: HostRuntime) -> Result<(), Fail> {
    is_shared::<Dir>();
    for row in FOLDERS {
        assert!(rt;
            folder_is(rt.alloc(), row.0, row.1, row.2)?,
            "a folder of {} bytes",
            row.1.len()
        );
    }
    Ok(())
}

#[test]
fn long_folders_are_refused(rt: HostRuntime) -> Result<(), Fail> {
    let longer = [b'a'; 4097];
    let long = [b'a'; 4096];
    assert!(rt;
        folder_is(rt.alloc(), b"/", &longer, Wanted::Fault(2))?,
        "a folder of {} bytes",
        longer.len()
    );
    assert!(rt;
        folder_is(rt.alloc(), b"/", &long, Wanted::Fault(2))?,
        "a folder of {} bytes",
        long.len()
    );
    Ok(())
}

/// The path below a root that a text names from a folder, or `-` where it names none.
fn file(alloc: Global, text: &[u8], base: &[u8], root: &[u8]) -> Result<Bytes, PathFault> {
    let top = Dir::top(alloc)?;
    let base = Dir::read(alloc, base, &top)?;
    let root = Dir::read(alloc, root, &top)?;
    match Dir::file(alloc, text, &base, &root)? {
        Some(path) => Ok(Bytes::from_slice(alloc, path.bytes())?),
        None => Ok(Bytes::from_slice(alloc, b"-")?),
    }
}

fn file_is(
    alloc: Global,
    text: &[u8],
    base: &[u8],
    root: &[u8],
    wanted: &[u8],
) -> Result<bool, NoMemory> {
    match file(alloc, text, base, root) {
        Ok(path) => Ok(path.as_slice() == wanted),
        Err(PathFault::NoMemory) => Err(NoMemory),
        Err(PathFault::Bad(_bad)) => Ok(false),
    }
}

/// The text of a file, the folder it is read from, the root, and the path below the root; `-` where there is none.
const FILES: &[(&[u8], &[u8], &[u8], &[u8])] = &[
    (b"../src/m.c", b"/w/build", b"/w", b"src/m.c"),
    (b"/w/a.c", b"/x", b"/w", b"a.c"),
    (b"/wa.c", b"/x", b"/w", b"-"),
    (b"/w", b"/x", b"/w", b"-"),
    (b"/tmp/a.c", b"/w", b"/w", b"-"),
    (b"a.c", b"/", b"/", b"a.c"),
    (b"b\x01/../a.c", b"/", b"/", b"a.c"),
    (b"\x01.c", b"/", b"/", b"-"),
];

#[test]
fn files_are_found_below_a_root(rt: HostRuntime) -> Result<(), Fail> {
    for row in FILES {
        assert!(rt;
            file_is(rt.alloc(), row.0, row.1, row.2, row.3)?,
            "a file of {} bytes",
            row.0.len()
        );
    }
    Ok(())
}

/// Whether the folder of a path below a root is the wanted one.
fn holder_is(alloc: Global, root: &[u8], path: &[u8], wanted: &[u8]) -> Result<bool, PathFault> {
    let root = Dir::read(alloc, root, &Dir::top(alloc)?)?;
    let folder = Dir::folder_of(alloc, &root, &Path::read(alloc, path)?)?;
    Ok(folder.bytes() == wanted)
}

/// A root, a path below it, and the folder of the path.
const HOLDERS: &[(&[u8], &[u8], &[u8])] = &[
    (b"/w", b"src/m.c", b"/w/src"),
    (b"/", b"a.c", b"/"),
    (b"/w", b"a.c", b"/w"),
];

#[test]
fn paths_have_folders(rt: HostRuntime) {
    for row in HOLDERS {
        assert!(rt;
            holder_is(rt.alloc(), row.0, row.1, row.2) == Ok(true),
            "a path of {} bytes",
            row.1.len()
        );
    }
}

fn has_language(alloc: Global, path: &[u8], wanted: Option<Language>) -> Result<bool, PathFault> {
    Ok(Path::read(alloc, path)?.language() == wanted)
}

/// Paths, and the language of each.
const SUFFIXES: &[(&[u8], Option<Language>)] = &[
    (b"a.c", Some(Language::C)),
    (b".c", Some(Language::C)),
    (b"a.h.c", Some(Language::C)),
    (b"a.C", Some(Language::Cxx)),
    (b"a.h", Some(Language::Cxx)),
    (b"x.c/a.c++", Some(Language::Cxx)),
    (b"x.c/a", None),
    (b"c", None),
    (b"a.f90", None),
    (b"a.", None),
];

#[test]
fn suffixes_name_languages(rt: HostRuntime) {
    for row in SUFFIXES {
        assert!(rt;
            has_language(rt.alloc(), row.0, row.1) == Ok(true),
            "a path of {} bytes",
            row.0.len()
        );
    }
}
