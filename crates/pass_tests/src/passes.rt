//! Passes as a table: the sources, the options, and then what is reached, looked at and noted.
use cb_include::{Command, Dirs, Op, Ops};
use cb_pass::{FileMap, Meter, NoteKind, Passed, pass};
use cb_paths::{Bytes, Dir, Language, NoMemory, Path, PathFault, Texts};
use cb_tree::{BuildFault, build};
use std::alloc::Global;
use std::test::Fail;

/// A pass over a main file.
#[derive(Clone, Copy)]
struct Row {
    /// The path of the main file.
    main: &'static [u8],
    /// The sources by their paths.
    sources: &'static [(&'static [u8], &'static [u8])],
    /// The words of `-D`.
    words: &'static [&'static [u8]],
    /// The folders of `-I`.
    folders: &'static [&'static [u8]],
    /// The texts of `-include`.
    forced: &'static [&'static [u8]],
    /// How many nodes are reached.
    count: u32,
    /// The paths that are looked at.
    probes: &'static [&'static [u8]],
    /// The notes: the path, the node, the kind and the detail.
    notes: &'static [(&'static [u8], u32, NoteKind, &'static [u8])],
}

/// A fault of a path is none here.
fn wanted<T: Drop>(read: Result<T, PathFault>) -> Result<T, NoMemory> {
    match read {
        Ok(value) => Ok(value),
        Err(PathFault::NoMemory) => Err(NoMemory),
        Err(PathFault::Bad(_bad)) => Err(NoMemory),
    }
}

/// The files of a row.
fn files_of(alloc: Global, row: &Row) -> Result<FileMap, NoMemory> {
    let mut files = FileMap::new(alloc);
    for (path, source) in row.sources {
        let path = wanted(Path::read(alloc, path))?;
        match build(alloc, source) {
            Ok(tree) => files.insert(path, tree)?,
            Err(BuildFault::NoMemory) => return Err(NoMemory),
            Err(BuildFault::Bad(_bad)) => return Err(NoMemory),
        }
    }
    Ok(files)
}

/// Texts, one after another.
fn texts_of(alloc: Global, texts: &[&[u8]]) -> Result<Texts, NoMemory> {
    let mut all = Texts::new(alloc);
    for text in texts {
        all.push(Bytes::from_slice(alloc, text)?)?;
    }
    Ok(all)
}

/// The definitions of these words.
fn ops_of(alloc: Global, words: &[&[u8]]) -> Result<Ops, NoMemory> {
    let mut ops = Ops::new(alloc);
    for word in words {
        ops.push(Op::Define(Bytes::from_slice(alloc, word)?))?;
    }
    Ok(ops)
}

/// The folders of these texts.
fn folders_of(alloc: Global, texts: &[&[u8]]) -> Result<Dirs, NoMemory> {
    let mut dirs = Dirs::new(alloc);
    for text in texts {
        dirs.push(wanted(Dir::read(alloc, text, &Dir::top(alloc)?))?)?;
    }
    Ok(dirs)
}

/// The language of a main file.
fn language_of(main: &Path) -> Language {
    match main.language() {
        Some(language) => language,
        None => Language::C,
    }
}

/// The command of a row.
fn command_of(alloc: Global, row: &Row) -> Result<Command, NoMemory> {
    let main = wanted(Path::read(alloc, row.main))?;
    Ok(Command {
        language: language_of(&main),
        main,
        ops: ops_of(alloc, row.words)?,
        work: Dir::top(alloc)?,
        quote: Dirs::new(alloc),
        angle: folders_of(alloc, row.folders)?,
        forced: texts_of(alloc, row.forced)?,
        root: Dir::top(alloc)?,
    })
}

/// Whether the probes of a pass are these.
fn has_probes(passed: &Passed, probes: &[&[u8]]) -> bool {
    if passed.probes().len() != probes.len() {
        return false;
    }
    for (probe, wanted) in passed.probes().as_slice().iter().zip(probes) {
        if probe.bytes() != *wanted {
            return false;
        }
    }
    true
}

/// Whether the notes of a pass are these.
fn has_notes(passed: &Passed, notes: &[(&[u8], u32, NoteKind, &[u8])]) -> bool {
    if passed.notes().len() != notes.len() {
        return false;
    }
    for (note, (path, node, kind, detail)) in passed.notes().iter().zip(notes) {
        if note.path.bytes() != *path
            || note.node != *node
            || note.kind != *kind
            || note.detail.as_slice() != *detail
        {
            return false;
        }
    }
    true
}

/// Whether a row holds.
fn holds(alloc: Global, row: &Row) -> Result<bool, NoMemory> {
    let files = files_of(alloc, row)?;
    let command = command_of(alloc, row)?;
    let mut meter = Meter::new();
    let passed = pass(alloc, &files, &command, &mut meter)?;
    Ok(
        passed.count() == row.count
            && has_probes(&passed, row.probes)
            && has_notes(&passed, row.notes),
    )
}

/// A row without options.
const PLAIN: Row = Row {
    main: b"m.c",
    sources: &[],
    words: &[],
    folders: &[],
    forced: &[],
    count: 0,
    probes: &[b"m.c"],
    notes: &[],
};

const ROWS: [Row; 14] = [
    Row {
        sources: &[
            (b"m.c", b"#include \"h.h\"\n#include \"h.h\"\n"),
            (b"h.h", b"#pragma once\nint x;\n"),
        ],
        count: 4,
        probes: &[b"m.c", b"h.h"],
        ..PLAIN
    },
    Row {
        sources: &[(b"m.c", b"#include \"m.c\"\n")],
        count: 201,
        notes: &[(b"m.c", 1, NoteKind::TooDeep, b"")],
        ..PLAIN
    },
    Row {
        sources: &[(b"m.c", b"#include \"m.c\"\n#include \"m.c\"\n")],
        count: 1_000_000,
        notes: &[
            (b"m.c", 1, NoteKind::TooDeep, b""),
            (b"m.c", 2, NoteKind::TooDeep, b""),
            (b"m.c", 1, NoteKind::Budget, b""),
        ],
        ..PLAIN
    },
    Row {
        forced: &[b"f.h"],
        notes: &[(b"m.c", 0, NoteKind::NoMain, b"")],
        ..PLAIN
    },
    Row {
        sources: &[
            (b"m.c", b"#ifdef F\nx;\n#else\n#error\n#endif\n"),
            (b"f.h", b"#define F\n"),
        ],
        forced: &[b"f.h", b"", b"g.h"],
        count: 5,
        probes: &[b"m.c", b"f.h", b"g.h"],
        notes: &[
            (b"m.c", 0, NoteKind::BadInclude, b""),
            (b"m.c", 0, NoteKind::Missing, b"\"g.h\""),
        ],
        ..PLAIN
    },
    Row {
        sources: &[(
            b"m.c",
            b"#ifndef\n#include <a.h>\n#endif\n#ifndef A\n#include <a.h>\n#endif\n#undef\n#undef\n#error\n",
        )],
        count: 8,
        notes: &[
            (b"m.c", 1, NoteKind::BadCondition, b"Malformed"),
            (b"m.c", 5, NoteKind::Missing, b"<a.h>"),
            (b"m.c", 7, NoteKind::BadDefine, b""),
            (b"m.c", 8, NoteKind::BadDefine, b""),
            (b"m.c", 9, NoteKind::ErrorReached, b""),
        ],
        ..PLAIN
    },
    // the header that replaced tokens name
    Row {
        main: b"src/m.c",
        sources: &[
            (b"src/m.c", b"#define H \"x.h\"\n#include H\n"),
            (b"src/x.h", b""),
        ],
        count: 2,
        probes: &[b"src/m.c", b"src/x.h"],
        ..PLAIN
    },
    // the folder of the file, and then those of -I
    Row {
        sources: &[(b"m.c", b"#include \"a.h\"\n"), (b"inc2/a.h", b"x;\n")],
        folders: &[b"inc1", b"inc2"],
        count: 2,
        probes: &[b"m.c", b"a.h", b"inc1/a.h", b"inc2/a.h"],
        ..PLAIN
    },
    // the condition of an #elif behind a taken group is not looked at
    Row {
        sources: &[(
            b"m.c",
            b"#if N\nx;\n#elif 1 / 0\n#endif\n#if N - 2\n#elif 1 / 0\n#endif\n",
        )],
        words: &[b"N=2"],
        count: 7,
        notes: &[(b"m.c", 6, NoteKind::BadCondition, b"ZeroDivisor")],
        ..PLAIN
    },
    Row {
        sources: &[(
            b"m.c",
            b"#if __STDC__ == 1 && __STDC_VERSION__ == 201112L && !defined __cplusplus\nx;\n#endif\n",
        )],
        count: 3,
        ..PLAIN
    },
    Row {
        main: b"m.cpp",
        sources: &[(
            b"m.cpp",
            b"#if __cplusplus == 201703L && !defined __STDC__\nx;\n#endif\n",
        )],
        count: 3,
        probes: &[b"m.cpp"],
        ..PLAIN
    },
    // a definition that differs, one that does not, and a note that stands once
    Row {
        sources: &[
            (
                b"m.c",
                b"#define A 1\n#define A 1\n#define A 2\n#include \"h.h\"\n#include \"h.h\"\n",
            ),
            (b"h.h", b"#error\n"),
        ],
        words: &[b"A", b"9"],
        count: 7,
        probes: &[b"m.c", b"h.h"],
        notes: &[
            (b"m.c", 0, NoteKind::BadDefine, b"9"),
            (b"m.c", 3, NoteKind::Redefined, b"A"),
            (b"h.h", 1, NoteKind::ErrorReached, b""),
        ],
        ..PLAIN
    },
    // a condition whose replacement costs too much is false
    Row {
        sources: &[(
            b"m.c",
            b"#define a x x x x x x x x\n#define b a a a a a a a a\n#define c b b b b b b b b\n#define d c c c c c c c c\n#define e d d d d d d d d\n#if e e\nx;\n#endif\n",
        )],
        count: 7,
        notes: &[(b"m.c", 6, NoteKind::TooLong, b"")],
        ..PLAIN
    },
    // an #include that names nothing
    Row {
        sources: &[(b"m.c", b"#include <>\n#include 1\n#define E\n#include E\n")],
        count: 4,
        notes: &[
            (b"m.c", 1, NoteKind::BadInclude, b""),
            (b"m.c", 2, NoteKind::BadInclude, b""),
            (b"m.c", 4, NoteKind::BadInclude, b""),
        ],
        ..PLAIN
    },
];

#[test]
fn passes_reach_look_and_note(rt: HostRuntime) -> Result<(), Fail> {
    for i in 0..ROWS.len() {
        assert!(rt; holds(rt.alloc(), &ROWS[i])?, "pass {i}");
    }
    Ok(())
}
