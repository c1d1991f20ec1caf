//! Searches as a table: what is looked for, from where, and what is asked for on the way.
use cb_include::{Command, Dirs, Header, Ops, Origin, Present, Probes, search};
use cb_paths::{Bytes, Dir, Language, NoMemory, Path, PathFault, Texts};
use std::alloc::Global;
use std::test::Fail;

/// The files that are there.
#[derive(Drop)]
struct Listed {
    paths: Probes,
}

impl Present for Listed {
    ghost use Rattle.cb_include.specs.Seen.{has_path};

    ghost holds = { λ files. has_path files.paths };

    fn has(&self, path: &Path) -> bool {
        self.paths.has(path)
    }
}

/// A search: the source that includes, or nothing at the start; the header as it stands in a directive; the files that
/// are there; and then the paths that are asked for, the last of which is found where `found` says so.
#[derive(Clone, Copy)]
struct Row {
    from: &'static [u8],
    header: &'static [u8],
    present: &'static [&'static [u8]],
    probes: &'static [&'static [u8]],
    found: bool,
}

/// The folders of these texts.
fn folders(alloc: Global, texts: &[&[u8]]) -> Result<Dirs, PathFault> {
    let mut dirs = Dirs::new(alloc);
    for text in texts {
        dirs.push(Dir::read(alloc, text, &Dir::top(alloc)?)?)?;
    }
    Ok(dirs)
}

/// A command of a compiler that works in `/w/build`, for sources below `/w`.
fn command(alloc: Global) -> Result<Command, PathFault> {
    let root = Dir::read(alloc, b"/w", &Dir::top(alloc)?)?;
    Ok(Command {
        main: Path::read(alloc, b"src/m.cpp")?,
        language: Language::Cxx,
        ops: Ops::new(alloc),
        work: Dir::read(alloc, b"build", &root)?,
        quote: folders(alloc, &[b"/w/q"])?,
        angle: folders(alloc, &[b"/w/inc", b"/opt/x/include", b"/w/sys"])?,
        forced: Texts::new(alloc),
        root,
    })
}

/// The paths of these texts.
fn paths(alloc: Global, texts: &[&[u8]]) -> Result<Probes, PathFault> {
    let mut paths = Probes::new(alloc);
    for text in texts {
        paths.add(alloc, &Path::read(alloc, text)?)?;
    }
    Ok(paths)
}

/// The header that stands so in a directive.
fn header(alloc: Global, text: &[u8]) -> Result<Header, NoMemory> {
    match text {
        [first, inner @ .., _last] => Ok(Header {
            angle: *first == b'<',
            text: Bytes::from_slice(alloc, inner)?,
        }),
        _ => Ok(Header {
            angle: false,
            text: Bytes::new(),
        }),
    }
}

/// What the search of a row finds.
fn found(alloc: Global, row: &Row, probes: &mut Probes) -> Result<Option<Path>, PathFault> {
    let files = Listed {
        paths: paths(alloc, row.present)?,
    };
    let header = header(alloc, row.header)?;
    let command = command(alloc)?;
    if row.from.is_empty() {
        return Ok(search(alloc, &files, &command, Origin::Start, &header, probes)?);
    }
    let path = Path::read(alloc, row.from)?;
    let found = search(
        alloc,
        &files,
        &command,
        Origin::File(&path),
        &header,
        probes,
    )?;
    Ok(found)
}

/// Whether paths have these texts.
fn are_paths(paths: &[Path], texts: &[&[u8]]) -> bool {
    if paths.len() != texts.len() {
        return false;
    }
    for i in 0..paths.len() {
        if paths[i].bytes() != texts[i] {
            return false;
        }
    }
    true
}

/// Whether the path is the last of these, if there is one.
fn is_last(path: Option<Path>, texts: &[&[u8]]) -> bool {
    match (path, texts.last()) {
        (Some(path), Some(text)) => path.bytes() == *text,
        _ => false,
    }
}

/// Whether the search of a row asks and finds as it says.
fn is_right(alloc: Global, row: &Row) -> Result<bool, PathFault> {
    let mut probes = Probes::new(alloc);
    let found = found(alloc, row, &mut probes)?;
    let is_answer = if row.found {
        is_last(found, row.probes)
    } else {
        found.is_none()
    };
    Ok(is_answer && are_paths(probes.as_slice(), row.probes))
}

const ROWS: &[Row] = &[
    Row {
        from: b"src/m.cpp",
        header: b"<vector>",
        present: &[b"src/vector"],
        probes: &[b"inc/vector", b"sys/vector"],
        found: false,
    },
    Row {
        from: b"src/m.cpp",
        header: b"\"k.h\"",
        present: &[b"inc/k.h", b"sys/k.h"],
        probes: &[b"src/k.h", b"q/k.h", b"inc/k.h"],
        found: true,
    },
    Row {
        from: b"m.cpp",
        header: b"\"./k.h\"",
        present: &[b"k.h"],
        probes: &[b"k.h"],
        found: true,
    },
    Row {
        from: b"",
        header: b"\"k.h\"",
        present: &[b"src/k.h"],
        probes: &[b"build/k.h", b"q/k.h", b"inc/k.h", b"sys/k.h"],
        found: false,
    },
    Row {
        from: b"src/m.cpp",
        header: b"\"../../k.h\"",
        present: &[b"k.h"],
        probes: &[],
        found: false,
    },
    Row {
        from: b"src/m.cpp",
        header: b"\"/w/sys/../inc/k.h\"",
        present: &[b"inc/k.h"],
        probes: &[b"inc/k.h"],
        found: true,
    },
    Row {
        from: b"src/m.cpp",
        header: b"</opt/k.h>",
        present: &[],
        probes: &[],
        found: false,
    },
    Row {
        from: b"inc/m.cpp",
        header: b"\"k.h\"",
        present: &[],
        probes: &[b"inc/k.h", b"q/k.h", b"sys/k.h"],
        found: false,
    },
];

#[test]
fn headers_are_looked_for(rt: HostRuntime) -> Result<(), Fail> {
    for i in 0..ROWS.len() {
        assert!(rt; is_right(rt.alloc(), &ROWS[i])?, "search {i}");
    }
    Ok(())
}
