//! The texts of reports, worked by hand.
use crate::made::{Spans, add_file, lines_of, used_of};
use cb_cluster::pair_count;
use cb_diverge::{Fractions, distance};
use cb_measure::{Rows, read};
use cb_paths::{Bytes, NoMemory, Texts};
use cb_reports::{
    AbsentRow, AbsentRows, Figures, FileRow, FileRows, Idle, IdleRow, IdleRows, Kind, LineLists,
    NoteRow, NoteRows, TextLists, render,
};
use cb_sets::Setmap;
use std::alloc::Global;
use std::test::Fail;

/// A source: its path, its counted lines, and those that each platform uses.
struct Source {
    path: &'static [u8],
    counted: Spans,
    used: &'static [Spans],
}

/// Sources with measurements, a kind of report, and its text. Where the measurements are no bytes, there are none.
struct Case {
    kind: Kind,
    platforms: &'static [&'static [u8]],
    sources: &'static [Source],
    measurements: &'static [u8],
    text: &'static [u8],
}

/// `#ifdef GPU`, one line, `#else`, one line, `#endif`, one line: each platform lacks one of the six.
const GUARDED: &[Source] = &[Source {
    path: b"a.c",
    counted: &[(1, 6)],
    used: &[&[(1, 1), (3, 6)], &[(1, 3), (5, 6)]],
}];

/// Four sources of one line, of which the first platform uses the first three, the second all, the third the last three.
const SHIFTED: &[Source] = &[
    Source {
        path: b"f1.c",
        counted: &[(1, 1)],
        used: &[&[(1, 1)], &[(1, 1)], &[]],
    },
    Source {
        path: b"f2.c",
        counted: &[(1, 1)],
        used: &[&[(1, 1)], &[(1, 1)], &[(1, 1)]],
    },
    Source {
        path: b"f3.c",
        counted: &[(1, 1)],
        used: &[&[(1, 1)], &[(1, 1)], &[(1, 1)]],
    },
    Source {
        path: b"f4.c",
        counted: &[(1, 1)],
        used: &[&[], &[(1, 1)], &[(1, 1)]],
    },
];

/// The application x runs on a and half as well on b, y on b alone.
const EXAMPLE: &[u8] = b"problem,platform,application,fom\np,a,x,1\np,b,x,2\np,b,y,1\n";

/// The same with a failed run of x on c.
const FAILING: &[u8] = b"problem,platform,application,fom\np,a,x,1\np,b,x,2\np,b,y,1\np,c,x,0\n";

const CASES: &[Case] = &[
    Case {
        kind: Kind::Summary,
        platforms: &[b"cpu", b"gpu"],
        sources: GUARDED,
        measurements: b"",
        text: b"platforms 2\n1 cpu\n2 gpu\nlines 6\n{cpu} 1 16.67\n{gpu} 1 16.67\n{cpu, gpu} 4 66.67\n\
            coverage 100.00\naverage coverage 83.33\ndivergence 0.3333\nconvergence 0.6667\n",
    },
    Case {
        kind: Kind::Summary,
        platforms: &[],
        sources: &[],
        measurements: b"",
        text: b"platforms 0\nlines 0\ncoverage n/a\naverage coverage n/a\ndivergence n/a\nconvergence n/a\n",
    },
    Case {
        kind: Kind::Files,
        platforms: &[b"cpu", b"gpu"],
        sources: GUARDED,
        measurements: b"",
        text: b"a.c 6\n  cpu 1 3-6\n  gpu 1-3 5-6\n",
    },
    Case {
        kind: Kind::Files,
        platforms: &[b"cpu"],
        sources: &[
            Source {
                path: b"inc/k.h",
                counted: &[(1, 1)],
                used: &[&[]],
            },
            Source {
                path: b"src/m.cpp",
                counted: &[(1, 5), (9, 9)],
                used: &[&[(2, 2), (4, 5)]],
            },
        ],
        measurements: b"",
        text: b"inc/k.h 1\n  {} 1\nsrc/m.cpp 6\n  cpu 2 4-5\n  {} 1 3 9\n",
    },
    Case {
        kind: Kind::Clustering,
        platforms: &[b"a", b"b", b"c"],
        sources: SHIFTED,
        measurements: b"",
        text: b"distance a b 0.2500\ndistance a c 0.5000\ndistance b c 0.2500\nmerge 1 {a} {b} 0.2500\n\
            merge 2 {a, b} {c} 0.2500\ncut 0.2500 {a, b, c}\n",
    },
    Case {
        kind: Kind::Clustering,
        platforms: &[b"a"],
        sources: &[],
        measurements: b"",
        text: b"clustering n/a\n",
    },
    Case {
        kind: Kind::Navigation,
        platforms: &[b"cpu", b"gpu"],
        sources: GUARDED,
        measurements: EXAMPLE,
        text: b"p,x,0.6667,0.666667\np,y,0.6667,0.000000\n",
    },
    Case {
        kind: Kind::Navigation,
        platforms: &[],
        sources: &[],
        measurements: EXAMPLE,
        text: b"p,x,n/a,0.666667\np,y,n/a,0.000000\n",
    },
];

/// Kinds of reports of measurements alone, files of measurements, and the texts. A file that is refused has none.
const RUNS: &[(Kind, &[u8], &[u8])] = &[
    (
        Kind::Portability,
        EXAMPLE,
        b"p,x,0.666667\np,y,0.000000 fails on a\n",
    ),
    (
        Kind::Portability,
        FAILING,
        b"p,x,0.000000 fails on c\np,y,0.000000 fails on a, c\n",
    ),
    (
        Kind::Efficiency,
        FAILING,
        b"p,x,a,1.000000\np,x,b,0.500000\np,x,c,0.000000 failed\n\
            p,y,a,0.000000 failed\np,y,b,1.000000\np,y,c,0.000000 failed\n",
    ),
    (
        Kind::Cascade,
        FAILING,
        b"p,x,1,a,1.000000,1.000000\np,x,2,b,0.500000,0.666667\np,x,3,c,0.000000,0.000000\n\
            p,y,1,b,1.000000,1.000000\np,y,2,a,0.000000,0.000000\np,y,3,c,0.000000,0.000000\n",
    ),
    (Kind::Efficiency, b"", b"measurements none\n"),
    (
        Kind::Cascade,
        b"problem,platform,application,fom\n",
        b"measurements none\n",
    ),
];

/// Groups of sources with equal bytes, and the text.
const GROUPS: &[(&[&[&[u8]]], &[u8])] = &[
    (
        &[&[b"f1.c", b"f2.c"], &[b"x.c", b"y.c"]],
        b"group 1\n  f1.c\n  f2.c\ngroup 2\n  x.c\n  y.c\n",
    ),
    (
        &[&[b"f1.c", b"f2.c", b"f3.c", b"f4.c"]],
        b"group 1\n  f1.c\n  f2.c\n  f3.c\n  f4.c\n",
    ),
];

/// Notes, each its path, its node, its line, its kind and its detail.
type Notes = &'static [(&'static [u8], u32, u32, u32, &'static [u8])];

/// Notes, and the text.
const NOTES: &[(Notes, &[u8])] = &[
    (
        &[
            (b"a.c", 0, 0, 10, b""),
            (b"src/m.cpp", 1, 1, 1, b"<vector>"),
            (b"z.c", 3, 7, 1, b"\"\\\x01\xff\""),
        ],
        b"note a.c:start NoMain - commands 2 first 1\nnote src/m.cpp:1 Missing <vector> commands 2 first 1\n\
            note z.c:7 Missing \"\\\\\\x01\\xff\" commands 2 first 1\n",
    ),
    (&[], b"notes none\n"),
];

fn row_of(alloc: Global, source: &Source) -> Result<FileRow, NoMemory> {
    Ok(FileRow {
        path: Bytes::from_slice(alloc, source.path)?,
        counted: lines_of(alloc, source.counted)?,
        used: LineLists::from_vec(used_of(alloc, source.used)?),
    })
}

fn files_of(alloc: Global, sources: &[Source]) -> Result<FileRows, NoMemory> {
    let mut rows = Vec::new(alloc);
    for source in sources {
        rows.push(row_of(alloc, source)?)?;
    }
    Ok(FileRows::from_vec(rows))
}

fn texts_of(alloc: Global, names: &[&[u8]]) -> Result<Texts, NoMemory> {
    let mut texts = Texts::new(alloc);
    for name in names {
        texts.push(Bytes::from_slice(alloc, *name)?)?;
    }
    Ok(texts)
}

fn groups_of(alloc: Global, groups: &[&[&[u8]]]) -> Result<TextLists, NoMemory> {
    let mut lists = Vec::new(alloc);
    for group in groups {
        lists.push(texts_of(alloc, *group)?)?;
    }
    Ok(TextLists::from_vec(lists))
}

fn setmap_of(alloc: Global, platforms: usize, rows: &[FileRow]) -> Result<Setmap, NoMemory> {
    let mut map = Setmap::new(alloc, platforms.min(32) as u32);
    for row in rows {
        add_file(&mut map, &row.counted, row.used.as_slice())?;
    }
    Ok(map)
}

/// The distances of all pairs of platforms, from the setmap.
fn distances_of(alloc: Global, map: &Setmap) -> Result<Fractions, NoMemory> {
    let mut pairs = Fractions::new(alloc);
    let count = map.platforms();
    for left in 0..count {
        for right in left + 1..count {
            pairs.push(distance(
                map.both(left + 1, right + 1),
                map.either(left + 1, right + 1),
            ))?;
        }
    }
    Ok(pairs)
}

fn notes_of(alloc: Global, notes: &[(&[u8], u32, u32, u32, &[u8])]) -> Result<NoteRows, NoMemory> {
    let mut rows = Vec::new(alloc);
    for (path, node, line, kind, detail) in notes {
        rows.push(NoteRow {
            path: Bytes::from_slice(alloc, *path)?,
            node: *node,
            line: *line,
            kind: *kind,
            detail: Bytes::from_slice(alloc, *detail)?,
            commands: 2,
            first: 1,
        })?;
    }
    Ok(NoteRows::from_vec(rows))
}

/// The measurements of a file, or none where there is no byte or they are refused.
fn rows_of(alloc: Global, text: &[u8]) -> Option<Rows> {
    match read(alloc, text) {
        Ok(rows) => Some(rows),
        Err(_fault) => None,
    }
}

/// Sources with their setmap and the distances of their platforms.
#[derive(Drop)]
struct Counted {
    files: FileRows,
    setmap: Setmap,
    pairs: Fractions,
}

fn counted_of(alloc: Global, case: &Case) -> Result<Counted, NoMemory> {
    let files = files_of(alloc, case.sources)?;
    let setmap = setmap_of(alloc, case.platforms.len(), files.as_slice())?;
    let pairs = distances_of(alloc, &setmap)?;
    Ok(Counted {
        files,
        setmap,
        pairs,
    })
}

/// No figures.
fn none(alloc: Global) -> Figures {
    Figures {
        platforms: Texts::new(alloc),
        files: FileRows::from_vec(Vec::new(alloc)),
        setmap: Setmap::new(alloc, 0),
        pairs: Fractions::new(alloc),
        groups: TextLists::from_vec(Vec::new(alloc)),
        rows: None,
        databases: AbsentRows::from_vec(Vec::new(alloc)),
        idle: IdleRows::from_vec(Vec::new(alloc)),
        notes: NoteRows::from_vec(Vec::new(alloc)),
    }
}

/// The figures of platforms.
fn joined(alloc: Global, platforms: Texts, counted: Counted, rows: Option<Rows>) -> Figures {
    let mut figures = none(alloc);
    figures.platforms = platforms;
    figures.files = counted.files;
    figures.setmap = counted.setmap;
    figures.pairs = counted.pairs;
    figures.rows = rows;
    figures
}

fn figures_of(alloc: Global, case: &Case) -> Result<Figures, NoMemory> {
    let counted = counted_of(alloc, case)?;
    let platforms = texts_of(alloc, case.platforms)?;
    Ok(joined(alloc, platforms, counted, rows_of(alloc, case.measurements)))
}

/// Whether figures print as a text.
fn prints(alloc: Global, kind: Kind, figures: &Figures, text: &[u8]) -> Result<bool, NoMemory> {
    let count = figures.setmap.platforms();
    if count as usize != figures.platforms.len()
        || pair_count(count) != figures.pairs.as_slice().len() as u64
    {
        return Ok(false);
    }
    Ok(render(alloc, kind, figures)?.as_slice() == text)
}

fn case_prints(alloc: Global, case: &Case) -> Result<bool, NoMemory> {
    prints(alloc, case.kind, &figures_of(alloc, case)?, case.text)
}

#[test]
fn sources_are_reported(rt: HostRuntime) -> Result<(), Fail> {
    for (at, case) in CASES.iter().enumerate() {
        assert!(rt; case_prints(rt.alloc(), case)?, "{at}");
    }
    Ok(())
}

/// Figures with these measurements alone.
fn measured(alloc: Global, rows: Option<Rows>) -> Figures {
    let mut figures = none(alloc);
    figures.rows = rows;
    figures
}

/// Whether measurements alone print as a text.
fn runs_print(
    alloc: Global,
    kind: Kind,
    measurements: &[u8],
    text: &[u8],
) -> Result<bool, NoMemory> {
    let rows = rows_of(alloc, measurements);
    prints(alloc, kind, &measured(alloc, rows), text)
}

#[test]
fn measurements_are_reported(rt: HostRuntime) -> Result<(), Fail> {
    for (at, row) in RUNS.iter().enumerate() {
        assert!(rt; runs_print(rt.alloc(), row.0, row.1, row.2)?, "{at}");
    }
    Ok(())
}

/// Figures with these groups alone.
fn grouped(alloc: Global, groups: TextLists) -> Figures {
    let mut figures = none(alloc);
    figures.groups = groups;
    figures
}

/// Whether groups print as a text.
fn groups_print(alloc: Global, groups: &[&[&[u8]]], text: &[u8]) -> Result<bool, NoMemory> {
    let groups = groups_of(alloc, groups)?;
    prints(alloc, Kind::Duplicates, &grouped(alloc, groups), text)
}

#[test]
fn duplicates_are_reported(rt: HostRuntime) -> Result<(), Fail> {
    for (at, row) in GROUPS.iter().enumerate() {
        assert!(rt; groups_print(rt.alloc(), row.0, row.1)?, "{at}");
    }
    Ok(())
}

/// Figures with these notes alone.
fn noted(alloc: Global, notes: NoteRows) -> Figures {
    let mut figures = none(alloc);
    figures.notes = notes;
    figures
}

/// Whether notes print as a text.
fn notes_print(alloc: Global, notes: Notes, text: &[u8]) -> Result<bool, NoMemory> {
    let notes = notes_of(alloc, notes)?;
    prints(alloc, Kind::Notes, &noted(alloc, notes), text)
}

#[test]
fn notes_are_reported(rt: HostRuntime) -> Result<(), Fail> {
    for (at, row) in NOTES.iter().enumerate() {
        assert!(rt; notes_print(rt.alloc(), row.0, row.1)?, "{at}");
    }
    Ok(())
}

/// A platform without a database.
fn absent_rows(alloc: Global) -> Result<AbsentRows, NoMemory> {
    let mut rows = Vec::new(alloc);
    rows.push(AbsentRow {
        platform: Bytes::from_slice(alloc, b"gpu")?,
        path: Bytes::from_slice(alloc, b"gpu.json")?,
    })?;
    Ok(AbsentRows::from_vec(rows))
}

/// Two entries that make no command.
fn idle_rows(alloc: Global) -> Result<IdleRows, NoMemory> {
    let mut rows = Vec::new(alloc);
    for (command, why) in [(3, Idle::Outside), (12, Idle::Unsupported)] {
        let platform = Bytes::from_slice(alloc, b"cpu")?;
        rows.push(IdleRow {
            command,
            platform,
            why,
        })?;
    }
    Ok(IdleRows::from_vec(rows))
}

/// Figures with those two alone.
fn idled(alloc: Global, databases: AbsentRows, idle: IdleRows) -> Figures {
    let mut figures = none(alloc);
    figures.databases = databases;
    figures.idle = idle;
    figures
}

/// Whether what makes no command is printed.
fn idle_entries_print(alloc: Global) -> Result<bool, NoMemory> {
    let databases = absent_rows(alloc)?;
    let idle = idle_rows(alloc)?;
    prints(
        alloc,
        Kind::Notes,
        &idled(alloc, databases, idle),
        b"database gpu gpu.json absent\ncommand 3 cpu outside\ncommand 12 cpu unsupported\n",
    )
}

#[test]
fn idle_entries_are_printed(rt: HostRuntime) -> Result<(), Fail> {
    assert!(rt; idle_entries_print(rt.alloc())?);
    Ok(())
}

/// The names of kinds, and names that no kind has.
const KINDS: &[(&[u8], Option<Kind>)] = &[
    (b"summary", Some(Kind::Summary)),
    (b"files", Some(Kind::Files)),
    (b"clustering", Some(Kind::Clustering)),
    (b"duplicates", Some(Kind::Duplicates)),
    (b"efficiency", Some(Kind::Efficiency)),
    (b"cascade", Some(Kind::Cascade)),
    (b"portability", Some(Kind::Portability)),
    (b"navigation", Some(Kind::Navigation)),
    (b"notes", Some(Kind::Notes)),
    (b"Notes", None),
    (b"note", None),
    (b"", None),
];

#[test]
fn kinds_have_names(rt: HostRuntime) {
    for (at, row) in KINDS.iter().enumerate() {
        assert!(rt; Kind::read(row.0) == row.1, "{at}");
    }
}
