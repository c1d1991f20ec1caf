//! Sources with their marks, worked by hand.
use cb_lines::{Lines, Mark, Marker, Marks, Walk, marks};
use cb_paths::NoMemory;
use std::alloc::Global;
use std::test::Fail;

fn is_shared<T: Send + Sync>() {}

/// Whether the next mark of a walk is this one.
fn is_next(walk: &Walk<'_>, mark: Mark) -> bool {
    if walk.rest().is_empty() {
        return false;
    }
    walk.line() == mark.line && walk.rest()[0] == mark.byte
}

/// Whether the marks of a source are these bytes on these lines, one by one and as a list.
fn has_marks(alloc: Global, source: &[u8], bytes: &[u8], lines: &[u32]) -> Result<bool, NoMemory> {
    let marks = marks(alloc, source)?;
    let mut walk = Walk::new(&marks);
    let mut marker = Marker::new(source);
    for (byte, line) in bytes.iter().zip(lines) {
        let mark = Mark {
            byte: *byte,
            line: *line,
        };
        if !is_next(&walk, mark) || marker.next() != Some(mark) || walk.rest().is_empty() {
            return Ok(false);
        }
        walk.pass_row(1);
    }
    Ok(walk.rest().is_empty() && marker.next().is_none())
}

/// Sources, and the bytes and lines of the marks of each.
const SOURCES: &[(&[u8], &[u8], &[u32])] = &[
    (b"", b"", &[]),
    (b"a\\\nb", b"ab", &[1, 2]),
    (b"a\r\nb\n", b"a\nb\n", &[1, 1, 2, 2]),
    (b"a\rb\r", b"a\rb\r", &[1, 1, 1, 1]),
    (b"\\\r\n\\\ny", b"y", &[3]),
    (b"\\\r\r\nx", b"\\\r\nx", &[1, 1, 1, 2]),
    (b"\\\\\nx", b"\\x", &[1, 2]),
    (b"\n\\ \nx\\", b"\n\\ \nx\\", &[1, 2, 2, 2, 3, 3]),
    (
        b"\r\n\r\n\n\n\n\\\n\n\n\n\na\\\r\nb",
        b"\n\n\n\n\n\n\n\n\nab",
        &[1, 2, 3, 4, 5, 7, 8, 9, 10, 11, 12],
    ),
];

#[test]
fn sources_have_their_marks(rt: HostRuntime) -> Result<(), Fail> {
    is_shared::<Marks>();
    for row in SOURCES {
        assert!(rt;
            has_marks(rt.alloc(), row.0, row.1, row.2)?,
            "of {:?}",
            row.0
        );
    }
    Ok(())
}

/// The lengths of the rows of a source, each before a splice or the end.
fn row_lengths(alloc: Global, source: &[u8]) -> Result<Vec<usize>, NoMemory> {
    let marks = marks(alloc, source)?;
    let mut walk = Walk::new(&marks);
    let mut lengths = Vec::new(alloc);
    for _ in 0..source.len() {
        let length = walk.row().len();
        if length > 0 {
            lengths.push(length)?;
        }
        walk.pass(length);
    }
    Ok(lengths)
}

fn has_rows(alloc: Global, source: &[u8], lengths: &[usize]) -> Result<bool, NoMemory> {
    Ok(row_lengths(alloc, source)?.as_slice() == lengths)
}

/// A source whose first row has 48 marks.
const FAR: &[u8] =
    b"\\t\\t\\t\\t\\t\\t\\t\\t\\t\\t\\t\\t\\t\\t\\t\\t\\t\\t\\t\\t\\t\\t\\t\\t\\\r\n\\t\\\ne";

/// Sources, and the lengths of the rows of each.
const ROWS: &[(&[u8], &[usize])] = &[
    (b"", &[]),
    (b"ab\\\ncd\nef", &[2, 5]),
    (b"\\\nab\\\n\\\nc\\\n", &[2, 1]),
    (FAR, &[48, 2, 1]),
];

#[test]
fn rows_end_at_splices(rt: HostRuntime) -> Result<(), Fail> {
    for row in ROWS {
        assert!(rt; has_rows(rt.alloc(), row.0, row.1)?, "of {:?}", row.0);
    }
    Ok(())
}

/// How many lines marks of a source stand on, as all are passed at once, and one after another.
fn counted(alloc: Global, source: &[u8]) -> Result<(u64, u64), NoMemory> {
    let marks = marks(alloc, source)?;
    let mut at_once = Lines::new(alloc);
    let mut walk = Walk::new(&marks);
    walk.pass_counted(walk.rest().len(), &mut at_once)?;
    Ok((at_once.count(), counted_by_one(alloc, &marks)?.count()))
}

fn counted_by_one(alloc: Global, marks: &Marks<'_>) -> Result<Lines, NoMemory> {
    let mut lines = Lines::new(alloc);
    let mut walk = Walk::new(marks);
    for _ in 0..walk.rest().len() {
        if walk.rest().is_empty() {
            return Ok(lines);
        }
        walk.pass_row_counted(1, &mut lines)?;
    }
    Ok(lines)
}

/// Sources, and how many lines marks of each stand on.
const COUNTED: &[(&[u8], u64)] = &[
    (b"", 0),
    (b"\n\n\r\nx", 4),
    (b"ab\\\ncd\nef", 3),
    (b"\\\n\\\r\nab\\\n\n\\\n", 2),
];

#[test]
fn lines_of_marks_are_counted(rt: HostRuntime) -> Result<(), Fail> {
    for row in COUNTED {
        assert!(rt;
            counted(rt.alloc(), row.0)? == (row.1, row.1),
            "of {:?}",
            row.0
        );
    }
    Ok(())
}
