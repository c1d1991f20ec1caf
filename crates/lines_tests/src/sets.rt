//! Sets of lines, worked by hand.
use cb_lines::{Lines, Span};
use cb_paths::NoMemory;
use std::alloc::Global;
use std::test::Fail;

fn is_shared<T: Send + Sync>() {}

const MAX: u32 = u32::MAX;

/// The set of these lines, added in this order.
fn set_of(alloc: Global, added: &[u32]) -> Result<Lines, NoMemory> {
    let mut lines = Lines::new(alloc);
    for line in added {
        lines.add(*line)?;
    }
    Ok(lines)
}

/// Whether the maximal runs of a set are these, in pairs of first and last line.
fn has_spans(lines: &Lines, wanted: &[(u32, u32)]) -> bool {
    let spans = lines.spans();
    if spans.len() != wanted.len() {
        return false;
    }
    for (span, (first, last)) in spans.iter().zip(wanted) {
        if span.first != *first || span.last != *last {
            return false;
        }
    }
    true
}

/// Whether a copy of the set of these lines has these spans and so many lines.
fn is_made(
    alloc: Global,
    added: &[u32],
    spans: &[(u32, u32)],
    count: u64,
) -> Result<bool, NoMemory> {
    let lines = set_of(alloc, added)?.copy(alloc)?;
    Ok(has_spans(&lines, spans) && lines.count() == count)
}

/// Lines that are added in this order, the spans of their set, and how many lines it has.
const ADDED: &[(&[u32], &[(u32, u32)], u64)] = &[
    (&[], &[], 0),
    (&[7, 7, 7], &[(7, 7)], 1),
    (&[1, 3, 2], &[(1, 3)], 3),
    (&[9, 2, 3], &[(2, 3), (9, 9)], 3),
    (&[5, 4, 8], &[(4, 5), (8, 8)], 3),
    (&[100, 99, 12, 11, 10, 98], &[(10, 12), (98, 100)], 6),
    (&[MAX, 0, MAX - 1], &[(0, 0), (MAX - 1, MAX)], 3),
];

#[test]
fn added_lines_make_maximal_spans(rt: HostRuntime) -> Result<(), Fail> {
    is_shared::<Lines>();
    for row in ADDED {
        assert!(rt;
            is_made(rt.alloc(), row.0, row.1, row.2)?,
            "lines {:?}",
            row.0
        );
    }
    Ok(())
}

/// The set of the lines of spans, added in this order.
fn spans_of(alloc: Global, added: &[(u32, u32)]) -> Result<Lines, NoMemory> {
    let mut lines = Lines::new(alloc);
    for (first, last) in added {
        lines.add_span(Span {
            first: *first,
            last: *last,
        })?;
    }
    Ok(lines)
}

/// What two sets, given by their spans, make.
#[derive(Clone, Copy, Debug)]
enum Way {
    Union,
    Minus,
    Appended,
}

fn made(
    alloc: Global,
    way: Way,
    some: &[(u32, u32)],
    others: &[(u32, u32)],
) -> Result<Lines, NoMemory> {
    let mut lines = spans_of(alloc, some)?;
    let others = spans_of(alloc, others)?;
    match way {
        Way::Union => lines.union(alloc, &others),
        Way::Minus => lines.minus(alloc, &others),
        Way::Appended => {
            lines.append(&others)?;
            Ok(lines)
        }
    }
}

fn makes(
    alloc: Global,
    way: Way,
    some: &[(u32, u32)],
    others: &[(u32, u32)],
    wanted: &[(u32, u32)],
) -> Result<bool, NoMemory> {
    Ok(has_spans(&made(alloc, way, some, others)?, wanted))
}

/// Two sets, and what they make, each by its spans.
type Row<'a> = (Way, &'a [(u32, u32)], &'a [(u32, u32)], &'a [(u32, u32)]);

const UNIONS: &[Row<'static>] = &[
    (Way::Union, &[(1, 1), (3, 3)], &[(2, 2)], &[(1, 3)]),
    (
        Way::Union,
        &[(2, 2), (5, 5), (9, 9)],
        &[(1, 1), (3, 3)],
        &[(1, 3), (5, 5), (9, 9)],
    ),
    (Way::Union, &[], &[(9, 9)], &[(9, 9)]),
];

const DIFFERENCES: &[Row<'static>] = &[
    (
        Way::Minus,
        &[(1, 9)],
        &[(2, 3), (6, 6)],
        &[(1, 1), (4, 5), (7, 9)],
    ),
    (
        Way::Minus,
        &[(1, 4), (10, 19)],
        &[(3, 12), (19, 40)],
        &[(1, 2), (13, 18)],
    ),
    (Way::Minus, &[(5, 5)], &[], &[(5, 5)]),
    (
        Way::Minus,
        &[(7, MAX)],
        &[(8, MAX - 1)],
        &[(7, 7), (MAX, MAX)],
    ),
    (Way::Minus, &[(3, 4)], &[(1, 9)], &[]),
];

const APPENDED: &[Row<'static>] = &[
    (
        Way::Appended,
        &[(2, 3)],
        &[(4, 6), (8, 8)],
        &[(2, 6), (8, 8)],
    ),
    (
        Way::Appended,
        &[],
        &[(4, 6), (MAX, MAX)],
        &[(4, 6), (MAX, MAX)],
    ),
    (Way::Appended, &[(5, 6)], &[(1, 1)], &[(1, 1), (5, 6)]),
];

/// The rows of each way.
const PAIRS: &[&[Row<'static>]] = &[UNIONS, DIFFERENCES, APPENDED];

#[test]
fn two_sets_make_one(rt: HostRuntime) -> Result<(), Fail> {
    for rows in PAIRS {
        for row in *rows {
            assert!(rt;
                makes(rt.alloc(), row.0, row.1, row.2, row.3)?,
                "{:?} of {:?} and {:?}",
                row.0,
                row.1,
                row.2
            );
        }
    }
    Ok(())
}

#[test]
fn spans_are_added_at_once_or_line_by_line(rt: HostRuntime) -> Result<(), Fail> {
    let added = [(7, 9), (9, 12), (2, 8), (20, 20), (5, 4)];
    assert!(rt; has_spans(&spans_of(rt.alloc(), &added)?, &[(2, 12), (20, 20)]));
    Ok(())
}

/// How far a set, given by its spans, goes on as it begins at a line.
fn goes_on(
    alloc: Global,
    spans: &[(u32, u32)],
    first: u32,
    last: u32,
) -> Result<(bool, bool, u32), NoMemory> {
    let lines = spans_of(alloc, spans)?;
    if first > last {
        return Ok((false, false, 0));
    }
    let stretch = lines.alike_from(first, last);
    Ok((lines.has(first), stretch.is_held, stretch.last))
}

/// The spans of a set.
const SPANS: &[(u32, u32)] = &[(3, 5), (9, 9), (20, MAX)];

/// Where a stretch of those lines begins and may end, whether the lines are held, and where it ends.
const STRETCHES: &[(u32, u32, bool, u32)] = &[
    (1, 50, false, 2),
    (3, 50, true, 5),
    (4, 4, true, 4),
    (6, 50, false, 8),
    (6, 7, false, 7),
    (9, 10, true, 9),
    (10, 19, false, 19),
    (21, MAX, true, MAX),
];

#[test]
fn sets_go_on_as_they_begin(rt: HostRuntime) -> Result<(), Fail> {
    for row in STRETCHES {
        assert!(rt;
            goes_on(rt.alloc(), SPANS, row.0, row.1)? == (row.2, row.2, row.3),
            "from {} to {}",
            row.0,
            row.1
        );
    }
    Ok(())
}
