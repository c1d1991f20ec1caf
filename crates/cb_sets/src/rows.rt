//! Rows in the order of reports, and lines added to them.
ghost use Rattle.std.specs.Prelude.{◌≡◌, ◌+◌, ◌^◌, ◌<◌, ◌≤◌, ◌↔◌, ℕ, length, map, slice_index_or, OnOk, IsTrue};
ghost use Rattle.cb_lines.specs.Lines.{span_lines};
ghost use Rattle.cb_sets.specs.declared.row.Row.{Row};
ghost use Rattle.cb_sets.specs.Sets.{platform_limit};
ghost use Rattle.cb_sets.specs.Tallies.{lines_where, is_any};
ghost use Rattle.cb_sets.specs.inner.Ranks.{rank_of};
ghost use Rattle.cb_sets.specs.inner.Rows.{seen, Rise, IsWithCount, IsWith};

use crate::part::part_from;
use crate::platform_set::PlatformSet;
use crate::row::Row;
use cb_lines::{Lines, Span};
use cb_paths::NoMemory;

/// How many rows stand before a rank.
fn place_of(rows: &[Row], rank: u64) -> usize
    requires { Rise 0 rows.now }
    ensures within { result ≤ length rows.now }
    ensures before { (k : ℕ) (d : Row) → k < result → rank_of (slice_index_or rows.now k d).set < rank }
    ensures behind { (k : ℕ) (d : Row) → result ≤ k → k < length rows.now
        → rank ≤ rank_of (slice_index_or rows.now k d).set }
{
    rows.partition_point(|row| row.set.rank() < rank)
}

/// Whether the row at a place has a rank.
fn has_rank(rows: &[Row], at: usize, rank: u64) -> bool
    ensures { IsTrue result ↔ ((at < length rows.now) × ((d : Row) → rank_of (slice_index_or rows.now at d).set
        ≡ rank)) }
{
    at < rows.len() && rows[at].set.rank() == rank
}

/// Adds lines of one set to rows. After its one error, out of memory, no more is said of them.
fn add_count(rows: &mut Vec<Row>, set: PlatformSet, lines: u64) -> Result<(), NoMemory>
    requires rising { Rise 0 rows.old.items }
    requires fits { lines_where is_any (map seen rows.old.items) + lines < 2 ^ 32 }
    ensures { OnOk result (IsWithCount set lines rows.old.items rows.new.items) }
{
    let rank = set.rank();
    let at = place_of(rows.as_slice(), rank);
    if has_rank(rows.as_slice(), at, rank) {
        rows[at].lines += lines;
        return Ok(());
    }
    rows.insert(at, Row { set, lines })?;
    Ok(())
}

/// Adds the lines of a span to rows, each for the set of the platforms that use it. After its one error, out of
/// memory, no more is said of them.
pub(crate) fn add_span(rows: &mut Vec<Row>, span: Span, used: &[Lines]) -> Result<(), NoMemory>
    requires rising { Rise 0 rows.old.items }
    requires full { span.first ≤ span.last }
    requires platforms { length used.now ≤ platform_limit }
    requires fits { lines_where is_any (map seen rows.old.items) + length (span_lines span) < 2 ^ 32 }
    ensures { OnOk result (IsWith used.now (span_lines span) rows.old.items rows.new.items) }
{
    let mut first = span.first;
    'parts: loop {
        let part = part_from(used, first, span.last);
        add_count(rows, part.set, u64::from(part.last - first) + 1)?;
        if part.last == span.last {
            return Ok(());
        }
        first = part.last + 1;
    }
}
