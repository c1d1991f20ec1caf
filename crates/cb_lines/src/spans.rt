//! Maximal runs of consecutive lines, rising.
ghost use Rattle.std.specs.Prelude.{◌≡◌, ◌+◌, ◌-◌, ◌<◌, ◌≤◌, ◌↔◌, ◌++◌};
ghost use Rattle.std.specs.Prelude.{◌∷◌, [], ℕ, false, length, slice_index_or, OnOk, IsTrue};
ghost use Rattle.cb_lines.specs.declared.line_set.Span.{Span};
ghost use Rattle.cb_lines.specs.Lines.{with_line, union_of, span_lines, AreMaximal};
ghost use Rattle.std.specs.List.{flat_map, range_with_len};

use crate::line_set::Span;
use crate::span_list::SpanList;
use cb_paths::NoMemory;

/// How many of rising spans end before a line.
pub(crate) fn count_before(spans: &[Span], line: u32) -> usize
    requires { AreMaximal spans.now }
    ensures within { result ≤ length spans.now }
    ensures before { (k : ℕ) (d : Span) → k < result → (slice_index_or spans.now k d).last < line }
    ensures behind { (k : ℕ) (d : Span) → result ≤ k → k < length spans.now
        → line ≤ (slice_index_or spans.now k d).last }
{
    let count = spans.len();
    if count > 0 && spans[count - 1].last < line {
        return count;
    }
    if count > 0 && spans[count - 1].first <= line {
        return count - 1;
    }
    spans.partition_point(|span| span.last < line)
}

/// Whether a span at a place begins no later than a line.
pub(crate) fn begins_by(spans: &[Span], at: usize, line: u32) -> bool
    ensures { IsTrue result ↔ ((at < length spans.now)
        × (slice_index_or spans.now at (record { first = 0; last = 0 })).first ≤ line) }
{
    at < spans.len() && spans[at].first <= line
}

/// Whether the span at a place begins directly behind a line.
fn begins_directly_behind(spans: &[Span], at: usize, line: u32) -> bool
    ensures { IsTrue result ↔ ((at < length spans.now)
        × (slice_index_or spans.now at (record { first = 0; last = 0 })).first ≡ line + 1) }
{
    at < spans.len() && line < spans[at].first && spans[at].first - line == 1
}

/// Whether the span before a place ends directly before a line.
fn ends_directly_before(spans: &[Span], at: usize, line: u32) -> bool
    requires { at ≤ length spans.now }
    ensures { IsTrue result ↔ ((0 < at) × line
        ≡ (slice_index_or spans.now (at - 1) (record { first = 0; last = 0 })).last + 1) }
{
    at > 0 && spans[at - 1].last < line && line - spans[at - 1].last == 1
}

/// Takes a line into the last of the spans, where that span holds it or ends directly before it, and tells whether it
/// did.
#[inline]
fn lengthen(spans: &mut SpanList, line: u32) -> bool
    requires { AreMaximal spans.old }
    ensures reaches { IsTrue result ↔ ((0 < length spans.old)
        × ((slice_index_or spans.old (length spans.old - 1) (record { first = 0; last = 0 })).first ≤ line)
        × line ≤ (slice_index_or spans.old (length spans.old - 1) (record { first = 0; last = 0 })).last + 1) }
    ensures maximal { AreMaximal spans.new }
    ensures numbers { IsTrue result → flat_map span_lines spans.new ≡ with_line line (flat_map span_lines spans.old) }
    ensures kept { result ≡ false → spans.new ≡ spans.old }
{
    let held = spans.as_slice();
    let count = held.len();
    if count == 0 {
        return false;
    }
    let Span { first, last } = held[count - 1];
    if line <= last {
        return first <= line;
    }
    if line - last > 1 {
        return false;
    }
    spans.set(count - 1, Span { first, last: line });
    true
}

/// Whether a line is a span of its own behind maximal spans.
fn is_behind(spans: &[Span], line: u32) -> bool
    requires { AreMaximal spans.now }
    ensures { IsTrue result ↔ AreMaximal (spans.now ++ record { first = line; last = line } ∷ []) }
{
    let count = spans.len();
    count == 0 || (spans[count - 1].last < line && line - spans[count - 1].last > 1)
}

/// Adds a line to maximal spans. A line that the last of them reaches, or that is behind them all, takes no search.
#[inline]
pub(crate) fn add_line(spans: &mut SpanList, line: u32) -> Result<(), NoMemory>
    requires { AreMaximal spans.old }
    ensures maximal { AreMaximal spans.new }
    ensures numbers { OnOk result (flat_map span_lines spans.new ≡ with_line line (flat_map span_lines spans.old)) }
{
    if lengthen(spans, line) {
        return Ok(());
    }
    add_apart(spans, line)
}

/// Lengthens the last of the spans to a line, where it ends with a line no later than that, and tells whether it did.
#[inline]
fn lengthen_from(spans: &mut SpanList, from: u32, line: u32) -> bool
    requires maximal { AreMaximal spans.old }
    requires rising { from ≤ line }
    ensures maximal { AreMaximal spans.new }
    ensures numbers { IsTrue result → flat_map span_lines spans.new
        ≡ union_of (range_with_len (from + 1) (line - from)) (flat_map span_lines spans.old) }
    ensures kept { result ≡ false → spans.new ≡ spans.old }
{
    let held = spans.as_slice();
    let count = held.len();
    if count == 0 {
        return false;
    }
    let Span { first, last } = held[count - 1];
    if last != from {
        return false;
    }
    spans.set(count - 1, Span { first, last: line });
    true
}

/// Adds the lines behind one up to another to maximal spans, line by line.
#[inline(never)]
#[tactic(auto, using(crate::proofs::Stretching::union_range))]
fn add_lines(spans: &mut SpanList, from: u32, line: u32) -> Result<(), NoMemory>
    requires maximal { AreMaximal spans.old }
    requires rising { from ≤ line }
    ensures maximal { AreMaximal spans.new }
    ensures numbers { OnOk result (flat_map span_lines spans.new
        ≡ union_of (range_with_len (from + 1) (line - from)) (flat_map span_lines spans.old)) }
{
    'lines: for next in u64::from(from) + 1..u64::from(line) + 1 {
        add_line(spans, next as u32)?;
    }
    Ok(())
}

/// Adds the lines of a span to maximal spans, at once where no line behind its first one is held or passed.
#[inline]
pub(crate) fn add_span(spans: &mut SpanList, span: Span) -> Result<(), NoMemory>
    requires { AreMaximal spans.old }
    ensures maximal { AreMaximal spans.new }
    ensures numbers { OnOk result (flat_map span_lines spans.new
        ≡ union_of (span_lines span) (flat_map span_lines spans.old)) }
{
    let Span { first, last } = span;
    if first > last {
        return Ok(());
    }
    add_line(spans, first)?;
    if lengthen_from(spans, first, last) {
        return Ok(());
    }
    add_lines(spans, first, last)
}

/// Adds a line to maximal spans, the last of which does not reach it. It stays out of the way of the calls that
/// lengthen that one.
#[inline(never)]
fn add_apart(spans: &mut SpanList, line: u32) -> Result<(), NoMemory>
    requires { AreMaximal spans.old }
    ensures maximal { AreMaximal spans.new }
    ensures numbers { OnOk result (flat_map span_lines spans.new ≡ with_line line (flat_map span_lines spans.old)) }
{
    let alone = Span {
        first: line,
        last: line,
    };
    if is_behind(spans.as_slice(), line) {
        spans.push(alone)?;
        return Ok(());
    }
    insert_line(spans, line)
}

/// Adds a line to maximal spans, at the place that a search finds.
fn insert_line(spans: &mut SpanList, line: u32) -> Result<(), NoMemory>
    requires { AreMaximal spans.old }
    ensures maximal { AreMaximal spans.new }
    ensures numbers { OnOk result (flat_map span_lines spans.new ≡ with_line line (flat_map span_lines spans.old)) }
{
    let held = spans.as_slice();
    let at = count_before(held, line);
    if begins_by(held, at, line) {
        return Ok(());
    }
    let joins_front = ends_directly_before(held, at, line);
    let joins_back = begins_directly_behind(held, at, line);
    match (joins_front, joins_back) {
        (true, true) => {
            let joined = Span {
                first: held[at - 1].first,
                last: held[at].last,
            };
            spans.set(at - 1, joined);
            spans.remove(at);
            Ok(())
        }
        (true, false) => {
            let first = held[at - 1].first;
            spans.set(at - 1, Span { first, last: line });
            Ok(())
        }
        (false, true) => {
            let last = held[at].last;
            spans.set(at, Span { first: line, last });
            Ok(())
        }
        (false, false) => {
            let alone = Span {
                first: line,
                last: line,
            };
            spans.insert(at, alone)?;
            Ok(())
        }
    }
}

/// How many lines maximal spans hold.
pub(crate) fn count_lines(spans: &[Span]) -> u64
    requires { AreMaximal spans.now }
    ensures { result ≡ length (flat_map span_lines spans.now) }
{
    let mut count = 0u64;
    for span in spans {
        let Span { first, last } = *span;
        count += u64::from(last - first) + 1;
    }
    count
}
