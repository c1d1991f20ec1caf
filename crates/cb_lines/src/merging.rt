//! The spans of two sets made those of one.
ghost use Rattle.std.specs.Prelude.{◌≡◌, ◌+◌, ◌||◌, ◌<◌, ◌≤◌, ◌↔◌, ℕ};
ghost use Rattle.std.specs.Prelude.{[], length, slice_index_or, MatchOption, IfOk, OnOk, IsTrue};
ghost use Rattle.cb_lines.specs.declared.line_set.Span.{Span};
ghost use Rattle.cb_lines.specs.Lines.{has_line, union_of, span_lines, AreMaximal};
ghost use Rattle.cb_lines.specs.inner.Merging.{BeginsFrom, TakesFirst, last_first};
ghost use Rattle.std.specs.List.{flat_map};

use crate::line_set::Span;
use crate::span_list::SpanList;
use cb_paths::NoMemory;
use std::alloc::Global;

/// What is left of two rising lists of spans.
#[derive(Drop)]
struct Pair<'a> {
    left: &'a [Span],
    right: &'a [Span],
}

/// Whether the first of these spans begins no later than the first of the others.
fn begins_first(spans: &[Span], others: &[Span]) -> bool
    ensures { IsTrue result ↔ ((0 < length spans.now)
        × BeginsFrom (slice_index_or spans.now 0 (record { first = 0; last = 0 })).first others.now) }
{
    spans.len() > 0 && (others.is_empty() || spans[0].first <= others[0].first)
}

impl<'a> Pair<'a> {
    /// Takes the span that begins first.
    fn next(&mut self) -> Option<Span>
        ensures { MatchOption result ((self.old.left.now ≡ []) × (self.old.right.now ≡ []))
            (λ span. TakesFirst self.old.left.now self.old.right.now span self.new.left.now self.new.right.now) }
    {
        if begins_first(self.left, self.right) {
            let span = self.left[0];
            self.left = &self.left[1..];
            return Some(span);
        }
        if self.right.is_empty() {
            return None;
        }
        let span = self.right[0];
        self.right = &self.right[1..];
        Some(span)
    }
}

/// Whether a span begins in another one or directly behind it.
fn meets(last: Span, next: Span) -> bool
    ensures { IsTrue result ↔ (next.first ≤ last.last + 1) }
{
    next.first <= last.last || next.first - last.last == 1
}

/// Adds a span that begins no earlier than the last one does, and joins the two where they meet.
fn join(spans: &mut SpanList, next: Span) -> Result<(), NoMemory>
    requires maximal { AreMaximal spans.old }
    requires rising { last_first spans.old ≤ next.first }
    requires full { next.first ≤ next.last }
    ensures maximal { AreMaximal spans.new }
    ensures rising { OnOk result (last_first spans.new ≤ next.first) }
    ensures members { OnOk result ((line : ℕ) → has_line (flat_map span_lines spans.new) line
        ≡ (has_line (flat_map span_lines spans.old) line || has_line (span_lines next) line)) }
{
    let held = spans.as_slice();
    let count = held.len();
    if count > 0 && meets(held[count - 1], next) {
        let Span { first, last } = held[count - 1];
        let last = last.max(next.last);
        spans.set(count - 1, Span { first, last });
        return Ok(());
    }
    spans.push(next)?;
    Ok(())
}

/// The maximal spans of the lines that two lists of them hold.
pub(crate) fn merged(alloc: Global, left: &[Span], right: &[Span]) -> Result<SpanList, NoMemory>
    requires left { AreMaximal left.now }
    requires right { AreMaximal right.now }
    ensures maximal { IfOk result (λ spans. AreMaximal spans) }
    ensures numbers { IfOk result (λ spans. flat_map span_lines spans
        ≡ union_of (flat_map span_lines left.now) (flat_map span_lines right.now)) }
{
    let mut spans = SpanList::new(alloc);
    let mut pair = Pair { left, right };
    'spans: while let Some(span) = pair.next() {
        join(&mut spans, span)?;
    }
    Ok(spans)
}
