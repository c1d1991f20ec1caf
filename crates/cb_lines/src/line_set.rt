//! Sets of line numbers.
ghost use Rattle.std.specs.Prelude.{◌≡◌, ◌≢◌, ◌+◌, ◌<◌, ◌≤◌, ◌||◌, ◌&&◌, ◌++◌};
ghost use Rattle.std.specs.Prelude.{not, true, ℕ, [], ◌∷◌, length, filter, IfOk, OnOk};
ghost use Rattle.cb_lines.specs.Lines.{with_line, has_line, union_of, span_lines, AreMaximal};
ghost use Rattle.std.specs.List.{flat_map};
ghost use Rattle.std.specs.List.Sorted.{IsStrictlyIncreasing};

use crate::alike::{Stretch, stretch_from};
use crate::lacking::add_lacking;
use crate::merging::merged;
use crate::span_list::SpanList;
use crate::spans::{add_line, add_span, begins_by, count_before, count_lines};
use cb_paths::NoMemory;
use std::alloc::Global;
use std::marker::Model;

/// A run of consecutive line numbers.
#[derive(Clone, Copy, Debug, Default, PartialEq, Eq)]
pub struct Span {
    /// The least line of the run.
    pub first: u32,
    /// The greatest line of the run.
    pub last: u32,
}

/// A set of line numbers, which contracts see as their rising list. It takes 16 bytes, and one span takes no memory of
/// its own.
#[derive(Drop)]
pub struct Lines {
    spans: SpanList,
}

impl Model for Lines {
    ghost use Rattle.std.specs.Prelude.{List, ℕ};
    ghost use Rattle.std.specs.List.{flat_map};

    ghost Value = { List ℕ };

    ghost use Rattle.cb_lines.specs.Lines.{span_lines, AreMaximal};

    ghost view = { λ l. flat_map span_lines l.spans };

    ghost invariant = { λ l. AreMaximal l.spans };
}

impl Lines {
    /// The empty set.
    pub fn new(alloc: Global) -> Lines
        ensures { result ≡ [] }
    {
        Lines {
            spans: SpanList::new(alloc),
        }
    }

    /// The set of one line.
    pub fn single(alloc: Global, line: u32) -> Lines
        ensures { result ≡ line ∷ [] }
    {
        let span = Span {
            first: line,
            last: line,
        };
        Lines {
            spans: SpanList::single(alloc, span),
        }
    }

    /// Adds a line, which the set may hold already; a line on the last span, or behind all others, takes no search.
    /// Its one error is out of memory, after which the set may be used on, and no more is said of it.
    #[inline]
    pub fn add(&mut self, line: u32) -> Result<(), NoMemory>
        ensures { OnOk result (self.new ≡ with_line line self.old) }
    {
        add_line(&mut self.spans, line)
    }

    /// Adds the lines of a span, at once where the span begins on the last one or behind all others. Its one error is
    /// out of memory, after which the set may be used on, and no more is said of it.
    #[inline]
    pub fn add_span(&mut self, span: Span) -> Result<(), NoMemory>
        ensures { OnOk result (self.new ≡ union_of (span_lines span) self.old) }
    {
        add_span(&mut self.spans, span)
    }

    /// Adds the lines of another set: span by span, each at once, where they lie behind the lines of this one. Its one
    /// error is out of memory, after which the set may be used on, and no more is said of it.
    pub fn append(&mut self, other: &Lines) -> Result<(), NoMemory>
        ensures lines { OnOk result (self.new ≡ union_of other.now self.old) }
        ensures behind { ((line next : ℕ) → has_line self.old line ≡ true → has_line other.now next ≡ true
            → line < next)
            → OnOk result (self.new ≡ self.old ++ other.now) }
    {
        'spans: for span in other.spans() {
            self.add_span(*span)?;
        }
        Ok(())
    }

    /// Whether the set holds a line. The search is binary.
    pub fn has(&self, line: u32) -> bool
        ensures { result ≡ has_line self.now line }
    {
        let spans = self.spans.as_slice();
        begins_by(spans, count_before(spans, line), line)
    }

    /// How far the set goes on as it begins at a line, up to a last one. The search is binary.
    pub fn alike_from(&self, first: u32, last: u32) -> Stretch
        requires { first ≤ last }
        ensures from { first ≤ result.last }
        ensures within { result.last ≤ last }
        ensures alike { (line : ℕ) → first ≤ line → line ≤ result.last → has_line self.now line ≡ result.is_held }
        ensures whole { result.last < last → has_line self.now (result.last + 1) ≢ result.is_held }
    {
        stretch_from(self.spans.as_slice(), first, last)
    }

    /// How many lines the set holds.
    pub fn count(&self) -> u64
        ensures { result ≡ length self.now }
    {
        count_lines(self.spans.as_slice())
    }

    /// A second set of the same lines. Its one error is out of memory.
    pub fn copy(&self, alloc: Global) -> Result<Lines, NoMemory>
        ensures { IfOk result (λ copy. copy ≡ self.now) }
    {
        let spans = SpanList::from_slice(alloc, self.spans.as_slice())?;
        Ok(Lines { spans })
    }

    /// The lines that this set or another one holds, in time linear in their spans. Its one error is out of memory.
    pub fn union(&self, alloc: Global, other: &Lines) -> Result<Lines, NoMemory>
        ensures lines { IfOk result (λ union. union ≡ union_of self.now other.now) }
        ensures members { IfOk result (λ union. (line : ℕ) → has_line union line
            ≡ (has_line self.now line || has_line other.now line)) }
    {
        let spans = merged(alloc, self.spans.as_slice(), other.spans.as_slice())?;
        Ok(Lines { spans })
    }

    /// The lines of this set that another one lacks, with one binary search for each span. Its one error is out of
    /// memory.
    pub fn minus(&self, alloc: Global, other: &Lines) -> Result<Lines, NoMemory>
        ensures lines { IfOk result (λ rest. rest ≡ filter (λ line. not (has_line other.now line)) self.now) }
        ensures members { IfOk result (λ rest. (line : ℕ) → has_line rest line
            ≡ (has_line self.now line && not (has_line other.now line))) }
    {
        let mut rest = Lines::new(alloc);
        'spans: for span in self.spans() {
            add_lacking(&mut rest, *span, other)?;
        }
        rest.rises();
        Ok(rest)
    }

    /// The numbers of a set rise: a law, for which nothing is done.
    #[inline]
    fn rises(&self)
        ensures { IsStrictlyIncreasing self.now }
    {
        let _ = self.spans();
    }

    /// The maximal runs of consecutive numbers, rising.
    pub fn spans(&self) -> &[Span]
        ensures lines { flat_map span_lines result.now ≡ self.now }
        ensures maximal { AreMaximal result.now }
        ensures rising { IsStrictlyIncreasing self.now }
    {
        self.spans.as_slice()
    }
}
