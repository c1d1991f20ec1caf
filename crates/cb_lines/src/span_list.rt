//! Where a set of lines keeps its spans.
ghost use Rattle.std.specs.Prelude.{◌≡◌, ◌<◌, ◌≤◌, ◌++◌, ◌∷◌, [], length, slice_set, remove, IfOk, OnOk, OnErr};
ghost use Rattle.std.specs.List.{insert};

use crate::line_set::Span;
use cb_paths::NoMemory;
use std::alloc::Global;
use std::marker::Model;

/// How spans are stored.
#[derive(Drop)]
pub(crate) enum Stored {
    /// There is none.
    Empty,
    /// One span, in the value itself.
    One([Span; 1]),
    /// Any number of spans, apart from it.
    Many(Box<Vec<Span>>),
}

/// A list of spans, which contracts see as such. It takes 16 bytes, and a single span takes no memory of its own.
#[derive(Drop)]
pub(crate) struct SpanList {
    alloc: Global,
    stored: Stored,
}

impl Model for SpanList {
    ghost use Rattle.std.specs.Prelude.{List};
    ghost use Rattle.cb_lines.specs.declared.line_set.Span.{Span};

    ghost Value = { List Span };

    ghost use Rattle.cb_lines.specs.inner.SpanList.{spans_of, AreStored};

    ghost view = { λ r. spans_of r.stored };

    ghost invariant = { λ r. AreStored r.stored };
}

impl SpanList {
    /// No spans.
    pub(crate) fn new(alloc: Global) -> SpanList
        ensures { result ≡ [] }
    {
        SpanList {
            alloc,
            stored: Stored::Empty,
        }
    }

    /// A single span.
    pub(crate) fn single(alloc: Global, span: Span) -> SpanList
        ensures { result ≡ span ∷ [] }
    {
        SpanList {
            alloc,
            stored: Stored::One([span]),
        }
    }

    /// A copy of these spans.
    pub(crate) fn from_slice(alloc: Global, spans: &[Span]) -> Result<SpanList, NoMemory>
        ensures { IfOk result (λ copy. copy ≡ spans.now) }
    {
        let stored = match spans {
            [] => Stored::Empty,
            [span] => Stored::One([*span]),
            _ => Stored::Many(Box::new(alloc, Vec::from_slice(alloc, spans)?)?),
        };
        Ok(SpanList { alloc, stored })
    }

    /// The spans in order.
    #[inline]
    pub(crate) fn as_slice(&self) -> &[Span]
        ensures { result.now ≡ self.now }
    {
        match &self.stored {
            Stored::Empty => &[],
            Stored::One(span) => span.as_slice(),
            Stored::Many(spans) => spans.as_slice(),
        }
    }

    /// Puts another span in the place of one.
    #[inline]
    pub(crate) fn set(&mut self, at: usize, span: Span)
        requires { at < length self.old }
        ensures { self.new ≡ slice_set self.old at span }
    {
        match &mut self.stored {
            Stored::Empty => {}
            Stored::One(only) => only[at] = span,
            Stored::Many(spans) => spans[at] = span,
        }
    }

    /// Adds a span behind the others. Where memory lacks, nothing changes.
    pub(crate) fn push(&mut self, span: Span) -> Result<(), NoMemory>
        ensures ok { OnOk result (self.new ≡ self.old ++ span ∷ []) }
        ensures err { OnErr result (self.new ≡ self.old) }
    {
        match &mut self.stored {
            Stored::Empty => self.stored = Stored::One([span]),
            Stored::One(only) => {
                let mut spans = Vec::from_slice(self.alloc, only.as_slice())?;
                spans.push(span)?;
                self.stored = Stored::Many(Box::new(self.alloc, spans)?);
            }
            Stored::Many(spans) => spans.push(span)?,
        }
        Ok(())
    }

    /// Puts a span at a place, before those from there on. Where memory lacks, nothing changes.
    pub(crate) fn insert(&mut self, at: usize, span: Span) -> Result<(), NoMemory>
        requires { at ≤ length self.old }
        ensures ok { OnOk result (self.new ≡ insert self.old at span) }
        ensures err { OnErr result (self.new ≡ self.old) }
    {
        if let Stored::Many(spans) = &mut self.stored {
            spans.insert(at, span)?;
            return Ok(());
        }
        let mut spans = Vec::from_slice(self.alloc, self.as_slice())?;
        spans.insert(at, span)?;
        self.stored = Stored::Many(Box::new(self.alloc, spans)?);
        Ok(())
    }

    /// Takes out the span at a place.
    #[tactic(auto, using(crate::proofs::Singles::none_left))]
    pub(crate) fn remove(&mut self, at: usize)
        requires { at < length self.old }
        ensures { self.new ≡ remove self.old at }
    {
        match &mut self.stored {
            Stored::Many(spans) => {
                let _ = spans.remove(at);
            }
            Stored::One(_) => self.stored = Stored::Empty,
            Stored::Empty => {}
        }
    }
}
