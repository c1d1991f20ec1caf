//! A mark, and a source's marks.
use std::borrow::CowSlice;
use std::marker::Model;

/// A byte of a source that line splicing leaves, with its place.
#[derive(Clone, Copy, Debug, PartialEq, Eq)]
pub struct Mark {
    /// The byte. A line end is one LF.
    pub byte: u8,
    /// The number of the physical line that the byte stands on, from 1. It stands at 2^32 - 1 once that is reached.
    pub line: u32,
}

/// The marks of a source, which contracts see as the list of them. They are kept in a byte each, or lent where they
/// are all the bytes of the source, and a number for each splice.
#[derive(Drop)]
pub struct Marks<'a> {
    pub(crate) bytes: CowSlice<'a, u8>,
    /// For each splice the number of marks before it.
    pub(crate) splices: Vec<usize>,
}

impl<'a> Model for Marks<'a> {
    ghost use Rattle.std.specs.Prelude.{List};
    ghost use Rattle.std.specs.Cow.{cow_slice_items};
    ghost use Rattle.cb_lines.specs.declared.mark.Mark.{Mark};

    ghost Value = { List Mark };

    ghost use Rattle.cb_lines.specs.inner.Held.{marks_held, Rises};

    ghost view = { λ m. marks_held 1 0 (cow_slice_items m.bytes) m.splices.items };

    ghost invariant = { λ m. Rises 0 m.splices.items };
}
