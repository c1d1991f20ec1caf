//! The figures that reports are made of.
use crate::lists::TextLists;
use crate::row_lists::{AbsentRows, FileRows, IdleRows, NoteRows};
use cb_diverge::Fractions;
use cb_measure::Rows;
use cb_paths::Texts;
use cb_sets::Setmap;

/// The figures of a code base. The lists stand in the order in which reports print them.
#[derive(Drop)]
pub struct Figures {
    /// The names of the platforms in order.
    pub platforms: Texts,
    /// The sources that count, by their paths.
    pub files: FileRows,
    /// How many lines which platforms use.
    pub setmap: Setmap,
    /// The distances of all pairs of platforms, in the order (1, 2), (1, 3), .., (2, 3), and so on.
    pub pairs: Fractions,
    /// The groups of sources with equal bytes, each a list of paths.
    pub groups: TextLists,
    /// The measurements, where there are any.
    pub rows: Option<Rows>,
    /// The platforms whose databases are absent, in their order.
    pub databases: AbsentRows,
    /// The entries of databases that make no command, by their numbers.
    pub idle: IdleRows,
    /// The different notes, by path, node, kind and detail.
    pub notes: NoteRows,
}
