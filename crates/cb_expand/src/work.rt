//! What is being expanded.
use crate::row::Row;
use cb_paste::{Argument, Hides, WorkToken};

/// An argument that is still to be taken from the row, where its end is below the separator on top.
#[derive(Drop)]
pub(crate) struct Left {
    /// The argument as written, where it is wanted so.
    pub(crate) raw: Vec<WorkToken>,
    /// The height of its end.
    pub(crate) end: usize,
    /// Whether it is to be expanded.
    pub(crate) is_shown: bool,
}

/// A call that is being replaced.
#[derive(Drop)]
pub(crate) struct Call {
    /// The place of its macro.
    pub(crate) place: usize,
    /// Whether white space stands before its name.
    pub(crate) spaced: bool,
    /// What the tokens put in hide beside what they hide already.
    pub(crate) hides: u32,
    /// The arguments that are ready.
    pub(crate) arguments: Vec<Argument>,
    /// The arguments that are still to be taken from the row, the next one last.
    pub(crate) left: Vec<Left>,
    /// Whether nothing stands for `...`.
    pub(crate) lacks_rest: bool,
}

/// A call of which an argument is being expanded, and what stood around it.
#[derive(Drop)]
pub(crate) struct Frame {
    /// The call.
    pub(crate) call: Call,
    /// The argument as written, where it is wanted so.
    pub(crate) raw: Vec<WorkToken>,
    /// Where the list ended in which the call stands.
    pub(crate) floor: usize,
    /// What stood before the call.
    pub(crate) done: Vec<WorkToken>,
}

/// What is being expanded.
#[derive(Drop)]
pub(crate) struct Work {
    /// The hide sets.
    pub(crate) arena: Hides,
    /// The tokens that are still to be read, of all lists.
    pub(crate) row: Row,
    /// Where the innermost list ends in the row.
    pub(crate) floor: usize,
    /// The calls of which an argument is being expanded, the innermost one last.
    pub(crate) frames: Vec<Frame>,
    /// The tokens of the innermost list that stand.
    pub(crate) done: Vec<WorkToken>,
    /// What was paid so far.
    pub(crate) used: usize,
}
