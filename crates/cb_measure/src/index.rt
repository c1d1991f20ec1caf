//! What is kept beside rows, so that figures and names are found without a look at all rows.
ghost use Rattle.std.specs.Prelude.{IfOk};
ghost use Rattle.cb_measure.specs.inner.Finding.{IsIndex};

use crate::figures::{Best, Runs, best_of, runs_of};
use crate::names::{NameSets, applications_of, platforms_of, problems_of};
use crate::numbers::{Numbers, numbers_of};
use crate::row::Row;
use cb_paths::{Bytes, NoMemory};
use std::alloc::Global;
use std::collections::BTreeSet;

/// What is found of rows.
#[derive(Drop)]
pub(crate) struct Index {
    /// The numbers of all names.
    pub(crate) numbers: Numbers,
    /// The problems.
    pub(crate) problems: BTreeSet<Bytes>,
    /// The applications with a row of a problem, by its number.
    pub(crate) applications: NameSets,
    /// The platforms with a row of a problem, by its number.
    pub(crate) platforms: NameSets,
    /// The best figures.
    pub(crate) best: Best,
    /// The figures of applications.
    pub(crate) figures: Runs,
}

/// What is found of these rows.
pub(crate) fn index_of(alloc: Global, rows: &[Row]) -> Result<Index, NoMemory>
    ensures { IfOk result (IsIndex rows.now) }
{
    let numbers = numbers_of(alloc, rows)?;
    Ok(Index {
        problems: problems_of(alloc, rows)?,
        applications: applications_of(alloc, rows, &numbers)?,
        platforms: platforms_of(alloc, rows, &numbers)?,
        best: best_of(alloc, rows, &numbers)?,
        figures: runs_of(alloc, rows, &numbers)?,
        numbers,
    })
}
