//! Efficiency and performance portability.
ghost use Rattle.std.specs.Prelude.{◌≡◌, ◌≤◌, length, IfOk};
ghost use Rattle.std.specs.BTreeSet.{keys};
ghost use Rattle.cb_measure.specs.Metrics.{figure_on, best_on, efficiency_of, portability_over, portability_of, problems_of, applications_of, platforms_of};
ghost use Rattle.cb_measure.specs.inner.Timing.{timed as timed_on};

use crate::figures::{best_at, run_at};
use crate::mean::Mean;
use crate::names::{listed, names_at};
use crate::numbers::number;
use crate::pace::Pace;
use crate::rows::Rows;
use crate::timed::Timed;
use cb_paths::{Bytes, NoMemory, Texts};
use std::alloc::Global;
use std::collections::BTreeSet;

/// The portability of an application over platforms.
fn portability_on(
    rows: &Rows,
    platforms: &BTreeSet<Bytes>,
    problem: &[u8],
    application: &[u8],
) -> u64
    requires { length (keys platforms.now) ≤ 100000 }
    ensures { result ≡ portability_over rows.now problem.now application.now (keys platforms.now) }
{
    let mut mean = Mean::none();
    'platforms: for platform in platforms.iter() {
        mean = mean.with(rows.pace(problem, application, platform.as_slice()));
    }
    mean.value()
}

impl Rows {
    /// The figure of an application for a problem on a platform, beside the best one there.
    pub(crate) fn pace(&self, problem: &[u8], application: &[u8], platform: &[u8]) -> Pace
        ensures figure { result.figure ≡ figure_on self.now problem.now application.now platform.now }
        ensures best { result.best ≡ best_on self.now problem.now platform.now }
    {
        let problem = number(&self.index.numbers, problem);
        let application = number(&self.index.numbers, application);
        let platform = number(&self.index.numbers, platform);
        Pace {
            best: best_at(&self.index.best, problem, platform),
            figure: run_at(&self.index.figures, problem, application, platform),
        }
    }

    /// The figures of an application on a platform, which were found before, beside one another.
    pub(crate) fn pace_of(&self, problem: &[u8], application: &[u8], timed: &Timed) -> Pace
        requires { timed.now ≡ timed_on self.now problem.now application.now timed.now.platform }
        ensures figure { result.figure ≡ figure_on self.now problem.now application.now timed.now.platform }
        ensures best { result.best ≡ best_on self.now problem.now timed.now.platform }
    {
        // What bounds figures is known of rows that are read.
        let _rows = &self.rows;
        Pace {
            best: timed.best,
            figure: timed.figure,
        }
    }

    /// The names of the platforms with a row of a problem, of which there are few.
    pub(crate) fn platform_names(&self, alloc: Global, problem: &[u8]) -> Result<Texts, NoMemory>
        ensures names { IfOk result (λ names. names ≡ platforms_of self.now problem.now) }
        ensures few { IfOk result (λ names. length names ≤ 100000) }
    {
        names_at(
            alloc,
            &self.index.platforms,
            number(&self.index.numbers, problem),
        )
    }

    /// The names of the problems, each once, rising by their bytes.
    pub fn problems(&self, alloc: Global) -> Result<Texts, NoMemory>
        ensures { IfOk result (λ names. names ≡ problems_of self.now) }
    {
        listed(alloc, &self.index.problems)
    }

    /// The names of the applications with a row of a problem, each once, rising by their bytes.
    pub fn applications(&self, alloc: Global, problem: &[u8]) -> Result<Texts, NoMemory>
        ensures { IfOk result (λ names. names ≡ applications_of self.now problem.now) }
    {
        names_at(
            alloc,
            &self.index.applications,
            number(&self.index.numbers, problem),
        )
    }

    /// The names of the platforms with a row of a problem, each once, rising by their bytes.
    pub fn platforms(&self, alloc: Global, problem: &[u8]) -> Result<Texts, NoMemory>
        ensures { IfOk result (λ names. names ≡ platforms_of self.now problem.now) }
    {
        self.platform_names(alloc, problem)
    }

    /// The efficiency of an application for a problem on a platform, in units of the grid (10^-12): the best figure
    /// of all applications over its own, rounded down. There is none exactly where the application fails there.
    #[tactic(auto, unfolding(crate::specs::Metrics::efficiency_of))]
    pub fn efficiency(&self, problem: &[u8], application: &[u8], platform: &[u8]) -> Option<u64>
        ensures { result ≡ efficiency_of self.now problem.now application.now platform.now }
    {
        self.pace(problem, application, platform).efficiency()
    }

    /// The performance portability of an application for a problem, in units of the grid (10^-12): the harmonic mean
    /// of its efficiencies on all platforms that occur in a row of the problem, each reciprocal rounded down to the
    /// grid, and the mean too. It is 0 where the application fails on one of them, and where there is none.
    pub fn portability(&self, problem: &[u8], application: &[u8]) -> u64
        ensures { result ≡ portability_of self.now problem.now application.now }
    {
        match self
            .index
            .platforms
            .get(&number(&self.index.numbers, problem))
        {
            Some(platforms) => portability_on(self, platforms, problem, application),
            None => 0,
        }
    }
}
