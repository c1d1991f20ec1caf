//! The figures of rows: the least of an application on a platform, and the best of all.
ghost use Rattle.std.specs.Prelude.{◌≡◌, ℕ, List, IfOk, OnOk, if◌then◌else◌};
ghost use Rattle.cb_measure.specs.Metrics.{better, figure_on, best_on};
ghost use Rattle.cb_measure.specs.inner.Numbers.{number_in, IsNumbering};
ghost use Rattle.cb_measure.specs.inner.Finding.{figure_at, best_at, run_at};

use crate::numbers::{Numbers, number};
use crate::row::Row;
use cb_paths::NoMemory;
use std::alloc::Global;
use std::collections::HashMap;
use std::hash::Hash;

/// The best figures, by the numbers of a problem and a platform.
pub(crate) type Best = HashMap<(u32, u32), u64>;

/// The figures, by the numbers of a problem, an application and a platform.
pub(crate) type Runs = HashMap<(u32, u32, u32), u64>;

/// The lesser of two figures, of which 0 is none.
fn better(some: u64, other: u64) -> u64
    ensures { result ≡ better some other }
{
    if some == 0 {
        other
    } else if other == 0 {
        some
    } else {
        some.min(other)
    }
}

/// Lowers the figure at a key to another one, where that is better.
fn lower<K: Eq + Hash + Copy + Drop>(
    figures: &mut HashMap<K, u64>,
    key: K,
    figure: u64,
) -> Result<(), NoMemory>
    ensures { OnOk result ((q : K) → figure_at K.eq figures.new q ≡ (if K.eq key q then better (figure_at K.eq figures.old key) figure else figure_at K.eq figures.old q)) }
{
    let known = figures.get(&key).copied().unwrap_or(0);
    figures.insert(key, better(known, figure))?;
    Ok(())
}

/// The best figure of a problem on a platform, by their numbers, or 0 where there is none.
pub(crate) fn best_at(best: &Best, problem: u32, platform: u32) -> u64
    ensures { result ≡ best_at best.now problem platform }
{
    best.get(&(problem, platform)).copied().unwrap_or(0)
}

/// The figure of a problem, an application and a platform, by their numbers, or 0 where there is none.
pub(crate) fn run_at(runs: &Runs, problem: u32, application: u32, platform: u32) -> u64
    ensures { result ≡ run_at runs.now problem application platform }
{
    runs.get(&(problem, application, platform))
        .copied()
        .unwrap_or(0)
}

/// The best figures of rows.
pub(crate) fn best_of(alloc: Global, rows: &[Row], numbers: &Numbers) -> Result<Best, NoMemory>
    requires { IsNumbering (number_in numbers.now) rows.now }
    ensures { IfOk result (λ best. (p h : List ℕ) → best_at best (number_in numbers.now p) (number_in numbers.now h) ≡ best_on rows.now p h) }
{
    let mut best = HashMap::new(alloc);
    'rows: for row in rows {
        let problem = number(numbers, row.problem.as_slice());
        let platform = number(numbers, row.platform.as_slice());
        lower(&mut best, (problem, platform), row.fom)?;
    }
    Ok(best)
}

/// The figures of the applications of rows.
pub(crate) fn runs_of(alloc: Global, rows: &[Row], numbers: &Numbers) -> Result<Runs, NoMemory>
    requires { IsNumbering (number_in numbers.now) rows.now }
    ensures { IfOk result (λ runs. (p a h : List ℕ) → run_at runs (number_in numbers.now p) (number_in numbers.now a) (number_in numbers.now h) ≡ figure_on rows.now p a h) }
{
    let mut runs = HashMap::new(alloc);
    'rows: for row in rows {
        let problem = number(numbers, row.problem.as_slice());
        let application = number(numbers, row.application.as_slice());
        let platform = number(numbers, row.platform.as_slice());
        lower(&mut runs, (problem, application, platform), row.fom)?;
    }
    Ok(runs)
}
