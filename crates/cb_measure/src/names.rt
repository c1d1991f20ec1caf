//! Different names, rising by their bytes.
ghost use Rattle.std.specs.Prelude.{◌≡◌, ◌==◌, ℕ, List, [], if◌then◌else◌, IfOk, OnOk};
ghost use Rattle.std.specs.Ordering.{nat_cmp};
ghost use Rattle.std.specs.Cmp.Lexicographic.{slice_cmp};
ghost use Rattle.std.specs.BTreeSet.{insert_key, keys};
ghost use Rattle.cb_measure.specs.Metrics.{problems_of, applications_of, platforms_of};
ghost use Rattle.cb_measure.specs.inner.Numbers.{number_in, IsNumbering};
ghost use Rattle.cb_measure.specs.inner.Finding.{names_at};

use crate::numbers::{Numbers, number};
use crate::row::Row;
use cb_paths::{Bytes, NoMemory, Texts};
use std::alloc::Global;
use std::collections::{BTreeSet, HashMap};

/// Sets of names, by numbers.
pub(crate) type NameSets = HashMap<u32, BTreeSet<Bytes>>;

/// The names of a set in their order.
pub(crate) fn listed(alloc: Global, names: &BTreeSet<Bytes>) -> Result<Texts, NoMemory>
    ensures { IfOk result (λ texts. texts ≡ keys names.now) }
{
    let mut texts = Texts::new(alloc);
    'names: for name in names.iter() {
        texts.push(name.copy(alloc)?)?;
    }
    Ok(texts)
}

/// The names of the set at a number in their order.
pub(crate) fn names_at(alloc: Global, sets: &NameSets, number: u32) -> Result<Texts, NoMemory>
    ensures { IfOk result (λ texts. texts ≡ names_at sets.now number) }
{
    match sets.get(&number) {
        Some(names) => listed(alloc, names),
        None => Ok(Texts::new(alloc)),
    }
}

/// The problems of rows.
pub(crate) fn problems_of(alloc: Global, rows: &[Row]) -> Result<BTreeSet<Bytes>, NoMemory>
    ensures { IfOk result (λ names. keys names ≡ problems_of rows.now) }
{
    let mut names = BTreeSet::new(alloc);
    'rows: for row in rows {
        names.insert(row.problem.copy(alloc)?)?;
    }
    Ok(names)
}

/// Takes the set at a number out, which is empty where there is none.
fn take(alloc: Global, sets: &mut NameSets, number: u32) -> BTreeSet<Bytes>
    ensures names { keys result ≡ names_at sets.old number }
    ensures others { (q : ℕ) → names_at sets.new q ≡ (if number == q then [] else names_at sets.old q) }
{
    match sets.remove(&number) {
        Some(names) => names,
        None => BTreeSet::new(alloc),
    }
}

/// Adds a name to the set at a number.
fn add(alloc: Global, sets: &mut NameSets, number: u32, name: &Bytes) -> Result<(), NoMemory>
    ensures { OnOk result ((q : ℕ) → names_at sets.new q ≡ (if number == q then insert_key (slice_cmp nat_cmp) (names_at sets.old number) name.now else names_at sets.old q)) }
{
    let mut names = take(alloc, sets, number);
    names.insert(name.copy(alloc)?)?;
    sets.insert(number, names)?;
    Ok(())
}

/// The applications of rows, by the numbers of problems.
pub(crate) fn applications_of(
    alloc: Global,
    rows: &[Row],
    numbers: &Numbers,
) -> Result<NameSets, NoMemory>
    requires { IsNumbering (number_in numbers.now) rows.now }
    ensures { IfOk result (λ sets. (p : List ℕ) → names_at sets (number_in numbers.now p) ≡ applications_of rows.now p) }
{
    let mut sets = HashMap::new(alloc);
    'rows: for row in rows {
        let problem = number(numbers, row.problem.as_slice());
        add(alloc, &mut sets, problem, &row.application)?;
    }
    Ok(sets)
}

/// The platforms of rows, by the numbers of problems.
pub(crate) fn platforms_of(
    alloc: Global,
    rows: &[Row],
    numbers: &Numbers,
) -> Result<NameSets, NoMemory>
    requires { IsNumbering (number_in numbers.now) rows.now }
    ensures { IfOk result (λ sets. (p : List ℕ) → names_at sets (number_in numbers.now p) ≡ platforms_of rows.now p) }
{
    let mut sets = HashMap::new(alloc);
    'rows: for row in rows {
        let problem = number(numbers, row.problem.as_slice());
        add(alloc, &mut sets, problem, &row.platform)?;
    }
    Ok(sets)
}
