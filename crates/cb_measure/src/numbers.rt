//! Numbers of names, by which figures are found.
ghost use Rattle.std.specs.Prelude.{◌≡◌, ℕ, List, Some, IsSome, IfOk, OnOk};
ghost use Rattle.std.specs.HashMap.{hash_map_len};
ghost use Rattle.cb_measure.specs.inner.Numbers.{number_found, number_in, AreApart, IsNumbering};

use crate::row::Row;
use cb_paths::NoMemory;
use std::alloc::Global;
use std::collections::HashMap;

/// What stands in the place of the number of a name that has none.
const ABSENT: u32 = u32::MAX;

/// A number for each name.
pub(crate) type Numbers = HashMap<Vec<u8>, u32>;

/// The number of a name, or 2^32 - 1 where it has none.
pub(crate) fn number(numbers: &Numbers, name: &[u8]) -> u32
    ensures { result ≡ number_in numbers.now name.now }
{
    numbers.get(name).copied().unwrap_or(ABSENT)
}

/// Gives a name a number, where it has none. Where there is no number left, it counts as out of memory.
fn add(alloc: Global, numbers: &mut Numbers, name: &[u8]) -> Result<(), NoMemory>
    ensures known { OnOk result (IsSome (number_found numbers.new name.now)) }
    ensures kept { OnOk result ((q : List ℕ) (n : ℕ) → number_found numbers.old q ≡ Some n → number_found numbers.new q ≡ Some n) }
    ensures apart { OnOk result (AreApart (number_found numbers.old) (hash_map_len numbers.old) → AreApart (number_found numbers.new) (hash_map_len numbers.new)) }
{
    if numbers.contains_key(name) {
        return Ok(());
    }
    let count = numbers.len();
    if count >= ABSENT as usize {
        return Err(NoMemory);
    }
    numbers.insert(Vec::from_slice(alloc, name)?, count as u32)?;
    Ok(())
}

/// A number for each name of rows.
pub(crate) fn numbers_of(alloc: Global, rows: &[Row]) -> Result<Numbers, NoMemory>
    ensures { IfOk result (λ numbers. IsNumbering (number_in numbers) rows.now) }
{
    let mut numbers = HashMap::new(alloc);
    'rows: for row in rows {
        add(alloc, &mut numbers, row.problem.as_slice())?;
        add(alloc, &mut numbers, row.platform.as_slice())?;
        add(alloc, &mut numbers, row.application.as_slice())?;
    }
    Ok(numbers)
}
