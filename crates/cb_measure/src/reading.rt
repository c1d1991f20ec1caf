//! The rows of a file, or its first fault.
ghost use Rattle.std.specs.Prelude.{◌≡◌, ◌++◌, ◌∷◌, ◌+◌, ◌<◌, ◌≤◌, ◌&&◌, true, ℕ, List, [], length, nat_le, Ok, Err, IfOk, OnOk};
ghost use Rattle.std.specs.Ordering.{nat_cmp};
ghost use Rattle.std.specs.Cmp.Lexicographic.{slice_cmp};
ghost use Rattle.std.specs.BTreeSet.{insert_key, keys};
ghost use Rattle.csv.specs.Records.{fields_of};
ghost use Rattle.cb_paths.specs.Names.{is_name};
ghost use Rattle.cb_measure.specs.Names.{names_of};
ghost use Rattle.cb_measure.specs.inner.Finding.{is_small};
ghost use Rattle.cb_measure.specs.Reading.{row_of_fields, row_of, platforms_in, measurements};
ghost use Rattle.cb_measure.specs.declared.row.Row.{Row};
ghost use Rattle.cb_measure.specs.declared.bad_csv.BadCsv.{BadCsv};

use crate::bad_csv::{BadCsv, CsvFault};
use crate::figure::figure;
use crate::header::{Columns, columns_of};
use crate::records::{field, next, opened};
use crate::row::Row;
use crate::rows::Rows;
use cb_paths::{Bytes, NoMemory, is_name};
use csv::ByteRecord;
use std::alloc::Global;
use std::collections::BTreeSet;

/// The rows behind the header at most.
const ROW_LIMIT: u32 = 100_000;

/// The different platforms of a file at most.
const PLATFORM_LIMIT: usize = 64;

/// The number of the first row behind the header.
const FIRST_ROW: u32 = 2;

/// Whether all three are names.
fn are_names(problem: &[u8], platform: &[u8], application: &[u8]) -> bool
    ensures { result ≡ (is_name problem.now && is_name platform.now && is_name application.now) }
{
    is_name(problem) && is_name(platform) && is_name(application)
}

/// Adds a platform to those that were met, and tells whether they are within the limit.
fn meet(alloc: Global, platforms: &mut BTreeSet<Bytes>, platform: &[u8]) -> Result<bool, NoMemory>
    ensures met { OnOk result (keys platforms.new ≡ insert_key (slice_cmp nat_cmp) (keys platforms.old) platform.now) }
    ensures few { IfOk result (λ few. few ≡ nat_le (length (keys platforms.new)) 64) }
{
    platforms.insert(Bytes::from_slice(alloc, platform)?)?;
    Ok(platforms.len() <= PLATFORM_LIMIT)
}

/// The row of four fields behind other rows, or its first fault. `platforms` are those of the rows before, and then
/// of this one too.
fn row_of_fields(
    alloc: Global,
    number: u32,
    platforms: &mut BTreeSet<Bytes>,
    problem: &[u8],
    platform: &[u8],
    application: &[u8],
    fom: &[u8],
) -> Result<Row, CsvFault>
    ensures row { IfOk result (λ row. (before : List Row) → keys platforms.old ≡ names_of (platforms_in before)
        → row_of_fields before number problem.now platform.now application.now fom.now ≡ Ok row) }
    ensures met { IfOk result (λ row. (before : List Row) → keys platforms.old ≡ names_of (platforms_in before)
        → keys platforms.new ≡ names_of (platforms_in (before ++ row ∷ []))) }
    ensures few { OnOk result (length (keys platforms.new) ≤ 64) }
    ensures small { IfOk result (λ row. is_small row ≡ true) }
    ensures bad { (fault : BadCsv) → result ≡ Err (CsvFault.Bad fault) → (before : List Row) → keys platforms.old ≡ names_of (platforms_in before)
        → row_of_fields before number problem.now platform.now application.now fom.now ≡ Err fault }
{
    if !are_names(problem, platform, application) {
        return Err(CsvFault::Bad(BadCsv::Name(number)));
    }
    if !meet(alloc, platforms, platform)? {
        return Err(CsvFault::Bad(BadCsv::TooMany(number)));
    }
    let Some(fom) = figure(fom) else {
        return Err(CsvFault::Bad(BadCsv::Fom(number)));
    };
    let row = Row::new(alloc, problem, platform, application, fom)?;
    Ok(row)
}

/// The row of a record behind other rows, or its first fault.
fn row_of(
    alloc: Global,
    columns: &Columns,
    number: u32,
    platforms: &mut BTreeSet<Bytes>,
    record: &ByteRecord,
) -> Result<Row, CsvFault>
    ensures row { IfOk result (λ row. (before : List Row) → number ≡ length before + 2 → keys platforms.old ≡ names_of (platforms_in before)
        → row_of columns.now before (fields_of record.now) ≡ Ok row) }
    ensures met { IfOk result (λ row. (before : List Row) → keys platforms.old ≡ names_of (platforms_in before)
        → keys platforms.new ≡ names_of (platforms_in (before ++ row ∷ []))) }
    ensures few { OnOk result (length (keys platforms.new) ≤ 64) }
    ensures small { IfOk result (λ row. is_small row ≡ true) }
    ensures room { OnOk result (number < 100002) }
    ensures bad { (fault : BadCsv) → result ≡ Err (CsvFault.Bad fault) → (before : List Row) → number ≡ length before + 2
        → keys platforms.old ≡ names_of (platforms_in before) → row_of columns.now before (fields_of record.now) ≡ Err fault }
{
    if number >= ROW_LIMIT + FIRST_ROW {
        return Err(CsvFault::Bad(BadCsv::TooMany(number)));
    }
    if record.len() != columns.width {
        return Err(CsvFault::Bad(BadCsv::Fields(number)));
    }
    row_of_fields(
        alloc,
        number,
        platforms,
        field(record, columns.problem),
        field(record, columns.platform),
        field(record, columns.application),
        field(record, columns.fom),
    )
}

/// The rows of a file, or its first fault.
pub(crate) fn read_rows(alloc: Global, text: &[u8]) -> Result<Rows, CsvFault>
    ensures rows { IfOk result (λ rows. measurements text.now ≡ Ok rows) }
    ensures bad { (fault : BadCsv) → result ≡ Err (CsvFault.Bad fault) → measurements text.now ≡ Err fault }
{
    let mut reader = opened(alloc, text);
    let mut record = ByteRecord::new(alloc);
    if !next(&mut reader, &mut record)? {
        return Err(CsvFault::Bad(BadCsv::Header));
    }
    let Some(columns) = columns_of(&record) else {
        return Err(CsvFault::Bad(BadCsv::Header));
    };
    let mut platforms = BTreeSet::new(alloc);
    let mut rows = Vec::new(alloc);
    'rows: for number in FIRST_ROW..ROW_LIMIT + FIRST_ROW + 1 {
        if !next(&mut reader, &mut record)? {
            return Ok(Rows::new(alloc, rows)?);
        }
        rows.push(row_of(alloc, &columns, number, &mut platforms, &record)?)?;
    }
    unreachable!()
}
