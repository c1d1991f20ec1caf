//! The measurements of a file.
ghost use Rattle.std.specs.Prelude.{◌≡◌, ◌==◌, ◌≤◌, true, length, IfOk, Err, Ok};
ghost use Rattle.std.specs.List.{list_all};
ghost use Rattle.cb_measure.specs.Reading.{measurements};
ghost use Rattle.cb_measure.specs.declared.bad_csv.BadCsv.{BadCsv};

use crate::bad_csv::CsvFault;
use crate::index::{Index, index_of};
use crate::reading::read_rows;
use crate::row::Row;
use cb_paths::NoMemory;
use std::alloc::Global;
use std::marker::Model;

/// The measurements of a file, which contracts see as the list of its rows in their order.
#[derive(Drop)]
pub struct Rows {
    pub(crate) rows: Vec<Row>,
    pub(crate) index: Index,
}

impl Model for Rows {
    ghost use Rattle.std.specs.Prelude.{List};
    ghost use Rattle.cb_measure.specs.declared.row.Row.{Row};

    ghost Value = { List Row };

    ghost use Rattle.cb_measure.specs.inner.Finding.{IsTable};

    ghost view = { λ r. r.rows.items };

    ghost invariant = { λ r. IsTable r.rows.items r.index };
}

impl Rows {
    ghost use Rattle.cb_measure.specs.inner.Finding.{is_small};

    /// The measurements with these rows.
    pub(crate) fn new(alloc: Global, rows: Vec<Row>) -> Result<Rows, NoMemory>
        requires few { length rows.items ≤ 100000 }
        requires small { list_all is_small rows.items ≡ true }
        ensures { IfOk result (λ r. r ≡ rows.items) }
    {
        let index = index_of(alloc, rows.as_slice())?;
        Ok(Rows { rows, index })
    }

    /// The rows in the order of the file.
    pub fn as_slice(&self) -> &[Row]
        ensures { result.now ≡ self.now }
    {
        self.rows.as_slice()
    }

    /// The number of rows.
    pub fn len(&self) -> usize
        ensures { result ≡ length self.now }
    {
        self.rows.len()
    }

    /// Whether there is no row.
    pub fn is_empty(&self) -> bool
        ensures { result ≡ (length self.now == 0) }
    {
        self.rows.is_empty()
    }
}

/// Reads a file of measurements: CSV with a header, in which the columns `problem`, `platform`, `application` and
/// `fom` stand in any order. It answers the rows of the file, or its first fault; its other error is out of memory.
pub fn read(alloc: Global, bytes: &[u8]) -> Result<Rows, CsvFault>
    ensures rows { IfOk result (λ rows. measurements bytes.now ≡ Ok rows) }
    ensures bad { (fault : BadCsv) → result ≡ Err (CsvFault.Bad fault) → measurements bytes.now ≡ Err fault }
{
    read_rows(alloc, bytes)
}
