//! The records of a file, one after the other.
ghost use Rattle.std.specs.Prelude.{◌≡◌, ◌++◌, ◌∷◌, ℕ, List, [], true, false, Ok};
ghost use Rattle.csv.specs.Records.{fields_of};
ghost use Rattle.cb_measure.specs.inner.Records.{IsBehind};
ghost use Rattle.cb_measure.specs.Reading.{field_of, records_of};

use cb_paths::NoMemory;
use csv::{ByteRecord, Reader, ReaderBuilder};
use std::alloc::Global;

/// A reader of the records of a file. Records of any length are read, and no header is told from them.
pub(crate) fn opened(alloc: Global, text: &[u8]) -> Reader<&[u8]>
    ensures { IsBehind result text.now [] }
{
    ReaderBuilder::new()
        .has_headers(false)
        .flexible(true)
        .from_reader(alloc, text)
}

/// Reads the next record, and tells whether there was one. A slice has no faults of its own, so that memory alone is
/// refused.
pub(crate) fn next(reader: &mut Reader<&[u8]>, record: &mut ByteRecord) -> Result<bool, NoMemory>
    ensures found { result ≡ Ok true → (text : List ℕ) (seen : List (List (List ℕ))) → IsBehind reader.old text seen → IsBehind reader.new text (seen ++ fields_of record.new ∷ []) }
    ensures ended { result ≡ Ok false → (text : List ℕ) (seen : List (List (List ℕ))) → IsBehind reader.old text seen → records_of text ≡ seen }
{
    match reader.read_byte_record(record) {
        Ok(found) => Ok(found),
        Err(_refused) => Err(NoMemory),
    }
}

/// The field of a record in a column, or no bytes where the record is too short.
pub(crate) fn field(record: &ByteRecord, column: usize) -> &[u8]
    ensures { result.now ≡ field_of (fields_of record.now) column }
{
    match record.get(column) {
        Some(field) => field,
        None => b"",
    }
}
