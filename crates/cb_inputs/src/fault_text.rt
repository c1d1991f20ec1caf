//! The texts of refusals.
ghost use Rattle.std.specs.Prelude.{◌≡◌, ◌++◌, codes, decimal, OnOk};
ghost use Rattle.cb_analysis.specs.Faults.{kind_name, kind_number};
ghost use Rattle.cb_compdb.specs.Faults.{fault_name, fault_number};
ghost use Rattle.cb_inputs.specs.Faults.{body_text, csv_name, csv_number, csv_row, entry_text, head_text, limit_name, place_text, refused_text, row_text};
ghost use Rattle.cb_inputs.specs.Texts.{most};

use crate::refused::{BodyFault, LimitName, Refused};
use cb_analysis::BadAnalysis;
use cb_compdb::BadDatabase;
use cb_measure::BadCsv;
use cb_paths::NoMemory;
use itoa::Buffer;

/// Adds a number in decimal digits.
fn push_number(text: &mut Vec<u8>, number: u64) -> Result<(), NoMemory>
    ensures { OnOk result (text.new.items ≡ text.old.items ++ decimal number) }
{
    text.extend_from_slice(Buffer::new().format(number).as_bytes())?;
    Ok(())
}

/// Adds what a fault has before its place.
#[tactic(auto, unfolding(crate::specs::Faults::head_text))]
fn push_head(text: &mut Vec<u8>, input: &[u8], number: u32, name: &str) -> Result<(), NoMemory>
    ensures { OnOk result (text.new.items ≡ text.old.items ++ head_text input.now number name.now) }
{
    text.extend_from_slice(b"bad ")?;
    text.extend_from_slice(input)?;
    text.extend_from_slice(b" ")?;
    push_number(text, u64::from(number))?;
    text.extend_from_slice(b" ")?;
    text.extend_from_slice(name.as_bytes())?;
    Ok(())
}

/// Adds a place that is not empty, behind a space.
fn push_place(text: &mut Vec<u8>, place: &[u8]) -> Result<(), NoMemory>
    ensures { OnOk result (text.new.items ≡ text.old.items ++ place_text place.now) }
{
    if place.is_empty() {
        return Ok(());
    }
    text.extend_from_slice(b" ")?;
    text.extend_from_slice(place)?;
    Ok(())
}

/// Adds the number of an entry, behind a space.
fn push_place_number(text: &mut Vec<u8>, entry: u32) -> Result<(), NoMemory>
    ensures { OnOk result (text.new.items ≡ text.old.items ++ codes " " ++ decimal entry) }
{
    text.extend_from_slice(b" ")?;
    push_number(text, u64::from(entry))
}

/// Adds the entry of a fault that is told of one, behind a space.
fn push_entry(text: &mut Vec<u8>, bad: &BadDatabase) -> Result<(), NoMemory>
    ensures { OnOk result (text.new.items ≡ text.old.items ++ entry_text bad.now) }
{
    match bad {
        BadDatabase::NotObject(entry) => push_place_number(text, *entry),
        BadDatabase::Field(entry) => push_place_number(text, *entry),
        BadDatabase::OpenQuote(entry) => push_place_number(text, *entry),
        BadDatabase::NotJson => Ok(()),
        BadDatabase::NotArray => Ok(()),
        BadDatabase::TooMany => Ok(()),
    }
}

/// The number of a fault of measurements.
fn csv_number(bad: &BadCsv) -> u32
    ensures { result ≡ csv_number bad.now }
{
    match bad {
        BadCsv::Header => 1,
        BadCsv::Fields(_) => 2,
        BadCsv::Fom(_) => 3,
        BadCsv::Name(_) => 4,
        BadCsv::TooMany(_) => 5,
    }
}

/// Its name.
fn csv_name(bad: &BadCsv) -> &'static str
    ensures { result.now ≡ csv_name bad.now }
{
    match bad {
        BadCsv::Header => "Header",
        BadCsv::Fields(_) => "Fields",
        BadCsv::Fom(_) => "Fom",
        BadCsv::Name(_) => "Name",
        BadCsv::TooMany(_) => "TooMany",
    }
}

/// The row that it is told of.
fn csv_row(bad: &BadCsv) -> u32
    ensures { result ≡ csv_row bad.now }
{
    match bad {
        BadCsv::Header => 1,
        BadCsv::Fields(row) => *row,
        BadCsv::Fom(row) => *row,
        BadCsv::Name(row) => *row,
        BadCsv::TooMany(row) => *row,
    }
}

/// Adds the text of a fault of an analysis.
fn push_analysis(text: &mut Vec<u8>, bad: &BadAnalysis) -> Result<(), NoMemory>
    ensures { OnOk result
        (text.new.items
        ≡ text.old.items ++ head_text (codes "analysis") (kind_number bad.now.kind) (kind_name bad.now.kind)
        ++ place_text bad.now.place) }
{
    push_head(text, b"analysis", bad.kind.number(), bad.kind.name())?;
    push_place(text, bad.place.as_slice())
}

/// Adds the text of a fault of a database.
fn push_database(text: &mut Vec<u8>, bad: &BadDatabase) -> Result<(), NoMemory>
    ensures { OnOk result
        (text.new.items ≡ text.old.items ++ head_text (codes "database") (fault_number bad.now) (fault_name bad.now)
        ++ entry_text bad.now) }
{
    push_head(text, b"database", bad.number(), bad.name())?;
    push_entry(text, bad)
}

/// Adds the row of a fault of measurements.
#[tactic(auto, unfolding(crate::specs::Faults::row_text))]
fn push_row(text: &mut Vec<u8>, bad: &BadCsv) -> Result<(), NoMemory>
    ensures { OnOk result (text.new.items ≡ text.old.items ++ row_text bad.now) }
{
    text.extend_from_slice(b" row ")?;
    push_number(text, u64::from(csv_row(bad)))
}

/// Adds the text of a fault of measurements.
fn push_csv(text: &mut Vec<u8>, bad: &BadCsv) -> Result<(), NoMemory>
    ensures { OnOk result
        (text.new.items ≡ text.old.items ++ head_text (codes "measurements") (csv_number bad.now) (csv_name bad.now)
        ++ row_text bad.now) }
{
    push_head(text, b"measurements", csv_number(bad), csv_name(bad))?;
    push_row(text, bad)
}

impl LimitName {
    /// Its name in texts.
    pub fn name(self) -> &'static str
        ensures { result.now ≡ limit_name self }
    {
        match self {
            LimitName::Sources => "sources",
            LimitName::SourceBytes => "source-bytes",
            LimitName::Databases => "databases",
            LimitName::DatabaseBytes => "database-bytes",
            LimitName::Commands => "commands",
        }
    }

    /// How much may be kept: 20,000 sources, 64 databases, 268,435,456 bytes of all sources together, and as many of all
    /// databases, 20,000 commands.
    pub fn most(self) -> u64
        ensures { result ≡ most self }
    {
        match self {
            LimitName::Sources => 20_000,
            LimitName::SourceBytes => 268_435_456,
            LimitName::Databases => 64,
            LimitName::DatabaseBytes => 268_435_456,
            LimitName::Commands => 20_000,
        }
    }
}

impl BodyFault {
    /// Adds its text to another: `bad source`, `bad analysis`, `bad database` or `bad measurements`, the number and
    /// the name of the fault, and then `line` with the line of a source, the place in an analysis unless it is empty,
    /// the entry of a database where the fault is told of one, or `row` with the row of measurements. Its one error is
    /// out of memory, after which the text may hold a part of it.
    pub fn push_text(&self, text: &mut Vec<u8>) -> Result<(), NoMemory>
        ensures { OnOk result (text.new.items ≡ text.old.items ++ body_text self.now) }
    {
        match self {
            BodyFault::Source(bad) => bad.push_text(text),
            BodyFault::Analysis(bad) => push_analysis(text, bad),
            BodyFault::Database(bad) => push_database(text, bad),
            BodyFault::Csv(bad) => push_csv(text, bad),
        }
    }
}

/// Adds the text of a limit that would be passed.
fn push_limit(text: &mut Vec<u8>, name: LimitName, amount: u64) -> Result<(), NoMemory>
    ensures { OnOk result
        (text.new.items ≡ text.old.items ++ codes "limit " ++ limit_name name ++ codes " " ++ decimal amount
        ++ codes " " ++ decimal (most name)) }
{
    text.extend_from_slice(b"limit ")?;
    text.extend_from_slice(name.name().as_bytes())?;
    text.extend_from_slice(b" ")?;
    push_number(text, amount)?;
    text.extend_from_slice(b" ")?;
    push_number(text, name.most())
}

/// Adds a fixed text.
fn push_fixed(text: &mut Vec<u8>, fixed: &[u8]) -> Result<(), NoMemory>
    ensures { OnOk result (text.new.items ≡ text.old.items ++ fixed.now) }
{
    text.extend_from_slice(fixed)?;
    Ok(())
}

impl Refused {
    /// Adds its text to another: that of the fault, `not found`, `limit NAME GOT LIMIT`, `store failed` or `out of
    /// memory`. Its one error is out of memory, after which the text may hold a part of it.
    pub fn push_text(&self, text: &mut Vec<u8>) -> Result<(), NoMemory>
        ensures { OnOk result (text.new.items ≡ text.old.items ++ refused_text self.now) }
    {
        match self {
            Refused::Body(fault) => fault.push_text(text),
            Refused::Absent => push_fixed(text, b"not found"),
            Refused::Limit(name, amount) => push_limit(text, *name, *amount),
            Refused::Store => push_fixed(text, b"store failed"),
            Refused::NoMemory => push_fixed(text, b"out of memory"),
        }
    }
}
