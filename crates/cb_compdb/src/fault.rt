//! What is wrong with a compilation database.
use cb_paths::NoMemory;
use std::alloc::AllocFailed;
use std::error::Error;
use std::fmt;

/// Why a file is no compilation database. The first of this order decides: `NotJson`, `NotArray`, `TooMany`, and then
/// the first entry with a fault, in which `NotObject` comes before `Field` and that before `OpenQuote`. Entries are
/// numbered from 0.
#[derive(Clone, Copy, Debug, PartialEq, Eq)]
pub enum BadDatabase {
    /// The file is no JSON.
    NotJson,
    /// The JSON value is no array.
    NotArray,
    /// The entry is no object.
    NotObject(u32),
    /// The entry lacks `directory`, `file`, or `arguments` and `command`, or has one that is not of its type: a text,
    /// or an array of texts.
    Field(u32),
    /// A quote in the `command` of the entry has no end.
    OpenQuote(u32),
    /// There are more than 20,000 entries.
    TooMany,
}

impl BadDatabase {
    ghost use Rattle.std.specs.Prelude.{◌≡◌};
    ghost use Rattle.cb_compdb.specs.Faults.{fault_number, fault_name};

    /// The number of the fault, from 1.
    pub fn number(&self) -> u32
        ensures { result ≡ fault_number self.now }
    {
        match self {
            BadDatabase::NotJson => 1,
            BadDatabase::NotArray => 2,
            BadDatabase::NotObject(_) => 3,
            BadDatabase::Field(_) => 4,
            BadDatabase::OpenQuote(_) => 5,
            BadDatabase::TooMany => 6,
        }
    }

    /// The name of the fault.
    pub fn name(&self) -> &'static str
        ensures { result.now ≡ fault_name self.now }
    {
        match self {
            BadDatabase::NotJson => "NotJson",
            BadDatabase::NotArray => "NotArray",
            BadDatabase::NotObject(_) => "NotObject",
            BadDatabase::Field(_) => "Field",
            BadDatabase::OpenQuote(_) => "OpenQuote",
            BadDatabase::TooMany => "TooMany",
        }
    }
}

impl fmt::Display for BadDatabase {
    ghost use Rattle.std.specs.Prelude.{Some};
    ghost use Rattle.cb_compdb.specs.Faults.{bad_text};

    ghost output = { λ bad. Some (bad_text bad) };

    fn fmt<W: fmt::Write>(&self, f: &mut fmt::Formatter<W>) -> fmt::Result {
        match self {
            BadDatabase::NotJson => f.write_str("the file is no JSON"),
            BadDatabase::NotArray => f.write_str("the JSON value is no array"),
            BadDatabase::NotObject(place) => write!(f, "entry {place} is no object"),
            BadDatabase::Field(place) => {
                write!(f, "entry {place} lacks a field, or has one of another type")
            }
            BadDatabase::OpenQuote(place) => {
                write!(f, "the command of entry {place} has a quote without an end")
            }
            BadDatabase::TooMany => f.write_str("there are more than 20,000 entries"),
        }
    }
}

impl Error for BadDatabase {}

/// Why a database is not read.
#[derive(Clone, Copy, Debug, PartialEq, Eq)]
pub enum DatabaseFault {
    /// The file is no database.
    Bad(BadDatabase),
    /// There was not enough memory.
    NoMemory,
}

impl fmt::Display for DatabaseFault {
    ghost use Rattle.std.specs.Prelude.{Some};
    ghost use Rattle.cb_compdb.specs.Faults.{refusal_text};

    ghost output = { λ fault. Some (refusal_text fault) };

    fn fmt<W: fmt::Write>(&self, f: &mut fmt::Formatter<W>) -> fmt::Result {
        match self {
            DatabaseFault::Bad(bad) => write!(f, "{bad}"),
            DatabaseFault::NoMemory => f.write_str("out of memory"),
        }
    }
}

impl Error for DatabaseFault {}

impl<T: Drop> From<AllocFailed<T>> for DatabaseFault {
    ghost use Rattle.std.specs.Prelude.{◌≡◌};
    ghost use Rattle.cb_compdb.specs.declared.fault.DatabaseFault.TheVariants as fault;

    ghost from_gives = { λ _ e. e ≡ fault.NoMemory };

    fn from(_error: AllocFailed<T>) -> DatabaseFault {
        DatabaseFault::NoMemory
    }
}

/// Why an item of a database is no entry.
#[derive(Clone, Copy, Drop)]
pub(crate) enum ItemFault {
    /// It is no object.
    NotObject,
    /// It lacks a field, or has one of another type.
    Field,
    /// A quote in its command has no end.
    OpenQuote,
    /// There was not enough memory.
    NoMemory,
}

impl From<NoMemory> for ItemFault {
    ghost use Rattle.std.specs.Prelude.{◌≡◌};
    ghost use Rattle.cb_compdb.specs.declared.fault.ItemFault.TheVariants as fault;

    ghost from_gives = { λ _ e. e ≡ fault.NoMemory };

    fn from(_error: NoMemory) -> ItemFault {
        ItemFault::NoMemory
    }
}
