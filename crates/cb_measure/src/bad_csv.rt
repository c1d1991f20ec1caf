//! What is wrong with a file of measurements.
use cb_paths::NoMemory;
use std::alloc::{AllocError, AllocFailed};
use thiserror::Error;

/// Why a file is no file of measurements: the first fault by rows, and in a row the first of `Header`, `TooMany` for
/// the number of rows, `Fields`, `Name`, `TooMany` for the number of platforms, `Fom`. Rows are numbered from 1, the
/// header first.
#[derive(Clone, Copy, Debug, PartialEq, Eq, Error)]
pub enum BadCsv {
    /// There is no header, or one of the names `problem`, `platform`, `application` and `fom` is missing in it or
    /// stands twice.
    #[error("one of the columns problem, platform, application and fom is missing or stands twice")]
    Header,
    /// The row has another number of fields than the header.
    #[error("row {0} has another number of fields than the header")]
    Fields(u32),
    /// The figure of the row is no decimal number of the form that is read, or is positive and below a millionth.
    #[error("row {0} has a figure that is no decimal number, or is too small")]
    Fom(u32),
    /// The problem, the platform or the application of the row is no name.
    #[error("row {0} has a problem, a platform or an application that is no name")]
    Name(u32),
    /// The row is the 100,001st after the header, or has the 65th different platform.
    #[error("row {0} is one too many, or has one platform too many")]
    TooMany(u32),
}

/// Why measurements are not read.
#[derive(Clone, Copy, Debug, PartialEq, Eq, Error)]
pub enum CsvFault {
    /// The file is no file of measurements.
    #[error("{0}")]
    Bad(BadCsv),
    /// There was not enough memory.
    #[error("out of memory")]
    NoMemory,
}

impl From<NoMemory> for CsvFault {
    ghost use Rattle.std.specs.Prelude.{◌≡◌};
    ghost use Rattle.cb_measure.specs.declared.bad_csv.CsvFault.TheVariants as fault;

    ghost from_gives = { λ _ e. e ≡ fault.NoMemory };

    fn from(_error: NoMemory) -> CsvFault {
        CsvFault::NoMemory
    }
}

impl From<AllocError> for CsvFault {
    ghost use Rattle.std.specs.Prelude.{◌≡◌};
    ghost use Rattle.cb_measure.specs.declared.bad_csv.CsvFault.TheVariants as fault;

    ghost from_gives = { λ _ e. e ≡ fault.NoMemory };

    fn from(_error: AllocError) -> CsvFault {
        CsvFault::NoMemory
    }
}

impl<T: Drop> From<AllocFailed<T>> for CsvFault {
    ghost use Rattle.std.specs.Prelude.{◌≡◌};
    ghost use Rattle.cb_measure.specs.declared.bad_csv.CsvFault.TheVariants as fault;

    ghost from_gives = { λ _ e. e ≡ fault.NoMemory };

    fn from(_error: AllocFailed<T>) -> CsvFault {
        CsvFault::NoMemory
    }
}
