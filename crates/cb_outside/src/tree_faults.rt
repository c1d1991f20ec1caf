//! Why a folder was not listed, and why a file was not read.
ghost use Rattle.std.specs.Prelude.{◌≡◌};

use cb_paths::NoMemory;
use thiserror::Error;

/// Why a folder was not listed.
#[derive(Clone, Copy, Debug, PartialEq, Eq, Error)]
pub enum ListFault {
    /// There are more names than were asked for.
    #[error("too many names")]
    TooMany,
    /// The tree failed.
    #[error("a folder was not listed")]
    Failed,
    /// There was not enough memory.
    #[error("out of memory")]
    NoMemory,
}

impl From<NoMemory> for ListFault {
    ghost use Rattle.cb_outside.specs.declared.tree_faults.ListFault.TheVariants as fault;

    ghost from_gives = { λ _ e. e ≡ fault.NoMemory };

    fn from(_error: NoMemory) -> ListFault {
        ListFault::NoMemory
    }
}

/// Why a file was not read.
#[derive(Clone, Copy, Debug, PartialEq, Eq, Error)]
pub enum ReadFault {
    /// There is no such file.
    #[error("no such file")]
    Absent,
    /// The file has more bytes than were asked for.
    #[error("the file has too many bytes")]
    TooLong,
    /// The tree failed.
    #[error("a file was not read")]
    Failed,
    /// There was not enough memory.
    #[error("out of memory")]
    NoMemory,
}

impl From<NoMemory> for ReadFault {
    ghost use Rattle.cb_outside.specs.declared.tree_faults.ReadFault.TheVariants as fault;

    ghost from_gives = { λ _ e. e ≡ fault.NoMemory };

    fn from(_error: NoMemory) -> ReadFault {
        ReadFault::NoMemory
    }
}
