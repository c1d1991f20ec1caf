//! What is kept beside the program, and why a keeper refuses.
ghost use Rattle.std.specs.Prelude.{◌≡◌};

use cb_paths::{Bytes, NoMemory};
use thiserror::Error;

/// The tables in which inputs are kept, one for each kind of input.
#[derive(Clone, Copy, Debug, PartialEq, Eq)]
pub enum Table {
    /// The analysis file, at the empty key.
    Analysis,
    /// Compilation databases by their paths.
    Databases,
    /// Sources by their paths.
    Sources,
    /// The measurements, at the empty key.
    Measurements,
}

/// An input that is kept.
#[derive(Drop)]
pub struct Kept {
    /// The table in which it stands.
    pub table: Table,
    /// The key at which it stands there.
    pub key: Bytes,
    /// Its bytes.
    pub bytes: Bytes,
}

/// Why a keeper refuses a call.
#[derive(Clone, Copy, Debug, PartialEq, Eq, Error)]
pub enum KeepFault {
    /// What lies behind the keeper failed.
    #[error("the keeper failed")]
    Failed,
    /// There was not enough memory.
    #[error("out of memory")]
    NoMemory,
}

impl From<NoMemory> for KeepFault {
    ghost use Rattle.cb_outside.specs.declared.kept.KeepFault.TheVariants as fault;

    ghost from_gives = { λ _ e. e ≡ fault.NoMemory };

    fn from(_error: NoMemory) -> KeepFault {
        KeepFault::NoMemory
    }
}
