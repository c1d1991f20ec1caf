//! Why a source was not read to its end.
ghost use Rattle.std.specs.Prelude.{◌≡◌};
ghost use Rattle.cb_outside.specs.declared.read_error.ReadError.TheVariants.{Failed, NoMemory};

use crate::failed;
use std::alloc::AllocError;
use thiserror::Error;

/// Why a source was not read to its end.
#[derive(Clone, Copy, Debug, PartialEq, Eq, Error)]
pub enum ReadError {
    /// A read failed.
    #[error("a read failed")]
    Failed,
    /// There was not enough memory.
    #[error("out of memory")]
    NoMemory,
}

impl From<failed::Failed> for ReadError {
    ghost from_gives = { λ _ e. e ≡ Failed };

    fn from(_error: failed::Failed) -> ReadError {
        ReadError::Failed
    }
}

impl From<AllocError> for ReadError {
    ghost from_gives = { λ _ e. e ≡ NoMemory };

    fn from(_error: AllocError) -> ReadError {
        ReadError::NoMemory
    }
}
