//! Why nothing is put in.
use std::alloc::{AllocError, AllocFailed};
use thiserror::Error;

/// Why a call puts nothing in.
#[derive(Clone, Copy, Debug, PartialEq, Eq, Error)]
pub enum PasteFault {
    /// More tokens would be put in than there is room for.
    #[error("too many tokens")]
    TooLong,
    /// There was not enough memory.
    #[error("out of memory")]
    NoMemory,
}

impl From<AllocError> for PasteFault {
    ghost use Rattle.std.specs.Prelude.{◌≡◌};
    ghost use Rattle.cb_paste.specs.declared.fault.PasteFault.TheVariants.{NoMemory};

    ghost from_gives = { λ _ e. e ≡ NoMemory };

    fn from(_error: AllocError) -> PasteFault {
        PasteFault::NoMemory
    }
}

impl<T: Drop> From<AllocFailed<T>> for PasteFault {
    ghost use Rattle.std.specs.Prelude.{◌≡◌};
    ghost use Rattle.cb_paste.specs.declared.fault.PasteFault.TheVariants.{NoMemory};

    ghost from_gives = { λ _ e. e ≡ NoMemory };

    fn from(_error: AllocFailed<T>) -> PasteFault {
        PasteFault::NoMemory
    }
}

impl From<cb_paths::NoMemory> for PasteFault {
    ghost use Rattle.std.specs.Prelude.{◌≡◌};
    ghost use Rattle.cb_paste.specs.declared.fault.PasteFault.TheVariants.{NoMemory};

    ghost from_gives = { λ _ e. e ≡ NoMemory };

    fn from(_error: cb_paths::NoMemory) -> PasteFault {
        PasteFault::NoMemory
    }
}
