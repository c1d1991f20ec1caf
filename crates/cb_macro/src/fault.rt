//! Why tokens define nothing.
use std::alloc::{AllocError, AllocFailed};
use thiserror::Error;

/// Why tokens define nothing.
#[derive(Clone, Copy, Debug, PartialEq, Eq, Error)]
pub enum DefineFault {
    /// They are no definition.
    #[error("the tokens are no definition")]
    Bad,
    /// There was not enough memory.
    #[error("out of memory")]
    NoMemory,
}

impl From<AllocError> for DefineFault {
    ghost use Rattle.std.specs.Prelude.{◌≡◌};
    ghost use Rattle.cb_macro.specs.declared.fault.DefineFault.TheVariants.{NoMemory};

    ghost from_gives = { λ _ e. e ≡ NoMemory };

    fn from(_error: AllocError) -> DefineFault {
        DefineFault::NoMemory
    }
}

impl<T: Drop> From<AllocFailed<T>> for DefineFault {
    ghost use Rattle.std.specs.Prelude.{◌≡◌};
    ghost use Rattle.cb_macro.specs.declared.fault.DefineFault.TheVariants.{NoMemory};

    ghost from_gives = { λ _ e. e ≡ NoMemory };

    fn from(_error: AllocFailed<T>) -> DefineFault {
        DefineFault::NoMemory
    }
}

impl From<cb_paths::NoMemory> for DefineFault {
    ghost use Rattle.std.specs.Prelude.{◌≡◌};
    ghost use Rattle.cb_macro.specs.declared.fault.DefineFault.TheVariants.{NoMemory};

    ghost from_gives = { λ _ e. e ≡ NoMemory };

    fn from(_error: cb_paths::NoMemory) -> DefineFault {
        DefineFault::NoMemory
    }
}
