//! Why a text is no path and no folder.
ghost use Rattle.std.specs.Prelude.{◌≡◌};

use crate::memory::NoMemory;
use thiserror::Error;

/// What keeps a text from naming a path or a folder. Where several hold, `TooLong` decides before `Control`, that before `Outside`, and
/// `Empty` comes last.
#[derive(Clone, Copy, Debug, PartialEq, Eq, Error)]
pub enum BadPath {
    /// No part is left.
    #[error("no part is left")]
    Empty = 1,
    /// The text has too many bytes.
    #[error("the text has too many bytes")]
    TooLong = 2,
    /// The text begins with a slash, or a `..` has no part before it.
    #[error("the path leads out of the folder")]
    Outside = 3,
    /// A byte is below 0x20 or is 0x7f.
    #[error("a control byte stands in the path")]
    Control = 4,
}

impl BadPath {
    ghost use Rattle.cb_paths.specs.Paths.{fault_number, fault_name};

    /// The number of the fault, from 1.
    pub fn number(&self) -> u32
        ensures { result ≡ fault_number self.now }
    {
        match self {
            BadPath::Empty => 1,
            BadPath::TooLong => 2,
            BadPath::Outside => 3,
            BadPath::Control => 4,
        }
    }

    /// The name of the fault.
    pub fn name(&self) -> &'static str
        ensures { result.now ≡ fault_name self.now }
    {
        match self {
            BadPath::Empty => "Empty",
            BadPath::TooLong => "TooLong",
            BadPath::Outside => "Outside",
            BadPath::Control => "Control",
        }
    }
}

/// Why a path or a folder could not be made.
#[derive(Clone, Copy, Debug, PartialEq, Eq, Error)]
pub enum PathFault {
    /// The text names none.
    #[error("{0}")]
    Bad(BadPath),
    /// There was not enough memory.
    #[error("out of memory")]
    NoMemory,
}

impl From<NoMemory> for PathFault {
    ghost use Rattle.std.specs.Prelude.{◌≡◌};
    ghost use Rattle.cb_paths.specs.declared.bad_path.PathFault.TheVariants as fault;

    ghost from_gives = { λ e f. f ≡ fault.NoMemory };

    fn from(_error: NoMemory) -> PathFault {
        PathFault::NoMemory
    }
}
