//! Why an edit of the inputs is refused.
ghost use Rattle.std.specs.Prelude.{◌≡◌};

use cb_analysis::BadAnalysis;
use cb_compdb::BadDatabase;
use cb_measure::BadCsv;
use cb_outside::KeepFault;
use cb_paths::NoMemory;
use cb_tree::BadSource;
use std::alloc::AllocFailed;

/// What is wrong with the bytes that an edit puts: the first fault of their format.
#[derive(Debug, Drop)]
pub enum BodyFault {
    /// They are no sound source.
    Source(BadSource),
    /// They are no analysis.
    Analysis(BadAnalysis),
    /// They are no database.
    Database(BadDatabase),
    /// They are no measurements.
    Csv(BadCsv),
}

/// What there may not be more of than a limit, in the order in which limits are looked at.
#[derive(Clone, Copy, Debug, PartialEq, Eq)]
pub enum LimitName {
    /// The number of sources.
    Sources,
    /// The bytes of all sources together.
    SourceBytes,
    /// The number of databases.
    Databases,
    /// The bytes of all databases together.
    DatabaseBytes,
    /// The number of the entries of all platforms' databases.
    Commands,
}

/// Why an edit is refused. The inputs then stay as they were.
#[derive(Debug, Drop)]
pub enum Refused {
    /// What is put has a fault.
    Body(BodyFault),
    /// What is to be removed is not there.
    Absent,
    /// A limit would be passed; the number is what there would be of it.
    Limit(LimitName, u64),
    /// The inputs could not be stored.
    Store,
    /// There was not enough memory.
    NoMemory,
}

impl From<NoMemory> for Refused {
    ghost use Rattle.std.specs.Prelude.{◌≡◌};
    ghost use Rattle.cb_inputs.specs.declared.refused.Refused.TheVariants as refused;

    ghost from_gives = { λ _ e. e ≡ refused.NoMemory };

    fn from(_error: NoMemory) -> Refused {
        Refused::NoMemory
    }
}

impl<T: Drop> From<AllocFailed<T>> for Refused {
    ghost use Rattle.std.specs.Prelude.{◌≡◌};
    ghost use Rattle.cb_inputs.specs.declared.refused.Refused.TheVariants as refused;

    ghost from_gives = { λ _ e. e ≡ refused.NoMemory };

    fn from(_error: AllocFailed<T>) -> Refused {
        Refused::NoMemory
    }
}

/// What an edit answers where the keeper refuses it.
pub(crate) fn not_kept(fault: KeepFault) -> Refused
    ensures failed { fault ≡ KeepFault.Failed → result ≡ Refused.Store }
    ensures no_memory { fault ≡ KeepFault.NoMemory → result ≡ Refused.NoMemory }
{
    match fault {
        KeepFault::Failed => Refused::Store,
        KeepFault::NoMemory => Refused::NoMemory,
    }
}
