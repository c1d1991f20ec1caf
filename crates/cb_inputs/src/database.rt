//! A database that is kept.
ghost use Rattle.std.specs.Prelude.{◌≡◌, ◌⊎◌, ℕ, List, IfOk, IfErr, OnOk};
ghost use Rattle.cb_compdb.specs.Databases.{IsDatabase};
ghost use Rattle.cb_inputs.specs.Databases.{IsReadDatabase};
ghost use Rattle.cb_inputs.specs.Refusals.{IsDatabaseFault};
ghost use Rattle.cb_inputs.specs.inner.Kept.{TellsPut};
ghost use Rattle.cb_inputs.specs.declared.refused.LimitName.{LimitName};
ghost use Rattle.cb_inputs.specs.declared.refused.BodyFault.{BodyFault as Fault};

use crate::refused::{BodyFault, Refused};
use cb_compdb::{DatabaseFault, Entries, one_database};
use cb_paths::{Bytes, NoMemory};
use std::alloc::Global;

/// A database and what it says.
#[derive(Drop)]
pub struct Database {
    /// Its bytes.
    pub bytes: Bytes,
    /// Its entries.
    pub entries: Entries,
}

/// The entries that bytes say, or their first fault.
fn read_entries(alloc: Global, bytes: &[u8]) -> Result<Entries, Refused>
    ensures entries { IfOk result (IsDatabase bytes.now) }
    ensures cause { (amounts : List (LimitName × ℕ)) → IfErr result (TellsPut (IsDatabaseFault bytes.now) amounts) }
{
    match cb_compdb::read(alloc, bytes) {
        Ok(entries) => Ok(entries),
        Err(DatabaseFault::Bad(bad)) => Err(Refused::Body(BodyFault::Database(bad))),
        Err(DatabaseFault::NoMemory) => Err(Refused::NoMemory),
    }
}

/// The database of these bytes, or their first fault.
pub(crate) fn read_database(alloc: Global, bytes: &[u8]) -> Result<Database, Refused>
    ensures bytes { IfOk result (λ database. database.bytes ≡ bytes.now) }
    ensures read { IfOk result IsReadDatabase }
    ensures sound { OnOk result ((fault : Fault) → IsDatabaseFault bytes.now fault → ⊥) }
    ensures cause { (amounts : List (LimitName × ℕ)) → IfErr result (TellsPut (IsDatabaseFault bytes.now) amounts) }
    ensures only { IfErr result (λ told. (fault : Fault) → IsDatabaseFault bytes.now fault
        → (told ≡ Refused.Body fault) ⊎ (told ≡ Refused.NoMemory)) }
{
    one_database();
    let entries = match read_entries(alloc, bytes) {
        Ok(entries) => entries,
        Err(refused) => return Err(refused),
    };
    match Bytes::from_slice(alloc, bytes) {
        Ok(bytes) => Ok(Database { bytes, entries }),
        Err(NoMemory) => Err(Refused::NoMemory),
    }
}
