//! The measurements that are kept.
ghost use Rattle.std.specs.Prelude.{◌≡◌, ◌⊎◌, ◌≤◌, [], None, Some, IfOk, IfErr, IfSome, OnOk, OnErr, option_map};
ghost use Rattle.std.specs.Option.{option_copied};
ghost use Rattle.cb_outside.specs.Outside.{Rose};
ghost use Rattle.cb_outside.specs.Tables.{changed, put};
ghost use Rattle.cb_outside.specs.declared.kept.Table.TheVariants as table;
ghost use Rattle.cb_inputs.specs.Measurements.{AreReadRows};
ghost use Rattle.cb_inputs.specs.Refusals.{IsDenied, IsMeasurementsFault, IsOutside};
ghost use Rattle.cb_inputs.specs.inner.Kept.{TellsPut};
ghost use Rattle.cb_inputs.specs.declared.refused.BodyFault.{BodyFault as Fault};
ghost use Rattle.cb_inputs.specs.declared.refused.Refused.{Refused as Refusal};
ghost use Rattle.cb_inputs.specs.declared.kept_rows.KeptRows.{KeptRows as Known};

use crate::refused::{BodyFault, Refused, not_kept};
use cb_measure::{CsvFault, Rows};
use cb_outside::{Keeper, Table};
use cb_paths::{Bytes, NoMemory};
use std::alloc::Global;
use std::marker::Model;

/// Measurements and what they say.
#[derive(Drop)]
pub struct KeptRows {
    /// Their bytes.
    pub bytes: Bytes,
    /// Their rows.
    pub rows: Rows,
}

/// The measurements, if there are some.
#[derive(Drop)]
pub struct Measurements {
    kept: Option<KeptRows>,
}

impl Model for Measurements {
    ghost use Rattle.std.specs.Prelude.{Option, IfSome};
    ghost use Rattle.cb_inputs.specs.declared.kept_rows.KeptRows.{KeptRows};
    ghost use Rattle.cb_inputs.specs.Measurements.{AreReadRows};

    ghost Value = { Option KeptRows };

    ghost view = { λ m. m.kept };

    ghost invariant = { λ m. IfSome m.kept AreReadRows };
}

/// The measurements that bytes say, or their first fault.
fn read_rows(alloc: Global, bytes: &[u8]) -> Result<KeptRows, Refused>
    ensures bytes { IfOk result (λ kept. kept.bytes ≡ bytes.now) }
    ensures read { IfOk result AreReadRows }
    ensures sound { OnOk result ((fault : Fault) → IsMeasurementsFault bytes.now fault → ⊥) }
    ensures cause { IfErr result (TellsPut (IsMeasurementsFault bytes.now) []) }
{
    let rows = match cb_measure::read(alloc, bytes) {
        Ok(rows) => rows,
        Err(CsvFault::Bad(bad)) => return Err(Refused::Body(BodyFault::Csv(bad))),
        Err(CsvFault::NoMemory) => return Err(Refused::NoMemory),
    };
    match Bytes::from_slice(alloc, bytes) {
        Ok(bytes) => Ok(KeptRows { bytes, rows }),
        Err(NoMemory) => Err(Refused::NoMemory),
    }
}

impl Measurements {
    /// No measurements.
    pub fn new() -> Measurements
        ensures { result ≡ None }
    {
        Measurements { kept: None }
    }

    /// The measurements, if there are some. Their rows are those that their bytes say.
    pub fn get(&self) -> Option<&KeptRows>
        ensures kept { option_copied result ≡ self.now }
        ensures read { IfSome self.now AreReadRows }
    {
        self.kept.as_ref()
    }

    /// Puts measurements in place of those that stood there, and has the keeper keep them. They are refused for the
    /// first fault of the bytes; else where the keeper fails or memory runs out. After a refusal the measurements and
    /// what is kept are as they were.
    pub fn put<K: Keeper>(
        &mut self,
        alloc: Global,
        keeper: &mut K,
        bytes: &[u8],
    ) -> Result<(), Refused>
        ensures accepted { OnOk result (option_map (λ (kept : Known). kept.bytes) self.new ≡ Some bytes.now) }
        ensures unchanged { OnErr result (self.new ≡ self.old) }
        ensures cause { IfErr result
            (λ refused. IsOutside refused ⊎ IsDenied (IsMeasurementsFault bytes.now) [] refused) }
        ensures every { (refused : Refusal) → IsDenied (IsMeasurementsFault bytes.now) [] refused
            → (result ≡ Err refused) ⊎ (result ≡ Err Refused.NoMemory) }
        ensures kept { OnOk result
            (K.tables keeper.new ≡ option_map (changed table.Measurements (put [] bytes.now)) (K.tables keeper.old)) }
        ensures told { OnErr result (K.tables keeper.new ≡ K.tables keeper.old) }
        ensures store { result ≡ Err Refused.Store → Rose (K.faults keeper.old) (K.faults keeper.new) }
        ensures never_falls { K.faults keeper.old ≤ K.faults keeper.new }
        ensures wants_never_fall { K.wants keeper.old ≤ K.wants keeper.new }
    {
        let fresh = match read_rows(alloc, bytes) {
            Ok(fresh) => fresh,
            Err(refused) => return Err(refused),
        };
        match keeper.put(Table::Measurements, &[], bytes) {
            Ok(()) => {
                self.kept = Some(fresh);
                Ok(())
            }
            Err(fault) => Err(not_kept(fault)),
        }
    }
}
