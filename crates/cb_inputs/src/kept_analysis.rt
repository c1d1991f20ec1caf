//! The analysis that is kept.
ghost use Rattle.std.specs.Prelude.{◌≡◌, ◌⊎◌, ◌≤◌, [], Ok, Err, None, Some, IfOk, IfErr, IfSome, OnOk, OnErr};
ghost use Rattle.std.specs.Option.{option_copied, option_map};
ghost use Rattle.cb_analysis.specs.Analyses.{analysis};
ghost use Rattle.cb_outside.specs.Outside.{Rose};
ghost use Rattle.cb_outside.specs.Tables.{changed, put};
ghost use Rattle.cb_outside.specs.declared.kept.Table.TheVariants as table;
ghost use Rattle.cb_inputs.specs.Analysis.{IsReadAnalysis};
ghost use Rattle.cb_inputs.specs.Refusals.{IsAnalysisFault, IsDenied, IsOutside};
ghost use Rattle.cb_inputs.specs.inner.Kept.{TellsPut};
ghost use Rattle.cb_inputs.specs.declared.refused.BodyFault.{BodyFault as Fault};
ghost use Rattle.cb_inputs.specs.declared.refused.Refused.{Refused as Refusal};
ghost use Rattle.cb_inputs.specs.declared.kept_analysis.KeptAnalysis.{KeptAnalysis as Known};

use crate::refused::{BodyFault, Refused, not_kept};
use cb_analysis::{Analysis, AnalysisFault};
use cb_outside::{Keeper, Table};
use cb_paths::{Bytes, NoMemory};
use std::alloc::Global;
use std::marker::Model;

/// An analysis file and what it says.
#[derive(Drop)]
pub struct KeptAnalysis {
    /// Its bytes.
    pub bytes: Bytes,
    /// What it says.
    pub contents: Analysis,
}

/// The analysis file, if there is one.
#[derive(Drop)]
pub struct AnalysisFile {
    kept: Option<KeptAnalysis>,
}

impl Model for AnalysisFile {
    ghost use Rattle.std.specs.Prelude.{Option, IfSome};
    ghost use Rattle.cb_inputs.specs.declared.kept_analysis.KeptAnalysis.{KeptAnalysis};
    ghost use Rattle.cb_inputs.specs.Analysis.{IsReadAnalysis};

    ghost Value = { Option KeptAnalysis };

    ghost view = { λ f. f.kept };

    ghost invariant = { λ f. IfSome f.kept IsReadAnalysis };
}

/// What an analysis file says, or its first fault.
fn read_contents(alloc: Global, bytes: &[u8]) -> Result<Analysis, Refused>
    ensures contents { IfOk result (λ contents. analysis bytes.now ≡ Ok contents) }
    ensures cause { IfErr result (TellsPut (IsAnalysisFault bytes.now) []) }
{
    match cb_analysis::read(alloc, bytes) {
        Ok(contents) => Ok(contents),
        Err(AnalysisFault::Bad(bad)) => Err(Refused::Body(BodyFault::Analysis(bad))),
        Err(AnalysisFault::NoMemory) => Err(Refused::NoMemory),
    }
}

impl AnalysisFile {
    /// No analysis file.
    pub fn new() -> AnalysisFile
        ensures { result ≡ None }
    {
        AnalysisFile { kept: None }
    }

    /// The analysis file, if there is one. Its contents are those that its bytes say.
    pub fn get(&self) -> Option<&KeptAnalysis>
        ensures kept { option_copied result ≡ self.now }
        ensures read { IfSome self.now IsReadAnalysis }
    {
        self.kept.as_ref()
    }

    /// What it says, if there is one.
    pub(crate) fn contents(&self) -> Option<&Analysis>
        ensures { option_copied result ≡ option_map (λ (kept : Known). kept.contents) self.now }
    {
        match &self.kept {
            Some(kept) => Some(&kept.contents),
            None => None,
        }
    }

    /// An analysis file that is ready to be put. It is refused for the first fault of the bytes, or where memory runs
    /// out.
    pub(crate) fn fresh(alloc: Global, bytes: &[u8]) -> Result<KeptAnalysis, Refused>
        ensures same_bytes { IfOk result (λ fresh. fresh.bytes ≡ bytes.now) }
        ensures read { IfOk result IsReadAnalysis }
        ensures sound { OnOk result ((fault : Fault) → IsAnalysisFault bytes.now fault → ⊥) }
        ensures cause { IfErr result (TellsPut (IsAnalysisFault bytes.now) []) }
        ensures only { IfErr result (λ told. (fault : Fault) → IsAnalysisFault bytes.now fault
            → (told ≡ Refused.Body fault) ⊎ (told ≡ Refused.NoMemory)) }
    {
        let contents = match read_contents(alloc, bytes) {
            Ok(contents) => contents,
            Err(refused) => return Err(refused),
        };
        match Bytes::from_slice(alloc, bytes) {
            Ok(bytes) => Ok(KeptAnalysis { bytes, contents }),
            Err(NoMemory) => Err(Refused::NoMemory),
        }
    }

    /// Puts an analysis file that is ready, and has the keeper keep it. After a refusal the analysis and what is kept
    /// are as they were.
    pub(crate) fn keep<K: Keeper>(
        &mut self,
        keeper: &mut K,
        bytes: &[u8],
        fresh: KeptAnalysis,
    ) -> Result<(), Refused>
        requires same_bytes { fresh.bytes ≡ bytes.now }
        requires read { IsReadAnalysis fresh }
        ensures accepted { OnOk result (self.new ≡ Some fresh) }
        ensures unchanged { OnErr result (self.new ≡ self.old) }
        ensures cause { IfErr result IsOutside }
        ensures kept { OnOk result
            (K.tables keeper.new ≡ option_map (changed table.Analysis (put [] bytes.now)) (K.tables keeper.old)) }
        ensures told { OnErr result (K.tables keeper.new ≡ K.tables keeper.old) }
        ensures store { result ≡ Err Refused.Store → Rose (K.faults keeper.old) (K.faults keeper.new) }
        ensures never_falls { K.faults keeper.old ≤ K.faults keeper.new }
        ensures wants_never_fall { K.wants keeper.old ≤ K.wants keeper.new }
    {
        match keeper.put(Table::Analysis, &[], bytes) {
            Ok(()) => {
                self.kept = Some(fresh);
                Ok(())
            }
            Err(fault) => Err(not_kept(fault)),
        }
    }

    /// Puts an analysis file in place of the one that stood there, and has the keeper keep it. It is refused for the
    /// first fault of the bytes; else where the keeper fails or memory runs out. After a refusal the analysis and what
    /// is kept are as they were. How many commands there would be is not looked at.
    pub fn put<K: Keeper>(
        &mut self,
        alloc: Global,
        keeper: &mut K,
        bytes: &[u8],
    ) -> Result<(), Refused>
        ensures accepted { OnOk result (option_map (λ (kept : Known). kept.bytes) self.new ≡ Some bytes.now) }
        ensures unchanged { OnErr result (self.new ≡ self.old) }
        ensures cause { IfErr result
            (λ refused. IsOutside refused ⊎ IsDenied (IsAnalysisFault bytes.now) [] refused) }
        ensures every { (refused : Refusal) → IsDenied (IsAnalysisFault bytes.now) [] refused
            → (result ≡ Err refused) ⊎ (result ≡ Err Refused.NoMemory) }
        ensures kept { OnOk result
            (K.tables keeper.new ≡ option_map (changed table.Analysis (put [] bytes.now)) (K.tables keeper.old)) }
        ensures told { OnErr result (K.tables keeper.new ≡ K.tables keeper.old) }
        ensures store { result ≡ Err Refused.Store → Rose (K.faults keeper.old) (K.faults keeper.new) }
        ensures never_falls { K.faults keeper.old ≤ K.faults keeper.new }
        ensures wants_never_fall { K.wants keeper.old ≤ K.wants keeper.new }
    {
        match AnalysisFile::fresh(alloc, bytes) {
            Ok(fresh) => self.keep(keeper, bytes, fresh),
            Err(refused) => Err(refused),
        }
    }
}
