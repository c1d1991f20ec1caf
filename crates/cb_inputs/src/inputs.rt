//! All inputs of an analysis.
ghost use Rattle.std.specs.Prelude.{◌≡◌, ◌⊎◌, ◌≤◌, [], None, Some, length, IfOk, IfErr, OnOk, OnErr, option_map, ◌↔◌};
ghost use Rattle.std.specs.Option.{option_copied};
ghost use Rattle.std.specs.BTreeMap.{insert_entry};
ghost use Rattle.std.specs.Ordering.{nat_cmp};
ghost use Rattle.std.specs.Cmp.Lexicographic.{slice_cmp};
ghost use Rattle.cb_outside.specs.Outside.{Rose};
ghost use Rattle.cb_outside.specs.Tables.{changed, put, removed, text_at};
ghost use Rattle.cb_outside.specs.declared.kept.Table.TheVariants as table;
ghost use Rattle.cb_inputs.specs.Texts.{bytes_in, database_amounts, first_over, source_amounts};
ghost use Rattle.cb_inputs.specs.Analysis.{IsReadAnalysis};
ghost use Rattle.cb_inputs.specs.Commands.{command_count};
ghost use Rattle.cb_inputs.specs.Databases.{database_entries, database_texts, IsReadDatabase};
ghost use Rattle.cb_inputs.specs.Sources.{source_texts, source_trees};
ghost use Rattle.cb_inputs.specs.declared.kept_analysis.KeptAnalysis.{KeptAnalysis as Analysis};
ghost use Rattle.cb_inputs.specs.declared.kept_rows.KeptRows.{KeptRows as Rows};
ghost use Rattle.cb_inputs.specs.Inputs.{PutAnalysis, PutDatabase, PutMeasurements, PutSource, RemoveDatabase, RemoveSource, after};
ghost use Rattle.cb_inputs.specs.Outcomes.{Accepts, Denies, IsOutcome};
ghost use Rattle.cb_inputs.specs.Readings.{IsKnown, Known};
ghost use Rattle.cb_inputs.specs.Refusals.{IsOutside};
ghost use Rattle.cb_inputs.specs.inner.Kept.{inputs_of, known_of};
ghost use Rattle.cb_inputs.specs.declared.refused.Refused.{Refused as Refusal};

use crate::commands::{command_count, command_count_with};
use crate::databases::{Databases, FreshDatabase};
use crate::kept_analysis::{AnalysisFile, KeptAnalysis};
use crate::kept_rows::Measurements;
use crate::laws::{one_known, one_outcome};
use crate::refused::{LimitName, Refused};
use crate::sources::Sources;
use cb_outside::Keeper;
use cb_paths::Path;
use std::alloc::Global;
use std::marker::Model;

/// The inputs of an analysis, which contracts see as their bytes.
#[derive(Drop)]
pub struct Inputs {
    analysis: AnalysisFile,
    databases: Databases,
    sources: Sources,
    measurements: Measurements,
}

impl Model for Inputs {
    ghost use Rattle.std.specs.Prelude.{◌≤◌};
    ghost use Rattle.cb_inputs.specs.Commands.{command_count};
    ghost use Rattle.cb_inputs.specs.Inputs.{Inputs as Bytes};
    ghost use Rattle.cb_inputs.specs.inner.Kept.{inputs_of, known_of};

    ghost Value = { Bytes };

    ghost view = { λ i. inputs_of i.analysis i.databases i.sources i.measurements };

    ghost invariant = { λ i. command_count (known_of i.analysis i.databases i.sources i.measurements) ≤ 20000 };
}

/// What is read of inputs is what their bytes say, and their databases and sources are within the limits. The calls are
/// made for what they say of the parts; it takes no memory.
fn are_read(
    analysis: &AnalysisFile,
    databases: &Databases,
    sources: &Sources,
    measurements: &Measurements,
)
    ensures known { IsKnown (inputs_of analysis.now databases.now sources.now measurements.now)
        (known_of analysis.now databases.now sources.now measurements.now) }
    ensures within { first_over (database_amounts (database_texts databases.now)) ≡ None }
    ensures few { first_over (source_amounts (source_texts sources.now)) ≡ None }
{
    let _ = analysis.get();
    let _ = databases.len();
    let _ = sources.len();
    let _ = measurements.get();
}

/// An analysis file that is ready to be put in the place of the one that stands there. It is refused for the first
/// fault of the bytes; else for its commands where there would be too many; or where memory runs out.
fn fresh_analysis(
    alloc: Global,
    analysis: &AnalysisFile,
    databases: &Databases,
    sources: &Sources,
    measurements: &Measurements,
    bytes: &[u8],
) -> Result<KeptAnalysis, Refused>
    ensures same_bytes { IfOk result (λ fresh. fresh.bytes ≡ bytes.now) }
    ensures read { IfOk result IsReadAnalysis }
    ensures few { IfOk result (λ fresh.
        command_count (known_of (Some fresh) databases.now sources.now measurements.now) ≤ 20000) }
    ensures good { OnOk result
        (IsOutcome (inputs_of analysis.now databases.now sources.now measurements.now) (PutAnalysis bytes.now)
        (Accepts (after (PutAnalysis bytes.now)
        (inputs_of analysis.now databases.now sources.now measurements.now)))) }
    ensures cause { IfErr result (λ refused. (refused ≡ Refused.NoMemory)
        ⊎ IsOutcome (inputs_of analysis.now databases.now sources.now measurements.now) (PutAnalysis bytes.now)
        (Denies refused)) }
    ensures stored { result ≡ Err Refused.Store → ⊥ }
{
    one_outcome();
    are_read(analysis, databases, sources, measurements);
    let fresh = match AnalysisFile::fresh(alloc, bytes) {
        Ok(fresh) => fresh,
        Err(refused) => return Err(refused),
    };
    let count = command_count(Some(&fresh.contents), databases);
    if count > LimitName::Commands.most() {
        return Err(Refused::Limit(LimitName::Commands, count));
    }
    Ok(fresh)
}

/// A database that is ready to be put at a path. It is refused for the first fault of the bytes; else for the first
/// limit of databases that would be passed; else for the commands where there would be too many; or where memory runs
/// out.
fn fresh_database(
    alloc: Global,
    analysis: &AnalysisFile,
    databases: &Databases,
    sources: &Sources,
    measurements: &Measurements,
    path: &Path,
    bytes: &[u8],
) -> Result<FreshDatabase, Refused>
    ensures same_key { IfOk result (λ fresh. fresh.key ≡ path.now) }
    ensures same_bytes { IfOk result (λ fresh. fresh.database.bytes ≡ bytes.now) }
    ensures read { IfOk result (λ fresh. IsReadDatabase fresh.database) }
    ensures total { IfOk result
        (λ fresh. fresh.total ≡ bytes_in (put path.now bytes.now (database_texts databases.now))) }
    ensures few { OnOk result (length (put path.now bytes.now (database_texts databases.now)) ≤ 64) }
    ensures within { OnOk result (bytes_in (put path.now bytes.now (database_texts databases.now)) ≤ 268435456) }
    ensures commands { IfOk result (λ fresh. command_count (known_of analysis.now
        (insert_entry (slice_cmp nat_cmp) databases.now path.now fresh.database) sources.now measurements.now)
        ≤ 20000) }
    ensures good { OnOk result
        (IsOutcome (inputs_of analysis.now databases.now sources.now measurements.now) (PutDatabase path.now bytes.now)
        (Accepts (after (PutDatabase path.now bytes.now)
        (inputs_of analysis.now databases.now sources.now measurements.now)))) }
    ensures cause { IfErr result (λ refused. (refused ≡ Refused.NoMemory)
        ⊎ IsOutcome (inputs_of analysis.now databases.now sources.now measurements.now)
        (PutDatabase path.now bytes.now) (Denies refused)) }
    ensures stored { result ≡ Err Refused.Store → ⊥ }
{
    are_read(analysis, databases, sources, measurements);
    let fresh = match databases.fresh(alloc, path, bytes) {
        Ok(fresh) => fresh,
        Err(refused) => return Err(refused),
    };
    let count = command_count_with(analysis.contents(), databases, path, &fresh.database);
    if count > LimitName::Commands.most() {
        return Err(Refused::Limit(LimitName::Commands, count));
    }
    Ok(fresh)
}

impl Inputs {
    /// No inputs.
    pub fn new(alloc: Global) -> Inputs
        ensures { result ≡ record { analysis = None; databases = []; sources = []; measurements = None } }
    {
        Inputs {
            analysis: AnalysisFile::new(),
            databases: Databases::new(alloc),
            sources: Sources::new(alloc),
            measurements: Measurements::new(),
        }
    }

    /// The analysis file, if there is one.
    pub fn analysis(&self) -> &AnalysisFile
        ensures text { option_map (λ (kept : Analysis). kept.bytes) result.now ≡ self.now.analysis }
        ensures contents { (k : Known) → IsKnown self.now k
            → option_map (λ (kept : Analysis). kept.contents) result.now ≡ k.analysis }
    {
        one_known();
        are_read(
            &self.analysis,
            &self.databases,
            &self.sources,
            &self.measurements,
        );
        &self.analysis
    }

    /// What the analysis file says, if there is one.
    pub fn contents(&self) -> Option<&cb_analysis::Analysis>
        ensures { (k : Known) → IsKnown self.now k → option_copied result ≡ k.analysis }
    {
        one_known();
        are_read(
            &self.analysis,
            &self.databases,
            &self.sources,
            &self.measurements,
        );
        self.analysis.contents()
    }

    /// The databases.
    pub fn databases(&self) -> &Databases
        ensures texts { database_texts result.now ≡ self.now.databases }
        ensures entries { (k : Known) → IsKnown self.now k → database_entries result.now ≡ k.databases }
    {
        one_known();
        are_read(
            &self.analysis,
            &self.databases,
            &self.sources,
            &self.measurements,
        );
        &self.databases
    }

    /// The sources.
    pub fn sources(&self) -> &Sources
        ensures texts { source_texts result.now ≡ self.now.sources }
        ensures trees { (k : Known) → IsKnown self.now k → source_trees result.now ≡ k.sources }
    {
        one_known();
        are_read(
            &self.analysis,
            &self.databases,
            &self.sources,
            &self.measurements,
        );
        &self.sources
    }

    /// The measurements, if there are some.
    pub fn measurements(&self) -> &Measurements
        ensures text { option_map (λ (kept : Rows). kept.bytes) result.now ≡ self.now.measurements }
        ensures rows { (k : Known) → IsKnown self.now k
            → option_map (λ (kept : Rows). kept.rows) result.now ≡ k.measurements }
    {
        one_known();
        are_read(
            &self.analysis,
            &self.databases,
            &self.sources,
            &self.measurements,
        );
        &self.measurements
    }

    /// The number of the commands: the entries of the databases of all platforms. Inputs always say something, and
    /// have at most 20,000 commands.
    pub fn commands(&self) -> u64
        ensures known { (k : Known) × IsKnown self.now k }
        ensures count { (k : Known) → IsKnown self.now k → result ≡ command_count k }
        ensures few { result ≤ 20000 }
    {
        one_known();
        are_read(
            &self.analysis,
            &self.databases,
            &self.sources,
            &self.measurements,
        );
        command_count(self.analysis.contents(), &self.databases)
    }

    /// Puts a source at a path, in place of the one that stood there, and has the keeper keep it. It is refused for
    /// the first fault of the bytes; else for the first limit that would be passed, with how much there would be; else
    /// where the keeper fails or memory runs out. After a refusal the inputs and what is kept are as they were.
    pub fn put_source<K: Keeper>(
        &mut self,
        alloc: Global,
        keeper: &mut K,
        path: &Path,
        bytes: &[u8],
    ) -> Result<(), Refused>
        ensures accepted { OnOk result (IsOutcome self.old (PutSource path.now bytes.now) (Accepts self.new)) }
        ensures inputs { OnOk result (self.new ≡ after (PutSource path.now bytes.now) self.old) }
        ensures unchanged { OnErr result (self.new ≡ self.old) }
        ensures cause { IfErr result (λ refused. IsOutside refused
            ⊎ IsOutcome self.old (PutSource path.now bytes.now) (Denies refused)) }
        ensures every { (refused : Refusal) → IsOutcome self.old (PutSource path.now bytes.now) (Denies refused)
            → (result ≡ Err refused) ⊎ (result ≡ Err Refused.NoMemory) }
        ensures kept { OnOk result
            (K.tables keeper.new ≡ option_map (changed table.Sources (put path.now bytes.now)) (K.tables keeper.old)) }
        ensures told { OnErr result (K.tables keeper.new ≡ K.tables keeper.old) }
        ensures store { result ≡ Err Refused.Store → Rose (K.faults keeper.old) (K.faults keeper.new) }
        ensures never_falls { K.faults keeper.old ≤ K.faults keeper.new }
        ensures wants_never_fall { K.wants keeper.old ≤ K.wants keeper.new }
    {
        one_outcome();
        are_read(
            &self.analysis,
            &self.databases,
            &self.sources,
            &self.measurements,
        );
        self.sources.put(alloc, keeper, path, bytes)
    }

    /// Takes the source at a path away, and has the keeper drop it. Refused as absent exactly where none stands
    /// there; else where the keeper fails or wants memory. It takes no memory of its own. After a refusal the inputs
    /// and what is kept are as they were.
    pub fn remove_source<K: Keeper>(&mut self, keeper: &mut K, path: &Path) -> Result<(), Refused>
        ensures accepted { OnOk result (IsOutcome self.old (RemoveSource path.now) (Accepts self.new)) }
        ensures inputs { OnOk result (self.new ≡ after (RemoveSource path.now) self.old) }
        ensures unchanged { OnErr result (self.new ≡ self.old) }
        ensures absent { (result ≡ Err Refused.Absent) ↔ (text_at path.now self.old.sources ≡ None) }
        ensures cause { IfErr result (λ refused. IsOutside refused
            ⊎ IsOutcome self.old (RemoveSource path.now) (Denies refused)) }
        ensures kept { OnOk result
            (K.tables keeper.new ≡ option_map (changed table.Sources (removed path.now)) (K.tables keeper.old)) }
        ensures told { OnErr result (K.tables keeper.new ≡ K.tables keeper.old) }
        ensures store { result ≡ Err Refused.Store → Rose (K.faults keeper.old) (K.faults keeper.new) }
        ensures wanted { result ≡ Err Refused.NoMemory → Rose (K.wants keeper.old) (K.wants keeper.new) }
        ensures never_falls { K.faults keeper.old ≤ K.faults keeper.new }
        ensures wants_never_fall { K.wants keeper.old ≤ K.wants keeper.new }
    {
        self.sources.remove(keeper, path)
    }

    /// Puts an analysis file in place of the one that stood there, and has the keeper keep it. It is refused for the
    /// first fault of the bytes; else where it would have more than 20,000 commands, with how many there would be; else
    /// where the keeper fails or memory runs out. After a refusal the inputs and what is kept are as they were.
    pub fn put_analysis<K: Keeper>(
        &mut self,
        alloc: Global,
        keeper: &mut K,
        bytes: &[u8],
    ) -> Result<(), Refused>
        ensures accepted { OnOk result (IsOutcome self.old (PutAnalysis bytes.now) (Accepts self.new)) }
        ensures inputs { OnOk result (self.new ≡ after (PutAnalysis bytes.now) self.old) }
        ensures unchanged { OnErr result (self.new ≡ self.old) }
        ensures cause { IfErr result (λ refused. IsOutside refused
            ⊎ IsOutcome self.old (PutAnalysis bytes.now) (Denies refused)) }
        ensures every { (refused : Refusal) → IsOutcome self.old (PutAnalysis bytes.now) (Denies refused)
            → (result ≡ Err refused) ⊎ (result ≡ Err Refused.NoMemory) }
        ensures kept { OnOk result
            (K.tables keeper.new ≡ option_map (changed table.Analysis (put [] bytes.now)) (K.tables keeper.old)) }
        ensures told { OnErr result (K.tables keeper.new ≡ K.tables keeper.old) }
        ensures store { result ≡ Err Refused.Store → Rose (K.faults keeper.old) (K.faults keeper.new) }
        ensures never_falls { K.faults keeper.old ≤ K.faults keeper.new }
        ensures wants_never_fall { K.wants keeper.old ≤ K.wants keeper.new }
    {
        one_outcome();
        match fresh_analysis(
            alloc,
            &self.analysis,
            &self.databases,
            &self.sources,
            &self.measurements,
            bytes,
        ) {
            Ok(fresh) => self.analysis.keep(keeper, bytes, fresh),
            Err(refused) => Err(refused),
        }
    }

    /// Puts measurements in place of those that stood there, and has the keeper keep them. They are refused for the
    /// first fault of the bytes; else where the keeper fails or memory runs out. After a refusal the inputs and what
    /// is kept are as they were.
    pub fn put_measurements<K: Keeper>(
        &mut self,
        alloc: Global,
        keeper: &mut K,
        bytes: &[u8],
    ) -> Result<(), Refused>
        ensures accepted { OnOk result (IsOutcome self.old (PutMeasurements bytes.now) (Accepts self.new)) }
        ensures inputs { OnOk result (self.new ≡ after (PutMeasurements bytes.now) self.old) }
        ensures unchanged { OnErr result (self.new ≡ self.old) }
        ensures cause { IfErr result (λ refused. IsOutside refused
            ⊎ IsOutcome self.old (PutMeasurements bytes.now) (Denies refused)) }
        ensures every { (refused : Refusal) → IsOutcome self.old (PutMeasurements bytes.now) (Denies refused)
            → (result ≡ Err refused) ⊎ (result ≡ Err Refused.NoMemory) }
        ensures kept { OnOk result
            (K.tables keeper.new ≡ option_map (changed table.Measurements (put [] bytes.now)) (K.tables keeper.old)) }
        ensures told { OnErr result (K.tables keeper.new ≡ K.tables keeper.old) }
        ensures store { result ≡ Err Refused.Store → Rose (K.faults keeper.old) (K.faults keeper.new) }
        ensures never_falls { K.faults keeper.old ≤ K.faults keeper.new }
        ensures wants_never_fall { K.wants keeper.old ≤ K.wants keeper.new }
    {
        one_outcome();
        are_read(
            &self.analysis,
            &self.databases,
            &self.sources,
            &self.measurements,
        );
        self.measurements.put(alloc, keeper, bytes)
    }

    /// Puts a database at a path, in place of the one that stood there, and has the keeper keep it. It is refused for
    /// the first fault of the bytes; else for the first limit that would be passed, that on databases, on their bytes
    /// or on commands, with how much there would be; else where the keeper fails or memory runs out. After a refusal
    /// the inputs and what is kept are as they were.
    pub fn put_database<K: Keeper>(
        &mut self,
        alloc: Global,
        keeper: &mut K,
        path: &Path,
        bytes: &[u8],
    ) -> Result<(), Refused>
        ensures accepted { OnOk result (IsOutcome self.old (PutDatabase path.now bytes.now) (Accepts self.new)) }
        ensures inputs { OnOk result (self.new ≡ after (PutDatabase path.now bytes.now) self.old) }
        ensures unchanged { OnErr result (self.new ≡ self.old) }
        ensures cause { IfErr result (λ refused. IsOutside refused
            ⊎ IsOutcome self.old (PutDatabase path.now bytes.now) (Denies refused)) }
        ensures every { (refused : Refusal) → IsOutcome self.old (PutDatabase path.now bytes.now) (Denies refused)
            → (result ≡ Err refused) ⊎ (result ≡ Err Refused.NoMemory) }
        ensures kept { OnOk result
            (K.tables keeper.new ≡ option_map (changed table.Databases (put path.now bytes.now)) (K.tables keeper.old)) }
        ensures told { OnErr result (K.tables keeper.new ≡ K.tables keeper.old) }
        ensures store { result ≡ Err Refused.Store → Rose (K.faults keeper.old) (K.faults keeper.new) }
        ensures never_falls { K.faults keeper.old ≤ K.faults keeper.new }
        ensures wants_never_fall { K.wants keeper.old ≤ K.wants keeper.new }
    {
        one_outcome();
        match fresh_database(
            alloc,
            &self.analysis,
            &self.databases,
            &self.sources,
            &self.measurements,
            path,
            bytes,
        ) {
            Ok(fresh) => self.databases.keep(keeper, path, bytes, fresh),
            Err(refused) => Err(refused),
        }
    }

    /// Takes the database at a path away, and has the keeper drop it. Refused as absent exactly where none stands
    /// there; else where the keeper fails or wants memory. It takes no memory of its own. After a refusal the inputs
    /// and what is kept are as they were.
    pub fn remove_database<K: Keeper>(&mut self, keeper: &mut K, path: &Path) -> Result<(), Refused>
        ensures accepted { OnOk result (IsOutcome self.old (RemoveDatabase path.now) (Accepts self.new)) }
        ensures inputs { OnOk result (self.new ≡ after (RemoveDatabase path.now) self.old) }
        ensures unchanged { OnErr result (self.new ≡ self.old) }
        ensures absent { (result ≡ Err Refused.Absent) ↔ (text_at path.now self.old.databases ≡ None) }
        ensures cause { IfErr result (λ refused. IsOutside refused
            ⊎ IsOutcome self.old (RemoveDatabase path.now) (Denies refused)) }
        ensures kept { OnOk result
            (K.tables keeper.new ≡ option_map (changed table.Databases (removed path.now)) (K.tables keeper.old)) }
        ensures told { OnErr result (K.tables keeper.new ≡ K.tables keeper.old) }
        ensures store { result ≡ Err Refused.Store → Rose (K.faults keeper.old) (K.faults keeper.new) }
        ensures wanted { result ≡ Err Refused.NoMemory → Rose (K.wants keeper.old) (K.wants keeper.new) }
        ensures never_falls { K.faults keeper.old ≤ K.faults keeper.new }
        ensures wants_never_fall { K.wants keeper.old ≤ K.wants keeper.new }
    {
        // Made for what it says: the limits hold of what stands.
        let _ = self.databases.len();
        self.databases.remove(keeper, path)
    }
}
