//! A file is read.
ghost use Rattle.std.specs.Prelude.{◌≡◌, None, [], IfOk, IfErr, Ok, option_map, option_and_then, codes};
ghost use Rattle.toml.specs.Data.{get_member, as_str};
ghost use Rattle.toml.specs.Errors.{IsMemory};
ghost use Rattle.toml.specs.View.{view, table_view};
ghost use Rattle.cb_analysis.specs.Tables.{codebase_at, at_key, is_table, is_text, is_absent_or};
ghost use Rattle.cb_analysis.specs.Faults.{first_of, faults_of, unless, Tells};
ghost use Rattle.cb_analysis.specs.Analyses.{analysis, contents_of, unless_faulty, Refuses};
ghost use Rattle.cb_analysis.specs.declared.fault.BadAnalysis.{BadAnalysis};
ghost use Rattle.cb_analysis.specs.declared.fault.AnalysisKind.TheVariants.{WrongType, NotToml};

use crate::analysis::Analysis;
use crate::fault::{AnalysisFault, AnalysisKind, BadAnalysis};
use crate::patterns::read_patterns;
use crate::place::bad;
use crate::platforms::read_platforms;
use cb_paths::Bytes;
use std::alloc::Global;
use toml::de::Error;
use toml::{Table, Value};

/// What stands at a key of a table.
pub(crate) fn member<'a>(table: &'a Table, key: &str) -> Option<&'a Value>
    ensures { option_map (λ value. view value.now) result ≡ get_member key.now (table_view table.now) }
{
    match table.get(key) {
        Some(value) => Some(value),
        None => None,
    }
}

/// What stands at a key of the table `codebase`, if it stands there.
fn in_codebase<'a>(codebase: Option<&'a Value>, key: &str) -> Option<&'a Value>
    ensures { option_map (λ value. view value.now) result
        ≡ at_key key.now (option_map (λ value. view value.now) codebase.entry) }
{
    match codebase {
        Some(codebase) => codebase.get(key),
        None => None,
    }
}

/// The table `codebase`, if there is one.
fn read_codebase(alloc: Global, table: &Table) -> Result<Option<&Value>, AnalysisFault>
    ensures fine { IfOk result (λ _. unless (is_absent_or is_table (codebase_at (table_view table.now))) WrongType (codes "codebase") ≡ None) }
    ensures table { IfOk result (λ value. option_map (λ v. view v.now) value ≡ codebase_at (table_view table.now)) }
    ensures bad { IfErr result (λ e. Tells e
        (unless (is_absent_or is_table (codebase_at (table_view table.now))) WrongType (codes "codebase"))) }
{
    let Some(codebase) = member(table, "codebase") else {
        return Ok(None);
    };
    if !codebase.is_table() {
        return Err(bad(alloc, AnalysisKind::WrongType, "codebase"));
    }
    Ok(Some(codebase))
}

/// The text at `root`, if there is one.
fn read_root(alloc: Global, value: Option<&Value>) -> Result<Option<Bytes>, AnalysisFault>
    ensures fine { IfOk result (λ _. unless (is_absent_or is_text (option_map (λ v. view v.now) value.entry)) WrongType (codes "codebase.root") ≡ None) }
    ensures root { IfOk result (λ root. root ≡ option_and_then as_str (option_map (λ v. view v.now) value.entry)) }
    ensures bad { IfErr result (λ e. Tells e
        (unless (is_absent_or is_text (option_map (λ v. view v.now) value.entry)) WrongType (codes "codebase.root"))) }
{
    let Some(value) = value else {
        return Ok(None);
    };
    let Some(text) = value.as_str() else {
        return Err(bad(alloc, AnalysisKind::WrongType, "codebase.root"));
    };
    let root = Bytes::from_slice(alloc, text.as_bytes())?;
    Ok(Some(root))
}

/// What a table says, or its first fault.
fn read_table(alloc: Global, table: &Table) -> Result<Analysis, AnalysisFault>
    ensures contents { IfOk result (λ a.
        unless_faulty (first_of (faults_of (table_view table.now))) (contents_of (table_view table.now)) ≡ Ok a) }
    ensures bad { IfErr result (λ e. Refuses e
        (unless_faulty (first_of (faults_of (table_view table.now))) (contents_of (table_view table.now)))) }
{
    let platforms = read_platforms(alloc, table)?;
    let codebase = read_codebase(alloc, table)?;
    let root = read_root(alloc, in_codebase(codebase, "root"))?;
    let exclude = read_patterns(alloc, "codebase.exclude", in_codebase(codebase, "exclude"))?;
    let skip = read_patterns(alloc, "codebase.skip", in_codebase(codebase, "skip"))?;
    Ok(Analysis {
        platforms,
        root,
        exclude,
        skip,
    })
}

/// Why a file has no table.
fn refusal(error: &Error) -> AnalysisFault
    ensures { (bad : BadAnalysis) → result ≡ AnalysisFault.Bad bad
        → (bad ≡ record { kind = NotToml; place = [] }) × ¬ IsMemory error.now }
{
    if error.is_memory() {
        return AnalysisFault::NoMemory;
    }
    AnalysisFault::Bad(BadAnalysis {
        kind: AnalysisKind::NotToml,
        place: Bytes::new(),
    })
}

/// Reads an analysis file. It answers what the file says, or its first fault; its other error is out of memory. The
/// length of the file is not looked at.
pub fn read(alloc: Global, bytes: &[u8]) -> Result<Analysis, AnalysisFault>
    ensures contents { IfOk result (λ a. analysis bytes.now ≡ Ok a) }
    ensures bad { IfErr result (λ e. Refuses e (analysis bytes.now)) }
{
    match toml::table_from_slice(alloc, bytes) {
        Ok(table) => read_table(alloc, &table),
        Err(error) => Err(refusal(&error)),
    }
}
