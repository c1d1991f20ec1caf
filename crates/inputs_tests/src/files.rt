//! The analysis and the measurements that are put.
use crate::edits::has_text;
use cb_inputs::{AnalysisFile, Measurements};
use cb_outside::{MemKeeper, Numbers};
use cb_paths::NoMemory;
use std::alloc::Global;
use std::test::Fail;

/// The number of platforms.
fn platform_count(file: &AnalysisFile) -> usize {
    match file.get() {
        Some(kept) => kept.contents.platforms().len(),
        None => 0,
    }
}

/// The number of the first put of an analysis that answers another text, or leaves another number of platforms, where
/// the second call of the keeper fails.
fn wrong_analysis(alloc: Global) -> Result<Option<usize>, NoMemory> {
    let rows: [(&[u8], &[u8], usize); 5] = [
        (b"", b"bad analysis 2 NoPlatform platform", 0),
        (b"[platform.a]\ncommands = \"a.json\"\n", b"", 1),
        (b"=", b"bad analysis 1 NotToml", 1),
        (
            b"platform = {a = {commands = \"a\"}, b = {commands = \"a\"}}\n",
            b"store failed",
            1,
        ),
        (
            b"platform = {a = {commands = \"a\"}, b = {commands = \"a\"}}\n",
            b"",
            2,
        ),
    ];
    let mut keeper = MemKeeper::new(alloc, Numbers::from_slice(alloc, &[2])?);
    let mut file = AnalysisFile::new();
    for at in 0..rows.len() {
        let (bytes, expected, count) = rows[at];
        let answer = file.put(alloc, &mut keeper, bytes);
        if !has_text(alloc, answer, expected)? || platform_count(&file) != count {
            return Ok(Some(at));
        }
    }
    Ok(None)
}

#[test]
fn an_analysis_is_put(rt: HostRuntime) -> Result<(), Fail> {
    assert_eq!(rt; wrong_analysis(rt.alloc())?, None);
    Ok(())
}

/// The number of rows.
fn row_count(measurements: &Measurements) -> usize {
    match measurements.get() {
        Some(kept) => kept.rows.len(),
        None => 0,
    }
}

/// The number of the first put of measurements that answers another text, or leaves another number of rows, where the
/// second call of the keeper fails.
fn wrong_measurements(alloc: Global) -> Result<Option<usize>, NoMemory> {
    let rows: [(&[u8], &[u8], usize); 5] = [
        (b"", b"bad measurements 1 Header row 1", 0),
        (b"problem,platform,application,fom\na,b,c,1\n", b"", 1),
        (
            b"problem,platform,application,fom\na,b,c\n",
            b"bad measurements 2 Fields row 2",
            1,
        ),
        (b"fom,problem,platform,application\n", b"store failed", 1),
        (b"fom,problem,platform,application\n", b"", 0),
    ];
    let mut keeper = MemKeeper::new(alloc, Numbers::from_slice(alloc, &[2])?);
    let mut measurements = Measurements::new();
    for at in 0..rows.len() {
        let (bytes, expected, count) = rows[at];
        let answer = measurements.put(alloc, &mut keeper, bytes);
        if !has_text(alloc, answer, expected)? || row_count(&measurements) != count {
            return Ok(Some(at));
        }
    }
    Ok(None)
}

#[test]
fn measurements_are_put(rt: HostRuntime) -> Result<(), Fail> {
    assert_eq!(rt; wrong_measurements(rt.alloc())?, None);
    Ok(())
}
