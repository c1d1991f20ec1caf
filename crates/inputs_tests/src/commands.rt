//! The number of the commands of an analysis.
use crate::edits::path_of;
use cb_inputs::{AnalysisFile, Databases, command_count};
use cb_outside::NoKeeper;
use cb_paths::NoMemory;
use std::alloc::Global;
use std::test::Fail;

/// The number of the commands of an analysis, where two entries stand at `two` and none at `none`.
fn count_of(alloc: Global, bytes: &[u8]) -> Result<u64, NoMemory> {
    let two = b"[{\"directory\":\"\",\"file\":\"a.c\",\"command\":\"cc\"},
        {\"directory\":\"\",\"file\":\"b.c\",\"command\":\"cc\"}]";
    let mut databases = Databases::new(alloc);
    let mut file = AnalysisFile::new();
    let path = path_of(alloc, b"two")?;
    if databases.put(alloc, &mut NoKeeper, &path, two).is_err() {
        return Err(NoMemory);
    }
    let path = path_of(alloc, b"none")?;
    if databases.put(alloc, &mut NoKeeper, &path, b"[]").is_err() {
        return Err(NoMemory);
    }
    if file.put(alloc, &mut NoKeeper, bytes).is_err() {
        return Ok(command_count(None, &databases));
    }
    match file.get() {
        Some(kept) => Ok(command_count(Some(&kept.contents), &databases)),
        None => Err(NoMemory),
    }
}

/// The first analysis with another number of commands.
fn wrong_count(alloc: Global) -> Result<Option<&'static [u8]>, NoMemory> {
    let rows: [(&'static [u8], u64); 4] = [
        (b"", 0),
        (b"platform = {a = {commands = \"two\"}}\n", 2),
        (
            b"platform = {a = {commands = \"none\"}, b = {commands = \"absent\"}}\n",
            0,
        ),
        (
            b"platform = {a = {commands = \"two\"}, b = {commands = \"none\"}, c = {commands = \"two\"}}\n",
            4,
        ),
    ];
    for (bytes, count) in rows {
        if count_of(alloc, bytes)? != count {
            return Ok(Some(bytes));
        }
    }
    Ok(None)
}

#[test]
fn commands_are_counted(rt: HostRuntime) -> Result<(), Fail> {
    assert_eq!(rt; wrong_count(rt.alloc())?, None);
    Ok(())
}
