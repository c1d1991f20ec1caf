//! The platforms of an analysis.
ghost use Rattle.std.specs.Prelude.{◌≡◌, ◌≤◌, Some, None, IfOk, IfErr};
ghost use Rattle.std.specs.List.{filter_map, flat_map};
ghost use Rattle.std.specs.BTreeMap.{btree_map_len};
ghost use Rattle.toml.specs.View.{view, table_view};
ghost use Rattle.cb_analysis.specs.Tables.{entries_of, entries_in, platform_at};
ghost use Rattle.cb_analysis.specs.Faults.{first_of, platform_faults, platforms_faults, commands_path, Tells};
ghost use Rattle.cb_analysis.specs.Analyses.{platform_of, ArePlatforms};

use crate::fault::{AnalysisFault, AnalysisKind};
use crate::place::{bad, bad_platform};
use crate::platform::Platform;
use crate::reading::member;
use cb_paths::{Bytes, Path, PathFault, is_name};
use std::alloc::Global;
use toml::{Table, Value};

/// The platforms at most.
const PLATFORM_LIMIT: usize = 32;

/// The path of a platform's commands, or the first fault of the platform.
fn read_commands(alloc: Global, name: &[u8], value: &Value) -> Result<Path, AnalysisFault>
    ensures fine { IfOk result (λ _. first_of (platform_faults (name.now, view value.now)) ≡ None) }
    ensures path { IfOk result (λ path. commands_path (view value.now) ≡ Some path) }
    ensures bad { IfErr result (λ e. Tells e (first_of (platform_faults (name.now, view value.now)))) }
{
    if !is_name(name) {
        return Err(bad_platform(alloc, AnalysisKind::BadName, name, ""));
    }
    if !value.is_table() {
        return Err(bad_platform(alloc, AnalysisKind::WrongType, name, ""));
    }
    let Some(commands) = value.get("commands") else {
        return Err(bad_platform(alloc, AnalysisKind::NoCommands, name, ".commands"));
    };
    let Some(text) = commands.as_str() else {
        return Err(bad_platform(alloc, AnalysisKind::WrongType, name, ".commands"));
    };
    match Path::read(alloc, text.as_bytes()) {
        Ok(path) => Ok(path),
        Err(PathFault::Bad(_)) => Err(bad_platform(
            alloc,
            AnalysisKind::BadPath,
            name,
            ".commands",
        )),
        Err(PathFault::NoMemory) => Err(AnalysisFault::NoMemory),
    }
}

/// A platform, or its first fault.
fn read_platform(alloc: Global, name: &[u8], value: &Value) -> Result<Platform, AnalysisFault>
    ensures fine { IfOk result (λ _. first_of (platform_faults (name.now, view value.now)) ≡ None) }
    ensures platform { IfOk result (λ platform. platform_of (name.now, view value.now) ≡ Some platform) }
    ensures bad { IfErr result (λ e. Tells e (first_of (platform_faults (name.now, view value.now)))) }
{
    let commands = read_commands(alloc, name, value)?;
    let name = Bytes::from_slice(alloc, name)?;
    Ok(Platform { name, commands })
}

/// The platforms of the entries of a table, in their order, or the first fault of them.
fn read_entries(alloc: Global, entries: &Table) -> Result<Vec<Platform>, AnalysisFault>
    requires { btree_map_len entries.now ≤ 32 }
    ensures fine { IfOk result (λ _. first_of (flat_map platform_faults (entries_of (table_view entries.now))) ≡ None) }
    ensures platforms { IfOk result (λ platforms. platforms.items
        ≡ filter_map platform_of (entries_of (table_view entries.now))) }
    ensures valid { IfOk result (λ platforms. ArePlatforms platforms.items) }
    ensures bad { IfErr result (λ e. Tells e
        (first_of (flat_map platform_faults (entries_of (table_view entries.now))))) }
{
    let mut platforms = Vec::new(alloc);
    'platforms: for (name, value) in entries.iter() {
        platforms.push(read_platform(alloc, name.as_bytes(), value)?)?;
    }
    Ok(platforms)
}

/// The platforms of an analysis by the bytes of their names, or the first fault of them.
pub(crate) fn read_platforms(alloc: Global, table: &Table) -> Result<Vec<Platform>, AnalysisFault>
    ensures fine { IfOk result (λ _. first_of (platforms_faults (table_view table.now)) ≡ None) }
    ensures platforms { IfOk result (λ platforms. platforms.items
        ≡ filter_map platform_of (entries_in (platform_at (table_view table.now)))) }
    ensures valid { IfOk result (λ platforms. ArePlatforms platforms.items) }
    ensures bad { IfErr result (λ e. Tells e (first_of (platforms_faults (table_view table.now)))) }
{
    let Some(value) = member(table, "platform") else {
        return Err(bad(alloc, AnalysisKind::NoPlatform, "platform"));
    };
    let Some(entries) = value.as_table() else {
        return Err(bad(alloc, AnalysisKind::WrongType, "platform"));
    };
    if entries.is_empty() {
        return Err(bad(alloc, AnalysisKind::NoPlatform, "platform"));
    }
    if entries.len() > PLATFORM_LIMIT {
        return Err(bad(alloc, AnalysisKind::TooMany, "platform"));
    }
    read_entries(alloc, entries)
}
