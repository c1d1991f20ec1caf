//! The report of sources with equal bytes.
ghost use Rattle.std.specs.Prelude.{◌≡◌, ◌++◌, ◌+◌, ◌<◌, ◌^◌, length, OnOk, IfOk};
ghost use Rattle.std.specs.List.{flat_map};
ghost use Rattle.cb_reports.specs.Duplicates.{path_line, group_text, duplicates_text};
ghost use Rattle.cb_reports.specs.Words.{numbered};

use crate::text::Text;
use cb_paths::{Bytes, NoMemory, Texts};
use std::alloc::Global;

/// Adds the line of a source.
fn add_path(text: &mut Text, path: &Bytes) -> Result<(), NoMemory>
    ensures { OnOk result (text.new ≡ text.old ++ path_line path.now) }
{
    text.add(b"  ")?;
    text.add(path.as_slice())?;
    text.end_line()
}

/// Adds the lines of sources.
fn add_paths(text: &mut Text, paths: &[Bytes]) -> Result<(), NoMemory>
    ensures { OnOk result (text.new ≡ text.old ++ flat_map path_line paths.now) }
{
    for at in 0..paths.len() {
        add_path(text, &paths[at])?;
    }
    Ok(())
}

/// Adds a group with its number.
fn add_group(text: &mut Text, number: u64, paths: &[Bytes]) -> Result<(), NoMemory>
    ensures { OnOk result (text.new ≡ text.old ++ group_text number paths.now) }
{
    text.add(b"group ")?;
    text.add_number(number)?;
    text.end_line()?;
    add_paths(text, paths)
}

/// Adds groups, numbered from 1.
fn add_groups(text: &mut Text, groups: &[Texts]) -> Result<(), NoMemory>
    ensures { OnOk result (text.new ≡ text.old ++ numbered group_text 1 groups.now) }
{
    for at in 0..groups.len() {
        add_group(text, at as u64 + 1, groups[at].as_slice())?;
    }
    Ok(())
}

/// The whole report.
pub(crate) fn duplicates(alloc: Global, groups: &[Texts]) -> Result<Text, NoMemory>
    ensures { IfOk result (λ text. text ≡ duplicates_text groups.now) }
{
    let mut text = Text::new(alloc);
    if groups.is_empty() {
        text.add(b"duplicates none")?;
        text.end_line()?;
        return Ok(text);
    }
    add_groups(&mut text, groups)?;
    Ok(text)
}
