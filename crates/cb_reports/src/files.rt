//! The report of the lines of each source that each platform uses.
ghost use Rattle.std.specs.Prelude.{◌≡◌, ◌++◌, codes, OnOk, IfOk};
ghost use Rattle.std.specs.List.{flat_map};
ghost use Rattle.cb_reports.specs.Words.{numbered};
ghost use Rattle.cb_reports.specs.Files.{spaced_run, runs_line, lines_line, unused as unused_of, used_line, file_text, files_text};

use crate::names::name_at;
use crate::rows::FileRow;
use crate::text::Text;
use cb_lines::{Lines, Span};
use cb_paths::{Bytes, NoMemory};
use std::alloc::Global;

/// Adds a run of lines behind a space: its one line, or its first and last line.
fn add_run(text: &mut Text, span: Span) -> Result<(), NoMemory>
    ensures { OnOk result (text.new ≡ text.old ++ spaced_run span) }
{
    text.add(b" ")?;
    text.add_number(u64::from(span.first))?;
    if span.first == span.last {
        return Ok(());
    }
    text.add(b"-")?;
    text.add_number(u64::from(span.last))
}

/// Adds runs of lines, each behind a space.
fn add_runs(text: &mut Text, spans: &[Span]) -> Result<(), NoMemory>
    ensures { OnOk result (text.new ≡ text.old ++ flat_map spaced_run spans.now) }
{
    for at in 0..spans.len() {
        add_run(text, spans[at])?;
    }
    Ok(())
}

/// Adds runs of lines behind a label; without a run nothing is added.
fn add_labelled(text: &mut Text, label: &[u8], spans: &[Span]) -> Result<(), NoMemory>
    ensures { OnOk result (text.new ≡ text.old ++ runs_line label.now spans.now) }
{
    if spans.is_empty() {
        return Ok(());
    }
    text.add(b"  ")?;
    text.add(label)?;
    add_runs(text, spans)?;
    text.end_line()
}

/// Adds lines behind a label; without a line nothing is added.
fn add_lines(text: &mut Text, label: &[u8], lines: &Lines) -> Result<(), NoMemory>
    ensures { OnOk result (text.new ≡ text.old ++ lines_line label.now lines.now) }
{
    add_labelled(text, label, lines.spans())
}

/// Adds the lines that each platform uses.
fn add_used(text: &mut Text, names: &[Bytes], used: &[Lines]) -> Result<(), NoMemory>
    ensures { OnOk result (text.new ≡ text.old ++ numbered (used_line names.now) 1 used.now) }
{
    for at in 0..used.len() {
        add_lines(text, name_at(names, at), &used[at])?;
    }
    Ok(())
}

/// The lines that none of some sets holds.
fn unused(alloc: Global, counted: &Lines, used: &[Lines]) -> Result<Lines, NoMemory>
    ensures { IfOk result (λ lines. lines ≡ unused_of used.now counted.now) }
{
    let mut rest = counted.copy(alloc)?;
    for at in 0..used.len() {
        rest = rest.minus(alloc, &used[at])?;
    }
    Ok(rest)
}

/// Adds a source.
fn add_file(text: &mut Text, alloc: Global, names: &[Bytes], file: &FileRow) -> Result<(), NoMemory>
    ensures { OnOk result (text.new ≡ text.old ++ file_text names.now file.now) }
{
    text.add(file.path.as_slice())?;
    text.add(b" ")?;
    text.add_number(file.counted.count())?;
    text.end_line()?;
    add_used(text, names, file.used.as_slice())?;
    add_lines(
        text,
        b"{}",
        &unused(alloc, &file.counted, file.used.as_slice())?,
    )
}

/// Adds sources.
fn add_files(
    text: &mut Text,
    alloc: Global,
    names: &[Bytes],
    files: &[FileRow],
) -> Result<(), NoMemory>
    ensures { OnOk result (text.new ≡ text.old ++ flat_map (file_text names.now) files.now) }
{
    for at in 0..files.len() {
        add_file(text, alloc, names, &files[at])?;
    }
    Ok(())
}

/// The whole report.
pub(crate) fn files(alloc: Global, names: &[Bytes], files: &[FileRow]) -> Result<Text, NoMemory>
    ensures { IfOk result (λ text. text ≡ files_text names.now files.now) }
{
    let mut text = Text::new(alloc);
    add_files(&mut text, alloc, names, files)?;
    Ok(text)
}
