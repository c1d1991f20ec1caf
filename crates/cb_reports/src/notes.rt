//! The report of what was absent, passed over or noted.
ghost use Rattle.std.specs.Prelude.{◌≡◌, ◌++◌, ◌<◌, ◌≤◌, OnOk, IfOk};
ghost use Rattle.std.specs.List.{flat_map};
ghost use Rattle.cb_reports.specs.Notes.{kind_name as name_of_kind, absent_line, idle_name, idle_line, place_text, note_line, notes_text};

use crate::details::add_detail;
use crate::rows::{AbsentRow, Idle, IdleRow, NoteRow};
use crate::text::Text;
use cb_paths::NoMemory;
use std::alloc::Global;

/// The name of a kind of note, by its number from 1 to 10.
fn kind_name(kind: u32) -> &'static [u8]
    ensures { result.now ≡ name_of_kind kind }
{
    match kind {
        1 => b"Missing",
        2 => b"BadInclude",
        3 => b"BadDefine",
        4 => b"Redefined",
        5 => b"BadCondition",
        6 => b"TooLong",
        7 => b"TooDeep",
        8 => b"Budget",
        9 => b"ErrorReached",
        _ => b"NoMain",
    }
}

/// Adds the line of a platform whose database is absent.
fn add_absent(text: &mut Text, row: &AbsentRow) -> Result<(), NoMemory>
    ensures { OnOk result (text.new ≡ text.old ++ absent_line row.now) }
{
    text.add(b"database ")?;
    text.add(row.platform.as_slice())?;
    text.add(b" ")?;
    text.add(row.path.as_slice())?;
    text.add(b" absent")?;
    text.end_line()
}

/// Adds the lines of platforms whose databases are absent.
fn add_databases(text: &mut Text, rows: &[AbsentRow]) -> Result<(), NoMemory>
    ensures { OnOk result (text.new ≡ text.old ++ flat_map absent_line rows.now) }
{
    for at in 0..rows.len() {
        add_absent(text, &rows[at])?;
    }
    Ok(())
}

/// Adds why an entry makes no command.
fn add_idle_name(text: &mut Text, why: Idle) -> Result<(), NoMemory>
    ensures { OnOk result (text.new ≡ text.old ++ idle_name why) }
{
    match why {
        Idle::Outside => text.add(b"outside"),
        Idle::Unsupported => text.add(b"unsupported"),
    }
}

/// Adds the line of an entry that makes no command.
fn add_idle(text: &mut Text, row: &IdleRow) -> Result<(), NoMemory>
    ensures { OnOk result (text.new ≡ text.old ++ idle_line row.now) }
{
    text.add(b"command ")?;
    text.add_number(u64::from(row.command))?;
    text.add(b" ")?;
    text.add(row.platform.as_slice())?;
    text.add(b" ")?;
    add_idle_name(text, row.why)?;
    text.end_line()
}

/// Adds the lines of entries that make no command.
fn add_idles(text: &mut Text, rows: &[IdleRow]) -> Result<(), NoMemory>
    ensures { OnOk result (text.new ≡ text.old ++ flat_map idle_line rows.now) }
{
    for at in 0..rows.len() {
        add_idle(text, &rows[at])?;
    }
    Ok(())
}

/// Adds where a note stands.
fn add_place(text: &mut Text, row: &NoteRow) -> Result<(), NoMemory>
    ensures { OnOk result (text.new ≡ text.old ++ place_text row.now) }
{
    text.add(row.path.as_slice())?;
    text.add(b":")?;
    if row.node == 0 {
        return text.add(b"start");
    }
    text.add_number(u64::from(row.line))
}

/// Adds the line of a note.
fn add_note(text: &mut Text, row: &NoteRow) -> Result<(), NoMemory>
    ensures { OnOk result (text.new ≡ text.old ++ note_line row.now) }
{
    text.add(b"note ")?;
    add_place(text, row)?;
    text.add(b" ")?;
    text.add(kind_name(row.kind))?;
    text.add(b" ")?;
    add_detail(text, row.detail.as_slice())?;
    text.add(b" commands ")?;
    text.add_number(u64::from(row.commands))?;
    text.add(b" first ")?;
    text.add_number(u64::from(row.first))?;
    text.end_line()
}

/// Adds the lines of notes.
fn add_notes(text: &mut Text, rows: &[NoteRow]) -> Result<(), NoMemory>
    ensures { OnOk result (text.new ≡ text.old ++ flat_map note_line rows.now) }
{
    for at in 0..rows.len() {
        add_note(text, &rows[at])?;
    }
    Ok(())
}

/// The whole report.
pub(crate) fn notes(
    alloc: Global,
    databases: &[AbsentRow],
    idle: &[IdleRow],
    notes: &[NoteRow],
) -> Result<Text, NoMemory>
    ensures { IfOk result (λ text. text ≡ notes_text databases.now idle.now notes.now) }
{
    let mut text = Text::new(alloc);
    add_databases(&mut text, databases)?;
    add_idles(&mut text, idle)?;
    add_notes(&mut text, notes)?;
    if text.is_empty() {
        text.add(b"notes none")?;
        text.end_line()?;
    }
    Ok(text)
}
