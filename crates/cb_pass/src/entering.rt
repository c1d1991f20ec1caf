//! From a header to the file that is entered.
ghost use Rattle.std.specs.Prelude.{◌≡◌, ◌≤◌, List, nat_lt, true, IfOk, OnOk};
ghost use Rattle.cb_include.specs.Candidates.{including};
ghost use Rattle.cb_include.specs.Seen.{has_path};
ghost use Rattle.cb_pass.specs.Files.{Searches};
ghost use Rattle.cb_pass.specs.Headers.{spelled_header};
ghost use Rattle.cb_pass.specs.Files.{entering};
ghost use Rattle.cb_pass.specs.States.{Frame, Waiting};
ghost use Rattle.cb_pass.specs.declared.note.NoteKind.TheVariants as notes;
ghost use Rattle.cb_pass.specs.inner.Moves.{IsMet, IsEntered, IsNoted, IsPlaced, with_file};
ghost use Rattle.cb_pass.specs.inner.Trails.{state_of};

use crate::files::Files;
use crate::limits::DEPTH_LIMIT;
use crate::note::NoteKind;
use crate::open_file::OpenFile;
use crate::trail::Trail;
use cb_include::{Command, Header, Origin};
use cb_paths::{NoMemory, Path};
use std::alloc::Global;

/// A header with what it stands between.
fn spelled(alloc: Global, header: &Header) -> Result<Vec<u8>, NoMemory>
    ensures { IfOk result (λ text. text.items ≡ spelled_header header.now) }
{
    let (first, last) = if header.angle {
        (b'<', b'>')
    } else {
        (b'"', b'"')
    };
    let mut text = Vec::new(alloc);
    text.push(first)?;
    text.extend_from_slice(header.text.as_slice())?;
    text.push(last)?;
    Ok(text)
}

/// The file that is entered for a header, which is named at a node of the file at a path. What is wrong is noted there.
pub(crate) fn enter_header<'a, F: Files>(
    alloc: Global,
    files: &'a F,
    command: &Command,
    trail: &mut Trail,
    from: Origin,
    path: &Path,
    node: u32,
    depth: u32,
    header: &Header,
) -> Result<Option<OpenFile<'a>>, NoMemory>
    ensures { IfOk result (λ file. IsMet (F.skeletons files.now) command.now
        (Searches (including from.entry) (record { path = path.now; node = node }) depth header.now)
        trail.old trail.new file) }
{
    let found = trail.search(alloc, files, command, from, header)?;
    match found {
        Some(place) => enter_found(alloc, files, trail, path, node, depth, place),
        None => {
            note_missing(alloc, trail, path, node, header)?;
            Ok(None)
        }
    }
}

/// Notes that a header was not found.
fn note_missing(
    alloc: Global,
    trail: &mut Trail,
    path: &Path,
    node: u32,
    header: &Header,
) -> Result<(), NoMemory>
    ensures { OnOk result (IsNoted trail.old trail.new (record { path = path.now; node = node }) notes.Missing
        (spelled_header header.now)) }
{
    let text = spelled(alloc, header)?;
    trail.note(alloc, path, node, NoteKind::Missing, text.as_slice())?;
    Ok(())
}

/// Whether a depth is above the limit.
fn is_too_deep(depth: u32) -> bool
    ensures { result ≡ nat_lt DEPTH_LIMIT depth }
{
    depth > DEPTH_LIMIT
}

/// The file that is entered at a path that was found.
fn enter_found<'a, F: Files>(
    alloc: Global,
    files: &'a F,
    trail: &mut Trail,
    path: &Path,
    node: u32,
    depth: u32,
    found: Path,
) -> Result<Option<OpenFile<'a>>, NoMemory>
    requires { has_path trail.old.probes found ≡ true }
    ensures { IfOk result (λ file. IsEntered (F.skeletons files.now) (record { path = path.now; node = node }) depth
        found
        trail.old trail.new file) }
{
    if trail.is_read_once(&found) {
        return Ok(None);
    }
    if is_too_deep(depth) {
        trail.note(alloc, path, node, NoteKind::TooDeep, b"")?;
        return Ok(None);
    }
    Ok(opened(alloc, files, trail, depth, found))
}

/// The file at a path that was asked about, before its first node, where it is present.
fn opened<'a, F: Files>(
    alloc: Global,
    files: &'a F,
    trail: &Trail,
    depth: u32,
    found: Path,
) -> Option<OpenFile<'a>>
    requires probed { has_path trail.now.probes found ≡ true }
    requires depth { depth ≤ DEPTH_LIMIT }
    ensures entered { (fs : List Frame) (waiting : List Waiting) → state_of trail.now (with_file result fs) waiting
        ≡ entering found depth (F.skeletons files.now found) (state_of trail.now fs waiting) }
    ensures placed { IsPlaced trail.now.probes result }
{
    let tree = files.tree(&found)?;
    match trail.place_of(&found) {
        Some(place) => Some(OpenFile::new(alloc, found, place, tree, depth)),
        None => unreachable!(),
    }
}
