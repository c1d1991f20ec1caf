//! The search for a header.
ghost use Rattle.std.specs.Prelude.{◌≡◌, false, ◌∷◌, [], IfOk, OnOk};
ghost use Rattle.std.specs.List.{find, filter_map};
ghost use Rattle.std.specs.Option.{option_to_list};
ghost use Rattle.cb_paths.specs.Paths.{is_absolute, file_at};
ghost use Rattle.cb_include.specs.Candidates.{including, nearest, folders, named_in, candidates};
ghost use Rattle.cb_include.specs.Seen.{with_paths, up_to};
ghost use Rattle.cb_include.specs.inner.Finding.{Finds};

use crate::command::Command;
use crate::dir_list::Dirs;
use crate::header::{Header, Origin};
use crate::present::Present;
use crate::probes::Probes;
use cb_paths::{Bytes, Dir, NoMemory, Path, PathFault};
use std::alloc::Global;

/// The path of a header that a command includes: the first of its candidates that is present, if one is. They stand in
/// the folder of the source that includes (at the start, in the working folder), in those of `-iquote`, of `-I` and of
/// `-isystem`, in this order; the first two only where the header stands between quotes. A header that begins with a
/// slash is looked for where it says. What is no path below the command's root is no candidate. The candidates up to
/// the answer, or all, are added to the probes. Its one error is being out of memory, after which the probes may hold
/// any paths.
pub fn search<F: Present>(
    alloc: Global,
    files: &F,
    command: &Command,
    from: Origin,
    header: &Header,
    probes: &mut Probes,
) -> Result<Option<Path>, NoMemory>
    ensures found { IfOk result (λ found. found
        ≡ find (F.holds files.now) (candidates command.now (including from.entry) header.now)) }
    ensures probed { OnOk result (probes.new ≡ with_paths probes.old
        (up_to (F.holds files.now) (candidates command.now (including from.entry) header.now))) }
{
    let text = &header.text;
    if is_absolute(text) {
        return look_in(alloc, files, text, &command.root, &command.root, probes);
    }
    if header.angle {
        return look_in_each(alloc, files, text, &command.angle, &command.root, probes);
    }
    look_in_all(alloc, files, command, from, text, probes)
}

/// Whether a text begins with a slash.
fn is_absolute(text: &Bytes) -> bool
    ensures { result ≡ is_absolute text.now }
{
    match text.as_slice().first() {
        Some(byte) => *byte == b'/',
        None => false,
    }
}

/// The search for a header that stands between quotes.
fn look_in_all<F: Present>(
    alloc: Global,
    files: &F,
    command: &Command,
    from: Origin,
    text: &Bytes,
    probes: &mut Probes,
) -> Result<Option<Path>, NoMemory>
    ensures { IfOk result (λ found. Finds (F.holds files.now) probes.old
        (named_in command.now text.now (folders command.now (including from.entry) false)) found probes.new) }
{
    if let Some(path) = look_nearest(alloc, files, command, from, text, probes)? {
        return Ok(Some(path));
    }
    if let Some(path) = look_in_each(alloc, files, text, &command.quote, &command.root, probes)? {
        return Ok(Some(path));
    }
    look_in_each(alloc, files, text, &command.angle, &command.root, probes)
}

/// The search in the folder of the source that includes, or at the start in the working folder.
fn look_nearest<F: Present>(
    alloc: Global,
    files: &F,
    command: &Command,
    from: Origin,
    text: &Bytes,
    probes: &mut Probes,
) -> Result<Option<Path>, NoMemory>
    ensures { IfOk result (λ found. Finds (F.holds files.now) probes.old
        (named_in command.now text.now (nearest command.now (including from.entry))) found probes.new) }
{
    match from {
        Origin::Start => look_in(alloc, files, text, &command.work, &command.root, probes),
        Origin::File(path) => match Dir::folder_of(alloc, &command.root, path) {
            Ok(folder) => look_in(alloc, files, text, &folder, &command.root, probes),
            Err(PathFault::NoMemory) => Err(NoMemory),
            Err(PathFault::Bad(_too_long)) => Ok(None),
        },
    }
}

/// The search in some folders.
fn look_in_each<F: Present>(
    alloc: Global,
    files: &F,
    text: &Bytes,
    folders: &Dirs,
    root: &Dir,
    probes: &mut Probes,
) -> Result<Option<Path>, NoMemory>
    ensures { IfOk result (λ found. Finds (F.holds files.now) probes.old
        (filter_map (λ folder. file_at text.now folder root.now) folders.now) found probes.new) }
{
    'folders: for folder in folders.as_slice() {
        if let Some(path) = look_in(alloc, files, text, folder, root, probes)? {
            return Ok(Some(path));
        }
    }
    Ok(None)
}

/// The search in one folder.
fn look_in<F: Present>(
    alloc: Global,
    files: &F,
    text: &Bytes,
    folder: &Dir,
    root: &Dir,
    probes: &mut Probes,
) -> Result<Option<Path>, NoMemory>
    ensures { IfOk result (λ found. Finds (F.holds files.now) probes.old
        (option_to_list (file_at text.now folder.now root.now)) found probes.new) }
{
    match Dir::file(alloc, text.as_slice(), folder, root)? {
        Some(path) => look_at(alloc, files, path, probes),
        None => Ok(None),
    }
}

/// The search at one path.
fn look_at<F: Present>(
    alloc: Global,
    files: &F,
    path: Path,
    probes: &mut Probes,
) -> Result<Option<Path>, NoMemory>
    ensures { IfOk result (λ found. Finds (F.holds files.now) probes.old (path ∷ []) found probes.new) }
{
    if files.has(&path) {
        probes.add(alloc, &path)?;
        return Ok(Some(path));
    }
    probes.insert(path)?;
    Ok(None)
}
