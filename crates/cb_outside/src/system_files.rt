//! Folders and files of the system.
ghost use Rattle.std.specs.Prelude.{◌≤◌, length, IfOk};

use crate::names::{Name, NameKind, Names};
use crate::tree_faults::{ListFault, ReadFault};
use cb_paths::Bytes;
use std::alloc::Global;
use std::fs::{self, DirEntry, FileType, Files};
use std::io::{self, ErrorKind, Read};

/// The names in a folder, which is named from the one in which the program runs.
pub(crate) fn list_folder<R: Files>(
    rt: &R,
    alloc: Global,
    folder: &[u8],
    limit: u64,
) -> Result<Names, ListFault>
    ensures { IfOk result (λ names. length names ≤ limit) }
{
    let Some(text) = folder_text(folder) else {
        return Err(ListFault::Failed);
    };
    let entries = match fs::read_dir(&(rt, alloc), text) {
        Ok(entries) => entries,
        Err(error) => return Err(list_fault(&error)),
    };
    let mut names = Names::new(alloc);
    'entries: for entry in entries {
        if names.len() as u64 >= limit {
            return Err(ListFault::TooMany);
        }
        names.push(name_of(alloc, entry)?)?;
    }
    Ok(names)
}

/// The text of a folder for the system, where the top is the empty text; none where it is not UTF-8.
fn folder_text(folder: &[u8]) -> Option<&str> {
    if folder.is_empty() {
        return Some(".");
    }
    std::str::from_utf8(folder).ok()
}

/// The name of an entry.
fn name_of<R: Files + Drop>(
    alloc: Global,
    entry: io::Result<DirEntry<R, Global>>,
) -> Result<Name, ListFault> {
    let entry = match entry {
        Ok(entry) => entry,
        Err(error) => return Err(list_fault(&error)),
    };
    let kind = match entry.file_type() {
        Ok(kind) => kind_of(kind),
        Err(error) => return Err(list_fault(&error)),
    };
    let text = Bytes::from_slice(alloc, entry.file_name().as_bytes())?;
    Ok(Name { text, kind })
}

/// What a name stands for. A link is neither a file nor a folder.
fn kind_of(kind: FileType) -> NameKind {
    if kind.is_file() {
        NameKind::File
    } else if kind.is_dir() {
        NameKind::Folder
    } else {
        NameKind::Other
    }
}

/// The fault of a listing that an error is.
fn list_fault(error: &io::Error) -> ListFault {
    match error.kind() {
        ErrorKind::OutOfMemory => ListFault::NoMemory,
        _ => ListFault::Failed,
    }
}

/// The bytes of a plain file, which is named from the folder in which the program runs.
pub(crate) fn read_file<R: Files>(
    rt: &R,
    alloc: Global,
    path: &[u8],
    limit: u64,
) -> Result<Bytes, ReadFault>
    ensures { IfOk result (λ bytes. length bytes ≤ limit) }
{
    let Ok(text) = std::str::from_utf8(path) else {
        return Err(ReadFault::Absent);
    };
    let bytes = match front_of(rt, alloc, text, limit.saturating_add(1)) {
        Ok(Some(bytes)) => bytes,
        Ok(None) => return Err(ReadFault::Absent),
        Err(error) => return Err(read_fault(&error)),
    };
    if bytes.len() as u64 > limit {
        return Err(ReadFault::TooLong);
    }
    let bytes = Bytes::from_vec(alloc, bytes)?;
    Ok(bytes)
}

/// So many bytes at the front of a plain file, or all of them where it has fewer; none where what is named is no plain
/// file.
fn front_of<R: Files>(rt: &R, alloc: Global, path: &str, most: u64) -> io::Result<Option<Vec<u8>>> {
    if !fs::symlink_metadata(rt, path)?.is_file() {
        return Ok(None);
    }
    let mut bytes = Vec::new(alloc);
    fs::open(rt, path)?.take(most).read_to_end(&mut bytes)?;
    Ok(Some(bytes))
}

/// The fault of a reading that an error is.
fn read_fault(error: &io::Error) -> ReadFault {
    match error.kind() {
        ErrorKind::NotFound => ReadFault::Absent,
        ErrorKind::OutOfMemory => ReadFault::NoMemory,
        _ => ReadFault::Failed,
    }
}
