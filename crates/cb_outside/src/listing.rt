//! The names in a folder of files in memory.
ghost use Rattle.std.specs.Prelude.{◌≡◌, ◌++◌, ◌∷◌, [], map, IfOk, OnOk};
ghost use Rattle.std.specs.Option.{option_copied};
ghost use Rattle.std.specs.List.{filter_map, cons_option};
ghost use Rattle.std.specs.Map.{keys_of};
ghost use Rattle.cb_outside.specs.Trees.{AreFiles, names_in, named, file_in, folder_in, each_once};
ghost use Rattle.cb_outside.specs.inner.Listing.{with_found};
ghost use Rattle.cb_outside.specs.declared.names.NameKind.TheVariants.{File, Folder};

use crate::below::{file_in, folder_in};
use crate::names::{Name, NameKind, Names};
use cb_paths::{Bytes, NoMemory, Path, Texts};
use std::alloc::Global;
use std::collections::BTreeMap;

/// The names in a folder: first those of the files, then those of the folders, each in the order of the paths.
#[tactic(auto, unfolding(crate::specs::Trees::names_in))]
pub(crate) fn names_in(
    alloc: Global,
    files: &BTreeMap<Path, Bytes>,
    folder: &[u8],
) -> Result<Names, NoMemory>
    ensures names { IfOk result (λ names. names ≡ names_in folder.now files.now.entries) }
    ensures paths { OnOk result (AreFiles files.now.entries) }
{
    let mut names = Names::new(alloc);
    add_files(alloc, files, folder, &mut names)?;
    let folders = folders_in(alloc, files, folder)?;
    add_folders(alloc, folders.as_slice(), &mut names)?;
    Ok(names)
}

/// Adds the names of the files that stand directly in a folder.
fn add_files(
    alloc: Global,
    files: &BTreeMap<Path, Bytes>,
    folder: &[u8],
    names: &mut Names,
) -> Result<(), NoMemory>
    ensures added { OnOk result
        (names.new ≡ names.old ++ map (named File) (filter_map (file_in folder.now) (keys_of files.now.entries))) }
    ensures paths { OnOk result (AreFiles files.now.entries) }
{
    'files: for path in files.keys() {
        add_name(alloc, names, NameKind::File, file_in(folder, path.bytes()))?;
    }
    Ok(())
}

/// Adds the name of one file, where there is one.
fn add_name(
    alloc: Global,
    names: &mut Names,
    kind: NameKind,
    found: Option<&[u8]>,
) -> Result<(), NoMemory>
    ensures { OnOk result (names.new ≡ names.old ++ map (named kind) (cons_option (option_copied found.entry) [])) }
{
    let Some(text) = found else {
        return Ok(());
    };
    let text = Bytes::from_slice(alloc, text)?;
    names.push(Name { text, kind })
}

/// The folders in a folder through which paths go on, each once.
fn folders_in(
    alloc: Global,
    files: &BTreeMap<Path, Bytes>,
    folder: &[u8],
) -> Result<Texts, NoMemory>
    ensures { IfOk result
        (λ folders. folders ≡ each_once (filter_map (folder_in folder.now) (keys_of files.now.entries))) }
{
    let mut folders = Texts::new(alloc);
    'files: for path in files.keys() {
        add_once(alloc, &mut folders, folder_in(folder, path.bytes()))?;
    }
    Ok(folders)
}

/// Adds a text at the end where there is one, unless it stands there already.
fn add_once(alloc: Global, texts: &mut Texts, found: Option<&[u8]>) -> Result<(), NoMemory>
    ensures { OnOk result (texts.new ≡ with_found texts.old (option_copied found.entry)) }
{
    let Some(text) = found else {
        return Ok(());
    };
    let text = Bytes::from_slice(alloc, text)?;
    if texts.as_slice().contains(&text) {
        return Ok(());
    }
    texts.push(text)?;
    Ok(())
}

/// Adds folders as names.
fn add_folders(alloc: Global, folders: &[Bytes], names: &mut Names) -> Result<(), NoMemory>
    ensures { OnOk result (names.new ≡ names.old ++ map (named Folder) folders.now) }
{
    'folders: for folder in folders {
        add_name(alloc, names, NameKind::Folder, Some(folder.as_slice()))?;
    }
    Ok(())
}
