//! What an entry makes.
ghost use Rattle.std.specs.Prelude.{◌≡◌, ◌∷◌, ◌++◌, [], drop, IfOk, OnOk};
ghost use Rattle.cb_paths.specs.Paths.{folder_at};
ghost use Rattle.cb_compdb.specs.Options.{effects_of};
ghost use Rattle.cb_compdb.specs.Commands.{command_of, folders_of, made_of, ops_of, same_kind, texts_of};
ghost use Rattle.cb_compdb.specs.declared.form.OptionKind.TheVariants as kind;

use crate::entry::Entry;
use crate::form::OptionKind;
use crate::options::{Effect, behind_first, next_effect};
use cb_include::{Command, Dirs, Op, Ops};
use cb_paths::{Bytes, Dir, Language, NoMemory, Path, PathFault, Texts};
use std::alloc::Global;

/// What an entry makes.
#[derive(Drop)]
pub enum Made {
    /// A command that compiles a source below the root.
    Command(Command),
    /// The directory is no folder, or the file is no path below the root.
    Outside,
    /// The file is in no language that is preprocessed.
    Unsupported,
}

/// The folder that a text names from another, if it names one.
#[tactic(auto, unfolding(cb_paths::specs::Paths::folder_at))]
fn folder_at(alloc: Global, text: &[u8], base: &Dir) -> Result<Option<Dir>, NoMemory>
    ensures { IfOk result (λ dir. dir ≡ folder_at text.now base.now) }
{
    match Dir::read(alloc, text, base) {
        Ok(dir) => Ok(Some(dir)),
        Err(PathFault::Bad(_)) => Ok(None),
        Err(PathFault::NoMemory) => Err(NoMemory),
    }
}

/// Whether two options are of one kind.
fn same_kind(some: OptionKind, other: OptionKind) -> bool
    ensures { result ≡ same_kind some other }
{
    some == other
}

/// Adds the definition of an option, if it is one.
#[tactic(auto, unfolding(crate::specs::Commands::ops_of))]
fn add_op(alloc: Global, ops: &mut Ops, effect: &Effect) -> Result<(), NoMemory>
    ensures { OnOk result (ops.new ≡ ops.old ++ ops_of ((effect.now.kind, effect.now.text.now) ∷ [])) }
{
    match effect.kind {
        OptionKind::Define => ops.push(Op::Define(Bytes::from_slice(alloc, effect.text)?)),
        OptionKind::Undefine => ops.push(Op::Undef(Bytes::from_slice(alloc, effect.text)?)),
        _ => Ok(()),
    }
}

/// Adds the folder of an option of this kind; one that is refused is passed over.
#[tactic(auto, unfolding(crate::specs::Commands::folders_of))]
fn add_folder(
    alloc: Global,
    folders: &mut Dirs,
    kind: OptionKind,
    work: &Dir,
    effect: &Effect,
) -> Result<(), NoMemory>
    ensures { OnOk result
        (folders.new ≡ folders.old ++ folders_of kind work.now ((effect.now.kind, effect.now.text.now) ∷ [])) }
{
    if !same_kind(kind, effect.kind) {
        return Ok(());
    }
    match folder_at(alloc, effect.text, work)? {
        Some(folder) => folders.push(folder),
        None => Ok(()),
    }
}

/// Adds the text of an option of this kind.
#[tactic(auto, unfolding(crate::specs::Commands::texts_of))]
fn add_text(
    alloc: Global,
    texts: &mut Texts,
    kind: OptionKind,
    effect: &Effect,
) -> Result<(), NoMemory>
    ensures { OnOk result (texts.new ≡ texts.old ++ texts_of kind ((effect.now.kind, effect.now.text.now) ∷ [])) }
{
    if !same_kind(kind, effect.kind) {
        return Ok(());
    }
    texts.push(Bytes::from_slice(alloc, effect.text)?)
}

/// The definitions of words.
fn ops_of(alloc: Global, words: &[Bytes]) -> Result<Ops, NoMemory>
    ensures { IfOk result (λ ops. ops ≡ ops_of (effects_of words.now)) }
{
    let mut ops = Ops::new(alloc);
    let mut left = words;
    'effects: while let Some((effect, behind)) = next_effect(left) {
        add_op(alloc, &mut ops, &effect)?;
        left = behind;
    }
    Ok(ops)
}

/// Adds the folders of options of a kind.
fn add_folders(
    alloc: Global,
    folders: &mut Dirs,
    kind: OptionKind,
    work: &Dir,
    words: &[Bytes],
) -> Result<(), NoMemory>
    ensures { OnOk result (folders.new ≡ folders.old ++ folders_of kind work.now (effects_of words.now)) }
{
    let mut left = words;
    'effects: while let Some((effect, behind)) = next_effect(left) {
        add_folder(alloc, folders, kind, work, &effect)?;
        left = behind;
    }
    Ok(())
}

/// The folders in which headers in quotes are looked for first.
fn quote_folders(alloc: Global, work: &Dir, words: &[Bytes]) -> Result<Dirs, NoMemory>
    ensures { IfOk result (λ folders. folders ≡ folders_of kind.QuoteFolder work.now (effects_of words.now)) }
{
    let mut folders = Dirs::new(alloc);
    add_folders(alloc, &mut folders, OptionKind::QuoteFolder, work, words)?;
    Ok(folders)
}

/// The folders in which all headers are looked for.
fn angle_folders(alloc: Global, work: &Dir, words: &[Bytes]) -> Result<Dirs, NoMemory>
    ensures { IfOk result
        (λ folders. folders ≡ folders_of kind.Folder work.now (effects_of words.now)
        ++ folders_of kind.SystemFolder work.now (effects_of words.now)) }
{
    let mut folders = Dirs::new(alloc);
    add_folders(alloc, &mut folders, OptionKind::Folder, work, words)?;
    add_folders(alloc, &mut folders, OptionKind::SystemFolder, work, words)?;
    Ok(folders)
}

/// The texts of files that are read first.
fn forced_files(alloc: Global, words: &[Bytes]) -> Result<Texts, NoMemory>
    ensures { IfOk result (λ texts. texts ≡ texts_of kind.ForcedFile (effects_of words.now)) }
{
    let mut texts = Texts::new(alloc);
    let mut left = words;
    'effects: while let Some((effect, behind)) = next_effect(left) {
        add_text(alloc, &mut texts, OptionKind::ForcedFile, &effect)?;
        left = behind;
    }
    Ok(texts)
}

/// The command of options for a source.
#[tactic(auto, unfolding(crate::specs::Commands::command_of))]
fn command_of(
    alloc: Global,
    words: &[Bytes],
    main: Path,
    language: Language,
    work: Dir,
    root: &Dir,
) -> Result<Command, NoMemory>
    ensures { IfOk result (λ command. command ≡ command_of (effects_of words.now) main language work root.now) }
{
    let ops = ops_of(alloc, words)?;
    let quote = quote_folders(alloc, &work, words)?;
    let angle = angle_folders(alloc, &work, words)?;
    let forced = forced_files(alloc, words)?;
    let root = root.copy(alloc)?;
    Ok(Command {
        main,
        language,
        ops,
        work,
        quote,
        angle,
        forced,
        root,
    })
}

/// What an entry makes, where `root` is the path that the top has in the database: `Outside` exactly where the
/// directory, read from the root, is no folder, or the file, read from the directory, is no path below the root; else
/// `Unsupported` exactly where the file is in no language that is preprocessed; else the command that its words give.
/// Its one error is out of memory.
#[tactic(auto, unfolding(crate::specs::Commands::made_of))]
pub fn command(alloc: Global, entry: &Entry, root: &Dir) -> Result<Made, NoMemory>
    ensures { IfOk result (λ made. made ≡ made_of entry.now root.now) }
{
    let Some(work) = folder_at(alloc, entry.directory.as_slice(), root)? else {
        return Ok(Made::Outside);
    };
    let Some(main) = Dir::file(alloc, entry.file.as_slice(), &work, root)? else {
        return Ok(Made::Outside);
    };
    let Some(language) = main.language() else {
        return Ok(Made::Unsupported);
    };
    let options = behind_first(entry.words.as_slice());
    let command = command_of(alloc, options, main, language, work, root)?;
    Ok(Made::Command(command))
}
