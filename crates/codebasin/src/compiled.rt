//! The command that compiles the source.
ghost use Rattle.std.specs.Prelude.{◌≡◌, map, IfOk};
ghost use Rattle.cb_include.specs.declared.op.Op.TheVariants.{Define};
ghost use Rattle.codebasin.specs.Specialise.{source_path, command_of};

use crate::one_file::SOURCE_PATH;
use cb_include::{Command, Dirs, Op, Ops};
use cb_paths::{Bytes, Dir, Language, NoMemory, Path, PathFault, Texts};
use std::alloc::Global;

/// The path of the source.
fn source_path(alloc: Global) -> Result<Path, NoMemory>
    ensures { IfOk result (λ path. path ≡ source_path) }
{
    match Path::read(alloc, SOURCE_PATH) {
        Ok(path) => Ok(path),
        Err(PathFault::Bad(_bad)) => unreachable!(),
        Err(PathFault::NoMemory) => Err(NoMemory),
    }
}

/// The definitions of the words of each `-D`.
fn definitions(alloc: Global, words: Vec<Bytes>) -> Result<Ops, NoMemory>
    ensures { IfOk result (λ ops. ops ≡ map Define words.items) }
{
    let mut ops = Ops::new(alloc);
    'words: for word in words {
        ops.push(Op::Define(word))?;
    }
    Ok(ops)
}

/// The command that compiles the source with these words of `-D`.
pub(crate) fn command_of(alloc: Global, words: Vec<Bytes>) -> Result<Command, NoMemory>
    ensures { IfOk result (λ command. command ≡ command_of words.items) }
{
    Ok(Command {
        main: source_path(alloc)?,
        language: Language::C,
        ops: definitions(alloc, words)?,
        work: Dir::top(alloc)?,
        quote: Dirs::new(alloc),
        angle: Dirs::new(alloc),
        forced: Texts::new(alloc),
        root: Dir::top(alloc)?,
    })
}
