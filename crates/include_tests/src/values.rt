//! Commands as values, and the lists of paths.
use cb_include::{Command, Dirs, Header, Once, Op, Ops, Origin, Probes};
use cb_paths::{Bytes, Dir, Language, NoMemory, Path, PathFault, Texts};
use indexmap::IndexSet;
use std::alloc::Global;
use std::test::Fail;

fn is_shared<T: Send + Sync>() {}

#[test]
fn values_are_shared() {
    is_shared::<Command>();
    is_shared::<Op>();
    is_shared::<Ops>();
    is_shared::<Dirs>();
    is_shared::<Header>();
    is_shared::<Origin>();
    is_shared::<Probes>();
    is_shared::<Once>();
}

/// The definitions that these words stand for, `-` before a name undefines it.
fn ops(alloc: Global, words: &[&[u8]]) -> Result<Ops, NoMemory> {
    let mut ops = Ops::new(alloc);
    for word in words {
        ops.push(op(alloc, word)?)?;
    }
    Ok(ops)
}

fn op(alloc: Global, word: &[u8]) -> Result<Op, NoMemory> {
    match word {
        [b'-', name @ ..] => Ok(Op::Undef(Bytes::from_slice(alloc, name)?)),
        _ => Ok(Op::Define(Bytes::from_slice(alloc, word)?)),
    }
}

/// A command that differs from another in its language, its definitions or its working folder.
fn command(
    alloc: Global,
    language: Language,
    words: &[&[u8]],
    work: &[u8],
) -> Result<Command, PathFault> {
    let root = Dir::top(alloc)?;
    Ok(Command {
        main: Path::read(alloc, b"m.c")?,
        language,
        ops: ops(alloc, words)?.copy(alloc)?,
        work: Dir::read(alloc, work, &root)?,
        quote: Dirs::new(alloc).copy(alloc)?,
        angle: Dirs::new(alloc),
        forced: Texts::new(alloc),
        root,
    })
}

const COMMANDS: &[(Language, &[&[u8]], &[u8])] = &[
    (Language::C, &[], b"/"),
    (Language::Cxx, &[], b"/"),
    (Language::C, &[b"A"], b"/"),
    (Language::C, &[b"-A"], b"/"),
    (Language::C, &[b"A=1"], b"/"),
    (Language::C, &[b"A", b"A"], b"/"),
    (Language::C, &[], b"/a"),
];

/// The distinct ones of these commands, each of which is made twice.
fn distinct(alloc: Global) -> Result<IndexSet<Command>, PathFault> {
    let mut commands = IndexSet::new(alloc);
    for i in 0..2 * COMMANDS.len() {
        let row = &COMMANDS[i % COMMANDS.len()];
        match commands.insert(command(alloc, row.0, row.1, row.2)?) {
            Ok(_is_new) => {}
            Err(_refused) => return Err(PathFault::NoMemory),
        }
    }
    Ok(commands)
}

/// How many of these commands are distinct.
fn distinct_count(alloc: Global) -> Result<usize, PathFault> {
    Ok(distinct(alloc)?.len())
}

#[test]
fn equal_commands_are_one(rt: HostRuntime) -> Result<(), Fail> {
    assert!(rt; distinct_count(rt.alloc())? == COMMANDS.len());
    Ok(())
}

/// Whether a path is added once, at the place after those before it.
fn is_added_once(alloc: Global) -> Result<bool, PathFault> {
    let mut probes = Probes::new(alloc);
    let some = Path::read(alloc, b"a.h")?;
    let other = Path::read(alloc, b"b.h")?;
    probes.add(alloc, &some)?;
    probes.add(alloc, &some)?;
    probes.insert(other.copy(alloc)?)?;
    let places = (probes.place_of(&some), probes.place_of(&other));
    let is_second = match probes.get(1) {
        Some(path) => path.bytes() == other.bytes(),
        None => false,
    };
    Ok(places == (Some(0), Some(1)) && is_second && probes.len() == 2 && !probes.is_empty())
}

/// Whether a source that has said so is one to be read once, and no other.
fn is_read_once(alloc: Global) -> Result<bool, PathFault> {
    let mut once = Once::new(alloc);
    let some = Path::read(alloc, b"a.h")?;
    once.add(alloc, &some)?;
    Ok(once.has(&some) && !once.has(&Path::read(alloc, b"b.h")?))
}

#[test]
fn paths_are_kept(rt: HostRuntime) -> Result<(), Fail> {
    assert!(rt; is_added_once(rt.alloc())?);
    assert!(rt; is_read_once(rt.alloc())?);
    Ok(())
}
