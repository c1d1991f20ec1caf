//! Commands: what entries make.
use cb_compdb::{DatabaseFault, Entry, Made, command, read};
use cb_include::{Command, Op};
use cb_paths::{Dir, Language, NoMemory, PathFault, Texts};
use std::alloc::Global;
use std::test::Fail;

fn put(text: &mut Vec<u8>, key: &[u8], value: &[u8]) -> Result<(), NoMemory> {
    text.extend_from_slice(key)?;
    text.extend_from_slice(value)?;
    text.push(b'\n')?;
    Ok(())
}

fn put_op(text: &mut Vec<u8>, op: &Op) -> Result<(), NoMemory> {
    match op {
        Op::Define(word) => put(text, b"define ", word.as_slice()),
        Op::Undef(word) => put(text, b"undef ", word.as_slice()),
    }
}

fn put_folders(text: &mut Vec<u8>, key: &[u8], folders: &[Dir]) -> Result<(), NoMemory> {
    for folder in folders {
        put(text, key, folder.bytes())?;
    }
    Ok(())
}

fn put_texts(text: &mut Vec<u8>, key: &[u8], texts: &Texts) -> Result<(), NoMemory> {
    for forced in texts.as_slice() {
        put(text, key, forced.as_slice())?;
    }
    Ok(())
}

/// A command as lines of text.
fn put_command(text: &mut Vec<u8>, command: &Command) -> Result<(), NoMemory> {
    put(text, b"main ", command.main.bytes())?;
    match command.language {
        Language::C => put(text, b"in ", b"C")?,
        Language::Cxx => put(text, b"in ", b"C++")?,
    }
    for op in command.ops.as_slice() {
        put_op(text, op)?;
    }
    put(text, b"work ", command.work.bytes())?;
    put_folders(text, b"quote ", command.quote.as_slice())?;
    put_folders(text, b"angle ", command.angle.as_slice())?;
    put_texts(text, b"forced ", &command.forced)?;
    put(text, b"root ", command.root.bytes())
}

fn put_made(text: &mut Vec<u8>, made: &Made) -> Result<(), NoMemory> {
    match made {
        Made::Command(command) => put_command(text, command),
        Made::Outside => put(text, b"outside", b""),
        Made::Unsupported => put(text, b"unsupported", b""),
    }
}

/// What an entry makes, as lines of text.
fn put_entry(alloc: Global, text: &mut Vec<u8>, entry: &Entry, root: &Dir) -> Result<(), NoMemory> {
    match command(alloc, entry, root) {
        Ok(made) => put_made(text, &made),
        Err(NoMemory) => Err(NoMemory),
    }
}

/// What entries make, as lines of text, one behind the other.
fn put_all(
    alloc: Global,
    text: &mut Vec<u8>,
    entries: &[Entry],
    root: &Dir,
) -> Result<(), NoMemory> {
    for entry in entries {
        put_entry(alloc, text, entry, root)?;
    }
    Ok(())
}

/// Whether entries make this.
fn all_make(alloc: Global, entries: &[Entry], root: &Dir, wanted: &[u8]) -> Result<bool, NoMemory> {
    let mut text = Vec::new(alloc);
    put_all(alloc, &mut text, entries, root)?;
    Ok(text.as_slice() == wanted)
}

/// The folder of a text.
fn folder(alloc: Global, text: &[u8]) -> Result<Dir, PathFault> {
    Dir::read(alloc, text, &Dir::top(alloc)?)
}

/// Whether entries make this below a folder.
fn make_below(
    alloc: Global,
    entries: &[Entry],
    root: &[u8],
    wanted: &[u8],
) -> Result<bool, NoMemory> {
    match folder(alloc, root) {
        Ok(root) => all_make(alloc, entries, &root, wanted),
        Err(PathFault::Bad(_)) => Ok(false),
        Err(PathFault::NoMemory) => Err(NoMemory),
    }
}

/// Whether the entries of a file make this, one behind the other.
pub(crate) fn make(
    alloc: Global,
    file: &[u8],
    root: &[u8],
    wanted: &[u8],
) -> Result<bool, NoMemory> {
    match read(alloc, file) {
        Ok(entries) => make_below(alloc, entries.as_slice(), root, wanted),
        Err(DatabaseFault::Bad(_)) => Ok(false),
        Err(DatabaseFault::NoMemory) => Err(NoMemory),
    }
}

/// Adds a database whose one entry is `../a.c`, compiled in `b` with words as they are written in a command in JSON.
fn put_database(file: &mut Vec<u8>, words: &[u8]) -> Result<(), NoMemory> {
    file.extend_from_slice(b"[{\"directory\":\"b\",\"file\":\"../a.c\",\"command\":\"")?;
    file.extend_from_slice(words)?;
    file.extend_from_slice(b"\"}]")?;
    Ok(())
}

/// Adds a command that compiles `a.c` below `/w`, with these lines.
fn put_wanted(text: &mut Vec<u8>, lines: &[u8]) -> Result<(), NoMemory> {
    text.extend_from_slice(b"main a.c\nin C\n")?;
    text.extend_from_slice(lines)?;
    text.extend_from_slice(b"root /w\n")?;
    Ok(())
}

/// Whether a file makes the command of these lines.
fn gives(alloc: Global, file: &[u8], lines: &[u8]) -> Result<bool, NoMemory> {
    let mut wanted = Vec::new(alloc);
    put_wanted(&mut wanted, lines)?;
    make(alloc, file, b"/w", wanted.as_slice())
}

/// Whether words, as they are written in a command in JSON, make this for `/w/a.c`, with `/w` as the root and `/w/b` as
/// the directory.
fn give(alloc: Global, words: &[u8], lines: &[u8]) -> Result<bool, NoMemory> {
    let mut file = Vec::new(alloc);
    put_database(&mut file, words)?;
    gives(alloc, file.as_slice(), lines)
}

/// Words, and what they give.
const OPTIONS: &[(&[u8], &[u8])] = &[
    // No words, and no options: the first word is the compiler, whatever it looks like.
    (b"", b"work /w/b\n"),
    (b"cc", b"work /w/b\n"),
    (b"-DA -DB", b"define B\nwork /w/b\n"),
    (b"-D A", b"work /w/b\n"),
    // Definitions, with more bytes and with the next word, in one list. The word stands as it is.
    (
        b"cc -DA -UB -D C=1 -U D -DA",
        b"define A\nundef B\ndefine C=1\nundef D\ndefine A\nwork /w/b\n",
    ),
    (
        b"cc -D -DA -U '' -DF(x)=x",
        b"define -DA\nundef \ndefine F(x)=x\nwork /w/b\n",
    ),
    (b"cc '-DA=1\\n2'", b"define A=1\n2\nwork /w/b\n"),
    // Folders: those of -isystem come behind those of -I, and each is read from the directory.
    (
        b"cc -isystem s -Ii -iquote q -I j -isystem/t -iquoter",
        b"work /w/b\nquote /w/b/q\nquote /w/b/r\nangle /w/b/i\nangle /w/b/j\nangle /w/b/s\nangle /t\n",
    ),
    (
        b"cc -I.. -I../../.. -I. -I /w/./c/ -Id -Id",
        b"work /w/b\nangle /w\nangle /\nangle /w/b\nangle /w/c\nangle /w/b/d\nangle /w/b/d\n",
    ),
    (b"cc -I ''", b"work /w/b\nangle /w/b\n"),
    // A folder that is refused is passed over.
    (
        b"cc -I'a\\u0001' -DA -Ib",
        b"define A\nwork /w/b\nangle /w/b/b\n",
    ),
    // Forced files.
    (
        b"cc -include a.h -include ../b.h",
        b"work /w/b\nforced a.h\nforced ../b.h\n",
    ),
    (b"cc -includea.h -include", b"work /w/b\n"),
];

/// Words that are passed over, and what is left to give.
const PASSED: &[(&[u8], &[u8])] = &[
    // Options whose next word is passed over too.
    (
        b"cc -o -DA -x -DB -MF -DC -MT -DD -MQ -DE -idirafter -DF -DG",
        b"define G\nwork /w/b\n",
    ),
    (
        b"cc -Xclang -DA -Xcompiler -DB -Xlinker -DC -Xpreprocessor -DD -Xassembler -DE -DF",
        b"define F\nwork /w/b\n",
    ),
    // Any other word is passed over alone.
    (
        b"cc -oa.o -DA -MD -DB -c a.c -DC -idirafterd -DD --include -DE",
        b"define A\ndefine B\ndefine C\ndefine D\ndefine E\nwork /w/b\n",
    ),
    (
        b"cc -isysroot -DA -O3 -d -DB",
        b"define A\ndefine B\nwork /w/b\n",
    ),
    // An option that is last and lacks its word.
    (b"cc -DA -D", b"define A\nwork /w/b\n"),
    (b"cc -DA -isystem", b"define A\nwork /w/b\n"),
    (b"cc -DA -o", b"define A\nwork /w/b\n"),
];

#[test]
fn options_are_read(rt: HostRuntime) -> Result<(), Fail> {
    for row in OPTIONS {
        assert!(rt; give(rt.alloc(), row.0, row.1)?, "{}", row.0.escape_ascii());
    }
    Ok(())
}

#[test]
fn other_words_are_passed_over(rt: HostRuntime) -> Result<(), Fail> {
    for row in PASSED {
        assert!(rt; give(rt.alloc(), row.0, row.1)?, "{}", row.0.escape_ascii());
    }
    Ok(())
}

/// Files, roots, and what their entries make.
const SOURCES: &[(&[u8], &[u8], &[u8])] = &[
    // The worked example of two platforms: the second of them.
    (
        b"[{\"directory\":\"/\",\"file\":\"a.c\",\"arguments\":[\"cc\",\"-c\",\"a.c\",\"-DGPU\"]}]",
        b"/",
        b"main a.c\nin C\ndefine GPU\nwork /\nroot /\n",
    ),
    // The worked example: a source below the root, compiled in a folder below it.
    (
        b"[{\"directory\":\"/w/build\",\"file\":\"/w/src/m.cpp\",\"command\":\"/usr/bin/c++ \\\"-DNAME=\\\\\\\"a b\\\\\\\"\\\" -I/w/inc -isystem /opt/x/include -O3 -o t/m.cpp.o -c /w/src/m.cpp\"}]",
        b"/w",
        b"main src/m.cpp\nin C++\ndefine NAME=\"a b\"\nwork /w/build\nangle /w/inc\nangle /opt/x/include\nroot /w\n",
    ),
    (
        b"[{\"directory\":\"/w\",\"file\":\"x.f90\",\"command\":\"\"}]",
        b"/w",
        b"unsupported\n",
    ),
    (
        b"[{\"directory\":\"/w\",\"file\":\"x\",\"command\":\"\"}]",
        b"/w",
        b"unsupported\n",
    ),
    (
        b"[{\"directory\":\"/w\",\"file\":\"/tmp/a.c\",\"command\":\"\"}]",
        b"/w",
        b"outside\n",
    ),
    (
        b"[{\"directory\":\"/w\",\"file\":\"/tmp/x.f90\",\"command\":\"\"}]",
        b"/w",
        b"outside\n",
    ),
    (
        b"[{\"directory\":\"/w\",\"file\":\"../a.c\",\"command\":\"\"}]",
        b"/w",
        b"outside\n",
    ),
    (
        b"[{\"directory\":\"/w\",\"file\":\"\",\"command\":\"\"}]",
        b"/w",
        b"outside\n",
    ),
    (
        b"[{\"directory\":\"/w\\u0001\",\"file\":\"/w/a.c\",\"command\":\"\"}]",
        b"/w",
        b"outside\n",
    ),
    (
        b"[{\"directory\":\"/w\",\"file\":\"a\\u007f.c\",\"command\":\"\"}]",
        b"/w",
        b"outside\n",
    ),
    // An empty directory is the root, and a relative one is read from it.
    (
        b"[{\"directory\":\"\",\"file\":\"a.c\",\"command\":\"\"}]",
        b"/w",
        b"main a.c\nin C\nwork /w\nroot /w\n",
    ),
    (
        b"[{\"directory\":\"../v\",\"file\":\"../w/./a.cu\",\"arguments\":[]}]",
        b"/w",
        b"main a.cu\nin C++\nwork /v\nroot /w\n",
    ),
];

#[test]
fn sources_are_placed(rt: HostRuntime) -> Result<(), Fail> {
    for row in SOURCES {
        assert!(rt;
            make(rt.alloc(), row.0, row.1, row.2)?,
            "{}",
            row.0.escape_ascii()
        );
    }
    Ok(())
}
