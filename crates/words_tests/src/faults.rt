//! Command lines that ask for no job.
use cb_paths::{Dir, NoMemory};
use cb_words::{BadWords, WordsFault, asks_to_specialise, one_saying, read, usage};
use std::alloc::{AllocError, Global};
use std::test::Fail;

fn is_shared<T: Send + Sync>() {}

/// The words of a command line.
fn texts_of(alloc: Global, words: &[&str]) -> Result<Vec<String>, NoMemory> {
    let mut texts = Vec::new(alloc);
    for word in words {
        texts.push(String::from_str(alloc, *word)?)?;
    }
    Ok(texts)
}

/// Whether words are refused for this fault, in a program that runs at the top.
fn is_refused(alloc: Global, words: &[&str], wanted: BadWords) -> Result<bool, NoMemory> {
    let top = Dir::top(alloc)?;
    let texts = texts_of(alloc, words)?;
    match read(alloc, texts.as_slice(), &top) {
        Ok(_) => Ok(false),
        Err(WordsFault::Bad(bad)) => Ok(bad == wanted),
        Err(WordsFault::NoMemory) => Err(NoMemory),
    }
}

const REFUSED: &[(&[&str], BadWords)] = &[
    (&[], BadWords::NoCommand),
    (&[""], BadWords::UnknownCommand),
    (&["Report", "a"], BadWords::UnknownCommand),
    (&["--kind", "report", "a"], BadWords::UnknownCommand),
    // The words of `specialise`.
    (&["specialise", "GPU"], BadWords::UnknownOption),
    (&["specialise", "-D"], BadWords::BadDefinition),
    (&["specialise", "-D", "1x"], BadWords::BadDefinition),
    (&["specialise", "-D1x", "-U", "x"], BadWords::UnknownOption),
    // The first word at fault decides.
    (&["report", "-h", "a"], BadWords::UnknownOption),
    (&["report", "--", "a"], BadWords::UnknownOption),
    (&["report", "-", "a"], BadWords::UnknownOption),
    (&["report", "--kinds=files", "a"], BadWords::UnknownOption),
    (&["stdio", "--port", "1"], BadWords::UnknownOption),
    (&["generate", "-1", "1"], BadWords::UnknownOption),
    (
        &["report", "--kind", "x", "--kind", "files", "-h"],
        BadWords::RepeatedOption,
    ),
    (
        &["report", "a", "--root", "b", "--root=c"],
        BadWords::RepeatedOption,
    ),
    (
        &["report", "--kind", "files", "--kind"],
        BadWords::RepeatedOption,
    ),
    (&["report", "a", "--kind"], BadWords::MissingValue),
    (&["stdio", "--workers"], BadWords::MissingValue),
    // Then what the command wants, in its order.
    (&["serve"], BadWords::MissingOption),
    (&["serve", "--port", "1", "a"], BadWords::MissingOption),
    (&["serve", "--connections", "1"], BadWords::MissingOption),
    (&["report", "--kind", "Files", "a"], BadWords::UnknownKind),
    (&["report", "--kind=", "--workers=0"], BadWords::UnknownKind),
    (&["report", "--root", "b\n", "a"], BadWords::BadFolder),
    (&["report", "--workers", "", "a"], BadWords::BadNumber),
    (&["report", "--workers", "+1", "a"], BadWords::BadNumber),
    (&["stdio", "--workers", "00000000001"], BadWords::BadNumber),
    (&["stdio", "--workers", "0"], BadWords::OutOfRange),
    (&["stdio", "--workers", "65"], BadWords::OutOfRange),
    (
        &["serve", "--port", "0", "--connections", "1"],
        BadWords::OutOfRange,
    ),
    (
        &["serve", "--port", "65536", "--connections", "1"],
        BadWords::OutOfRange,
    ),
    (
        &["serve", "--port", "1", "--connections", "1000001"],
        BadWords::OutOfRange,
    ),
    (&["generate", "4294967296", "1"], BadWords::OutOfRange),
    (&["generate", "1", "0"], BadWords::OutOfRange),
    (&["generate", "1", "201"], BadWords::OutOfRange),
    (&["report", "--measurements", "/m", "a"], BadWords::BadPath),
    (&["report", ".."], BadWords::BadPath),
    (&["report", ""], BadWords::BadPath),
    (&["report"], BadWords::WrongCount),
    (&["report", "..", "b"], BadWords::WrongCount),
    (&["stdio", "a"], BadWords::WrongCount),
    (
        &["serve", "--port", "1", "--connections", "1", "a"],
        BadWords::WrongCount,
    ),
    (&["generate", "1"], BadWords::WrongCount),
    (&["generate", "1", "1", "1"], BadWords::WrongCount),
];

#[test]
fn first_faults_decide(rt: HostRuntime) -> Result<(), Fail> {
    for row in REFUSED {
        assert!(rt; is_refused(rt.alloc(), row.0, row.1)?, "{}", row.1);
    }
    Ok(())
}

/// Whether a fault prints so.
fn prints(alloc: Global, fault: WordsFault, wanted: &str) -> Result<bool, AllocError> {
    Ok(format!(in alloc; "{fault}")?.as_str() == wanted)
}

/// Faults, and how each prints.
const PRINTED: &[(WordsFault, &str)] = &[
    (WordsFault::Bad(BadWords::NoCommand), "there is no command"),
    (
        WordsFault::Bad(BadWords::WrongCount),
        "there are too few or too many words",
    ),
    (WordsFault::NoMemory, "out of memory"),
];

#[test]
fn faults_print_what_they_mean(rt: HostRuntime) -> Result<(), Fail> {
    for row in PRINTED {
        assert!(rt; prints(rt.alloc(), row.0, row.1)?, "{}", row.1);
    }
    Ok(())
}

#[test]
fn usage_names_the_commands(rt: HostRuntime) -> Result<(), Fail> {
    one_saying();
    asks_to_specialise();
    is_shared::<cb_words::Job>();
    assert!(rt; usage() == b"usage: codebasin specialise|report|stdio|serve|generate\n".as_slice());
    Ok(())
}
