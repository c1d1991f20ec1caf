//! Command lines that ask for a job.
use cb_paths::{Bytes, Dir, NoMemory};
use cb_reports::Kind;
use cb_words::{Job, ReportJob, WordsFault, read};
use std::alloc::Global;
use std::test::Fail;

/// The words of a command line.
fn texts_of(alloc: Global, words: &[&str]) -> Result<Vec<String>, NoMemory> {
    let mut texts = Vec::new(alloc);
    for word in words {
        texts.push(String::from_str(alloc, *word)?)?;
    }
    Ok(texts)
}

/// The folder in which the program runs.
fn here(alloc: Global) -> Result<Dir, WordsFault> {
    let top = Dir::top(alloc)?;
    match Dir::read(alloc, b"/home/me", &top) {
        Ok(here) => Ok(here),
        Err(_) => Err(WordsFault::NoMemory),
    }
}

/// What words ask for.
fn job_of(alloc: Global, words: &[&str]) -> Result<Job, WordsFault> {
    let here = here(alloc)?;
    let texts = texts_of(alloc, words)?;
    read(alloc, texts.as_slice(), &here)
}

/// The words of the `-D` options behind `specialise`, and the words that they define with.
const SPECIALISE: &[(&[&str], &[&str])] = &[
    (&["specialise"], &[]),
    (&["specialise", "-D", "GPU"], &["GPU"]),
    (&["specialise", "-DCPU", "-D", "GPU=2"], &["CPU", "GPU=2"]),
    (&["specialise", "-DF(x)=x"], &["F(x)=x"]),
];

/// Whether texts are these words.
fn are_words(texts: &[Bytes], words: &[&str]) -> bool {
    if texts.len() != words.len() {
        return false;
    }
    for i in 0..texts.len() {
        if texts[i].as_slice() != words[i].as_bytes() {
            return false;
        }
    }
    true
}

/// Whether words ask for the reached lines with these definitions.
fn specialises(alloc: Global, words: &[&str], wanted: &[&str]) -> Result<bool, WordsFault> {
    match job_of(alloc, words)? {
        Job::Specialise(found) => Ok(
            are_words(found.as_slice(), wanted) && are_words(found.into_vec().as_slice(), wanted),
        ),
        _ => Ok(false),
    }
}

#[test]
fn definitions_are_read(rt: HostRuntime) -> Result<(), Fail> {
    for row in SPECIALISE {
        assert!(rt; specialises(rt.alloc(), row.0, row.1)?);
    }
    Ok(())
}

/// The words of a report; its kind, its folder, its workers, its measurements (empty for none) and its analysis.
type Report = (
    &'static [&'static str],
    Kind,
    &'static str,
    u32,
    &'static str,
    &'static str,
);

const REPORTS: &[Report] = &[
    (
        &["report", "an.toml"],
        Kind::Summary,
        "/home/me",
        1,
        "",
        "an.toml",
    ),
    (
        &["report", "--kind=files", "an.toml"],
        Kind::Files,
        "/home/me",
        1,
        "",
        "an.toml",
    ),
    (
        &["report", "an.toml", "--kind", "files"],
        Kind::Files,
        "/home/me",
        1,
        "",
        "an.toml",
    ),
    (
        &[
            "report",
            "--root",
            "build",
            "--workers=64",
            "./an.toml",
            "--measurements",
            "m.csv",
            "--kind",
            "navigation",
        ],
        Kind::Navigation,
        "/home/me/build",
        64,
        "m.csv",
        "an.toml",
    ),
    // A value may look like an option, and hold an `=`.
    (
        &["report", "--root", "--kind", "a"],
        Kind::Summary,
        "/home/me/--kind",
        1,
        "",
        "a",
    ),
    (
        &["report", "--root=--root=/b", "a"],
        Kind::Summary,
        "/home/me/--root=/b",
        1,
        "",
        "a",
    ),
    (
        &["report", "--root=", "kind=files"],
        Kind::Summary,
        "/home/me",
        1,
        "",
        "kind=files",
    ),
    (
        &["report", "a", "--workers", "0000000007"],
        Kind::Summary,
        "/home/me",
        7,
        "",
        "a",
    ),
];

/// Whether a report is this one.
fn is_report(job: &ReportJob, row: &Report) -> bool {
    let measured = match &job.measurements {
        Some(path) => path.bytes() == row.4.as_bytes(),
        None => row.4.is_empty(),
    };
    measured
        && job.kind == row.1
        && job.root.bytes() == row.2.as_bytes()
        && job.workers == row.3
        && job.analysis.bytes() == row.5.as_bytes()
}

/// Whether words ask for a report.
fn reports(alloc: Global, row: &Report) -> Result<bool, WordsFault> {
    match job_of(alloc, row.0)? {
        Job::Report(job) => Ok(is_report(&job, row)),
        _ => Ok(false),
    }
}

#[test]
fn reports_are_read(rt: HostRuntime) -> Result<(), Fail> {
    for row in REPORTS {
        assert!(rt; reports(rt.alloc(), row)?, "{}", row.5);
    }
    Ok(())
}

/// The words of the other commands, and their numbers.
const NUMBERS: &[(&[&str], [u32; 3])] = &[
    (&["stdio"], [1, 0, 0]),
    (&["stdio", "--workers", "8"], [8, 0, 0]),
    (
        &["serve", "--port", "7000", "--connections", "2"],
        [7000, 2, 1],
    ),
    (
        &[
            "serve",
            "--workers=3",
            "--connections=1000000",
            "--port=65535",
        ],
        [65535, 1_000_000, 3],
    ),
    (&["generate", "1", "10"], [1, 10, 0]),
    (&["generate", "4294967295", "200"], [4_294_967_295, 200, 0]),
    (&["generate", "0", "1"], [0, 1, 0]),
];

/// The numbers of a job.
fn numbers_of(job: &Job) -> [u32; 3] {
    match job {
        Job::Stdio(job) => [job.workers, 0, 0],
        Job::Serve(job) => [job.port, job.connections, job.workers],
        Job::Generate(job) => [job.seed, job.size, 0],
        _ => [0, 0, 0],
    }
}

/// Whether words ask for a job with these numbers.
fn has_numbers(alloc: Global, words: &[&str], numbers: &[u32; 3]) -> Result<bool, WordsFault> {
    let found = numbers_of(&job_of(alloc, words)?);
    Ok(found[0] == numbers[0] && found[1] == numbers[1] && found[2] == numbers[2])
}

#[test]
fn numbers_are_read(rt: HostRuntime) -> Result<(), Fail> {
    for row in NUMBERS {
        assert!(rt; has_numbers(rt.alloc(), row.0, &row.1)?);
    }
    Ok(())
}
