//! Patterns against paths. What git says of the same pattern in a `.gitignore` was asked of git 2.39.
use cb_analysis::{AnalysisFault, read};
use cb_paths::{NoMemory, Path, PathFault};
use std::alloc::{AllocError, Global};
use std::test::Fail;

/// A pattern, a path, and whether the one matches the other.
type Row = (&'static str, &'static str, bool);

/// Ours are git's answers.
const LIKE_GIT: &[Row] = &[
    ("build/", "build/x.c", true),
    ("build/", "a/build/x.c", true),
    ("build/", "build", false),
    ("third_party/**", "third_party/a/b.h", true),
    ("third_party/**", "x/third_party/a.h", false),
    ("*.def", "lib/t.def", true),
    ("/src/gen_?.c", "src/gen_1.c", true),
    ("/src/gen_?.c", "src/gen_12.c", false),
    ("/src/gen_?.c", "x/src/gen_1.c", false),
    ("hello.*", "a/hello.c", true),
    ("/hello.*", "hello.c", true),
    ("/hello.*", "a/hello.java", false),
    ("doc/frotz/", "doc/frotz/x.c", true),
    ("doc/frotz/", "a/doc/frotz/x.c", false),
    ("frotz/", "a/frotz/x.c", true),
    ("foo/*", "foo/test.c", true),
    ("foo/*", "foo/bar/hello.c", true),
    ("foo/*", "foo", false),
    ("**/foo", "foo", true),
    ("**/foo", "a/b/foo", true),
    ("**/foo/bar", "a/foo/bar", true),
    ("**/foo/bar", "foo/x/bar", false),
    ("abc/**", "abc/x/y.c", true),
    ("a/**/b", "a/b", true),
    ("a/**/b", "a/x/b", true),
    ("a/**/b", "a/x/y/b", true),
    ("a/**/b", "a/xb", false),
    ("a/**/b", "x/a/b", false),
    ("*", "x.c", true),
    ("*", ".x", true),
    ("**", "a/b", true),
    ("a**b", "axxb", true),
    ("a**b", "a/b", false),
    ("a*b", "a/b", false),
    ("***", "x.c", true),
    ("foo", "a/foo/b.c", true),
    ("foo", "a/foob.c", false),
    ("?", "ab", false),
    ("a?c", "abc", true),
    ("a?c", "ac", false),
    ("a?c", "a/c", false),
    ("*a*b*", "xxaxxbxx", true),
    ("*a*b*", "xxbxxaxx", false),
    ("*ab", "aab", true),
    ("*aab", "aaab", true),
    ("*.c", "a.c/b", true),
    ("a/b", "a/b/c", true),
    ("a/b", "x/a/b", false),
    ("a/*/c", "a/b/c", true),
    ("a/*/c", "a/b/b/c", false),
    ("a/*/c", "a/c", false),
    ("**/a/**/b/*", "x/a/y/a/b/z", true),
    ("**/a/b", "a/a/b", true),
    ("**/", "a/b", true),
    ("/*", "a/b", true),
    ("a?", "a\u{e9}", false),
];

/// Git answers otherwise: a `**` at the end takes one part at least there, and before a last slash it takes a folder.
const UNLIKE_GIT: &[Row] = &[
    ("abc/**", "abc", true),
    ("a/**/", "a/b", true),
    ("**/", "a", true),
    ("#a", "#a", true),
];

/// An analysis with one pattern in the list of this name.
fn text_of(alloc: Global, list: &str, pattern: &str) -> Result<String, AllocError> {
    let mut text = String::from_str(alloc, "[platform.a]\ncommands = 'a.json'\n[codebase]\n")?;
    text.push_str(list)?;
    text.push_str(" = ['")?;
    text.push_str(pattern)?;
    text.push_str("']\n")?;
    Ok(text)
}

/// Whether a source counts and whether it is kept from being loaded, by an analysis.
fn told(alloc: Global, text: &str, path: &str) -> Result<Option<(bool, bool)>, NoMemory> {
    let path = match Path::read(alloc, path.as_bytes()) {
        Ok(path) => path,
        Err(PathFault::Bad(_)) => return Ok(None),
        Err(PathFault::NoMemory) => return Err(NoMemory),
    };
    match read(alloc, text.as_bytes()) {
        Ok(analysis) => Ok(Some((analysis.counts(&path), analysis.skips(&path)))),
        Err(AnalysisFault::Bad(_)) => Ok(None),
        Err(AnalysisFault::NoMemory) => Err(NoMemory),
    }
}

/// Whether a pattern matches a path as wanted, as a pattern of `exclude` and as one of `skip`.
fn matches(alloc: Global, pattern: &str, path: &str, wanted: bool) -> Result<bool, NoMemory> {
    let exclude = text_of(alloc, "exclude", pattern)?;
    let skip = text_of(alloc, "skip", pattern)?;
    Ok(
        told(alloc, exclude.as_str(), path)? == Some((!wanted, false))
            && told(alloc, skip.as_str(), path)? == Some((true, wanted)),
    )
}

#[test]
fn patterns_match_as_in_git(rt: HostRuntime) -> Result<(), Fail> {
    for row in LIKE_GIT {
        assert!(rt;
            matches(rt.alloc(), row.0, row.1, row.2)?,
            "{} {}",
            row.0,
            row.1
        );
    }
    Ok(())
}

#[test]
fn patterns_match_otherwise_than_in_git(rt: HostRuntime) -> Result<(), Fail> {
    for row in UNLIKE_GIT {
        assert!(rt;
            matches(rt.alloc(), row.0, row.1, row.2)?,
            "{} {}",
            row.0,
            row.1
        );
    }
    Ok(())
}

/// A piece many times, and an end.
fn repeated(alloc: Global, piece: &str, times: usize, end: &str) -> Result<String, AllocError> {
    let mut text = String::new(alloc);
    for _ in 0..times {
        text.push_str(piece)?;
    }
    text.push_str(end)?;
    Ok(text)
}

/// Whether a long pattern matches a long path as wanted.
fn long_matches(
    alloc: Global,
    pattern: (&str, usize, &str),
    path: (&str, usize, &str),
    wanted: bool,
) -> Result<bool, NoMemory> {
    let pattern = repeated(alloc, pattern.0, pattern.1, pattern.2)?;
    let path = repeated(alloc, path.0, path.1, path.2)?;
    matches(alloc, pattern.as_str(), path.as_str(), wanted)
}

/// A text many times and an end, as a pattern and as a path, and whether the one matches the other.
type LongRow = (
    (&'static str, usize, &'static str),
    (&'static str, usize, &'static str),
    bool,
);

/// A search that tries each place for each star would not end on these.
const LONG: &[LongRow] = &[
    (("*", 1000, ""), ("a", 1024, ""), true),
    (("*", 1000, "b"), ("a", 1024, ""), false),
    (("*a", 500, "*b"), ("a", 1024, ""), false),
    (("*a", 500, "b"), ("a", 1023, "b"), true),
    (("**/", 500, "b"), ("a/", 511, "a"), false),
    (("**/a/", 250, "b"), ("a/", 511, "a"), false),
    (("**/a/", 250, "b"), ("a/", 511, "b"), true),
    (("**/*a*a*/", 100, "b"), ("aaaa/", 200, "a"), false),
];

#[test]
fn many_stars_end_at_once(rt: HostRuntime) -> Result<(), Fail> {
    for row in LONG {
        assert!(rt;
            long_matches(rt.alloc(), row.0, row.1, row.2)?,
            "{} {}",
            (row.0).0,
            (row.1).0
        );
    }
    Ok(())
}

/// Four patterns as one list, and another list beside it.
const LISTS: &str =
    "[platform.a]\ncommands = 'a'\n[codebase]\nexclude = ['build/', 'third_party/**', '*.def', '/src/gen_?.c']\nskip = ['z']\n";

/// Paths, and what those lists tell of each: each pattern of a list counts, and no other list does.
const LISTED: &[(&str, (bool, bool))] = &[
    ("build/x.c", (false, false)),
    ("a/build/x.c", (false, false)),
    ("third_party/a/b.h", (false, false)),
    ("lib/t.def", (false, false)),
    ("src/gen_1.c", (false, false)),
    ("build", (true, false)),
    ("x/third_party/a.h", (true, false)),
    ("src/gen_12.c", (true, false)),
    ("x/src/gen_1.c", (true, false)),
    ("z/a.def", (false, true)),
    ("z", (true, true)),
];

#[test]
fn each_pattern_of_a_list_counts(rt: HostRuntime) -> Result<(), Fail> {
    for row in LISTED {
        assert!(rt; told(rt.alloc(), LISTS, row.0)? == Some(row.1), "{}", row.0);
    }
    Ok(())
}
