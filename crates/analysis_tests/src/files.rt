//! Analysis files: what they say, and their first faults.
use cb_analysis::{
    Analysis, AnalysisFault, AnalysisKind, BadAnalysis, Platform, one_reading, read,
};
use cb_paths::{Bytes, NoMemory};
use std::alloc::{AllocError, Global};
use std::test::Fail;

fn is_shared<T: Send + Sync>() {}

/// Whether a fault is of this kind at this place.
fn is_fault(bad: &BadAnalysis, kind: &str, place: &str) -> bool {
    bad.kind.name() == kind && bad.place.as_slice() == place.as_bytes()
}

/// Whether an analysis has this first fault, or none where the kind is empty.
fn tells(alloc: Global, text: &[u8], kind: &str, place: &str) -> Result<bool, NoMemory> {
    match read(alloc, text) {
        Ok(_) => Ok(kind.is_empty()),
        Err(AnalysisFault::Bad(bad)) => Ok(is_fault(&bad, kind, place)),
        Err(AnalysisFault::NoMemory) => Err(NoMemory),
    }
}

/// Each row has one fault, or its first one stands before later ones.
const FAULTS: &[(&str, &str, &str)] = &[
    // The form of the file.
    ("platform", "NotToml", ""),
    ("platform = 1\nplatform = 2\n[codebase", "NotToml", ""),
    (
        "[platform.a]\ncommands = \"a\"\n[platform.a]\ncommands = \"b\"\n",
        "NotToml",
        "",
    ),
    (
        "[platform.a]\ncommands = \"a\"\nn = 99999999999999999999\n",
        "NotToml",
        "",
    ),
    ("\u{feff}[platform.a]\ncommands = \"a\"\n", "", ""),
    // The table of platforms.
    ("platform = 1\ncodebase = 1\n", "WrongType", "platform"),
    ("platform = []\n", "WrongType", "platform"),
    ("[[platform]]\n", "WrongType", "platform"),
    ("", "NoPlatform", "platform"),
    ("codebase = 1\n", "NoPlatform", "platform"),
    (
        "[platform]\n[codebase]\nroot = 1\n",
        "NoPlatform",
        "platform",
    ),
    // Names.
    ("platform.\"\" = 1\n", "BadName", "platform."),
    ("platform.\" a\" = 1\n", "BadName", "platform. a"),
    (
        "platform.\"a \".commands = \"a\"\n",
        "BadName",
        "platform.a ",
    ),
    (
        "platform.\"a,b\".commands = \"a\"\n",
        "BadName",
        "platform.a,b",
    ),
    (
        "platform.\"a{b\".commands = \"a\"\n",
        "BadName",
        "platform.a{b",
    ),
    (
        "platform.\"\u{e9}\".commands = \"a\"\n",
        "BadName",
        "platform.\u{e9}",
    ),
    (
        "platform.\"a\\nb\".commands = \"a\"\n",
        "BadName",
        "platform.a\nb",
    ),
    ("platform.\"a.b c\".commands = \"a\"\n", "", ""),
    // A platform.
    (
        "platform.a = 1\nplatform.b = 1\n",
        "WrongType",
        "platform.a",
    ),
    ("platform.a = []\n", "WrongType", "platform.a"),
    ("[platform.a]\n", "NoCommands", "platform.a.commands"),
    (
        "[platform.a]\nCommands = \"a\"\n",
        "NoCommands",
        "platform.a.commands",
    ),
    (
        "[platform.a]\ncommands = 1\n",
        "WrongType",
        "platform.a.commands",
    ),
    (
        "[platform.a]\ncommands = [\"a\"]\n",
        "WrongType",
        "platform.a.commands",
    ),
    (
        "[platform.a]\ncommands = \"\"\n",
        "BadPath",
        "platform.a.commands",
    ),
    (
        "[platform.a]\ncommands = \"/a\"\n",
        "BadPath",
        "platform.a.commands",
    ),
    (
        "[platform.a]\ncommands = \"a/../../b\"\n",
        "BadPath",
        "platform.a.commands",
    ),
    // The platforms by the bytes of their names, and not as they stand in the file.
    (
        "[platform.b]\n[platform.\"a,\"]\n",
        "BadName",
        "platform.a,",
    ),
    (
        "platform.\"b,\" = 1\n[platform.a]\n",
        "NoCommands",
        "platform.a.commands",
    ),
    (
        "platform.\"b,\" = 1\n[platform.a]\ncommands = 1\n",
        "WrongType",
        "platform.a.commands",
    ),
    (
        "platform.\"b,\" = 1\n[platform.a]\ncommands = \".\"\n",
        "BadPath",
        "platform.a.commands",
    ),
    (
        "platform.b = 1\nplatform.B = 1\n",
        "WrongType",
        "platform.B",
    ),
    // The platforms come before the rest.
    (
        "codebase = 1\n[platform.a]\n",
        "NoCommands",
        "platform.a.commands",
    ),
    // The rest.
    (
        "codebase = 1\n[platform.a]\ncommands = \"a\"\n",
        "WrongType",
        "codebase",
    ),
    (
        "[platform.a]\ncommands = \"a\"\n[codebase]\nroot = 1\nexclude = 1\nskip = 1\n",
        "WrongType",
        "codebase.root",
    ),
    (
        "[platform.a]\ncommands = \"a\"\n[codebase]\nroot = \"\"\nexclude = 1\nskip = 1\n",
        "WrongType",
        "codebase.exclude",
    ),
    (
        "[platform.a]\ncommands = \"a\"\n[codebase]\nexclude = \"a\"\n",
        "WrongType",
        "codebase.exclude",
    ),
    (
        "[platform.a]\ncommands = \"a\"\n[codebase]\nexclude = [\"!a\", 1]\n",
        "WrongType",
        "codebase.exclude",
    ),
    (
        "[platform.a]\ncommands = \"a\"\n[codebase]\nexclude = [\"!a\"]\nskip = 1\n",
        "BadPattern",
        "codebase.exclude.0",
    ),
    (
        "[platform.a]\ncommands = \"a\"\n[codebase]\nexclude = [\"a\", \"b/c\", \"a//b\", \"[a]\"]\n",
        "BadPattern",
        "codebase.exclude.2",
    ),
    (
        "[platform.a]\ncommands = \"a\"\n[codebase]\nexclude = [\"a\"]\nskip = 1\n",
        "WrongType",
        "codebase.skip",
    ),
    (
        "[platform.a]\ncommands = \"a\"\n[codebase]\nexclude = [\"a\"]\nskip = [\"a\", {}]\n",
        "WrongType",
        "codebase.skip",
    ),
    (
        "[platform.a]\ncommands = \"a\"\n[codebase]\nskip = [\"a\", \"a\", \"/\"]\n",
        "BadPattern",
        "codebase.skip.2",
    ),
    (
        "[platform.a]\ncommands = \"a\"\n[codebase]\nskip = [\"\"]\n",
        "BadPattern",
        "codebase.skip.0",
    ),
    (
        "[platform.a]\ncommands = \"a\"\n[codebase]\nskip = [\"a\\\\b\"]\n",
        "BadPattern",
        "codebase.skip.0",
    ),
    (
        "other = 1\n[platform.a]\ncommands = \"a\"\nx = 1\n[codebase]\ny = 1\nexclude = []\nskip = []\n",
        "",
        "",
    ),
];

#[test]
fn faults_are_told(rt: HostRuntime) -> Result<(), Fail> {
    is_shared::<Analysis>();
    one_reading();
    for row in FAULTS {
        assert!(rt;
            tells(rt.alloc(), row.0.as_bytes(), row.1, row.2)?,
            "{}",
            row.0
        );
    }
    Ok(())
}

#[test]
fn other_bytes_than_utf_8_are_refused(rt: HostRuntime) -> Result<(), Fail> {
    assert!(rt; tells(rt.alloc(), b"platform.a.commands = '\xff'", "NotToml", "")?);
    Ok(())
}

/// An analysis with so many platforms beside another one, so many patterns before another one, and this for `skip`.
fn large(
    alloc: Global,
    counts: (usize, usize),
    platform: &str,
    pattern: &str,
    skip: &str,
) -> Result<String, AllocError> {
    let mut text = String::new(alloc);
    for at in 0..counts.0 {
        text.push_str(format!(in alloc; "platform.n{at}.commands = 'a'\n")?.as_str())?;
    }
    text.push_str(platform)?;
    text.push_str("\n[codebase]\nexclude = [")?;
    for _ in 0..counts.1 {
        text.push_str("'a', ")?;
    }
    text.push_str(pattern)?;
    text.push_str("]\nskip = ")?;
    text.push_str(skip)?;
    Ok(text)
}

/// Whether a large analysis has this first fault, or none where the kind is empty.
fn large_tells(alloc: Global, row: &LargeRow) -> Result<bool, NoMemory> {
    let (counts, platform, pattern, skip, kind, place) = *row;
    let text = large(alloc, counts, platform, pattern, skip)?;
    tells(alloc, text.as_bytes(), kind, place)
}

/// The numbers of the other platforms and patterns, one more platform and pattern, what stands at `skip`, and the fault.
type LargeRow = (
    (usize, usize),
    &'static str,
    &'static str,
    &'static str,
    &'static str,
    &'static str,
);

/// A platform without a fault.
const FINE: &str = "platform.a.commands = 'a'";

/// Each limit as it stands, which is accepted, and one above it.
const LARGE: &[LargeRow] = &[
    ((31, 0), FINE, "", "[]", "", ""),
    ((32, 0), FINE, "", "[]", "TooMany", "platform"),
    (
        (31, 0),
        "platform.'a,' = 1",
        "",
        "1",
        "BadName",
        "platform.a,",
    ),
    ((32, 0), "platform.'a,' = 1", "", "1", "TooMany", "platform"),
    ((31, 999), FINE, "'a'", "[]", "", ""),
    ((31, 999), FINE, "'a'", "1", "WrongType", "codebase.skip"),
    (
        (31, 999),
        FINE,
        "'!'",
        "1",
        "BadPattern",
        "codebase.exclude.999",
    ),
    ((31, 1000), FINE, "'!'", "1", "TooMany", "codebase.exclude"),
    ((31, 1000), FINE, "1", "1", "WrongType", "codebase.exclude"),
];

#[test]
fn limits_hold(rt: HostRuntime) -> Result<(), Fail> {
    for row in LARGE {
        assert!(rt; large_tells(rt.alloc(), row)?, "{} {}", row.4, row.5);
    }
    Ok(())
}

/// Adds the names of platforms and their commands to a text.
fn add_platforms(text: &mut Vec<u8>, platforms: &[Platform]) -> Result<(), NoMemory> {
    for platform in platforms {
        text.extend_from_slice(platform.name.as_slice())?;
        text.extend_from_slice(b"=")?;
        text.extend_from_slice(platform.commands.bytes())?;
        text.extend_from_slice(b";")?;
    }
    Ok(())
}

/// What an analysis says of its platforms and its root, as a text.
fn shown(alloc: Global, text: &str) -> Result<Bytes, NoMemory> {
    let mut out = Vec::new(alloc);
    match read(alloc, text.as_bytes()) {
        Ok(analysis) => {
            add_platforms(&mut out, analysis.platforms())?;
            out.extend_from_slice(analysis.root().unwrap_or(b"none"))?;
        }
        Err(AnalysisFault::Bad(bad)) => out.extend_from_slice(bad.place.as_slice())?,
        Err(AnalysisFault::NoMemory) => return Err(NoMemory),
    }
    Bytes::from_vec(alloc, out)
}

/// Whether an analysis says this of its platforms and its root.
fn shows(alloc: Global, text: &str, wanted: &str) -> Result<bool, NoMemory> {
    Ok(shown(alloc, text)?.as_slice() == wanted.as_bytes())
}

/// Files, and what each says of its platforms and its root.
const READ: &[(&str, &str)] = &[
    (
        "platform.b.commands = 'x//./y.json'\nplatform.a.commands = 'a/../b'\nplatform.B.commands = 'c'\n",
        "B=c;a=b;b=x/y.json;none",
    ),
    (
        "codebase = {root = '/src'}\n[platform.'two words']\ncommands = 'a'\n",
        "two words=a;/src",
    ),
    ("platform.a.commands = 'a'\ncodebase.root = ''\n", "a=a;"),
];

#[test]
fn platforms_and_roots_are_read(rt: HostRuntime) -> Result<(), Fail> {
    for row in READ {
        assert!(rt; shows(rt.alloc(), row.0, row.1)?, "{}", row.0);
    }
    Ok(())
}

/// Whether a fault prints so.
fn prints(alloc: Global, text: &str, wanted: &str) -> Result<bool, AllocError> {
    match read(alloc, text.as_bytes()) {
        Err(fault) => Ok(format!(in alloc; "{fault}")?.as_str() == wanted),
        Ok(_) => Ok(false),
    }
}

/// Whether a kind has this number and this name.
fn is_told(kind: AnalysisKind, number: u32, name: &str) -> bool {
    kind.number() == number && kind.name() == name
}

/// Kinds, and the number and the name of each.
const KINDS: &[(AnalysisKind, u32, &str)] = &[
    (AnalysisKind::NotToml, 1, "NotToml"),
    (AnalysisKind::NoPlatform, 2, "NoPlatform"),
    (AnalysisKind::BadName, 3, "BadName"),
    (AnalysisKind::NoCommands, 4, "NoCommands"),
    (AnalysisKind::WrongType, 5, "WrongType"),
    (AnalysisKind::BadPattern, 6, "BadPattern"),
    (AnalysisKind::TooMany, 7, "TooMany"),
    (AnalysisKind::BadPath, 8, "BadPath"),
];

#[test]
fn kinds_have_numbers_and_names(rt: HostRuntime) -> Result<(), Fail> {
    for row in KINDS {
        assert!(rt; is_told(row.0, row.1, row.2), "{}", row.2);
    }
    Ok(())
}

/// Files, and how the fault of each prints.
const PRINTED: &[(&str, &str)] = &[
    ("[", "the file is no TOML document"),
    (
        "[platform.a]",
        "platform.a.commands: the platform has no commands",
    ),
];

#[test]
fn faults_print_their_places(rt: HostRuntime) -> Result<(), Fail> {
    for row in PRINTED {
        assert!(rt; prints(rt.alloc(), row.0, row.1)?, "{}", row.0);
    }
    Ok(())
}
