//! What replacement lists put in, by the rules of the C standard.
//!
//! A row has the parts of a replacement list between `|`: `$0` is a parameter, `#0` a parameter behind `#`, a `+` in front
//! says that `##` stands before the part, and a space that white space does. Arguments stand between `;`, their tokens
//! between `|`, and the token `N` expands to `2`. The tokens put in are written in the same way.
ghost use Rattle.std.specs.Prelude.{◌≡◌, IfOk};
ghost use Rattle.cb_paste.specs.Shades.{AreIn};
ghost use Rattle.cb_paste.specs.Puts.{AreArgumentsIn};

use cb_paste::{Argument, Hides, Part, PasteFault, Shape, Site, WorkToken, substitute};
use cb_paths::{Bytes, NoMemory};
use cb_tokens::{TokenKind, token_kind};
use std::alloc::Global;
use std::test::Fail;

/// What `N` expands to.
const TWO: &[u8] = b"2";

/// A word without a sign in front of it, and whether it stood there.
fn without(word: &[u8], sign: u8) -> (&[u8], bool) {
    match word.split_first() {
        Some((first, rest)) if *first == sign => (rest, true),
        _ => (word, false),
    }
}

/// The place that a digit names.
fn place_of(digit: u8) -> usize {
    usize::from(digit.saturating_sub(b'0'))
}

/// What a word puts in.
fn shape_of(alloc: Global, word: &[u8]) -> Result<Shape, NoMemory> {
    if word.len() == 2 && word[0] == b'$' {
        return Ok(Shape::Parameter(place_of(word[1])));
    }
    if word.len() == 2 && word[0] == b'#' && word[1].is_ascii_digit() {
        return Ok(Shape::Quoted(place_of(word[1])));
    }
    let kind = token_kind(word).unwrap_or(TokenKind::Other);
    let text = Bytes::from_slice(alloc, word)?;
    Ok(Shape::Fixed(kind, text))
}

/// The parts of a replacement list.
fn parts_of(alloc: Global, row: &str) -> Result<Vec<Part>, NoMemory> {
    let mut parts = Vec::new(alloc);
    for word in row.split('|') {
        let (word, glued) = without(word.as_bytes(), b'+');
        let (word, spaced) = without(word, b' ');
        let shape = shape_of(alloc, word)?;
        parts.push(Part {
            glued,
            spaced,
            shape,
        })?;
    }
    Ok(parts)
}

/// A token without a hide set.
fn token_of(alloc: Global, word: &[u8], spaced: bool) -> Result<WorkToken, NoMemory>
    ensures { IfOk result (λ t. t.hides ≡ 0) }
{
    let kind = token_kind(word).unwrap_or(TokenKind::Other);
    let text = Bytes::from_slice(alloc, word)?;
    Ok(WorkToken {
        kind,
        spaced,
        text,
        hides: 0,
    })
}

/// What a word of an argument is, expanded or not.
fn expansion(word: &[u8], expanded: bool) -> &[u8] {
    if expanded && word.len() == 1 && word[0] == b'N' {
        return TWO;
    }
    word
}

/// The tokens of an argument, each `N` as `2` where they are expanded.
fn tokens_of(alloc: Global, row: &str, expanded: bool) -> Result<Vec<WorkToken>, NoMemory>
    ensures { IfOk result (λ v. AreIn 0 v.items) }
{
    let mut tokens = Vec::new(alloc);
    if row.is_empty() {
        return Ok(tokens);
    }
    'words: for word in row.split('|') {
        let (word, spaced) = without(word.as_bytes(), b' ');
        let token = token_of(alloc, expansion(word, expanded), spaced)?;
        tokens.push(token)?;
    }
    Ok(tokens)
}

/// The arguments of a row.
fn arguments_of(alloc: Global, row: &str) -> Result<Vec<Argument>, NoMemory>
    ensures { IfOk result (λ v. AreArgumentsIn 0 v.items) }
{
    let mut arguments = Vec::new(alloc);
    'arguments: for argument in row.split(';') {
        let raw = tokens_of(alloc, argument, false)?;
        let expanded = tokens_of(alloc, argument, true)?;
        arguments.push(Argument { raw, expanded })?;
    }
    Ok(arguments)
}

/// Tokens as they are written in rows.
fn written(alloc: Global, mut stack: Vec<WorkToken>) -> Result<Vec<u8>, NoMemory> {
    let mut text = Vec::new(alloc);
    'tokens: while let Some(token) = stack.pop() {
        if !text.is_empty() {
            text.push(b'|')?;
        }
        if token.spaced {
            text.push(b' ')?;
        }
        text.extend_from_slice(token.text.as_slice())?;
    }
    Ok(text)
}

/// What a call puts in where there is room for so many tokens, as it is written in rows.
fn put_in(alloc: Global, parts: &str, arguments: &str, room: usize) -> Result<Vec<u8>, PasteFault> {
    let parts = parts_of(alloc, parts)?;
    let mut arguments = arguments_of(alloc, arguments)?;
    let site = Site {
        spaced: false,
        hides: 0,
        room,
    };
    let mut arena = Hides::new(alloc);
    let mut stack = Vec::new(alloc);
    substitute(
        alloc,
        &mut arena,
        parts.as_slice(),
        arguments.as_mut_slice(),
        site,
        &mut stack,
    )?;
    let text = written(alloc, stack)?;
    Ok(text)
}

/// Whether a call puts in what a row says.
fn puts(alloc: Global, parts: &str, arguments: &str, expected: &str) -> Result<bool, PasteFault> {
    let text = put_in(alloc, parts, arguments, 65_536)?;
    Ok(text.as_slice() == expected.as_bytes())
}

/// The parts of a body, the arguments of a call, and what it puts in.
const ROWS: &[(&str, &str, &str)] = &[
    ("x| y", "", "x| y"),
    ("$0|$1", "N; a| b", "2|a| b"),
    ("#0", " a| \"q\"", "\"a \\\"q\\\"\""),
    ("#0", "'\"'|'\\0'|\\n", "\"'\\\"''\\\\0'\\n\""),
    ("#0", "", "\"\""),
    ("#0|x", "N", "\"N\"|x"),
    ("$0|+$1", "+;/", "+|/"),
    ("$0|+$1", "+; +", "++"),
    ("$0|+$1", ";", ""),
    ("$0|+$1", ";b", "b"),
    ("x| $0|+$1|y", ";a| b", "x| a| b|y"),
    ("x| $0|+ $1|y", ";", "x|y"),
    ("$0|+x| $0", "N", "Nx| 2"),
    ("a|+##|b", "", "a|##|b"),
    ("x|+ #0", "a", "x|\"a\""),
    ("L|+#0", "a", "L\"a\""),
    ("a|+b|+1|+c|+.", "", "ab1c|."),
    ("1|+e|++|+5|+_", "", "1e+5_"),
    ("a|+-|+>|+b", "", "a|->|b"),
    ("$0|+$1|+$2", "x;;y", "xy"),
];

#[test]
fn rows(rt: HostRuntime) -> Result<(), Fail> {
    for row in ROWS {
        assert!(rt;
            puts(rt.alloc(), row.0, row.1, row.2)?,
            "at {} of {}",
            row.0,
            row.1
        );
    }
    Ok(())
}

/// Whether there is room for what a row puts in.
fn has_room(alloc: Global, parts: &str, arguments: &str, room: usize) -> Result<bool, PasteFault> {
    match put_in(alloc, parts, arguments, room) {
        Ok(_) => Ok(true),
        Err(PasteFault::TooLong) => Ok(false),
        Err(fault) => Err(fault),
    }
}

/// The parts of a body, the arguments of a call, how many tokens there is room for, and whether that is enough.
const ROOMS: &[(&str, &str, usize, bool)] = &[
    ("x|y", "", 2, true),
    ("x|y", "", 1, false),
    ("a|+b", "", 1, true),
    ("a|++", "", 1, false),
    ("$0|+$1", ";", 0, true),
    ("$0|$0", "a|b", 3, false),
    ("$0|$0", "a|b", 4, true),
];

#[test]
fn rooms(rt: HostRuntime) -> Result<(), Fail> {
    for row in ROOMS {
        assert!(rt;
            has_room(rt.alloc(), row.0, row.1, row.2)? == row.3,
            "at {}, room {}",
            row.0,
            row.2
        );
    }
    Ok(())
}
