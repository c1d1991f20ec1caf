//! Conditions with the answers that the C standard's rules give.
use crate::examples::{CXX_HOLDS, FAILS, HOLDS, MALFORMED, SHIFT, TOO_WIDE, ZERO_DIVISOR};
use cb_cond::{BadCondition, one_condition, value};
use cb_paths::{Bytes, Language, NoMemory};
use cb_tokens::{Token, TokenKind};
use std::alloc::Global;
use std::process::Abort;
use std::test::Fail;

/// The form of a token, by its first byte.
fn kind_of(text: &[u8]) -> TokenKind {
    if text.len() == 0 {
        return TokenKind::Other;
    }
    match text[0] {
        b'0'..=b'9' => TokenKind::Number,
        b'\'' => TokenKind::Char,
        b'"' => TokenKind::Str,
        b'a'..=b'z' | b'A'..=b'Z' => {
            if text[text.len() - 1] == b'\'' {
                TokenKind::Char
            } else {
                TokenKind::Identifier
            }
        }
        _ => TokenKind::Punct,
    }
}

/// Adds the tokens of a text, in which a space stands between two of them.
fn add(alloc: Global, tokens: &mut Vec<Token>, text: &str) -> Result<(), NoMemory> {
    for word in text.split(' ') {
        let kind = kind_of(word.as_bytes());
        let text = Bytes::from_slice(alloc, word.as_bytes())?;
        let spaced = true;
        tokens.push(Token { kind, text, spaced })?;
    }
    Ok(())
}

/// The answer to a condition.
fn answer(
    alloc: Global,
    text: &str,
    language: Language,
) -> Result<Result<bool, BadCondition>, NoMemory> {
    let mut tokens = Vec::new(alloc);
    add(alloc, &mut tokens, text)?;
    Ok(value(tokens.as_slice(), language))
}

/// The answer to a condition of C in which a front, a middle and an end stand so many times.
fn nested(
    alloc: Global,
    front: (&str, usize),
    middle: (&str, usize),
    end: (&str, usize),
) -> Result<Result<bool, BadCondition>, NoMemory> {
    let mut tokens = Vec::new(alloc);
    for _ in 0..front.1 {
        add(alloc, &mut tokens, front.0)?;
    }
    for _ in 0..middle.1 {
        add(alloc, &mut tokens, middle.0)?;
    }
    for _ in 0..end.1 {
        add(alloc, &mut tokens, end.0)?;
    }
    Ok(value(tokens.as_slice(), Language::C))
}

/// Each of the conditions has the answer.
fn each_answers<R: Abort + Alloc<A = Global>>(
    rt: &R,
    texts: &[&str],
    language: Language,
    expected: Result<bool, BadCondition>,
) -> Result<(), NoMemory> {
    for text in texts {
        let found = answer(rt.alloc(), text, language)?;
        assert!(rt; found == expected, "{text}");
    }
    Ok(())
}

#[test]
fn values_are_those_of_the_standard(rt: HostRuntime) -> Result<(), Fail> {
    each_answers(&rt, HOLDS, Language::C, Ok(true))?;
    each_answers(&rt, FAILS, Language::C, Ok(false))?;
    each_answers(&rt, CXX_HOLDS, Language::Cxx, Ok(true))?;
    Ok(())
}

/// Conditions, and the fault of them all.
const REFUSED: &[(&[&str], BadCondition)] = &[
    (MALFORMED, BadCondition::Malformed),
    (ZERO_DIVISOR, BadCondition::ZeroDivisor),
    (SHIFT, BadCondition::Shift),
    (TOO_WIDE, BadCondition::TooWide),
];

#[test]
fn faults_are_told(rt: HostRuntime) -> Result<(), Fail> {
    for row in REFUSED {
        each_answers(&rt, row.0, Language::C, Err(row.1))?;
    }
    Ok(())
}

/// Whether a fault has this number and this name.
fn is_told(fault: BadCondition, number: u32, name: &str) -> bool {
    fault.number() == number && fault.name() == name
}

/// Faults, and the number and the name of each.
const FAULTS: &[(BadCondition, u32, &str)] = &[
    (BadCondition::Malformed, 1, "Malformed"),
    (BadCondition::ZeroDivisor, 2, "ZeroDivisor"),
    (BadCondition::Shift, 3, "Shift"),
    (BadCondition::TooWide, 4, "TooWide"),
    (BadCondition::TooDeep, 5, "TooDeep"),
];

#[test]
fn faults_have_names(rt: HostRuntime) -> Result<(), Fail> {
    for row in FAULTS {
        assert!(rt; is_told(row.0, row.1, row.2), "{}", row.2);
    }
    let text = format!(in rt.alloc(); "{}", BadCondition::ZeroDivisor)?;
    assert!(rt; text.as_str() == "a divisor is 0");
    Ok(())
}

/// A front, a middle, an end and an answer.
type NestedRow = (
    (&'static str, usize),
    &'static str,
    (&'static str, usize),
    Result<bool, BadCondition>,
);

/// Whether the condition of a row has its answer.
fn nests(alloc: Global, row: &NestedRow) -> Result<bool, NoMemory> {
    Ok(nested(alloc, row.0, (row.1, 1), row.2)? == row.3)
}

/// What stands so many times at the front, once in the middle and so many times at the end of a condition, and its
/// answer.
const NESTED: &[NestedRow] = &[
    (("(", 256), "1", (")", 256), Ok(true)),
    (("(", 257), "1", (")", 257), Err(BadCondition::TooDeep)),
    (
        ("(", 257),
        "18446744073709551616 )",
        ("1 / 0", 1),
        Err(BadCondition::TooDeep),
    ),
    (("(", 257), "1 1", (")", 257), Err(BadCondition::TooDeep)),
    (
        ("(", 257),
        "1 << 64",
        (")", 257),
        Err(BadCondition::TooDeep),
    ),
    ((")", 1), "(", ("(", 256), Err(BadCondition::Malformed)),
    (("0 ? 0 :", 256), "1", ("", 0), Ok(true)),
    (("0 ? 0 :", 257), "1", ("", 0), Err(BadCondition::TooDeep)),
    (("! ~ - +", 10000), "1", ("&& 1", 1), Ok(true)),
];

#[test]
fn depth_is_limited(rt: HostRuntime) -> Result<(), Fail> {
    one_condition();
    for row in NESTED {
        assert!(rt; nests(rt.alloc(), row)?, "{}", row.1);
    }
    Ok(())
}

/// All operators that may wait for an operand wait at once, in each of 256 parentheses.
#[test]
fn all_that_may_wait_waits_at_once(rt: HostRuntime) -> Result<(), Fail> {
    let front = "0 ? 0 : 0 || 1 && 0 | 0 ^ 1 & 1 == 1 < 0 << 0 + 1 * ! - ~ (";
    let middle = "0 || 1 && 0 | 0 ^ 1 & 1 == 0 < 1 << 0 + 1 * 1";
    assert!(rt; nested(rt.alloc(), (front, 256), (middle, 1), (")", 256))? == Ok(false));
    Ok(())
}
