//! Sources with their tokens and counted lines, worked by hand.
use cb_tokens::{LexFault, Lexed, Token, TokenKind, tokens};
use std::alloc::Global;
use std::test::Fail;

/// A letter for each kind.
fn letter(kind: TokenKind) -> u8 {
    match kind {
        TokenKind::Identifier => b'I',
        TokenKind::Number => b'N',
        TokenKind::Char => b'C',
        TokenKind::Str => b'S',
        TokenKind::Punct => b'P',
        TokenKind::Other => b'O',
    }
}

/// Adds a token: a `~` where it is spaced, the letter of its kind, its bytes and a `|`.
fn push_token(text: &mut Vec<u8>, token: &Token) -> Result<(), LexFault> {
    if token.spaced {
        text.push(b'~')?;
    }
    text.push(letter(token.kind))?;
    text.extend_from_slice(token.text.as_slice())?;
    text.push(b'|')?;
    Ok(())
}

/// Adds a line: its tokens, the last digits of the first and last line of each span of its counted lines, and a `.`.
fn push_line(text: &mut Vec<u8>, lexed: &Lexed, line: usize) -> Result<(), LexFault> {
    if line >= lexed.len() {
        return Ok(());
    }
    for token in lexed.tokens(line) {
        push_token(text, token)?;
    }
    for span in lexed.counted(line).spans() {
        text.push(b'0' + (span.first % 10) as u8)?;
        text.push(b'0' + (span.last % 10) as u8)?;
    }
    text.push(b'.')?;
    Ok(())
}

/// The lines of a source, one behind another.
fn shown(alloc: Global, source: &[u8]) -> Result<Vec<u8>, LexFault> {
    let lexed = tokens(alloc, source)?;
    let mut text = Vec::new(alloc);
    for line in 0..lexed.len() {
        push_line(&mut text, &lexed, line)?;
    }
    Ok(text)
}

/// Whether a source is cut so.
fn is_cut(alloc: Global, source: &[u8], expected: &[u8]) -> Result<bool, LexFault> {
    let text = shown(alloc, source)?;
    Ok(text.as_slice() == expected)
}

/// Sources, and how each is cut.
const CUTS: &[(&[u8], &[u8])] = &[
    (
        b"a+++b 1.5e+3 0x1p-2 L\"s\" <: %:%: 'x",
        b"Ia|P++|P+|Ib|~N1.5e+3|~N0x1p-2|~SL\"s\"|~P<:|~P%:%:|~O'x|11.",
    ),
    (
        b"int a; /* x\ny\nz */ int b;",
        b"Iint|~Ia|P;|~Iint|~Ib|P;|1133.",
    ),
    (b"\"// no\" x // yes\n/**/y\n", b"S\"// no\"|~Ix|11.Iy|22."),
    (
        b"<::... ..%:%->=<<=@\\",
        b"P<:|P:|P...|~P.|P.|P%:|P%|P->|P=|P<<=|O@|O\\|11.",
    ),
    (
        b"u8\"x\" u8'x' L'a' U\"b\" L'a",
        b"Su8\"x\"|~Iu8|C'x'|~CL'a'|~SU\"b\"|~IL|O'a|11.",
    ),
    (
        b"1'000'x' 0b1' .5.e-1+ ''",
        b"N1'000'x|C' 0b1'|~N.5.e-1|P+|~C''|11.",
    ),
    (
        b"'\\'' \"a\\\\\" '\\\n'\nb",
        b"C'\\''|~S\"a\\\\\"|~C''|12.Ib|33.",
    ),
    (b"ab\\\ncd 1\\\r\n.e\\\n+5", b"Iabcd|~N1.e+5|14."),
    (b"\"x\\\ny\" <\\\n<= 'a\\\nb", b"S\"xy\"|~P<<=|~O'ab|14."),
    (b"/\\\n* c *\\\n/ d /\\\n/ e", b"Id|33."),
    (b"a /* /* */ b */", b"Ia|~Ib|~P*|P/|11."),
    (b"\n \t\x0b\x0c\r\nx", b"..Ix|33."),
    (b"\xc3\xa9$_1 L U8\"\"", b"I\xc3\xa9$_1|~IL|~IU8|S\"\"|11."),
    (b"a/ *b/=//", b"Ia|P/|~P*|Ib|P/=|11."),
    (b"", b""),
    (b"a\\", b"Ia|O\\|11."),
];

/// The first source that is cut in another way.
fn wrong_cut(alloc: Global) -> Result<Option<&'static [u8]>, LexFault> {
    for row in CUTS {
        if !is_cut(alloc, row.0, row.1)? {
            return Ok(Some(row.0));
        }
    }
    Ok(None)
}

#[test]
fn sources_are_cut(rt: HostRuntime) -> Result<(), Fail> {
    assert_eq!(rt; wrong_cut(rt.alloc())?, None);
    Ok(())
}

/// The line of the comment that has no end; none where there is none, or memory runs out.
fn open_comment(alloc: Global, source: &[u8]) -> Option<u32> {
    match tokens(alloc, source) {
        Err(LexFault::OpenComment(line)) => Some(line),
        Err(LexFault::NoMemory) => None,
        Ok(_) => None,
    }
}

/// Sources, and the line of the comment of each that has no end.
const COMMENTS: &[(&[u8], Option<u32>)] = &[
    (b"/* x", Some(1)),
    (b"a\n\"/*\" /*/\n", Some(2)),
    (b"// /*\n/\\\n* x", Some(2)),
    (b"/**/ /* /* * /", Some(1)),
    (b"'/*\n", None),
    (b"/*/ */", None),
];

/// The first source with another open comment.
fn wrong_comment(alloc: Global) -> Option<&'static [u8]> {
    for row in COMMENTS {
        if open_comment(alloc, row.0) != row.1 {
            return Some(row.0);
        }
    }
    None
}

#[test]
fn comments_without_an_end_are_refused(rt: HostRuntime) {
    assert_eq!(rt; wrong_comment(rt.alloc()), None);
}

#[test]
fn faults_of_a_cut_are_written(rt: HostRuntime) -> Result<(), Fail> {
    let text = format!(in rt.alloc(); "{}", LexFault::OpenComment(7))?;
    assert_eq!(rt;
        text.as_str(),
        "the comment that begins on line 7 has no end"
    );
    Ok(())
}
