//! Bytes that are one token or none, and tokens by themselves.
use cb_paths::{Bytes, NoMemory};
use cb_tokens::{
    First, PieceKind, Token, TokenKind, Tokens, first_piece, one_cut, one_token, plain_stretch,
    token_kind, white_front,
};
use std::alloc::Global;
use std::test::Fail;

fn is_shared<T: Send + Sync>() {}

/// Bytes, the token that they are as a source of their own, and the one that they are as they stand.
const KINDS: &[(&[u8], Option<TokenKind>, Option<TokenKind>)] = &[
    (b"a\\\nb1", Some(TokenKind::Identifier), None),
    (
        b"u8",
        Some(TokenKind::Identifier),
        Some(TokenKind::Identifier),
    ),
    (b".5e\\\r\n+1", Some(TokenKind::Number), None),
    (b".5e+1", Some(TokenKind::Number), Some(TokenKind::Number)),
    (b"1'0", Some(TokenKind::Number), Some(TokenKind::Number)),
    (b"L'\\'\\\n'", Some(TokenKind::Char), None),
    (b"L'\\''", Some(TokenKind::Char), Some(TokenKind::Char)),
    (b"u8\"\\\\\"", Some(TokenKind::Str), Some(TokenKind::Str)),
    (b"U\"x\"", Some(TokenKind::Str), Some(TokenKind::Str)),
    (b"%:\\\n%:", Some(TokenKind::Punct), None),
    (b"...", Some(TokenKind::Punct), Some(TokenKind::Punct)),
    (b"/=", Some(TokenKind::Punct), Some(TokenKind::Punct)),
    (b"'a\\", Some(TokenKind::Other), Some(TokenKind::Other)),
    (b"@", Some(TokenKind::Other), Some(TokenKind::Other)),
    (b"", None, None),
    (b"a\n", None, None),
    (b"a b", None, None),
    (b"u8'x'", None, None),
    (b"//", None, None),
    (b"/*", None, None),
    (b" ", None, None),
    (b"1'", None, None),
];

/// The first bytes that are another token, or another as a source of their own.
fn wrong_kind() -> Option<&'static [u8]> {
    for row in KINDS {
        if one_token(row.0) != row.1 || token_kind(row.0) != row.2 {
            return Some(row.0);
        }
    }
    None
}

#[test]
fn bytes_are_one_token(rt: HostRuntime) {
    one_cut();
    assert_eq!(rt; wrong_kind(), None);
}

/// Bytes, and the piece at the front of each.
const FIRSTS: &[(&[u8], First)] = &[
    (
        b"/*a*/b",
        First::Piece {
            kind: PieceKind::Comment,
            len: 5,
        },
    ),
    (
        b"\n\n",
        First::Piece {
            kind: PieceKind::LineEnd,
            len: 1,
        },
    ),
    (b"/*/", First::OpenComment),
];

/// The first bytes at whose front another piece stands.
fn wrong_first() -> Option<&'static [u8]> {
    for row in FIRSTS {
        if first_piece(row.0) != row.1 {
            return Some(row.0);
        }
    }
    None
}

#[test]
fn a_piece_stands_first(rt: HostRuntime) {
    assert_eq!(rt; wrong_first(), None);
}

/// Bytes, the length of the white space at their front, and how long their stretch is and how far it is seen.
const STRETCHES: &[(&[u8], usize, usize, usize)] = &[
    (b"a + b;\nc", 0, 6, 6),
    (b"print(a, \"b c\");\n", 0, 16, 16),
    (b"print(\"b c\" / 'd');\n", 0, 19, 19),
    (b"a L'b'\n", 0, 6, 6),
    (b"a(L'b')\n", 0, 7, 7),
    (b"a + b[c", 0, 6, 7),
    (b"a = 1'000 + \"b // c\" + d; // e\n", 0, 26, 26),
    (b"a \"b\n", 0, 4, 4),
    (b"a /* b */\n", 0, 2, 2),
    (b"a b", 0, 2, 3),
    (b" \ta\n", 2, 0, 3),
];

/// The first bytes with another stretch.
fn wrong_stretch() -> Option<&'static [u8]> {
    for row in STRETCHES {
        let stretch = plain_stretch(row.0, row.0.len());
        if white_front(row.0) != row.1 || stretch.len != row.2 || stretch.seen != row.3 {
            return Some(row.0);
        }
    }
    None
}

#[test]
fn stretches_end_where_no_piece_goes_on(rt: HostRuntime) {
    assert_eq!(rt; wrong_stretch(), None);
}

/// A token of these bytes.
fn token_of(alloc: Global, text: &[u8], spaced: bool) -> Result<Token, NoMemory> {
    Ok(Token {
        kind: TokenKind::Identifier,
        spaced,
        text: Bytes::from_slice(alloc, text)?,
    })
}

/// Whether a copy of a token agrees with it, and with no token of other bytes.
fn is_copied(alloc: Global, text: &[u8], other: &[u8]) -> Result<bool, NoMemory> {
    let token = token_of(alloc, text, true)?;
    let copy = token.copy(alloc)?;
    Ok(
        copy.is_same(&token)
            && copy.is_identifier()
            && !copy.is_same(&token_of(alloc, other, true)?),
    )
}

/// The number of tokens in a list to which tokens of these texts were put, and then it was made of its vector again.
fn listed(alloc: Global, texts: &[&[u8]]) -> Result<usize, NoMemory> {
    let mut list = Tokens::new(alloc);
    for text in texts {
        list.push(token_of(alloc, text, false)?)?;
    }
    let list = Tokens::from_vec(list.into_vec());
    Ok(list.len().min(list.as_slice().len()))
}

#[test]
fn tokens_are_copied_and_listed(rt: HostRuntime) -> Result<(), Fail> {
    is_shared::<Token>();
    is_shared::<Tokens>();
    assert!(rt; is_copied(rt.alloc(), b"a", b"b")?);
    assert_eq!(rt; listed(rt.alloc(), &[b"a", b"b"])?, 2);
    assert!(rt; Tokens::new(rt.alloc()).is_empty());
    Ok(())
}
