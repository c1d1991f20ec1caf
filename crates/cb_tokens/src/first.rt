//! What stands at the front of the marks that are left.
ghost use Rattle.std.specs.Prelude.{◌≡◌, ◌<◌, length};
ghost use Rattle.cb_tokens.specs.inner.Classes.{BeginsIn};
ghost use Rattle.cb_tokens.specs.Cut.{StandsFirst};
ghost use Rattle.cb_tokens.specs.inner.Scan.{prefix_before_quote, quoted_kind};

use crate::class::{Class, class_of};
use crate::comment::comment_end;
use crate::number::number_rest;
use crate::punctuator::punctuator_len;
use crate::quote::{QuoteEnd, quote_end};
use crate::runs::{behind, byte_at, line_len, name_len, white_len};
use crate::token::{PieceKind, TokenKind};

/// What stands at the front.
#[derive(Clone, Copy, Debug, PartialEq, Eq)]
pub enum First {
    /// The longest piece that fits, with the number of its bytes.
    Piece {
        /// What it is.
        kind: PieceKind,
        /// The number of its bytes, at least one.
        len: usize,
    },
    /// A block comment that has no end.
    OpenComment,
}

/// What stands at the front of bytes: the longest piece, or a block comment without its end. It looks no further than
/// the piece and its next four bytes, and at a quote without its end to the end of the line.
pub fn first_piece(bytes: &[u8]) -> First
    requires { 0 < length bytes.now }
    ensures { StandsFirst bytes.now result }
{
    match class_of(bytes[0]) {
        Class::White => First::Piece {
            kind: PieceKind::White,
            len: white_len(bytes),
        },
        Class::LineFeed => First::Piece {
            kind: PieceKind::LineEnd,
            len: 1,
        },
        Class::Name => First::Piece {
            kind: PieceKind::Token(TokenKind::Identifier),
            len: name_len(bytes),
        },
        Class::Prefix => prefixed(bytes),
        Class::Digit => First::Piece {
            kind: PieceKind::Token(TokenKind::Number),
            len: number_rest(bytes[0], behind(bytes, 1)) + 1,
        },
        Class::Point => point(bytes),
        Class::Slash => slash(bytes),
        Class::Quote => quote(bytes),
        Class::Single => First::Piece {
            kind: PieceKind::Token(TokenKind::Punct),
            len: 1,
        },
        Class::Operator => First::Piece {
            kind: PieceKind::Token(TokenKind::Punct),
            len: punctuator_len(bytes),
        },
        Class::Stray => First::Piece {
            kind: PieceKind::Token(TokenKind::Other),
            len: 1,
        },
    }
}

/// A number that begins with a point, or a punctuator.
fn point(bytes: &[u8]) -> First
    requires { BeginsIn Class.Point bytes.now }
    ensures { StandsFirst bytes.now result }
{
    if byte_at(bytes, 1).is_ascii_digit() {
        return First::Piece {
            kind: PieceKind::Token(TokenKind::Number),
            len: number_rest(bytes[0], behind(bytes, 1)) + 1,
        };
    }
    First::Piece {
        kind: PieceKind::Token(TokenKind::Punct),
        len: punctuator_len(bytes),
    }
}

/// A comment or a punctuator.
fn slash(bytes: &[u8]) -> First
    requires { BeginsIn Class.Slash bytes.now }
    ensures { StandsFirst bytes.now result }
{
    let second = byte_at(bytes, 1);
    if second == b'/' {
        return First::Piece {
            kind: PieceKind::Comment,
            len: line_len(bytes),
        };
    }
    if second != b'*' {
        return First::Piece {
            kind: PieceKind::Token(TokenKind::Punct),
            len: punctuator_len(bytes),
        };
    }
    match comment_end(behind(bytes, 2)) {
        None => First::OpenComment,
        Some(len) => First::Piece {
            kind: PieceKind::Comment,
            len: len + 2,
        },
    }
}

/// The kind of a token between such quotes.
pub(crate) fn quoted_kind(quote: u8) -> TokenKind
    ensures { result ≡ quoted_kind quote }
{
    if quote == b'\'' {
        TokenKind::Char
    } else {
        TokenKind::Str
    }
}

/// A character constant, a string, or a quote without its end.
fn quote(bytes: &[u8]) -> First
    requires { BeginsIn Class.Quote bytes.now }
    ensures { StandsFirst bytes.now result }
{
    match quote_end(bytes[0], behind(bytes, 1)) {
        QuoteEnd::Closed(len) => First::Piece {
            kind: PieceKind::Token(quoted_kind(bytes[0])),
            len: len + 1,
        },
        QuoteEnd::Unclosed(len) => First::Piece {
            kind: PieceKind::Token(TokenKind::Other),
            len: len + 1,
        },
    }
}

/// The number of bytes of a prefix that stand directly before a quote at the front.
#[tactic(auto, unfolding(crate::specs::Forms::is_quote))]
fn prefix_before_quote(bytes: &[u8]) -> usize
    ensures { result ≡ prefix_before_quote bytes.now }
{
    let second = byte_at(bytes, 1);
    if second == b'\'' || second == b'"' {
        return 1;
    }
    if byte_at(bytes, 0) == b'u' && second == b'8' && byte_at(bytes, 2) == b'"' {
        2
    } else {
        0
    }
}

/// A quote with its prefix, or an identifier.
fn prefixed(bytes: &[u8]) -> First
    requires { BeginsIn Class.Prefix bytes.now }
    ensures { StandsFirst bytes.now result }
{
    let before = prefix_before_quote(bytes);
    if before == 0 {
        return First::Piece {
            kind: PieceKind::Token(TokenKind::Identifier),
            len: name_len(bytes),
        };
    }
    match quote_end(bytes[before], behind(bytes, before + 1)) {
        QuoteEnd::Closed(len) => First::Piece {
            kind: PieceKind::Token(quoted_kind(bytes[before])),
            len: before + 1 + len,
        },
        QuoteEnd::Unclosed(_) => First::Piece {
            kind: PieceKind::Token(TokenKind::Identifier),
            len: name_len(bytes),
        },
    }
}
