//! Whether bytes are one token.
ghost use Rattle.std.specs.Prelude.{◌≡◌, false, ◌∷◌, drop, Option, IfSome};
ghost use Rattle.std.specs.List.{list_all};
ghost use Rattle.cb_lines.specs.Marks.{marks_of, bytes_of};
ghost use Rattle.cb_tokens.specs.inner.Classes.{BeginsIn};
ghost use Rattle.cb_tokens.specs.Forms.{is_name_byte};
ghost use Rattle.cb_tokens.specs.Kinds.{token_kind};
ghost use Rattle.cb_tokens.specs.Logical.{IsOneToken};
ghost use Rattle.cb_tokens.specs.inner.Whole.{IsDecided, closed_as};

use crate::class::{Class, class_of};
use crate::first::{First, first_piece, quoted_kind};
use crate::left::{QuoteLeft, are_names, are_punctuator, continue_number, quote_left};
use crate::token::{PieceKind, TokenKind};
use cb_lines::Marker;

/// The kind of the one token that the bytes are as a source of their own; none where they are anything else. It takes
/// no memory.
pub fn one_token(bytes: &[u8]) -> Option<TokenKind>
    ensures token { IfSome result (λ kind. IsOneToken (marks_of bytes.now) kind) }
    ensures only_token { (kind : TokenKind) → IsOneToken (marks_of bytes.now) kind → result ≡ Some kind }
{
    decide(bytes)
}

/// The kind of the one token that the bytes are as they stand, with no splice taken out; none where they are anything else. It
/// takes no memory.
pub fn token_kind(bytes: &[u8]) -> Option<TokenKind>
    ensures { result ≡ token_kind bytes.now }
{
    if bytes.is_empty() {
        return None;
    }
    let First::Piece { kind, len } = first_piece(bytes) else {
        return None;
    };
    if len < bytes.len() {
        return None;
    }
    match kind {
        PieceKind::White => None,
        PieceKind::Comment => None,
        PieceKind::LineEnd => None,
        PieceKind::Token(kind) => Some(kind),
    }
}

/// The marks of a source behind its first.
fn behind_first(bytes: &[u8]) -> Marker<'_>
    ensures { result ≡ drop 1 (marks_of bytes.now) }
{
    let mut marker = Marker::new(bytes);
    let _ = marker.next();
    marker
}

/// The kind of the token that a source is, or none.
fn decide(bytes: &[u8]) -> Option<TokenKind>
    ensures { IsDecided (bytes_of (marks_of bytes.now)) result }
{
    let mut marker = Marker::new(bytes);
    let Some(mark) = marker.next() else {
        return None;
    };
    let first = mark.byte;
    match class_of(first) {
        Class::White => None,
        Class::LineFeed => None,
        Class::Name => are_names(&mut marker).then_some(TokenKind::Identifier),
        Class::Prefix => prefixed(first, bytes),
        Class::Digit => continue_number(first, &mut marker).then_some(TokenKind::Number),
        Class::Point => point(first, bytes),
        Class::Slash => are_punctuator(first, &mut marker).then_some(TokenKind::Punct),
        Class::Quote => quote(first, &mut marker),
        Class::Single => are_punctuator(first, &mut marker).then_some(TokenKind::Punct),
        Class::Operator => are_punctuator(first, &mut marker).then_some(TokenKind::Punct),
        Class::Stray => marker.next().is_none().then_some(TokenKind::Other),
    }
}

/// The kind where the quote is closed.
fn closed_as(end: QuoteLeft, kind: TokenKind) -> Option<TokenKind>
    ensures { result ≡ closed_as end kind }
{
    match end {
        QuoteLeft::Closed => Some(kind),
        QuoteLeft::Unclosed => None,
        QuoteLeft::Broken => None,
    }
}

/// A quote and what is left behind it.
fn quote(first: u8, marker: &mut Marker<'_>) -> Option<TokenKind>
    requires { BeginsIn Class.Quote (first ∷ bytes_of marker.old) }
    ensures { IsDecided (first ∷ bytes_of marker.old) result }
{
    match quote_left(first, marker) {
        QuoteLeft::Closed => Some(quoted_kind(first)),
        QuoteLeft::Unclosed => Some(TokenKind::Other),
        QuoteLeft::Broken => None,
    }
}

/// A source that begins with a point.
fn point(first: u8, bytes: &[u8]) -> Option<TokenKind>
    requires { BeginsIn Class.Point (first ∷ bytes_of (drop 1 (marks_of bytes.now))) }
    ensures { IsDecided (first ∷ bytes_of (drop 1 (marks_of bytes.now))) result }
{
    if are_punctuator(first, &mut behind_first(bytes)) {
        return Some(TokenKind::Punct);
    }
    let Some(second) = behind_first(bytes).next() else {
        return None;
    };
    if !second.byte.is_ascii_digit() {
        return None;
    }
    continue_number(first, &mut behind_first(bytes)).then_some(TokenKind::Number)
}

/// A source that begins with a letter of a prefix.
fn prefixed(first: u8, bytes: &[u8]) -> Option<TokenKind>
    requires { BeginsIn Class.Prefix (first ∷ bytes_of (drop 1 (marks_of bytes.now))) }
    ensures { IsDecided (first ∷ bytes_of (drop 1 (marks_of bytes.now))) result }
{
    if are_names(&mut behind_first(bytes)) {
        return Some(TokenKind::Identifier);
    }
    prefixed_quote(first, &mut behind_first(bytes))
}

/// A letter of a prefix and what is left behind it, which is no identifier.
fn prefixed_quote(first: u8, marker: &mut Marker<'_>) -> Option<TokenKind>
    requires letter { BeginsIn Class.Prefix (first ∷ bytes_of marker.old) }
    requires no_name { list_all is_name_byte (bytes_of marker.old) ≡ false }
    ensures { IsDecided (first ∷ bytes_of marker.old) result }
{
    let Some(second) = marker.next() else {
        return None;
    };
    if second.byte == b'\'' {
        return closed_as(quote_left(b'\'', marker), TokenKind::Char);
    }
    if second.byte == b'"' {
        return closed_as(quote_left(b'"', marker), TokenKind::Str);
    }
    if first != b'u' {
        return None;
    }
    if second.byte != b'8' {
        return None;
    }
    let Some(third) = marker.next() else {
        return None;
    };
    if third.byte != b'"' {
        return None;
    }
    closed_as(quote_left(b'"', marker), TokenKind::Str)
}
