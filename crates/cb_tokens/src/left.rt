//! What all the marks that are left are, behind the first byte of a token.
ghost use Rattle.std.specs.Prelude.{◌≡◌, true, ◌∷◌};
ghost use Rattle.std.specs.List.{list_all};
ghost use Rattle.cb_lines.specs.Marks.{bytes_of};
ghost use Rattle.cb_tokens.specs.Forms.{is_name_byte, is_number_rest, is_punctuator, is_quote, quote_left};
ghost use Rattle.cb_tokens.specs.inner.Whole.{byte_of};

use crate::number::continues_number;
use crate::punctuator::{is_pair, is_quadruple, is_single, is_triple};
use crate::runs::is_line_feed;
use crate::table::is_name_byte;
use cb_lines::{Mark, Marker};

/// How all that is left of a quote ends.
#[derive(Clone, Copy)]
pub(crate) enum QuoteLeft {
    /// The last byte is its end.
    Closed,
    /// It has no end, and no line end stands in it.
    Unclosed,
    /// Something stands behind its end, or a line end in it.
    Broken,
}

/// Whether an identifier goes on over all the marks that are left.
pub(crate) fn are_names(marker: &mut Marker<'_>) -> bool
    ensures { result ≡ list_all is_name_byte (bytes_of marker.old) }
{
    'marks: while let Some(mark) = marker.next() {
        if !is_name_byte(mark.byte) {
            return false;
        }
    }
    true
}

/// The byte of a mark, or 0 where there is none.
fn byte_of(mark: Option<Mark>) -> u8
    ensures { result ≡ byte_of mark }
{
    match mark {
        Some(mark) => mark.byte,
        None => 0,
    }
}

/// Whether a number goes on over all the marks that are left, behind a byte of it.
pub(crate) fn continue_number(before: u8, marker: &mut Marker<'_>) -> bool
    ensures { result ≡ is_number_rest before (bytes_of marker.old) }
{
    let mut last = before;
    let mut next = marker.next();
    'marks: while let Some(mark) = next {
        let after = marker.next();
        if !continues_number(last, mark.byte, byte_of(after)) {
            return false;
        }
        last = mark.byte;
        next = after;
    }
    true
}

/// Whether the byte and all the marks that are left are a punctuator.
pub(crate) fn are_punctuator(first: u8, marker: &mut Marker<'_>) -> bool
    ensures { result ≡ is_punctuator (first ∷ bytes_of marker.old) }
{
    let Some(second) = marker.next() else {
        return is_single(first);
    };
    let Some(third) = marker.next() else {
        return is_pair(first, second.byte);
    };
    let Some(fourth) = marker.next() else {
        return is_triple(first, second.byte, third.byte);
    };
    if marker.next().is_some() {
        return false;
    }
    is_quadruple(first, second.byte, third.byte, fourth.byte)
}

/// How all the marks that are left end a quote.
pub(crate) fn quote_left(quote: u8, marker: &mut Marker<'_>) -> QuoteLeft
    requires { is_quote quote ≡ true }
    ensures { result ≡ quote_left quote (bytes_of marker.old) }
{
    'marks: while let Some(mark) = marker.next() {
        if mark.byte == quote {
            return if marker.next().is_none() {
                QuoteLeft::Closed
            } else {
                QuoteLeft::Broken
            };
        }
        if is_line_feed(mark.byte) {
            return QuoteLeft::Broken;
        }
        if mark.byte != b'\\' {
            continue;
        }
        let Some(escaped) = marker.next() else {
            return QuoteLeft::Unclosed;
        };
        if is_line_feed(escaped.byte) {
            return QuoteLeft::Broken;
        }
    }
    QuoteLeft::Unclosed
}
