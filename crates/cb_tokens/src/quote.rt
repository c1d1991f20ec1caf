//! The end of a quote.
ghost use Rattle.std.specs.Prelude.{◌≡◌, ◌<◌, true, length};
ghost use Rattle.cb_tokens.specs.Forms.{is_quote};
ghost use Rattle.cb_tokens.specs.inner.Scan.{EndsQuote, quote_step};

use crate::lanes::inner_end;
use crate::runs::is_line_feed;

/// How a quote goes on behind its opening byte.
#[derive(Clone, Copy)]
pub(crate) enum QuoteEnd {
    /// It ends: the number of bytes up to and with its end.
    Closed(usize),
    /// It has no end on its logical line: the number of bytes that are left of that line.
    Unclosed(usize),
}

/// The number of bytes of the escape at an index, or 1 where there is none.
#[inline]
fn quote_step(bytes: &[u8], index: usize) -> usize
    requires { index < length bytes.now }
    ensures { result ≡ quote_step bytes.now index }
{
    if bytes[index] != b'\\' {
        return 1;
    }
    if bytes.len() - index == 1 {
        return 1;
    }
    if is_line_feed(bytes[index + 1]) { 1 } else { 2 }
}

/// Where the quote ends that opened before the bytes.
pub(crate) fn quote_end(quote: u8, bytes: &[u8]) -> QuoteEnd
    requires { is_quote quote ≡ true }
    ensures { EndsQuote quote bytes.now result }
{
    let mut n = 0;
    'bytes: while n < bytes.len() {
        n = inner_end(quote, bytes, n);
        let byte = bytes[n];
        if byte == quote {
            return QuoteEnd::Closed(n + 1);
        }
        if is_line_feed(byte) {
            return QuoteEnd::Unclosed(n);
        }
        if byte != b'\\' {
            n += 1;
            continue;
        }
        n += quote_step(bytes, n);
    }
    QuoteEnd::Unclosed(n)
}
