//! Bytes that are cut into white space and tokens alone, found without a look at each piece.
ghost use Rattle.std.specs.Prelude.{ℕ, ◌≡◌, ◌≢◌, ◌↔◌, IsTrue, ◌+◌, ◌-◌, ◌<◌, ◌≤◌, ◌==◌, ◌&&◌, ◌||◌, true, false, List, length, drop, slice_index, IfSome};
ghost use Rattle.std.specs.List.{prefix_len};
ghost use Rattle.cb_lines.specs.declared.mark.Mark.{Mark};
ghost use Rattle.cb_lines.specs.Marks.{bytes_of, is_line_feed};
ghost use Rattle.cb_tokens.specs.Cut.{StandsFirst};
ghost use Rattle.cb_tokens.specs.Forms.{is_white};
ghost use Rattle.cb_tokens.specs.Plain.{is_quiet, EndsWhite, IsQuietEnd, CutsPlain};
ghost use Rattle.cb_tokens.specs.inner.Breaks.{is_apart, IsBreak, IsTokenAt, IsPlainOf};
ghost use Rattle.cb_tokens.specs.declared.first.First.{First};
ghost use Rattle.cb_tokens.specs.declared.token.PieceKind.{PieceKind};
ghost use Rattle.cb_tokens.specs.declared.token.TokenKind.{TokenKind};

use crate::first::{First, first_piece};
use crate::lanes::quiet_end;
use crate::runs::{behind, byte_at, is_line_feed, white_len};
use crate::table::{is_name_byte, is_white};
use crate::token::{PieceKind, TokenKind};

/// Bytes at the front that need no look at each piece.
#[derive(Clone, Copy)]
pub struct Stretch {
    /// How many are cut into a token, and then white space and tokens; 0 where that is not known.
    pub len: usize,
    /// How many were looked at: those before an LF, a quote or a slash that it does not go past.
    pub seen: usize,
}

/// No byte of white space and of a token is an LF, and none but the last of a line end.
pub fn pieces_end_with_lines()
    ensures white { (bytes : List ℕ) (len k : ℕ) → StandsFirst bytes (First.Piece PieceKind.White len) → k < len
        → is_line_feed (slice_index bytes k) ≡ false }
    ensures line_end { (bytes : List ℕ) (len k : ℕ) → StandsFirst bytes (First.Piece PieceKind.LineEnd len) → k + 1 < len
        → is_line_feed (slice_index bytes k) ≡ false }
    ensures token { (bytes : List ℕ) (kind : TokenKind) (len k : ℕ) → StandsFirst bytes (First.Piece (PieceKind.Token kind) len)
        → k < len → is_line_feed (slice_index bytes k) ≡ false }
{}

/// The number of white bytes at the front, which are a piece where there are any.
pub fn white_front(bytes: &[u8]) -> usize
    ensures all { result ≡ prefix_len is_white bytes.now }
    ensures within { result ≤ length bytes.now }
    ensures piece { 0 < result → StandsFirst bytes.now (First.Piece PieceKind.White result) }
    ensures no_feed { (k : ℕ) → k < result → is_line_feed (slice_index bytes.now k) ≡ false }
{
    white_len(bytes)
}

/// Whether a line end stands at the front.
#[inline]
pub fn begins_with_line_end(bytes: &[u8]) -> bool
    ensures { IsTrue result ↔ StandsFirst bytes.now (First.Piece PieceKind.LineEnd 1) }
{
    is_feed_at(bytes, 0)
}

/// Whether `#` stands at the front, as a token of its own.
#[inline]
pub fn begins_with_hash(bytes: &[u8]) -> bool
    ensures { IsTrue result ↔ ((slice_index bytes.now 0 ≡ 35) × StandsFirst bytes.now (First.Piece (PieceKind.Token TokenKind.Punct) 1)) }
{
    if byte_at(bytes, 0) != b'#' {
        return false;
    }
    byte_at(bytes, 1) != b'#'
}

/// Whether a byte that is not white stands at a place, directly behind a white one.
#[inline]
fn ends_white(bytes: &[u8], at: usize) -> bool
    requires some { 0 < at }
    requires within { at < length bytes.now }
    ensures yes { result ≡ true → EndsWhite bytes.now at }
    ensures no { result ≡ false → EndsWhite bytes.now at → ⊥ }
{
    is_white(bytes[at - 1]) && !is_white(bytes[at])
}

/// The last place between two where white space ends, this among them; the first one where there is none.
fn last_end_of_white(bytes: &[u8], from: usize, to: usize) -> usize
    requires { (from ≤ to) × (to < length bytes.now) }
    ensures within { (from ≤ result) × (result ≤ to) }
    ensures ends { from < result → EndsWhite bytes.now result }
    ensures last { (n : ℕ) → result < n → n ≤ to → EndsWhite bytes.now n → ⊥ }
{
    let mut at = to;
    'places: while at > from {
        if ends_white(bytes, at) {
            return at;
        }
        at -= 1;
    }
    from
}

/// Whether an LF stands at a place.
#[inline]
fn is_feed_at(bytes: &[u8], at: usize) -> bool
    ensures yes { result ≡ true → (at < length bytes.now) × (slice_index bytes.now at ≡ 10) }
    ensures no { result ≡ false → slice_index bytes.now at ≡ 10 → length bytes.now ≤ at }
{
    at < bytes.len() && is_line_feed(bytes[at])
}

/// Whether a piece may go over to a byte that is not quiet from the one before it: to a quote behind what a name goes on with.
#[inline]
#[tactic(auto, unfolding(crate::specs::Plain::is_quiet, crate::specs::inner::Breaks::is_apart, crate::specs::Forms::is_quote))]
fn may_go_on(before: u8, byte: u8) -> bool
    requires { is_quiet byte ≡ false }
    ensures feed { byte ≡ 10 → result ≡ false }
    ensures apart { result ≡ false → byte ≢ 10 → is_apart before byte ≡ true }
{
    (byte == b'"' || byte == b'\'') && is_name_byte(before)
}

/// The last place that no piece goes over from the begin of quiet bytes, which a piece begins, to their end; the begin where there is none.
fn last_break(bytes: &[u8], from: usize, seen: usize, end: usize) -> usize
    requires within { (from ≤ seen) × (from < end) × (seen ≤ end) × (end ≤ length bytes.now) }
    requires quiet { (k : ℕ) → from ≤ k → k < seen → is_quiet (slice_index bytes.now k) ≡ true }
    requires loud { seen < end → is_quiet (slice_index bytes.now seen) ≡ false }
    ensures within { (from ≤ result) × (result ≤ seen) × (result < end) }
    ensures stops { from < result → IsBreak (drop from bytes.now) (result - from) }
    ensures line { seen < end → slice_index bytes.now seen ≡ 10 → result ≡ seen }
    ensures last { (n : ℕ) → result < n → n ≤ seen → n < end → EndsWhite bytes.now n → ⊥ }
{
    if seen == from {
        return from;
    }
    if seen == end {
        return last_end_of_white(bytes, from, end - 1);
    }
    if may_go_on(bytes[seen - 1], bytes[seen]) {
        return last_end_of_white(bytes, from, seen);
    }
    seen
}

/// Whether a line end or a comment begins at a place.
#[inline]
fn begins_no_token(bytes: &[u8], at: usize) -> bool
    requires { at < length bytes.now }
    ensures { result ≡ ((slice_index bytes.now at == 10)
        || ((slice_index bytes.now at == 47) && ((slice_index bytes.now (at + 1) == 47) || (slice_index bytes.now (at + 1) == 42)))) }
{
    let byte = bytes[at];
    byte == b'\n' || (byte == b'/' && matches!(byte_at(bytes, at + 1), b'/' | b'*'))
}

/// The end of the token at a place, where it ends before another place.
#[inline]
fn token_end(bytes: &[u8], at: usize, end: usize) -> Option<usize>
    requires { (at < end) × (end ≤ length bytes.now) }
    ensures within { IfSome result (λ next. (at < next) × (next < end)) }
    ensures token { IfSome result (IsTokenAt bytes.now at) }
    ensures line { IfSome result (λ _. slice_index bytes.now at ≢ 10) }
{
    if begins_no_token(bytes, at) {
        return None;
    }
    match first_piece(behind(bytes, at)) {
        First::Piece {
            kind: PieceKind::Token(_),
            len,
        } if len < end - at => Some(at + len),
        _ => None,
    }
}

/// The place behind the tokens that stand from one place on, up to the first that goes over another one, and all of which end before a
/// third.
fn tokens_over(bytes: &[u8], from: usize, over: usize, end: usize) -> usize
    requires within { (from ≤ over) × (over ≤ end) × (from < end) × (end ≤ length bytes.now) }
    ensures within { (from ≤ result) × (result < end) }
    ensures plain { IsPlainOf bytes.now from → IsPlainOf bytes.now result }
    ensures no_feed { ((k : ℕ) → k < from → is_line_feed (slice_index bytes.now k) ≡ false) → (k : ℕ) → k < result → is_line_feed (slice_index bytes.now k) ≡ false }
    ensures line { slice_index bytes.now from ≡ 10 → result ≡ from }
{
    let mut at = from;
    'tokens: while at <= over {
        match token_end(bytes, at, end) {
            Some(next) => at = next,
            None => return at,
        }
    }
    at
}

/// The bytes at the front, among the first so many, that are cut into a token and then white space and tokens alone. Where no white
/// space stands first, it goes at least to each end of white space up to which no byte is a line end, a quote or a slash, and to the
/// line end at which the look ends, if one does; how much further it goes, no clause says.
pub fn plain_stretch(bytes: &[u8], end: usize) -> Stretch
    requires { end ≤ length bytes.now }
    ensures seen { result.seen < end → is_quiet (slice_index bytes.now result.seen) ≡ false }
    ensures within { (result.len ≤ result.seen) × (result.seen ≤ end) }
    ensures line { is_white (slice_index bytes.now 0) ≡ false → result.seen < end → slice_index bytes.now result.seen ≡ 10 → result.len ≡ result.seen }
    ensures inside { 0 < result.len → result.len < end }
    ensures goes { is_white (slice_index bytes.now 0) ≡ false → (n : ℕ) → n < end → IsQuietEnd bytes.now n → n ≤ result.len }
    ensures no_feed { (k : ℕ) → k < result.seen → is_line_feed (slice_index bytes.now k) ≡ false }
    ensures cut { (ms : List Mark) → bytes.now ≡ bytes_of ms → 0 < result.len → CutsPlain ms result.len }
{
    let mut at = 0;
    if end == 0 || is_white(bytes[0]) {
        return Stretch {
            len: 0,
            seen: quiet_end(bytes, 0, end),
        };
    }
    'runs: loop {
        let seen = quiet_end(bytes, at, end);
        let len = last_break(bytes, at, seen, end);
        let next = tokens_over(bytes, len, seen, end);
        if next <= seen {
            return Stretch { len: next, seen };
        }
        at = next;
    }
}
