//! Directive lines in rows: white space and tokens on one line are read before the walk goes past them, once for all.
ghost use Rattle.std.specs.Prelude.{ℕ, ◌≡◌, ◌+◌, ◌<◌, ◌≤◌, ◌∷◌, ◌++◌, [], Bool, List, true, false, length, take, drop, slice_index, Some, IfOk, IfSome, OnOk};
ghost use Rattle.cb_lines.specs.Marks.{bytes_of, is_line_feed};
ghost use Rattle.cb_tokens.specs.Cut.{StandsFirst};
ghost use Rattle.cb_tokens.specs.declared.first.First.{First};
ghost use Rattle.cb_tokens.specs.declared.token.Token.{Token};
ghost use Rattle.cb_tree.specs.inner.Reads.{DirectiveGoes, GoesInRow, IsInRow, row_counted};

use crate::reading::Start;
use cb_lines::{Lines, Walk, one_line};
use cb_paths::{Bytes, NoMemory};
use cb_tokens::{
    First, PieceKind, Token, TokenKind, begins_with_line_end, first_piece, pieces_end_with_lines,
    white_front,
};
use std::alloc::Global;

/// How far a directive line is read.
#[derive(Clone, Copy)]
pub(crate) struct Reach {
    /// The number of the bytes that are read.
    pub(crate) len: usize,
    /// Whether the next token is spaced.
    pub(crate) spaced: bool,
    /// Whether it is known that a line end stands there.
    pub(crate) ended: bool,
}

/// What stands next in a row.
#[derive(Clone, Copy)]
pub(crate) enum InRow {
    /// A token, to its end.
    Token(Start),
    /// A line end.
    LineEnd,
    /// Anything else, or the end of the row.
    Beyond,
}

/// Keeps a token of so many bytes at the front of these.
#[inline]
pub(crate) fn keep_token(
    alloc: Global,
    tokens: &mut Vec<Token>,
    token: Start,
    bytes: &[u8],
    spaced: bool,
) -> Result<(), NoMemory>
    requires { token.len ≤ length bytes.now }
    ensures { OnOk result (tokens.new.items ≡ tokens.old.items ++ record { kind = token.kind; text = take token.len bytes.now; spaced = spaced } ∷ []) }
{
    let Start { kind, len } = token;
    if let Some(text) = Bytes::short_front(bytes, len) {
        tokens.push(Token { kind, text, spaced })?;
        return Ok(());
    }
    keep_text(alloc, tokens, kind, &bytes[..len], spaced)
}

/// Keeps a token of these bytes. It stays out of the way of the short ones.
#[inline(never)]
fn keep_text(
    alloc: Global,
    tokens: &mut Vec<Token>,
    kind: TokenKind,
    text: &[u8],
    spaced: bool,
) -> Result<(), NoMemory>
    ensures { OnOk result (tokens.new.items ≡ tokens.old.items ++ record { kind = kind; text = text.now; spaced = spaced } ∷ []) }
{
    let text = Bytes::from_slice(alloc, text)?;
    tokens.push(Token { kind, text, spaced })?;
    Ok(())
}

/// What stands at a place, of a row that ends at another one.
pub(crate) fn next_in_row(bytes: &[u8], at: usize, end: usize) -> InRow
    requires { (at ≤ end) × (end ≤ length bytes.now) }
    ensures { IsInRow bytes.now at end result }
{
    if at == end {
        return InRow::Beyond;
    }
    let (_, ahead) = bytes.split_at(at);
    if begins_with_line_end(ahead) {
        return InRow::LineEnd;
    }
    match first_piece(ahead) {
        First::Piece { kind, len } if len <= end - at => match kind {
            PieceKind::Token(kind) => InRow::Token(Start { kind, len }),
            PieceKind::White | PieceKind::Comment | PieceKind::LineEnd => InRow::Beyond,
        },
        _ => InRow::Beyond,
    }
}

/// Goes past white space, unless it goes over the end of the row.
#[inline]
fn skip_blanks(bytes: &[u8], reach: Reach, end: usize) -> Reach
    requires { (reach.len ≤ end) × (end ≤ length bytes.now) }
    ensures goes { (spaced : Bool) (before : List Token) (after : List Token) → GoesInRow spaced bytes.now before after reach.spaced reach.len
        → GoesInRow spaced bytes.now before after result.spaced result.len }
    ensures within { (reach.len ≤ result.len) × (result.len ≤ end) }
    ensures no_feed { ((k : ℕ) → k < reach.len → is_line_feed (slice_index bytes.now k) ≡ false) → (k : ℕ) → k < result.len
        → is_line_feed (slice_index bytes.now k) ≡ false }
    ensures ended { result.ended ≡ reach.ended }
{
    one_line();
    let (_, ahead) = bytes.split_at(reach.len);
    let white = white_front(ahead);
    if white == 0 || end - reach.len < white {
        return reach;
    }
    Reach {
        len: reach.len + white,
        spaced: true,
        ended: reach.ended,
    }
}

/// Reads white space and tokens at the front of bytes, none of them past a place, and keeps the tokens.
pub(crate) fn read_row(
    alloc: Global,
    bytes: &[u8],
    end: usize,
    tokens: &mut Vec<Token>,
    spaced: bool,
) -> Result<Reach, NoMemory>
    requires { end ≤ length bytes.now }
    ensures within { IfOk result (λ reach. reach.len ≤ end) }
    ensures no_feed { IfOk result (λ reach. (k : ℕ) → k < reach.len → is_line_feed (slice_index bytes.now k) ≡ false) }
    ensures few { IfOk result (λ reach. length tokens.new.items ≤ length tokens.old.items + reach.len) }
    ensures goes { IfOk result (λ reach. GoesInRow spaced bytes.now tokens.old.items tokens.new.items reach.spaced reach.len) }
    ensures ended { IfOk result (λ reach. reach.ended ≡ true → StandsFirst (drop reach.len bytes.now) (First.Piece PieceKind.LineEnd 1)) }
{
    pieces_end_with_lines();
    one_line();
    let mut reach = Reach {
        len: 0,
        spaced,
        ended: false,
    };
    'pieces: loop {
        reach = skip_blanks(bytes, reach, end);
        match next_in_row(bytes, reach.len, end) {
            InRow::Token(token) => {
                let (_, ahead) = bytes.split_at(reach.len);
                keep_token(alloc, tokens, token, ahead, reach.spaced)?;
                reach = Reach {
                    len: reach.len + token.len,
                    spaced: false,
                    ended: false,
                };
            }
            InRow::LineEnd => {
                return Ok(Reach {
                    ended: true,
                    ..reach
                });
            }
            InRow::Beyond => return Ok(reach),
        }
    }
}

/// Adds a line to those that are counted where tokens on it were kept.
fn count_line(counted: &mut Lines, before: usize, after: usize, line: u32) -> Result<(), NoMemory>
    ensures { OnOk result (counted.new ≡ row_counted before after line counted.old) }
{
    if before < after {
        counted.add(line)?;
    }
    Ok(())
}

/// Goes past marks, if there are any, of which none is an LF.
fn pass_some(walk: &mut Walk, count: usize)
    requires within { count ≤ length walk.old }
    requires plain { (k : ℕ) → k < count → is_line_feed (slice_index (bytes_of walk.old) k) ≡ false }
    ensures { walk.new ≡ drop count walk.old }
{
    if count > 0 {
        walk.pass_row(count);
    }
}

/// Goes past white space and tokens of a directive line that stand on the line of the first of them, and past the line end behind
/// them, and keeps the tokens. It answers whether the next token is spaced, or none where the line has ended.
pub(crate) fn pass_row(
    alloc: Global,
    walk: &mut Walk,
    tokens: &mut Vec<Token>,
    counted: &mut Lines,
    spaced: bool,
) -> Result<Option<bool>, NoMemory>
    ensures goes { IfOk result (λ next. DirectiveGoes spaced counted.old walk.old tokens.old.items tokens.new.items next counted.new walk.new) }
    ensures shorter { OnOk result (length walk.new ≤ length walk.old) }
    ensures few { OnOk result (length counted.new + length walk.new ≤ length counted.old + length walk.old) }
    ensures few_tokens { OnOk result (length tokens.new.items + length walk.new ≤ length tokens.old.items + length walk.old) }
{
    let bytes = walk.rest();
    if bytes.is_empty() {
        return Ok(Some(spaced));
    }
    let before = tokens.len();
    let reach = read_row(alloc, bytes, walk.row().len(), tokens, spaced)?;
    count_line(counted, before, tokens.len(), walk.line())?;
    if reach.ended {
        walk.pass_row(reach.len + 1);
        return Ok(None);
    }
    pass_some(walk, reach.len);
    Ok(Some(reach.spaced))
}
