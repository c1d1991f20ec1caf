//! From a source to its logical lines.
ghost use Rattle.std.specs.Prelude.{ℕ, ◌≡◌, ◌⊎◌, ◌<◌, ◌≤◌, List, [], ◌∷◌, ◌++◌, length, take, drop, IfOk, IfErr, OnOk};
ghost use Rattle.cb_lines.specs.Marks.{marks_of, bytes_of};
ghost use Rattle.cb_lines.specs.Lines.{with_lines};
ghost use Rattle.cb_tokens.specs.Cut.{Piece, HasOpenComment};
ghost use Rattle.cb_tokens.specs.Logical.{AreLinesOf, line_tokens, counted_lines};
ghost use Rattle.cb_tokens.specs.inner.LineCuts.{BeginsWithLine};

use crate::fault::LexFault;
use crate::first::{First, first_piece};
use crate::lexed::{Lexed, LogicalLine};
use crate::token::{PieceKind, Token, TokenKind};
use cb_lines::{Lines, Walk, marks};
use cb_paths::Bytes;
use std::alloc::Global;

/// The logical lines of a source, with their tokens and counted lines. Where a block comment has no end it is
/// `OpenComment` with the line where that comment begins; its other error is out of memory. It takes time in proportion
/// to the bytes.
pub fn tokens(alloc: Global, source: &[u8]) -> Result<Lexed, LexFault>
    ensures lines { IfOk result (λ lexed. AreLinesOf (marks_of source.now) lexed) }
    ensures open_comment { (line : ℕ) → result ≡ Err (LexFault.OpenComment line) → HasOpenComment (marks_of source.now) line }
    ensures only_open { (line : ℕ) → HasOpenComment (marks_of source.now) line
        → (result ≡ Err (LexFault.OpenComment line)) ⊎ (result ≡ Err LexFault.NoMemory) }
{
    lex(alloc, source)
}

/// The logical lines of a source, or the line of a comment without its end.
fn lex(alloc: Global, source: &[u8]) -> Result<Lexed, LexFault>
    ensures lines { IfOk result (λ lexed. AreLinesOf (marks_of source.now) lexed) }
    ensures open_comment { (line : ℕ) → result ≡ Err (LexFault.OpenComment line) → HasOpenComment (marks_of source.now) line }
{
    let source_marks = marks(alloc, source)?;
    let mut walk = Walk::new(&source_marks);
    let mut lines = Vec::new(alloc);
    'lines: while !walk.rest().is_empty() {
        let line = read_line(alloc, &mut walk)?;
        lines.push(line)?;
    }
    Ok(Lexed { lines })
}

/// Reads a logical line with its end.
fn read_line(alloc: Global, walk: &mut Walk<'_>) -> Result<LogicalLine, LexFault>
    requires { 0 < length walk.old }
    ensures line { IfOk result (λ line. (part : List Piece) × BeginsWithLine walk.old part walk.new
        × (line.tokens.items ≡ line_tokens part) × (line.counted ≡ counted_lines part)) }
    ensures shorter { OnOk result (length walk.new < length walk.old) }
    ensures open_comment { (line : ℕ) → result ≡ Err (LexFault.OpenComment line) → HasOpenComment walk.old line }
{
    let mut tokens = Vec::new(alloc);
    let mut counted = Lines::new(alloc);
    let mut spaced = false;
    'pieces: while !walk.rest().is_empty() {
        match first_piece(walk.rest()) {
            First::OpenComment => return Err(LexFault::OpenComment(walk.line())),
            First::Piece {
                kind: PieceKind::LineEnd,
                len,
            } => {
                walk.pass(len);
                return Ok(LogicalLine { tokens, counted });
            }
            First::Piece {
                kind: PieceKind::Token(kind),
                len,
            } => {
                take_token(alloc, walk, kind, len, spaced, &mut tokens, &mut counted)?;
                spaced = false;
            }
            First::Piece {
                kind: PieceKind::White,
                len,
            } => {
                walk.pass(len);
                spaced = !tokens.is_empty();
            }
            First::Piece {
                kind: PieceKind::Comment,
                len,
            } => {
                walk.pass(len);
                spaced = !tokens.is_empty();
            }
        }
    }
    Ok(LogicalLine { tokens, counted })
}

/// Goes past a token of so many bytes, and keeps it and its lines.
fn take_token(
    alloc: Global,
    walk: &mut Walk<'_>,
    kind: TokenKind,
    len: usize,
    spaced: bool,
    tokens: &mut Vec<Token>,
    counted: &mut Lines,
) -> Result<(), LexFault>
    requires { len ≤ length walk.old }
    ensures passed { OnOk result (walk.new ≡ drop len walk.old) }
    ensures kept { OnOk result (tokens.new.items ≡ tokens.old.items ++ record { kind = kind; text = take len (bytes_of walk.old); spaced = spaced } ∷ []) }
    ensures counted { OnOk result (counted.new ≡ with_lines (take len walk.old) counted.old) }
    ensures fault { IfErr result (λ e. e ≡ LexFault.NoMemory) }
{
    let text = Bytes::from_slice(alloc, &walk.rest()[..len])?;
    tokens.push(Token { kind, text, spaced })?;
    walk.pass_counted(len, counted)?;
    Ok(())
}
