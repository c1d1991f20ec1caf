//! The nodes of a source, read from its marks one after another.
ghost use Rattle.std.specs.Prelude.{◌≡◌, ◌<◌, [], ◌∷◌, false, length, take, drop, MatchOption, MatchResult, OnOk};
ghost use Rattle.cb_lines.specs.Marks.{bytes_of};
ghost use Rattle.cb_lines.specs.Lines.{with_lines};
ghost use Rattle.cb_tokens.specs.Cut.{StandsFirst};
ghost use Rattle.cb_tokens.specs.Logical.{is_token};
ghost use Rattle.cb_tree.specs.inner.Reads.{Reads, Tells, StandsNext, StartsNext};

use crate::fault::{BadSource, BuildFault, SourceKind};
use cb_lines::{Lines, Walk};
use cb_paths::NoMemory;
use cb_tokens::{First, PieceKind, TokenKind, first_piece, pieces_end_with_lines};

/// The piece that stands next.
#[derive(Clone, Copy)]
pub(crate) struct Ahead {
    /// What it is.
    pub(crate) kind: PieceKind,
    /// The number of its marks.
    pub(crate) len: usize,
}

/// The token that stands next.
#[derive(Clone, Copy)]
pub(crate) struct Start {
    /// Its form.
    pub(crate) kind: TokenKind,
    /// The number of its marks.
    pub(crate) len: usize,
}

/// Where a run of text is read.
#[derive(Clone, Copy)]
pub(crate) enum Place {
    /// No token of the logical line has come.
    LineStart,
    /// A token of the logical line has come.
    InLine,
}

/// The piece that stands next, or none at the end.
pub(crate) fn look_ahead(walk: &Walk) -> Result<Option<Ahead>, BuildFault>
    ensures { MatchResult result (StandsNext walk.now) (Tells walk.now) }
{
    let bytes = walk.rest();
    if bytes.is_empty() {
        return Ok(None);
    }
    match first_piece(bytes) {
        First::Piece { kind, len } => Ok(Some(Ahead { kind, len })),
        First::OpenComment => Err(BuildFault::Bad(BadSource {
            kind: SourceKind::OpenComment,
            line: walk.line(),
        })),
    }
}

/// Goes past what stands next.
pub(crate) fn pass_ahead(walk: &mut Walk, piece: Ahead)
    requires { StandsFirst (bytes_of walk.old) (First.Piece piece.kind piece.len) }
    ensures { walk.new ≡ drop piece.len walk.old }
{
    pieces_end_with_lines();
    match piece.kind {
        PieceKind::White => walk.pass_row(piece.len),
        PieceKind::LineEnd => walk.pass_row(piece.len),
        PieceKind::Comment | PieceKind::Token(_) => walk.pass(piece.len),
    }
}

/// Goes past a token and adds its lines.
pub(crate) fn pass_counted(
    walk: &mut Walk,
    token: Start,
    counted: &mut Lines,
) -> Result<(), NoMemory>
    requires { StandsFirst (bytes_of walk.old) (First.Piece (PieceKind.Token token.kind) token.len) }
    ensures passed { OnOk result (walk.new ≡ drop token.len walk.old) }
    ensures counted { OnOk result (counted.new ≡ with_lines (take token.len walk.old) counted.old) }
{
    pieces_end_with_lines();
    walk.pass_row_counted(token.len, counted)
}

/// The form of a token, none of another piece.
fn token_kind(kind: PieceKind) -> Option<TokenKind>
    ensures { MatchOption result (is_token kind ≡ false) (λ form. kind ≡ PieceKind.Token form) }
{
    match kind {
        PieceKind::White | PieceKind::Comment | PieceKind::LineEnd => None,
        PieceKind::Token(form) => Some(form),
    }
}

/// Goes up to the next token, or to the end.
pub(crate) fn skip_white(walk: &mut Walk) -> Result<Option<Start>, BuildFault>
    ensures reads { OnOk result (Reads walk.old [] walk.new) }
    ensures next { MatchResult result (StartsNext walk.new) (Tells walk.old) }
{
    'pieces: loop {
        let Some(piece) = look_ahead(walk)? else {
            return Ok(None);
        };
        match token_kind(piece.kind) {
            None => pass_ahead(walk, piece),
            Some(kind) => {
                return Ok(Some(Start {
                    kind,
                    len: piece.len,
                }));
            }
        }
    }
}
