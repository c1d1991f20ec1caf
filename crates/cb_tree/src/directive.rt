//! Directive lines: logical lines whose first token is `#` or `%:`.
ghost use Rattle.std.specs.Prelude.{ℕ, ◌≡◌, ◌+◌, ◌^◌, ◌<◌, ◌≤◌, ◌∷◌, [], List, length, take, true, false, None, IfOk, IfErr, OnOk, MatchOption};
ghost use Rattle.cb_lines.specs.Marks.{bytes_of};
ghost use Rattle.cb_tokens.specs.Cut.{StandsFirst};
ghost use Rattle.cb_tokens.specs.declared.first.First.{First};
ghost use Rattle.cb_tokens.specs.declared.token.Token.{Token};
ghost use Rattle.cb_tree.specs.Kinds.{is_hash_text};
ghost use Rattle.cb_tree.specs.inner.Heads.{Adds, hash_token, node_with};
ghost use Rattle.cb_tree.specs.inner.Reads.{Reads, DirectiveGoes, HeadReads, HeadTells, Tells};

use crate::fault::BuildFault;
use crate::hash::{Hash, hash_of};
use crate::kind::kind_behind_hash;
use crate::nodes::{Head, part};
use crate::reading::{Start, look_ahead, pass_ahead, pass_counted};
use crate::row::{keep_token, pass_row};
use cb_lines::{Lines, Walk};
use cb_tokens::{PieceKind, Token};
use std::alloc::Global;

/// Reads one piece of a directive line, and answers whether the next token is spaced, or none where the line has ended.
fn pass_piece(
    alloc: Global,
    walk: &mut Walk,
    tokens: &mut Vec<Token>,
    counted: &mut Lines,
    spaced: bool,
) -> Result<Option<bool>, BuildFault>
    ensures goes { IfOk result (λ next. DirectiveGoes spaced counted.old walk.old tokens.old.items tokens.new.items next counted.new walk.new) }
    ensures shorter { IfOk result (λ next. MatchOption next (length walk.new ≤ length walk.old) (λ _. length walk.new < length walk.old)) }
    ensures few { OnOk result (length counted.new + length walk.new ≤ length counted.old + length walk.old) }
    ensures few_tokens { OnOk result (length tokens.new.items + length walk.new ≤ length tokens.old.items + length walk.old) }
    ensures tells { IfErr result (Tells walk.old) }
{
    match look_ahead(walk)? {
        None => Ok(None),
        Some(piece) => match piece.kind {
            PieceKind::White => {
                pass_ahead(walk, piece);
                Ok(Some(true))
            }
            PieceKind::Comment => {
                walk.pass(piece.len);
                Ok(Some(true))
            }
            PieceKind::LineEnd => {
                pass_ahead(walk, piece);
                Ok(None)
            }
            PieceKind::Token(kind) => {
                let token = Start {
                    kind,
                    len: piece.len,
                };
                keep_token(alloc, tokens, token, walk.rest(), spaced)?;
                pass_counted(walk, token, counted)?;
                Ok(Some(false))
            }
        },
    }
}

/// Reads a directive line to its end, and keeps its tokens.
fn read_behind(
    alloc: Global,
    walk: &mut Walk,
    tokens: &mut Vec<Token>,
    counted: &mut Lines,
    spaced: bool,
) -> Result<(), BuildFault>
    ensures goes { OnOk result (DirectiveGoes spaced counted.old walk.old tokens.old.items tokens.new.items None counted.new walk.new) }
    ensures shorter { OnOk result (length walk.new ≤ length walk.old) }
    ensures few { OnOk result (length counted.new + length walk.new ≤ length counted.old + length walk.old) }
    ensures few_tokens { OnOk result (length tokens.new.items + length walk.new ≤ length tokens.old.items + length walk.old) }
    ensures tells { IfErr result (λ fault. (own : List Token) → HeadTells own spaced counted.old walk.old fault) }
{
    let mut spaced = spaced;
    'pieces: loop {
        let Some(ahead) = pass_row(alloc, walk, tokens, counted, spaced)? else {
            return Ok(());
        };
        match pass_piece(alloc, walk, tokens, counted, ahead)? {
            Some(next) => spaced = next,
            None => return Ok(()),
        }
    }
}

/// Reads a directive line behind its `#`, and keeps its tokens.
fn read_behind_hash(
    alloc: Global,
    walk: &mut Walk,
    tokens: &mut Vec<Token>,
    counted: Lines,
    hash: Hash,
) -> Result<Head, BuildFault>
    requires room { length tokens.old.items + length walk.old < 2 ^ 32 }
    ensures reads { IfOk result (HeadReads (hash_token hash ∷ []) false counted walk.old tokens.old.items tokens.new.items walk.new) }
    ensures shorter { OnOk result (length walk.new ≤ length walk.old) }
    ensures few { IfOk result (λ head. length head.counted + length walk.new ≤ length counted + length walk.old) }
    ensures few_tokens { OnOk result (length tokens.new.items + length walk.new ≤ length tokens.old.items + length walk.old) }
    ensures tells { IfErr result (HeadTells (hash_token hash ∷ []) false counted walk.old) }
{
    let from = tokens.len();
    let mut counted = counted;
    read_behind(alloc, walk, tokens, &mut counted, false)?;
    let to = tokens.len() as u32;
    let kept = part(tokens.as_slice(), from, to as usize);
    let kind = kind_behind_hash(kept);
    Ok(Head {
        to,
        kind,
        hash,
        counted,
    })
}

/// Reads a directive line from its `#` on, and keeps its tokens behind those of the nodes before it.
pub(crate) fn read_directive(
    alloc: Global,
    walk: &mut Walk,
    token: Start,
    tokens: &mut Vec<Token>,
) -> Result<Head, BuildFault>
    requires room { length tokens.old.items + length walk.old < 2 ^ 32 }
    requires stands { StandsFirst (bytes_of walk.old) (First.Piece (PieceKind.Token token.kind) token.len) }
    requires hash { is_hash_text (take token.len (bytes_of walk.old)) ≡ true }
    ensures reads { IfOk result (λ head. (own : List Token) × Adds tokens.old.items tokens.new.items head own × Reads walk.old (node_with own head ∷ []) walk.new) }
    ensures shorter { OnOk result (length walk.new < length walk.old) }
    ensures few { IfOk result (λ head. length head.counted + length walk.new ≤ length walk.old) }
    ensures few_tokens { OnOk result (length tokens.new.items + length walk.new ≤ length tokens.old.items + length walk.old) }
    ensures tells { IfErr result (Tells walk.old) }
{
    let hash = hash_of(&walk.rest()[..token.len]);
    let mut counted = Lines::new(alloc);
    pass_counted(walk, token, &mut counted)?;
    let head = read_behind_hash(alloc, walk, tokens, counted, hash)?;
    Ok(head)
}
