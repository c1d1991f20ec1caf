//! Runs of text: logical lines with tokens that are no directive lines.
ghost use Rattle.std.specs.Prelude.{ℕ, ◌≡◌, ◌+◌, ◌<◌, ◌≤◌, ◌∷◌, [], List, length, take, true, false, IfOk, IfErr, OnOk, MatchOption};
ghost use Rattle.std.specs.Bool.{OnTrue, OnFalse};
ghost use Rattle.cb_lines.specs.declared.mark.Mark.{Mark};
ghost use Rattle.cb_lines.specs.Marks.{bytes_of};
ghost use Rattle.cb_tokens.specs.Cut.{StandsFirst};
ghost use Rattle.cb_tokens.specs.declared.first.First.{First};
ghost use Rattle.cb_tree.specs.Kinds.{is_hash_text};
ghost use Rattle.cb_tree.specs.inner.Reads.{Reads, ReadsRun, RunGoes, Tells};
ghost use Rattle.cb_tree.specs.Nodes.{text_node};

use crate::fault::BuildFault;
use crate::kind::is_hash_text;
use crate::reading::{Place, Start, look_ahead, pass_ahead, pass_counted};
use crate::stretch::{ends_run, pass_lines};
use cb_lines::{Lines, Walk};
use cb_tokens::PieceKind;
use std::alloc::Global;

/// Whether a run ends before a token of these bytes: a directive begins with it.
fn ends_before(place: Place, text: &[u8]) -> bool
    ensures ends { OnTrue result (place ≡ Place.LineStart) }
    ensures hash { OnTrue result (is_hash_text text.now ≡ true) }
    ensures goes { OnFalse result (place ≡ Place.LineStart → is_hash_text text.now ≡ false) }
{
    match place {
        Place::LineStart => is_hash_text(text),
        Place::InLine => false,
    }
}

/// Reads a token of a run, unless a directive begins with it.
fn pass_token(
    walk: &mut Walk,
    counted: &mut Lines,
    place: Place,
    token: Start,
) -> Result<Option<Place>, BuildFault>
    requires { StandsFirst (bytes_of walk.old) (First.Piece (PieceKind.Token token.kind) token.len) }
    ensures goes { IfOk result (λ next. (ms : List Mark) → ReadsRun ms place counted.old walk.old → RunGoes ms next counted.new walk.new) }
    ensures shorter { IfOk result (λ next. MatchOption next (walk.new ≡ walk.old) (λ _. length walk.new < length walk.old)) }
    ensures few { OnOk result (length counted.new + length walk.new ≤ length counted.old + length walk.old) }
    ensures tells { IfErr result (Tells walk.old) }
{
    let text = &walk.rest()[..token.len];
    if ends_before(place, text) {
        return Ok(None);
    }
    pass_counted(walk, token, counted)?;
    Ok(Some(Place::InLine))
}

/// Reads one piece of a run, and answers where the run goes on, or none where it has ended.
fn pass_piece(
    walk: &mut Walk,
    counted: &mut Lines,
    place: Place,
) -> Result<Option<Place>, BuildFault>
    ensures goes { IfOk result (λ next. (ms : List Mark) → ReadsRun ms place counted.old walk.old → RunGoes ms next counted.new walk.new) }
    ensures shorter { IfOk result (λ next. MatchOption next (walk.new ≡ walk.old) (λ _. length walk.new < length walk.old)) }
    ensures few { OnOk result (length counted.new + length walk.new ≤ length counted.old + length walk.old) }
    ensures tells { IfErr result (Tells walk.old) }
{
    match look_ahead(walk)? {
        None => Ok(None),
        Some(piece) => match piece.kind {
            PieceKind::White => {
                pass_ahead(walk, piece);
                Ok(Some(place))
            }
            PieceKind::Comment => {
                walk.pass(piece.len);
                Ok(Some(place))
            }
            PieceKind::LineEnd => {
                pass_ahead(walk, piece);
                Ok(Some(Place::LineStart))
            }
            PieceKind::Token(kind) => {
                let token = Start {
                    kind,
                    len: piece.len,
                };
                pass_token(walk, counted, place, token)
            }
        },
    }
}

/// Reads lines and pieces of a run of text to its end, and answers its counted lines, of which some were known.
fn read_lines(walk: &mut Walk, known: Lines, place: Place) -> Result<Lines, BuildFault>
    ensures reads { IfOk result (λ counted. (ms : List Mark) → ReadsRun ms place known walk.old → Reads ms (text_node counted ∷ []) walk.new) }
    ensures shorter { OnOk result (length walk.new ≤ length walk.old) }
    ensures few { IfOk result (λ counted. length counted + length walk.new ≤ length known + length walk.old) }
    ensures tells { IfErr result (λ fault. (ms : List Mark) → ReadsRun ms place known walk.old → Tells ms fault) }
{
    let mut counted = known;
    let mut place = place;
    let mut most = usize::MAX;
    'pieces: loop {
        place = pass_lines(walk, &mut counted, place, &mut most)?;
        if ends_run(place, walk.rest()) {
            return Ok(counted);
        }
        match pass_piece(walk, &mut counted, place)? {
            Some(next) => place = next,
            None => return Ok(counted),
        }
    }
}

/// Reads a run of text on to its end, and answers its counted lines, of which some were known. Most runs between directives are one
/// line, so it looks first whether the run has ended.
pub(crate) fn read_on(walk: &mut Walk, known: Lines, place: Place) -> Result<Lines, BuildFault>
    ensures reads { IfOk result (λ counted. (ms : List Mark) → ReadsRun ms place known walk.old → Reads ms (text_node counted ∷ []) walk.new) }
    ensures shorter { OnOk result (length walk.new ≤ length walk.old) }
    ensures few { IfOk result (λ counted. length counted + length walk.new ≤ length known + length walk.old) }
    ensures tells { IfErr result (λ fault. (ms : List Mark) → ReadsRun ms place known walk.old → Tells ms fault) }
{
    if ends_run(place, walk.rest()) {
        return Ok(known);
    }
    read_lines(walk, known, place)
}

/// Reads a run of text from its first token on, and answers its counted lines.
pub(crate) fn read_run(alloc: Global, walk: &mut Walk, token: Start) -> Result<Lines, BuildFault>
    requires stands { StandsFirst (bytes_of walk.old) (First.Piece (PieceKind.Token token.kind) token.len) }
    requires text { is_hash_text (take token.len (bytes_of walk.old)) ≡ false }
    ensures reads { IfOk result (λ counted. Reads walk.old (text_node counted ∷ []) walk.new) }
    ensures shorter { OnOk result (length walk.new < length walk.old) }
    ensures few { IfOk result (λ counted. length counted + length walk.new ≤ length walk.old) }
    ensures tells { IfErr result (Tells walk.old) }
{
    let mut counted = Lines::new(alloc);
    pass_counted(walk, token, &mut counted)?;
    let all = read_on(walk, counted, Place::InLine)?;
    Ok(all)
}
