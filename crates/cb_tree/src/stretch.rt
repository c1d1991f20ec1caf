//! Stretches of a run that are passed without a look at each piece.
ghost use Rattle.std.specs.Prelude.{ℕ, ◌≡◌, ◌≢◌, ◌+◌, ◌<◌, ◌≤◌, [], List, length, drop, slice_index, true, false, IfOk, IfErr, IfSome, OnOk, IsTrue, MatchOption};
ghost use Rattle.cb_lines.specs.declared.mark.Mark.{Mark};
ghost use Rattle.cb_lines.specs.Marks.{bytes_of, is_line_feed};
ghost use Rattle.cb_tokens.specs.Cut.{StandsFirst};
ghost use Rattle.cb_tokens.specs.declared.first.First.{First};
ghost use Rattle.cb_tree.specs.inner.Reads.{Reads, ReadsRun, Tells};

use crate::fault::BuildFault;
use crate::reading::Place;
use cb_lines::{Lines, Walk, one_line};
use cb_tokens::{
    PieceKind, TokenKind, begins_with_hash, begins_with_line_end, plain_stretch, white_front,
};
use std::alloc::Global;

/// Whether a run ends before these bytes: a directive begins with them.
pub(crate) fn ends_run(place: Place, bytes: &[u8]) -> bool
    ensures { IsTrue result → (place ≡ Place.LineStart) × (slice_index bytes.now 0 ≡ 35)
        × StandsFirst bytes.now (First.Piece (PieceKind.Token TokenKind.Punct) 1) }
{
    match place {
        Place::LineStart => begins_with_hash(bytes),
        Place::InLine => false,
    }
}

/// Goes past white space.
pub(crate) fn pass_white(walk: &mut Walk)
    ensures blank { Reads walk.old [] walk.new }
    ensures goes { (ms : List Mark) (place : Place) (counted : List ℕ) → ReadsRun ms place counted walk.old → ReadsRun ms place counted walk.new }
    ensures shorter { length walk.new ≤ length walk.old }
{
    let white = white_front(walk.rest());
    if white > 0 {
        walk.pass_row(white);
    }
}

/// Whether a directive may begin with these bytes.
fn may_be_directive(place: Place, bytes: &[u8]) -> bool
    ensures no { result ≡ false → place ≡ Place.LineStart → (slice_index bytes.now 0 ≢ 35) × (slice_index bytes.now 0 ≢ 37) }
{
    match place {
        Place::LineStart => bytes.is_empty() || bytes[0] == b'#' || bytes[0] == b'%',
        Place::InLine => false,
    }
}

/// Goes past the front of a line of a run, and past the line end where one stands behind it.
fn pass_front(walk: &mut Walk, len: usize) -> Place
    requires full { 0 < len }
    requires within { len ≤ length walk.old }
    requires plain { (k : ℕ) → k < len → is_line_feed (slice_index (bytes_of walk.old) k) ≡ false }
    ensures goes { (ms : List Mark) (counted : List ℕ) → ReadsRun ms Place.InLine counted (drop len walk.old) → ReadsRun ms result counted walk.new }
    ensures shorter { length walk.new + len ≤ length walk.old }
{
    let (_, behind) = walk.rest().split_at(len);
    if begins_with_line_end(behind) {
        walk.pass_row(len + 1);
        return Place::LineStart;
    }
    walk.pass_row(len);
    Place::InLine
}

/// Goes past white space and what follows it of the line up to where each piece has to be looked at, unless a directive may begin
/// there; and past the line end, if that is all of the line. It does nothing while more bytes are left than `most`, and lowers `most`
/// past those that it looked at: so it looks at each byte once, however little of them it can go past.
fn pass_stretch(
    walk: &mut Walk,
    counted: &mut Lines,
    place: Place,
    most: &mut usize,
) -> Result<Place, BuildFault>
    ensures goes { IfOk result (λ next. (ms : List Mark) → ReadsRun ms place counted.old walk.old → ReadsRun ms next counted.new walk.new) }
    ensures shorter { OnOk result (length walk.new ≤ length walk.old) }
    ensures few { OnOk result (length counted.new + length walk.new ≤ length counted.old + length walk.old) }
    ensures tells { IfErr result (Tells walk.old) }
{
    if walk.rest().len() > *most {
        return Ok(place);
    }
    pass_white(walk);
    let bytes = walk.rest();
    if may_be_directive(place, bytes) {
        return Ok(place);
    }
    let stretch = plain_stretch(bytes, walk.row().len());
    *most = bytes.len() - stretch.seen;
    if stretch.len == 0 {
        return Ok(place);
    }
    one_line();
    counted.add(walk.line())?;
    Ok(pass_front(walk, stretch.len))
}

/// Whether no line was passed to its end, by the bytes that were left before and are left now.
fn has_stopped(place: Place, before: usize, now: usize) -> bool
    ensures { result ≡ false → now ≢ before }
{
    match place {
        Place::LineStart => now == before,
        Place::InLine => true,
    }
}

/// Goes past lines of a run, and up to where each piece has to be looked at.
pub(crate) fn pass_lines(
    walk: &mut Walk,
    counted: &mut Lines,
    place: Place,
    most: &mut usize,
) -> Result<Place, BuildFault>
    ensures goes { IfOk result (λ next. (ms : List Mark) → ReadsRun ms place counted.old walk.old → ReadsRun ms next counted.new walk.new) }
    ensures shorter { OnOk result (length walk.new ≤ length walk.old) }
    ensures few { OnOk result (length counted.new + length walk.new ≤ length counted.old + length walk.old) }
    ensures tells { IfErr result (λ fault. (ms : List Mark) → ReadsRun ms place counted.old walk.old → Tells ms fault) }
{
    let mut place = place;
    'lines: loop {
        let left = walk.rest().len();
        place = pass_stretch(walk, counted, place, most)?;
        if has_stopped(place, left, walk.rest().len()) {
            return Ok(place);
        }
    }
}

/// A run that has begun.
#[derive(Drop)]
pub(crate) struct Begun {
    /// Its counted lines.
    pub(crate) counted: Lines,
    /// Where it is read on.
    pub(crate) place: Place,
}

/// Begins a run with the front of its first line, if no directive may begin there.
pub(crate) fn begin_run(alloc: Global, walk: &mut Walk) -> Option<Begun>
    ensures begins { MatchOption result (walk.new ≡ walk.old) (λ run. ReadsRun walk.old run.place run.counted walk.new) }
    ensures shorter { IfSome result (λ _. length walk.new < length walk.old) }
    ensures few { IfSome result (λ run. length run.counted + length walk.new ≤ length walk.old) }
{
    let bytes = walk.rest();
    if may_be_directive(Place::LineStart, bytes) {
        return None;
    }
    let stretch = plain_stretch(bytes, walk.row().len());
    if stretch.len == 0 {
        return None;
    }
    one_line();
    let counted = Lines::single(alloc, walk.line());
    let place = pass_front(walk, stretch.len);
    Some(Begun { counted, place })
}
