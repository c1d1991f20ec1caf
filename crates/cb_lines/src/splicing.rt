//! From a source to its marks.
ghost use Rattle.std.specs.Prelude.{◌≡◌, ◌||◌, ◌<◌, ◌≤◌, ◌+◌, ◌-◌, ◌^◌};
ghost use Rattle.std.specs.Prelude.{ℕ, true, false, min, if◌then◌else◌, length, IfOk};
ghost use Rattle.cb_lines.specs.inner.Held.{is_special};
ghost use Rattle.cb_lines.specs.Marks.{marks_of, byte_at, begins_line_end};
ghost use Rattle.cb_lines.specs.Marks.{is_line_return, is_splice, is_deleted, is_line_feed};

use crate::lanes::candidates;
use crate::mark::Marks;
use cb_paths::{LANES, NoMemory, lowest};
use memchr::memchr2;
use std::alloc::Global;
use std::borrow::CowSlice;

/// The byte that ends a line.
pub(crate) const LINE_FEED: u8 = b'\n';

/// The byte that may stand before it.
pub(crate) const CARRIAGE_RETURN: u8 = b'\r';

/// The byte that takes a line end away with it.
pub(crate) const BACKSLASH: u8 = b'\\';

/// The byte at a position, and 0 past the end.
fn byte_of(source: &[u8], at: usize) -> u8
    ensures { result ≡ byte_at source.now at }
{
    if at < source.len() { source[at] } else { 0 }
}

/// Whether the CR of a line end stands at a position.
fn is_return_of_line_end(source: &[u8], at: usize) -> bool
    requires { at < length source.now }
    ensures { result ≡ is_line_return source.now at }
{
    source[at] == CARRIAGE_RETURN && byte_of(source, at + 1) == LINE_FEED
}

/// Whether a line end begins at a position.
fn is_line_end(source: &[u8], at: usize) -> bool
    ensures { result ≡ begins_line_end source.now at }
{
    at < source.len() && (source[at] == LINE_FEED || is_return_of_line_end(source, at))
}

/// Whether a backslash directly before a line end stands at a position.
fn is_spliced_backslash(source: &[u8], at: usize) -> bool
    requires { at < length source.now }
    ensures { result ≡ is_splice source.now at }
{
    source[at] == BACKSLASH && is_line_end(source, at + 1)
}

/// Whether a position is taken away.
pub(crate) fn is_taken_away(source: &[u8], at: usize) -> bool
    requires { at < length source.now }
    ensures { result ≡ is_deleted source.now at }
{
    let before = byte_of(source, at.saturating_sub(1));
    let second_before = byte_of(source, at.saturating_sub(2));
    is_return_of_line_end(source, at)
        || is_spliced_backslash(source, at)
        || (source[at] == LINE_FEED
            && (before == BACKSLASH || (before == CARRIAGE_RETURN && second_before == BACKSLASH)))
}

/// The line of the next byte, behind a byte of this line.
pub(crate) fn line_behind(line: u32, byte: u8) -> u32
    ensures { result ≡ min (2 ^ 32 - 1) (line + (if is_line_feed byte then 1 else 0)) }
{
    if byte == LINE_FEED {
        line.saturating_add(1)
    } else {
        line
    }
}

/// The first position from one on at which a CR or a backslash stands; the length where there is none.
fn special_from(source: &[u8], from: usize) -> usize
    requires { from ≤ length source.now }
    ensures within { (from ≤ result) × (result ≤ length source.now) }
    ensures plain { (k : ℕ) → from ≤ k → k < result → is_special (byte_at source.now k) ≡ false }
    ensures special { result < length source.now → is_special (byte_at source.now result) ≡ true }
{
    match memchr2(BACKSLASH, CARRIAGE_RETURN, &source[from..]) {
        Some(count) => from + count,
        None => source.len(),
    }
}

/// Whether the CR of a line end or a backslash before a line end stands at a position.
fn is_cut(source: &[u8], at: usize) -> bool
    requires { at < length source.now }
    ensures { result ≡ (is_line_return source.now at || is_splice source.now at) }
{
    is_return_of_line_end(source, at) || is_spliced_backslash(source, at)
}

/// A position from one on, before which no CR of a line end and no backslash before a line end stands from there on;
/// the length only where there is none. A source full of backslashes takes no more time than another one.
fn candidate_from(source: &[u8], from: usize) -> usize
    requires { from ≤ length source.now }
    ensures within { (from ≤ result) × (result ≤ length source.now) }
    ensures stays { (k : ℕ) → from ≤ k → k < result → (is_line_return source.now k ≡ false)
        × (is_splice source.now k ≡ false) }
{
    let mut at = from;
    'vectors: while source.len() - at > LANES {
        let marked = candidates(source, at);
        if marked != 0 {
            return at + lowest(marked);
        }
        at += LANES;
    }
    special_from(source, at)
}

/// The first position from one on at which the CR of a line end or a backslash before a line end stands; the length
/// where there is none.
fn cut_from(source: &[u8], from: usize) -> usize
    requires { from ≤ length source.now }
    ensures within { (from ≤ result) × (result ≤ length source.now) }
    ensures stays { (k : ℕ) → from ≤ k → k < result → (is_line_return source.now k ≡ false)
        × (is_splice source.now k ≡ false) }
    ensures cut { result < length source.now → is_line_return source.now result ≡ false
        → is_splice source.now result ≡ true }
{
    let mut at = candidate_from(source, from);
    'candidates: while at < source.len() {
        if is_cut(source, at) {
            return at;
        }
        at = candidate_from(source, at + 1);
    }
    at
}

/// The first such position of all. The first CR or backslash is sought alone, since most sources have few of them.
fn first_cut(source: &[u8]) -> usize
    ensures within { result ≤ length source.now }
    ensures stays { (k : ℕ) → k < result → (is_line_return source.now k ≡ false) × (is_splice source.now k ≡ false) }
{
    cut_from(source, special_from(source, 0))
}

/// The position behind the line end that begins at a position.
fn behind_line_end(source: &[u8], at: usize) -> usize
    requires { begins_line_end source.now at ≡ true }
    ensures { result ≡ (if is_line_feed (byte_at source.now at) then at + 1 else at + 2) }
{
    if byte_of(source, at) == LINE_FEED {
        at + 1
    } else {
        at + 2
    }
}

/// The marks of a source: its bytes without splices and without the CR of each line end, with their lines. A source
/// without either is lent and not copied. Its one error is out of memory.
pub fn marks(alloc: Global, source: &[u8]) -> Result<Marks<'_>, NoMemory>
    ensures { IfOk result (λ m. m ≡ marks_of source.now) }
{
    if first_cut(source) == source.len() {
        return Ok(Marks {
            bytes: CowSlice::Borrowed(source),
            splices: Vec::new(alloc),
        });
    }
    copied_marks(alloc, source)
}

/// The marks of a source, copied piece by piece.
fn copied_marks(alloc: Global, source: &[u8]) -> Result<Marks<'_>, NoMemory>
    ensures { IfOk result (λ m. m ≡ marks_of source.now) }
{
    let mut bytes = Vec::with_capacity(alloc, source.len())?;
    let mut splices = Vec::new(alloc);
    let mut at = 0;
    'pieces: while at < source.len() {
        let end = cut_from(source, at);
        bytes.extend_from_slice(&source[at..end])?;
        if end == source.len() {
            return Ok(Marks {
                bytes: CowSlice::Owned(bytes),
                splices,
            });
        }
        if is_return_of_line_end(source, end) {
            at = end + 1;
            continue;
        }
        splices.push(bytes.len())?;
        at = behind_line_end(source, end + 1);
    }
    Ok(Marks {
        bytes: CowSlice::Owned(bytes),
        splices,
    })
}
