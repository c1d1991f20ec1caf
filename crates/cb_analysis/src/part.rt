//! One part of a pattern against one part of a path.
ghost use Rattle.std.specs.Prelude.{◌≡◌, true, option_map};
ghost use Rattle.cb_analysis.specs.Fits.{is_star, is_like, is_empty, part_fits};
ghost use Rattle.cb_analysis.specs.inner.Fronts.{behind_front, behind_first, behind_star, has_no, IsCut};

use crate::cut::cut;

/// What a pattern has before its first `*`, and what it has behind it, if there is one.
fn cut_at_star(pattern: &[u8]) -> (&[u8], Option<&[u8]>)
    ensures { IsCut is_star pattern.now result.0.now result.1 }
{
    cut(pattern, b'*')
}

/// Whether a byte of a pattern other than `*` takes a byte of a path.
fn is_like(byte: u8, other: u8) -> bool
    ensures { result ≡ is_like byte other }
{
    byte == b'?' || byte == other
}

/// What is behind the bytes that a segment takes at the front, if it takes them.
fn behind_front<'a>(mut segment: &[u8], mut text: &'a [u8]) -> Option<&'a [u8]>
    ensures { option_map (λ left. left.now) result ≡ behind_front is_like segment.now text.now }
{
    'bytes: while let Some((byte, bytes)) = segment.split_first() {
        let Some((other, others)) = text.split_first() else {
            return None;
        };
        if !is_like(*byte, *other) {
            return None;
        }
        segment = bytes;
        text = others;
    }
    Some(text)
}

/// What is behind the first place at which the bytes of a segment stand, if they stand somewhere.
fn behind_first<'a>(segment: &[u8], mut text: &'a [u8]) -> Option<&'a [u8]>
    ensures { option_map (λ left. left.now) result ≡ behind_first is_like segment.now text.now }
{
    'places: loop {
        if let Some(left) = behind_front(segment, text) {
            return Some(left);
        }
        let Some((_, others)) = text.split_first() else {
            return None;
        };
        text = others;
    }
}

/// Whether a text ends with the bytes of a segment.
fn ends_with(segment: &[u8], text: &[u8]) -> bool
    requires { has_no is_star segment.now ≡ true }
    ensures { result ≡ behind_star is_star is_like is_empty segment.now text.now }
{
    if text.len() < segment.len() {
        return false;
    }
    let (_, end) = text.split_at(text.len() - segment.len());
    behind_front(segment, end).is_some()
}

/// Whether what a pattern has behind a `*` fits the end of a text. Of the places for what stands between two `*` the
/// first will do, so it takes at most the product of the two lengths.
fn fits_behind_star(mut pattern: &[u8], mut text: &[u8]) -> bool
    ensures { result ≡ behind_star is_star is_like is_empty pattern.now text.now }
{
    'stars: loop {
        let (segment, behind) = cut_at_star(pattern);
        let Some(next) = behind else {
            return ends_with(segment, text);
        };
        let Some(left) = behind_first(segment, text) else {
            return false;
        };
        pattern = next;
        text = left;
    }
}

/// Whether a part of a pattern fits a part of a path: a `*` takes any bytes, a `?` any one byte, and another byte
/// itself.
#[tactic(auto, unfolding(crate::specs::Fits::part_fits))]
pub(crate) fn part_fits(pattern: &[u8], part: &[u8]) -> bool
    ensures { result ≡ part_fits pattern.now part.now }
{
    let (front, behind) = cut_at_star(pattern);
    let Some(left) = behind_front(front, part) else {
        return false;
    };
    match behind {
        Some(rest) => fits_behind_star(rest, left),
        None => left.is_empty(),
    }
}
