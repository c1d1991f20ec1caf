//! The parts of a pattern against the parts of a path.
ghost use Rattle.std.specs.Prelude.{◌≡◌, ◌≤◌, not, length, option_map};
ghost use Rattle.std.specs.List.{prefix_len};
ghost use Rattle.cb_analysis.specs.Fits.{is_any, part_fits, fits};
ghost use Rattle.cb_analysis.specs.Patterns.{may_follow};
ghost use Rattle.cb_analysis.specs.inner.Fronts.{behind_front, behind_first, behind_star, IsCut};
ghost use Rattle.cb_analysis.specs.inner.Left.{left_of};

use crate::part::part_fits;
use crate::parts::Parts;
use cb_paths::Bytes;

/// Whether a part of a pattern takes any number of parts.
#[tactic(auto, unfolding(crate::specs::Fits::is_any))]
fn is_any(part: &[u8]) -> bool
    ensures { result ≡ is_any part.now }
{
    part == b"**".as_slice()
}

/// The number of parts before the first `**`.
fn front_len(pattern: &[Bytes]) -> usize
    ensures len { result ≡ prefix_len (λ part. not (is_any part)) pattern.now }
    ensures within { result ≤ length pattern.now }
{
    pattern
        .iter()
        .take_while(|part| !is_any(part.as_slice()))
        .count()
}

/// What a pattern has before its first `**`, and what it has behind it, if there is one.
fn cut_at_any(pattern: &[Bytes]) -> (&[Bytes], Option<&[Bytes]>)
    ensures { IsCut is_any pattern.now result.0.now result.1 }
{
    let (front, rest) = pattern.split_at(front_len(pattern));
    match rest.split_first() {
        Some((_, behind)) => (front, Some(behind)),
        None => (front, None),
    }
}

/// What is behind the parts that a segment takes at the front, if it takes them.
fn behind_front<'a>(mut segment: &[Bytes], mut path: Parts<'a>) -> Option<Parts<'a>>
    ensures { option_map left_of result ≡ behind_front part_fits segment.now (left_of path.entry) }
{
    'parts: while let Some((pattern, patterns)) = segment.split_first() {
        let Some((part, others)) = path.first() else {
            return None;
        };
        if !part_fits(pattern.as_slice(), part) {
            return None;
        }
        segment = patterns;
        path = others;
    }
    Some(path)
}

/// What is behind the first place at which the parts of a segment stand, if they stand somewhere.
fn behind_first<'a>(segment: &[Bytes], mut path: Parts<'a>) -> Option<Parts<'a>>
    ensures { option_map left_of result ≡ behind_first part_fits segment.now (left_of path.entry) }
{
    'places: loop {
        if let Some(left) = behind_front(segment, path) {
            return Some(left);
        }
        let Some((_, others)) = path.first() else {
            return None;
        };
        path = others;
    }
}

/// Whether the parts that are left may follow what a pattern takes.
fn may_follow(is_folder: bool, rest: Parts) -> bool
    ensures { result ≡ may_follow is_folder (left_of rest.entry) }
{
    !(is_folder && rest.is_empty())
}

/// Whether what a pattern has behind a `**` takes parts of a path. Of the places for what stands between two `**` the
/// first will do, and behind the last one too, since a run may end anywhere.
pub(crate) fn fits_behind_any(mut pattern: &[Bytes], mut path: Parts, is_folder: bool) -> bool
    ensures { result ≡ behind_star is_any part_fits (may_follow is_folder) pattern.now (left_of path.entry) }
{
    'stars: loop {
        let (segment, behind) = cut_at_any(pattern);
        let Some(left) = behind_first(segment, path) else {
            return false;
        };
        let Some(next) = behind else {
            return may_follow(is_folder, left);
        };
        pattern = next;
        path = left;
    }
}

/// Whether a pattern takes the first parts of a path.
pub(crate) fn fits_at_front(pattern: &[Bytes], path: Parts, is_folder: bool) -> bool
    ensures { result ≡ fits is_any part_fits (may_follow is_folder) pattern.now (left_of path.entry) }
{
    let (front, behind) = cut_at_any(pattern);
    let Some(left) = behind_front(front, path) else {
        return false;
    };
    match behind {
        Some(rest) => fits_behind_any(rest, left, is_folder),
        None => may_follow(is_folder, left),
    }
}
