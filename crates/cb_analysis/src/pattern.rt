//! Patterns, which exclude sources or keep them from being loaded.
ghost use Rattle.std.specs.Prelude.{◌≡◌, ◌||◌, nat_lt, length, Some, None, not, if◌then◌else◌, IfOk};
ghost use Rattle.std.specs.List.{list_any, list_all};
ghost use Rattle.cb_paths.specs.Paths.{is_absolute};
ghost use Rattle.cb_analysis.specs.Fits.{is_empty};
ghost use Rattle.cb_analysis.specs.Patterns.{parts_of, unrooted, ends_with_slash, without_end, is_refused, is_pattern, pattern_of, matches};

use crate::parts::Parts;
use crate::run::{fits_at_front, fits_behind_any};
use cb_paths::{Bytes, NoMemory, Texts};
use std::alloc::Global;

/// A pattern of an analysis.
#[derive(Drop)]
pub(crate) struct Pattern {
    /// Whether what it takes begins at the first part of a path.
    pub(crate) is_anchored: bool,
    /// Whether something must follow what it takes.
    pub(crate) is_folder: bool,
    /// Its parts, none of them empty.
    pub(crate) parts: Texts,
}

/// Whether a byte stands in no pattern.
fn is_refused(byte: u8) -> bool
    ensures { result ≡ is_refused byte }
{
    byte == b'!' || byte == b'[' || byte == b'\\'
}

/// Whether a text holds a byte that stands in no pattern.
fn has_refused(text: &[u8]) -> bool
    ensures { result ≡ list_any is_refused text.now }
{
    text.iter().any(|byte| is_refused(*byte))
}

/// Whether a text begins with a slash.
fn is_absolute(text: &[u8]) -> bool
    ensures { result ≡ is_absolute text.now }
{
    match text.split_first() {
        Some((first, _)) => *first == b'/',
        None => false,
    }
}

/// A text without one slash at its front.
fn unrooted(text: &[u8]) -> &[u8]
    ensures { result.now ≡ unrooted text.now }
{
    let Some((first, rest)) = text.split_first() else {
        return text;
    };
    if *first == b'/' {
        return rest;
    }
    text
}

/// Whether a text ends with a slash.
fn ends_with_slash(text: &[u8]) -> bool
    ensures { result ≡ ends_with_slash text.now }
{
    if text.is_empty() {
        return false;
    }
    text[text.len() - 1] == b'/'
}

/// A text without one slash at its end.
fn without_end(text: &[u8]) -> &[u8]
    ensures { result.now ≡ without_end text.now }
{
    if !ends_with_slash(text) {
        return text;
    }
    let (front, _) = text.split_at(text.len().saturating_sub(1));
    front
}

/// The parts of a text, if none of them is empty.
fn parts_in(alloc: Global, text: &[u8]) -> Result<Option<Texts>, NoMemory>
    ensures { IfOk result (λ parts. parts
        ≡ (if list_all (λ part. not (is_empty part)) (parts_of text.now) then Some (parts_of text.now) else None)) }
{
    let mut parts = Texts::new(alloc);
    let mut left = Parts::of(text);
    'parts: while let Some((part, others)) = left.first() {
        if part.is_empty() {
            return Ok(None);
        }
        parts.push(Bytes::from_slice(alloc, part)?)?;
        left = others;
    }
    Ok(Some(parts))
}

/// Whether a pattern of these parts is anchored.
fn is_anchored(text: &[u8], parts: &Texts) -> bool
    ensures { result ≡ (is_absolute text.now || nat_lt 1 (length parts.now)) }
{
    is_absolute(text) || parts.len() > 1
}

impl Pattern {
    /// The pattern that a text is. None where it holds a `!`, a `[` or a backslash, or where one of its parts is empty.
    pub(crate) fn read(alloc: Global, text: &[u8]) -> Result<Option<Pattern>, NoMemory>
        ensures { IfOk result (λ pattern. pattern
            ≡ (if is_pattern text.now then Some (pattern_of text.now) else None)) }
    {
        if has_refused(text) {
            return Ok(None);
        }
        let unrooted = unrooted(text);
        let Some(parts) = parts_in(alloc, without_end(unrooted))? else {
            return Ok(None);
        };
        Ok(Some(Pattern {
            is_anchored: is_anchored(text, &parts),
            is_folder: ends_with_slash(unrooted),
            parts,
        }))
    }

    /// Whether the pattern matches a path.
    #[tactic(auto, unfolding(crate::specs::Patterns::matches))]
    pub(crate) fn matches(&self, path: &[u8]) -> bool
        ensures { result ≡ matches self.now path.now }
    {
        let parts = self.parts.as_slice();
        if self.is_anchored {
            fits_at_front(parts, Parts::of(path), self.is_folder)
        } else {
            fits_behind_any(parts, Parts::of(path), self.is_folder)
        }
    }
}
