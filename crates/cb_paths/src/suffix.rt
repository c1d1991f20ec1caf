//! The language that the suffix of a path names.
ghost use Rattle.std.specs.Prelude.{◌≡◌, ◌==◌, Some, None, option_map};
ghost use Rattle.std.specs.List.{last_or, slice_split};
ghost use Rattle.cb_paths.specs.Languages.{language_of, language_of_suffix, is_cxx, behind_last};

use crate::cut::cut;
use crate::language::Language;

/// What stands behind the last of such bytes, if there is one.
fn behind_last(text: &[u8], byte: u8) -> Option<&[u8]>
    ensures { option_map (λ b. b.now) result ≡ behind_last byte text.now }
{
    let mut last = cut(text, byte).1;
    'pieces: while let Some(left) = last {
        let (_, behind) = cut(left, byte);
        if behind.is_none() {
            return last;
        }
        last = behind;
    }
    None
}

/// Whether a suffix is that of C++, or of a header.
#[tactic(auto, unfolding(crate::specs::Languages::is_cxx))]
fn is_cxx(suffix: &[u8]) -> bool
    ensures { result ≡ is_cxx suffix.now }
{
    matches!(
        suffix,
        b"cc"
            | b"cp"
            | b"cpp"
            | b"cxx"
            | b"c++"
            | b"C"
            | b"CPP"
            | b"cu"
            | b"cuh"
            | b"hip"
            | b"h"
            | b"hh"
            | b"hpp"
            | b"hxx"
            | b"h++"
            | b"H"
            | b"inl"
            | b"ipp"
            | b"tpp"
            | b"tcc"
            | b"inc"
            | b"def"
    )
}

/// The last part of a path.
#[tactic(auto, using(crate::proofs::Suffixes::last_piece))]
fn last_part(path: &[u8]) -> &[u8]
    ensures { last_or None (slice_split (λ b. b == 47) path.now) ≡ Some result.now }
{
    match behind_last(path, b'/') {
        Some(name) => name,
        None => path,
    }
}

/// The language that a suffix names.
#[tactic(auto, unfolding(crate::specs::Languages::language_of_suffix))]
fn language_of_suffix(suffix: &[u8]) -> Option<Language>
    ensures { result ≡ language_of_suffix suffix.now }
{
    if suffix == b"c".as_slice() {
        return Some(Language::C);
    }
    if is_cxx(suffix) {
        return Some(Language::Cxx);
    }
    None
}

/// The language of a path.
#[tactic(auto, unfolding(crate::specs::Languages::language_of))]
pub(crate) fn language_of(path: &[u8]) -> Option<Language>
    ensures { result ≡ language_of path.now }
{
    match behind_last(last_part(path), b'.') {
        Some(suffix) => language_of_suffix(suffix),
        None => None,
    }
}
