//! Faults with their places.
ghost use Rattle.std.specs.Prelude.{◌≡◌, ◌++◌, List, ℕ, Some, IfOk};
ghost use Rattle.cb_analysis.specs.Faults.{in_platform, in_list, Tells};
ghost use Rattle.cb_analysis.specs.declared.fault.AnalysisKind.TheVariants.{BadPattern};

use crate::fault::{AnalysisFault, AnalysisKind, BadAnalysis};
use cb_paths::{Bytes, NoMemory};
use itoa::Buffer;
use std::alloc::Global;

/// Three texts, one behind another.
fn joined(alloc: Global, first: &[u8], second: &[u8], third: &[u8]) -> Result<Bytes, NoMemory>
    ensures { IfOk result (λ text. text ≡ first.now ++ second.now ++ third.now) }
{
    let mut text = Vec::from_slice(alloc, first)?;
    text.extend_from_slice(second)?;
    text.extend_from_slice(third)?;
    Bytes::from_vec(alloc, text)
}

/// The fault of this kind at a place, or that there was no memory for the place.
fn at_place(kind: AnalysisKind, place: Result<Bytes, NoMemory>) -> AnalysisFault
    ensures { (text : List ℕ) → IfOk place (λ p. p ≡ text)
        → Tells result (Some (record { kind = kind; place = text })) }
{
    match place {
        Ok(place) => AnalysisFault::Bad(BadAnalysis { kind, place }),
        Err(NoMemory) => AnalysisFault::NoMemory,
    }
}

/// The fault of this kind at a key.
pub(crate) fn bad(alloc: Global, kind: AnalysisKind, key: &str) -> AnalysisFault
    ensures { Tells result (Some (record { kind = kind; place = key.now })) }
{
    at_place(kind, Bytes::from_slice(alloc, key.as_bytes()))
}

/// The fault of this kind at a platform, or at a key in it.
pub(crate) fn bad_platform(
    alloc: Global,
    kind: AnalysisKind,
    name: &[u8],
    key: &str,
) -> AnalysisFault
    ensures { Tells result (Some (record { kind = kind; place = in_platform name.now key.now })) }
{
    at_place(kind, joined(alloc, b"platform.", name, key.as_bytes()))
}

/// The fault of a text that is no pattern, by its number in a list.
pub(crate) fn bad_pattern(alloc: Global, list: &str, at: usize) -> AnalysisFault
    ensures { Tells result (Some (record { kind = BadPattern; place = in_list list.now at })) }
{
    let mut buffer = Buffer::new();
    let number = buffer.format(at).as_bytes();
    at_place(
        AnalysisKind::BadPattern,
        joined(alloc, list.as_bytes(), b".", number),
    )
}
