//! Numbers: places as they stand in hide sets, and what answers `defined`.
ghost use Rattle.std.specs.Prelude.{◌≡◌, IfOk, codes, if◌then◌else◌};

use cb_paths::{Bytes, NoMemory};
use std::alloc::Global;

/// A place as it stands in hide sets, which hold 2^32 of them.
pub(crate) fn small(place: usize) -> Result<u32, NoMemory>
    ensures { IfOk result (λ small. small ≡ place) }
{
    if place > u32::MAX as usize {
        return Err(NoMemory);
    }
    Ok(place as u32)
}

/// `1` or `0`.
pub(crate) fn digit_of(alloc: Global, is_one: bool) -> Result<Bytes, NoMemory>
    ensures { IfOk result (λ digit. digit ≡ (if is_one then codes "1" else codes "0")) }
{
    if is_one {
        return Bytes::from_slice(alloc, b"1".as_slice());
    }
    Bytes::from_slice(alloc, b"0".as_slice())
}
