//! Bytes looked at 32 at a time.
ghost use Rattle.std.specs.Prelude.{ℕ, ◌≡◌, ◌≢◌, ◌↔◌, ◌+◌, ◌<◌, ◌≤◌, length, slice_index};
ghost use Rattle.std.specs.Int.{bit_at};

use std::simd::prelude::*;

/// The number of bytes that are looked at together.
pub const LANES: usize = 32;

/// A bit for each lane, that of the first one lowest, set where the byte stands there.
#[inline(always)]
pub fn bits_of(bytes: u8x32, byte: u8) -> u64
    requires { 0 < byte }
    ensures there { (k : ℕ) → (bit_at result k ≡ 1) ↔ (slice_index bytes k ≡ byte) }
    ensures within { (k : ℕ) → bit_at result k ≡ 1 → k < 32 }
{
    bytes.simd_eq(u8x32::splat(byte)).to_bitmask()
}

/// The place of the lowest bit that is set.
#[inline(always)]
pub fn lowest(bits: u64) -> usize
    requires { bits ≢ 0 }
    ensures set { bit_at bits result ≡ 1 }
    ensures below { (k : ℕ) → k < result → bit_at bits k ≡ 0 }
    ensures few { result < 64 }
{
    bits.trailing_zeros() as usize
}

/// The 32 bytes from a place.
#[inline(always)]
pub fn load(bytes: &[u8], at: usize) -> u8x32
    requires { at + 32 ≤ length bytes.now }
    ensures lanes { length result ≡ 32 }
    ensures each { (k : ℕ) → k < 32 → slice_index result k ≡ slice_index bytes.now (at + k) }
{
    u8x32::from_slice(&bytes[at..])
}
