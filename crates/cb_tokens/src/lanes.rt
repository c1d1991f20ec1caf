//! Bytes looked at 32 at a time.
ghost use Rattle.std.specs.Prelude.{ℕ, ◌≡◌, ◌≢◌, ◌↔◌, ◌+◌, ◌<◌, ◌≤◌, ◌&&◌, nat_le, if◌then◌else◌, true, false, length, slice_index};
ghost use Rattle.std.specs.Int.{bit_at};
ghost use Rattle.cb_tokens.specs.Forms.{is_name_byte};
ghost use Rattle.cb_tokens.specs.Plain.{is_quiet};
ghost use Rattle.cb_tokens.specs.inner.Scan.{is_inner, ends_with};

use crate::table::is_quiet;
use cb_paths::{LANES, bits_of, load, lowest};
use std::simd::prelude::*;

/// A bit for each of the 32 bytes from a place, set where the byte is not quiet.
#[inline(always)]
fn loud_bits(bytes: &[u8], at: usize) -> u64
    requires { at + 32 ≤ length bytes.now }
    ensures loud { (k : ℕ) → bit_at result k ≡ 1 → (k < 32) × (is_quiet (slice_index bytes.now (at + k)) ≡ false) }
    ensures quiet { (k : ℕ) → k < 32 → bit_at result k ≡ 0 → is_quiet (slice_index bytes.now (at + k)) ≡ true }
{
    let ahead = load(bytes, at);
    bits_of(ahead, b'\n') | bits_of(ahead, b'"') | bits_of(ahead, b'\'') | bits_of(ahead, b'/')
}

/// The first place from one on, up to an end, at which a byte stands that is not quiet; the end where there is none.
#[inline]
pub(crate) fn quiet_end(bytes: &[u8], from: usize, end: usize) -> usize
    requires from { from ≤ end }
    requires end { end ≤ length bytes.now }
    ensures within { (from ≤ result) × (result ≤ end) }
    ensures quiet { (k : ℕ) → from ≤ k → k < result → is_quiet (slice_index bytes.now k) ≡ true }
    ensures loud { result < end → is_quiet (slice_index bytes.now result) ≡ false }
{
    let mut at = from;
    'lanes: while at < end {
        if bytes.len() - at < LANES {
            return quiet_end_of_few(bytes, at, end);
        }
        let loud = loud_bits(bytes, at);
        if loud != 0 {
            return end.min(at + lowest(loud));
        }
        at += LANES;
    }
    end
}

/// The same, a byte at a time.
fn quiet_end_of_few(bytes: &[u8], from: usize, end: usize) -> usize
    requires from { from ≤ end }
    requires end { end ≤ length bytes.now }
    ensures within { (from ≤ result) × (result ≤ end) }
    ensures quiet { (k : ℕ) → from ≤ k → k < result → is_quiet (slice_index bytes.now k) ≡ true }
    ensures loud { result < end → is_quiet (slice_index bytes.now result) ≡ false }
{
    let mut at = from;
    'bytes: while at < end {
        if !is_quiet(bytes[at]) {
            return at;
        }
        at += 1;
    }
    end
}

/// A bit for each of the 32 bytes from a place, set where a quote like this, a backslash or a line end stands.
#[inline(always)]
fn stop_bits(quote: u8, bytes: &[u8], at: usize) -> u64
    requires some { 0 < quote }
    requires room { at + 32 ≤ length bytes.now }
    ensures within { (k : ℕ) → bit_at result k ≡ 1 → k < 32 }
    ensures inner { (k : ℕ) → k < 32 → bit_at result k ≡ 0 → is_inner quote (slice_index bytes.now (at + k)) ≡ true }
{
    let ahead = load(bytes, at);
    bits_of(ahead, quote) | bits_of(ahead, b'\\') | bits_of(ahead, b'\n')
}

/// A place from one on, up to which no quote like this ends, nothing is escaped and no line ends.
#[inline]
pub(crate) fn inner_end(quote: u8, bytes: &[u8], from: usize) -> usize
    requires some { 0 < quote }
    requires room { from < length bytes.now }
    ensures within { (from ≤ result) × (result < length bytes.now) }
    ensures inner { (k : ℕ) → from ≤ k → k < result → is_inner quote (slice_index bytes.now k) ≡ true }
{
    let mut at = from;
    'lanes: while bytes.len() - at > LANES {
        let stops = stop_bits(quote, bytes, at);
        if stops != 0 {
            return at + lowest(stops);
        }
        at += LANES;
    }
    at
}

/// A bit for each of the 32 bytes from a place, set where `*/` stands.
#[inline(always)]
fn end_bits(bytes: &[u8], at: usize) -> u64
    requires { at + 33 ≤ length bytes.now }
    ensures within { (k : ℕ) → bit_at result k ≡ 1 → k < 32 }
    ensures goes { (k : ℕ) → k < 32 → bit_at result k ≡ 0 → ends_with (slice_index bytes.now (at + k)) (slice_index bytes.now (at + k + 1)) ≡ false }
{
    bits_of(load(bytes, at), b'*') & bits_of(load(bytes, at + 1), b'/')
}

/// A place from one on, up to which no comment ends.
#[inline]
pub(crate) fn endless_to(bytes: &[u8], from: usize) -> usize
    requires { from < length bytes.now }
    ensures within { (from ≤ result) × (result < length bytes.now) }
    ensures goes { (k : ℕ) → from ≤ k → k < result → ends_with (slice_index bytes.now k) (slice_index bytes.now (k + 1)) ≡ false }
{
    let mut at = from;
    'lanes: while bytes.len() - at > LANES {
        let ends = end_bits(bytes, at);
        if ends != 0 {
            return at + lowest(ends);
        }
        at += LANES;
    }
    at
}

/// A bit for each lane, set where a byte between these two stands there.
#[inline(always)]
fn bits_between(bytes: u8x16, low: u8, high: u8) -> u64
    ensures { (k : ℕ) → k < 16 → bit_at result k ≡ (if nat_le low (slice_index bytes k) && nat_le (slice_index bytes k) high then 1 else 0) }
{
    bytes.simd_ge(u8x16::splat(low)).to_bitmask() & bytes.simd_le(u8x16::splat(high)).to_bitmask()
}

/// The place of the lowest bit of 16 that is set; 16 where there is none.
#[inline(always)]
fn lowest_of_16(bits: u64) -> usize
    ensures few { result ≤ 16 }
    ensures set { result < 16 → bit_at bits result ≡ 1 }
    ensures below { (k : ℕ) → k < result → bit_at bits k ≡ 0 }
{
    if bits == 0 {
        return 16;
    }
    lowest(bits).min(16)
}

/// The 16 bytes from a place.
#[inline(always)]
fn load_16(bytes: &[u8], at: usize) -> u8x16
    requires { at + 16 ≤ length bytes.now }
    ensures lanes { length result ≡ 16 }
    ensures each { (k : ℕ) → k < 16 → slice_index result k ≡ slice_index bytes.now (at + k) }
{
    u8x16::from_slice(&bytes[at..])
}

/// A bit for each of the 16 bytes from a place, set where no identifier goes on with the byte.
#[inline(always)]
fn end_of_name_bits(bytes: &[u8], at: usize) -> u64
    requires { at + 16 ≤ length bytes.now }
    ensures { (k : ℕ) → k < 16 → bit_at result k ≡ (if is_name_byte (slice_index bytes.now (at + k)) then 0 else 1) }
{
    let ahead = load_16(bytes, at);
    !(bits_between(ahead, b'a', b'z')
        | bits_between(ahead, b'A', b'Z')
        | bits_between(ahead, b'0', b'9')
        | bits_between(ahead, b'_', b'_')
        | bits_between(ahead, b'$', b'$')
        | bits_between(ahead, 128, 255))
}

/// The number of the 16 bytes from a place that an identifier goes on with before the first one that it does not.
#[inline(always)]
pub(crate) fn name_len_of_16(bytes: &[u8], at: usize) -> usize
    requires { at + 16 ≤ length bytes.now }
    ensures few { result ≤ 16 }
    ensures names { (k : ℕ) → k < result → is_name_byte (slice_index bytes.now (at + k)) ≡ true }
    ensures stops { result < 16 → is_name_byte (slice_index bytes.now (at + result)) ≡ false }
{
    lowest_of_16(end_of_name_bits(bytes, at))
}
