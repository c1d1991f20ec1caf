//! Runs of bytes that are each of one kind.
ghost use Rattle.std.specs.Prelude.{ℕ, ◌≡◌, ◌<◌, ◌≤◌, true, false, not, length, drop, slice_index};
ghost use Rattle.std.specs.List.{prefix_len};
ghost use Rattle.cb_lines.specs.Marks.{is_line_feed};
ghost use Rattle.cb_tokens.specs.Forms.{is_white, is_name_byte};

use crate::lanes::name_len_of_16;
use crate::table::{is_name_byte, is_white};
use memchr::memchr;

/// The byte at an index, or 0 past the end.
#[inline]
pub(crate) fn byte_at(bytes: &[u8], index: usize) -> u8
    ensures { result ≡ slice_index bytes.now index }
{
    if index < bytes.len() { bytes[index] } else { 0 }
}

/// The bytes behind so many.
#[inline]
pub(crate) fn behind(bytes: &[u8], count: usize) -> &[u8]
    requires { count ≤ length bytes.now }
    ensures { result.now ≡ drop count bytes.now }
{
    &bytes[count..]
}

/// Whether it ends a line.
#[inline]
pub(crate) fn is_line_feed(byte: u8) -> bool
    ensures { result ≡ is_line_feed byte }
{
    byte == b'\n'
}

/// The number of white bytes at the front.
pub(crate) fn white_len(bytes: &[u8]) -> usize
    ensures { result ≡ prefix_len is_white bytes.now }
{
    bytes.iter().take_while(|b| is_white(**b)).count()
}

/// The number of bytes at the front that an identifier goes on with.
pub(crate) fn name_len(bytes: &[u8]) -> usize
    ensures { result ≡ prefix_len is_name_byte bytes.now }
{
    let mut at = 0;
    'lanes: while bytes.len() - at >= 16 {
        let len = name_len_of_16(bytes, at);
        if len < 16 {
            return at + len;
        }
        at += 16;
    }
    name_end(bytes, at)
}

/// The first place from one on that no identifier goes on with, a byte at a time.
fn name_end(bytes: &[u8], from: usize) -> usize
    requires { from ≤ length bytes.now }
    ensures within { (from ≤ result) × (result ≤ length bytes.now) }
    ensures names { (k : ℕ) → from ≤ k → k < result → is_name_byte (slice_index bytes.now k) ≡ true }
    ensures stops { result < length bytes.now → is_name_byte (slice_index bytes.now result) ≡ false }
{
    let mut at = from;
    'bytes: while at < bytes.len() {
        if !is_name_byte(bytes[at]) {
            return at;
        }
        at += 1;
    }
    at
}

/// The number of bytes that are left of the line.
pub(crate) fn line_len(bytes: &[u8]) -> usize
    ensures { result ≡ prefix_len (λ b. not (is_line_feed b)) bytes.now }
{
    match memchr(b'\n', bytes) {
        Some(len) => len,
        None => bytes.len(),
    }
}
