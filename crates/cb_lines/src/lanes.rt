//! Where a source may be cut, looked for at 32 positions at a time.
ghost use Rattle.std.specs.Prelude.{◌≡◌, ◌+◌, ◌<◌, ℕ, true, length};
ghost use Rattle.std.specs.Int.{bit_at};
ghost use Rattle.cb_lines.specs.inner.Held.{is_special, is_ending};
ghost use Rattle.cb_lines.specs.Marks.{byte_at};

use crate::splicing::{BACKSLASH, CARRIAGE_RETURN, LINE_FEED};
use cb_paths::{bits_of, load};

/// Bit k is set where a CR or a backslash stands k bytes behind a position, and a CR or an LF directly behind it.
#[inline(always)]
pub(crate) fn candidates(source: &[u8], at: usize) -> u64
    requires { at + 32 < length source.now }
    ensures set { (k : ℕ) → k < 32 → is_special (byte_at source.now (at + k)) ≡ true
        → is_ending (byte_at source.now (at + k + 1)) ≡ true → bit_at result k ≡ 1 }
    ensures within { (k : ℕ) → bit_at result k ≡ 1 → k < 32 }
{
    let here = load(source, at);
    let behind = load(source, at + 1);
    let special = bits_of(here, BACKSLASH) | bits_of(here, CARRIAGE_RETURN);
    special & (bits_of(behind, LINE_FEED) | bits_of(behind, CARRIAGE_RETURN))
}
