//! The end of a block comment.
ghost use Rattle.std.specs.Prelude.{◌≡◌, ◌==◌, ◌&&◌, ◌+◌, ◌<◌, length, slice_index};
ghost use Rattle.cb_tokens.specs.inner.Scan.{EndsComment};

use crate::lanes::endless_to;

/// Whether `*/` stands at an index.
#[inline]
fn ends_at(bytes: &[u8], index: usize) -> bool
    requires { index < length bytes.now }
    ensures { result ≡ ((slice_index bytes.now index == 42) && (slice_index bytes.now (index + 1) == 47)) }
{
    if bytes.len() - index == 1 {
        return false;
    }
    bytes[index] == b'*' && bytes[index + 1] == b'/'
}

/// Where the block comment ends that opened before the bytes: the number of bytes up to and with its end.
pub(crate) fn comment_end(bytes: &[u8]) -> Option<usize>
    ensures { EndsComment bytes.now result }
{
    let mut n = 0;
    'bytes: while n < bytes.len() {
        n = endless_to(bytes, n);
        if ends_at(bytes, n) {
            return Some(n + 2);
        }
        n += 1;
    }
    None
}
