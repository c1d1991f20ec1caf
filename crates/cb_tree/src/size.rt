//! The limits on the size of a source.
ghost use Rattle.std.specs.Prelude.{◌≡◌, ◌+◌, ◌≤◌, ◌<◌, length, count_by, MatchResult};
ghost use Rattle.cb_lines.specs.Marks.{is_line_feed};
ghost use Rattle.cb_tree.specs.Sound.{IsWithinLimits, ends_open, line_count};
ghost use Rattle.cb_tree.specs.inner.Reads.{IsReadAs};

use crate::fault::{BadSource, BuildFault, SourceKind};
use cb_paths::{SOURCE_BYTE_LIMIT, SOURCE_LINE_LIMIT};

/// Whether a last line without a line end stands at the end.
#[tactic(auto, using(crate::proofs::LastByte::ends_open_by_last))]
fn ends_open(source: &[u8]) -> bool
    ensures { result ≡ ends_open source.now }
{
    !source.is_empty() && source[source.len() - 1] != b'\n'
}

/// The number of the line ends in few bytes: so few that it fits a byte, in which many are added at once.
fn line_ends_in(bytes: &[u8]) -> u8
    requires { length bytes.now ≤ 255 }
    ensures { result ≡ count_by is_line_feed bytes.now }
{
    let mut count = 0u8;
    for byte in bytes {
        count += u8::from(*byte == b'\n');
    }
    count
}

/// The number of the line ends.
fn line_end_count(source: &[u8]) -> u32
    requires { length source.now ≤ 4194304 }
    ensures { result ≡ count_by is_line_feed source.now }
{
    let mut count = 0u32;
    let mut left = source;
    'parts: while !left.is_empty() {
        let (front, behind) = left.split_at(left.len().min(255));
        count += u32::from(line_ends_in(front));
        left = behind;
    }
    count
}

/// The number of the physical lines.
fn line_count(source: &[u8]) -> usize
    requires { length source.now ≤ 4194304 }
    ensures { result ≡ line_count source.now }
{
    let ended = line_end_count(source) as usize;
    if ends_open(source) { ended + 1 } else { ended }
}

/// Refuses a source of too many bytes or lines.
pub(crate) fn check_size(source: &[u8]) -> Result<(), BuildFault>
    ensures { MatchResult result (λ _. IsWithinLimits source.now) (IsReadAs source.now) }
{
    if source.len() > SOURCE_BYTE_LIMIT {
        return Err(BuildFault::Bad(BadSource {
            kind: SourceKind::TooLarge,
            line: 0,
        }));
    }
    if line_count(source) > SOURCE_LINE_LIMIT as usize {
        return Err(BuildFault::Bad(BadSource {
            kind: SourceKind::TooLarge,
            line: SOURCE_LINE_LIMIT + 1,
        }));
    }
    Ok(())
}
