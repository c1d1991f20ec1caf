//! Counts of the lines whose set of platforms passes a test.
ghost use Rattle.std.specs.Prelude.{◌≡◌, ◌^◌, ◌<◌, ◌≤◌, map};
ghost use Rattle.cb_sets.specs.Sets.{members};
ghost use Rattle.cb_sets.specs.Tallies.{lines_in, lines_where, is_any};
ghost use Rattle.cb_sets.specs.inner.Rows.{seen};
ghost use Rattle.cb_sets.specs.inner.Tests.{passes, AreKnown};

use crate::platform_set::PlatformSet;
use crate::row::Row;

/// A test of a set of platforms.
#[derive(Clone, Copy)]
pub(crate) enum Test {
    /// Any set passes.
    Any,
    /// A set that is not empty.
    Used,
    /// This set alone.
    Is(PlatformSet),
    /// A set with this platform.
    Has(u32),
    /// A set with both platforms.
    Both(u32, u32),
    /// A set with at least one of the platforms.
    Either(u32, u32),
}

impl Test {
    /// Whether a set passes.
    fn is_passed(self, set: PlatformSet) -> bool
        requires { AreKnown self }
        ensures { result ≡ passes self (members set) }
    {
        match self {
            Test::Any => true,
            Test::Used => !set.is_empty(),
            Test::Is(other) => set.rank() == other.rank(),
            Test::Has(platform) => set.has(platform),
            Test::Both(i, j) => set.has(i) && set.has(j),
            Test::Either(i, j) => set.has(i) || set.has(j),
        }
    }
}

/// The lines of a row, where its set passes; else none.
fn count_in(row: Row, test: Test) -> u64
    requires { AreKnown test }
    ensures { result ≡ lines_in (passes test) (seen row) }
{
    if test.is_passed(row.set) {
        row.lines
    } else {
        0
    }
}

/// How many lines of the rows have a set that passes.
pub(crate) fn count_where(rows: &[Row], test: Test) -> u64
    requires known { AreKnown test }
    requires fits { lines_where is_any (map seen rows.now) < 2 ^ 32 }
    ensures value { result ≡ lines_where (passes test) (map seen rows.now) }
    ensures within { result ≤ lines_where is_any (map seen rows.now) }
{
    let mut count = 0u64;
    'rows: for row in rows {
        count += count_in(*row, test);
    }
    count
}
