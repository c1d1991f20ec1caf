//! The harmonic mean of efficiencies, one more at a time.
ghost use Rattle.std.specs.Prelude.{◌≡◌, ◌==◌, ◌+◌, ◌*◌, ◌/◌, ◌^◌, ◌<◌, ◌≤◌, ◌≢◌, true, false, if◌then◌else◌};
ghost use Rattle.cb_paths.specs.Grid.{units};

use crate::pace::Pace;

/// The square of the units of the grid.
const SQUARE: u128 = 1_000_000_000_000_000_000_000_000;

/// The mean of so many efficiencies by the sum of their reciprocals, on the grid, or 0 of none.
pub(crate) fn harmonic_mean(count: u64, total: u128) -> u64
    requires few { count ≤ 100000 }
    requires low { count * units ≤ total }
    ensures { result ≡ (if count == 0 then 0 else count * 10 ^ 24 / total) }
{
    if count == 0 {
        return 0;
    }
    (u128::from(count) * SQUARE / total) as u64
}

/// The sum of the reciprocals of efficiencies.
#[derive(Clone, Copy)]
pub(crate) struct Mean {
    /// How many there are.
    pub(crate) count: u64,
    /// Their sum, on the grid.
    pub(crate) total: u128,
    /// Whether the application failed somewhere.
    pub(crate) has_failed: bool,
    ghost low: { count * units ≤ total },
    ghost high: { total ≤ count * 10 ^ 27 },
}

impl Mean {
    /// No efficiency.
    pub(crate) fn none() -> Mean
        ensures count { result.count ≡ 0 }
        ensures total { result.total ≡ 0 }
        ensures runs { result.has_failed ≡ false }
    {
        Mean {
            count: 0,
            total: 0,
            has_failed: false,
        }
    }

    /// One more efficiency, or a failure.
    pub(crate) fn with(self, pace: Pace) -> Mean
        requires { self.count < 100000 }
        ensures few { result.count ≤ self.count + 1 }
        ensures stays { self.has_failed ≡ true → result.has_failed ≡ true }
        ensures fails { pace.figure ≡ 0 → result.has_failed ≡ true }
        ensures because { result.has_failed ≡ true → pace.figure ≢ 0 → self.has_failed ≡ true }
        ensures ran { result.has_failed ≡ false → self.has_failed ≡ false }
        ensures runs { result.has_failed ≡ false → pace.figure ≢ 0 }
        ensures count { result.has_failed ≡ false → result.count ≡ self.count + 1 }
        ensures total { result.has_failed ≡ false → result.total ≡ self.total + pace.figure * units / pace.best }
    {
        if pace.figure == 0 {
            return Mean {
                count: self.count,
                total: self.total,
                has_failed: true,
            };
        }
        Mean {
            count: self.count + 1,
            total: self.total + pace.slowness(),
            has_failed: self.has_failed,
        }
    }

    /// The mean, or 0 after a failure and of no efficiency.
    pub(crate) fn value(self) -> u64
        requires { self.count ≤ 100000 }
        ensures { result ≡ (if self.has_failed then 0 else if self.count == 0 then 0 else self.count * 10 ^ 24 / self.total) }
    {
        if self.has_failed {
            0
        } else {
            harmonic_mean(self.count, self.total)
        }
    }
}
