//! A platform with the figures of an application on it.
ghost use Rattle.std.specs.Prelude.{◌≡◌, ◌*◌};
ghost use Rattle.cb_measure.specs.inner.Timing.{slower};

use cb_paths::Bytes;

/// A platform, and how long an application takes there.
#[derive(Drop)]
pub(crate) struct Timed {
    /// The name of the platform.
    pub(crate) platform: Bytes,
    /// The best figure of all applications there.
    pub(crate) best: u64,
    /// The figure of the application, or 0 where it fails.
    pub(crate) figure: u64,
}

/// The product of two figures.
fn product(some: u64, other: u64) -> u128
    ensures { result ≡ some * other }
{
    u128::from(some) * u128::from(other)
}

/// Whether the application is slower on a platform than on another one.
pub(crate) fn is_slower(this: &Timed, other: &Timed) -> bool
    ensures { result ≡ slower this.now other.now }
{
    if other.figure == 0 {
        return false;
    }
    if this.figure == 0 {
        return true;
    }
    product(this.best, other.figure) < product(other.best, this.figure)
}
