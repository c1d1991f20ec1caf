//! Shares and means of whole numbers on the grid, whose unit is 10^-12.
ghost use Rattle.std.specs.Prelude.{◌≡◌, ◌*◌, ◌<◌, ◌≤◌};
ghost use Rattle.cb_paths.specs.Grid.{units, share, mean};

/// The grid value of 1: how many units of the grid make up the whole.
pub const GRID_UNITS: u64 = 1_000_000_000_000;

/// The share of `part` in `whole`, in units of the grid (10^-12), rounded to the nearest one; half a unit goes up.
pub fn share(part: u64, whole: u64) -> u64
    requires some { 0 < whole }
    requires part { part ≤ whole }
    ensures value { result ≡ share part whole }
    ensures within { result ≤ units }
{
    let scaled = u128::from(part) * u128::from(GRID_UNITS);
    ((scaled + u128::from(whole / 2)) / u128::from(whole)) as u64
}

/// The mean of `count` grid values whose sum is `total`, in units of the grid, rounded to the nearest one; half a unit goes up.
pub fn mean(total: u64, count: u64) -> u64
    requires some { 0 < count }
    ensures value { result ≡ mean total count }
    ensures within { total ≤ count * units → result ≤ units }
{
    ((u128::from(total) + u128::from(count / 2)) / u128::from(count)) as u64
}
