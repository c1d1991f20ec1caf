//! The figure of an application on a platform beside the best one there.
ghost use Rattle.std.specs.Prelude.{◌≡◌, ◌==◌, ◌*◌, ◌/◌, ◌^◌, ◌<◌, ◌≤◌, if◌then◌else◌, Some, None};
ghost use Rattle.cb_paths.specs.Grid.{units};

use cb_paths::GRID_UNITS;

/// The figure of an application on a platform, 0 where it fails there, beside the best figure of all applications.
#[derive(Clone, Copy)]
pub(crate) struct Pace {
    /// The best figure, which is positive where the other one is.
    pub(crate) best: u64,
    /// The figure of the application, or 0 where it fails.
    pub(crate) figure: u64,
    ghost small: { figure < 10 ^ 15 },
    ghost some: { 0 < figure → 0 < best },
    ghost least: { 0 < figure → best ≤ figure },
}

impl Pace {
    /// The efficiency on the grid, or nothing where the application fails.
    pub(crate) fn efficiency(self) -> Option<u64>
        ensures { result ≡ (if self.figure == 0 then None else Some (self.best * units / self.figure)) }
    {
        if self.figure == 0 {
            return None;
        }
        Some((u128::from(self.best) * u128::from(GRID_UNITS) / u128::from(self.figure)) as u64)
    }

    /// How many times longer than the best one the application takes, on the grid.
    pub(crate) fn slowness(self) -> u128
        requires { 0 < self.figure }
        ensures value { result ≡ self.figure * units / self.best }
        ensures low { units ≤ result }
        ensures high { result ≤ 10 ^ 27 }
    {
        u128::from(self.figure) * u128::from(GRID_UNITS) / u128::from(self.best)
    }
}
