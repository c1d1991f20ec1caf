//! One step of a cascade.
use cb_paths::Bytes;

/// One step of a cascade: a platform, and the portability over it and those of the steps before it.
#[derive(Drop)]
pub struct Step {
    /// The name of the platform.
    pub platform: Bytes,
    /// The efficiency there, in units of the grid (10^-12), or 0 where the application fails.
    pub efficiency: u64,
    /// The portability over the platforms of this step and those before it, in units of the grid.
    pub portability: u64,
}
