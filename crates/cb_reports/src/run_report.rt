//! The reports of measurements.

/// What a report tells of an application for a problem.
#[derive(Clone, Copy)]
pub(crate) enum RunReport {
    /// Its efficiency on each platform.
    Efficiency,
    /// Its cascade over the platforms.
    Cascade,
    /// Its performance portability, and where it fails.
    Portability,
    /// Convergence beside its performance portability.
    Navigation,
}
