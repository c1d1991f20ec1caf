//! Platforms.
use cb_paths::{Bytes, Path};

/// A platform of an analysis.
#[derive(Drop)]
pub struct Platform {
    /// Its name.
    pub name: Bytes,
    /// The path of the database of its commands.
    pub commands: Path,
}
