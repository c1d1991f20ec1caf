//! The limits of a pass. Each is the greatest number that is still accepted.

/// The greatest depth at which a file is entered. The main file and forced files have depth 0, a header one more than the
/// file that names it.
pub const DEPTH_LIMIT: u32 = 200;

/// The nodes that one pass reaches, repeats counted.
pub const NODE_LIMIT: u32 = 1_000_000;
