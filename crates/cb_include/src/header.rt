//! Headers as `#include` names them.

use cb_paths::{Bytes, Path};

/// A header that is included (ISO/IEC 9899:2011, 6.4.7).
#[derive(Drop)]
pub struct Header {
    /// Whether it stands between `<` and `>`; else it stands between quotes.
    pub angle: bool,
    /// What stands between them.
    pub text: Bytes,
}

/// Where a header is included from.
#[derive(Clone, Copy)]
pub enum Origin<'a> {
    /// The start of a command, which includes its forced files before its main file.
    Start,
    /// The source at this path.
    File(&'a Path),
}
