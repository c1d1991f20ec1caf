//! The limits of the inputs. Each is the greatest number that is still accepted.

/// The bytes of one source.
pub const SOURCE_BYTE_LIMIT: usize = 4_194_304;

/// The lines of one source, a last line without a line end among them.
pub const SOURCE_LINE_LIMIT: u32 = 200_000;

/// The if sections of one source that are open at once.
pub const SECTION_LIMIT: usize = 256;

/// The bytes of the text of a path.
pub const PATH_BYTE_LIMIT: usize = 1_024;

/// The bytes of the text of a folder.
pub const FOLDER_BYTE_LIMIT: usize = 4_096;
