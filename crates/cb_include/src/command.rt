//! What a compiler is told of one source.

use crate::dir_list::Dirs;
use crate::op_list::Ops;
use cb_paths::{Dir, Language, Path, Texts};

/// What a compiler is told of one source, as far as its preprocessing depends on it (GCC's manual, "Options for
/// Directory Search" and "Options Controlling the Preprocessor").
#[derive(Drop, PartialEq, Eq)]
#[derive_where(Hash)]
pub struct Command {
    /// The source.
    pub main: Path,
    /// The language that it is in. Mostly the suffix of the source gives it, so hashes leave it out.
    #[derive_where(skip(Hash))]
    pub language: Language,
    /// The words of `-D` and `-U` in order.
    pub ops: Ops,
    /// The folder that the compiler works in.
    pub work: Dir,
    /// The folders of `-iquote` in order.
    pub quote: Dirs,
    /// The folders of `-I` in order, and then those of `-isystem` in order.
    pub angle: Dirs,
    /// The texts of `-include` in order.
    pub forced: Texts,
    /// The folder that paths are below.
    pub root: Dir,
}
