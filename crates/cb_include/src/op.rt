//! One definition on a command line.

use cb_paths::{Bytes, NoMemory};
use std::alloc::Global;

/// What one `-D` or `-U` does to the macros before a source is read (GCC's manual, "Options Controlling the
/// Preprocessor").
#[derive(Drop, PartialEq, Eq, Hash)]
pub enum Op {
    /// The word behind `-D`: a name, perhaps with parameters, and then mostly `=` and what replaces it.
    Define(Bytes),
    /// The word behind `-U`: a name.
    Undef(Bytes),
}

impl Op {
    ghost use Rattle.std.specs.Prelude.{◌≡◌, IfOk};

    /// A second definition of the same word.
    pub fn copy(&self, alloc: Global) -> Result<Op, NoMemory>
        ensures { IfOk result (λ op. op ≡ self.now) }
    {
        match self {
            Op::Define(word) => Ok(Op::Define(word.copy(alloc)?)),
            Op::Undef(word) => Ok(Op::Undef(word.copy(alloc)?)),
        }
    }
}
