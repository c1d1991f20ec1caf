//! What a pass leaves to be told.
ghost use Rattle.std.specs.Prelude.{◌≡◌};
ghost use Rattle.cb_pass.specs.Kinds.{note_number, note_name};

use cb_paths::{Bytes, Path};

/// What a note tells.
#[derive(Clone, Copy, Debug, PartialEq, Eq, PartialOrd, Ord, Hash)]
pub enum NoteKind {
    /// No file was present for a header.
    Missing,
    /// An `#include` names no header.
    BadInclude,
    /// A `#define`, `#undef`, `-D` or `-U` is none.
    BadDefine,
    /// A macro was defined again, and otherwise.
    Redefined,
    /// A condition has a fault.
    BadCondition,
    /// Replacement in a condition or an `#include` would cost more than 65,536.
    TooLong,
    /// A header was not entered because of the depth.
    TooDeep,
    /// The pass ended because of the number of nodes.
    Budget,
    /// An `#error` was reached.
    ErrorReached,
    /// The main file is absent.
    NoMain,
}

impl NoteKind {
    /// The number of the kind, from 1.
    pub fn number(&self) -> u32
        ensures { result ≡ note_number self.now }
    {
        match self {
            NoteKind::Missing => 1,
            NoteKind::BadInclude => 2,
            NoteKind::BadDefine => 3,
            NoteKind::Redefined => 4,
            NoteKind::BadCondition => 5,
            NoteKind::TooLong => 6,
            NoteKind::TooDeep => 7,
            NoteKind::Budget => 8,
            NoteKind::ErrorReached => 9,
            NoteKind::NoMain => 10,
        }
    }

    /// The name of the kind.
    pub fn name(&self) -> &'static str
        ensures { result.now ≡ note_name self.now }
    {
        match self {
            NoteKind::Missing => "Missing",
            NoteKind::BadInclude => "BadInclude",
            NoteKind::BadDefine => "BadDefine",
            NoteKind::Redefined => "Redefined",
            NoteKind::BadCondition => "BadCondition",
            NoteKind::TooLong => "TooLong",
            NoteKind::TooDeep => "TooDeep",
            NoteKind::Budget => "Budget",
            NoteKind::ErrorReached => "ErrorReached",
            NoteKind::NoMain => "NoMain",
        }
    }
}

/// A note: where it was left, and what it tells. Notes compare by these fields, in this order.
#[derive(PartialEq, Eq, PartialOrd, Ord, Hash, Drop)]
pub struct Note {
    /// The file; of the start of a command it is the main file.
    pub path: Path,
    /// The number of the node, 0 for the start of a command.
    pub node: u32,
    /// What it tells.
    pub kind: NoteKind,
    /// The header, the word, the name or the name of the fault that it is about; else empty.
    pub detail: Bytes,
}
