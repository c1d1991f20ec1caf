//! Why a source is not sound.
ghost use Rattle.std.specs.Prelude.{◌≡◌, ◌++◌, decimal, OnOk};
ghost use Rattle.cb_tree.specs.Faults.{fault_row, fault_text};

use cb_paths::NoMemory;
use itoa::Buffer;
use std::alloc::{AllocError, AllocFailed};
use thiserror::Error;

/// What makes a source unsound. The numbers and names of the kinds are those of the texts.
#[derive(Clone, Copy, Debug, PartialEq, Eq, Error)]
pub enum SourceKind {
    /// A block comment has no end; the line where it begins.
    #[error("a comment has no end")]
    OpenComment,
    /// `#elif` with no open section.
    #[error("an #elif stands in no section")]
    StrayElif,
    /// `#else` with no open section.
    #[error("an #else stands in no section")]
    StrayElse,
    /// `#endif` with no open section.
    #[error("an #endif stands in no section")]
    StrayEndif,
    /// `#elif` or `#else` after the section's `#else`.
    #[error("a group follows the #else group of its section")]
    AfterElse,
    /// A section is open at the end; the line of the last opened of those still open.
    #[error("a section has no #endif")]
    OpenIf,
    /// A section opens as the 257th open one.
    #[error("more than 256 sections are open")]
    TooDeep,
    /// The bytes (line 0) or the lines (line 200,001) pass the limit.
    #[error("the source is too large")]
    TooLarge,
}

impl SourceKind {
    /// Its number, from 1 to 8.
    pub fn number(self) -> u32
        ensures { result ≡ (fault_row self).0 }
    {
        match self {
            SourceKind::OpenComment => 1,
            SourceKind::StrayElif => 2,
            SourceKind::StrayElse => 3,
            SourceKind::StrayEndif => 4,
            SourceKind::AfterElse => 5,
            SourceKind::OpenIf => 6,
            SourceKind::TooDeep => 7,
            SourceKind::TooLarge => 8,
        }
    }

    /// Its name, that of the variant.
    pub fn name(self) -> &'static str
        ensures { result.now ≡ (fault_row self).1 }
    {
        match self {
            SourceKind::OpenComment => "OpenComment",
            SourceKind::StrayElif => "StrayElif",
            SourceKind::StrayElse => "StrayElse",
            SourceKind::StrayEndif => "StrayEndif",
            SourceKind::AfterElse => "AfterElse",
            SourceKind::OpenIf => "OpenIf",
            SourceKind::TooDeep => "TooDeep",
            SourceKind::TooLarge => "TooLarge",
        }
    }
}

/// Adds a number in decimal digits.
fn push_number(text: &mut Vec<u8>, number: u32) -> Result<(), NoMemory>
    ensures { OnOk result (text.new.items ≡ text.old.items ++ decimal number) }
{
    text.extend_from_slice(Buffer::new().format(number).as_bytes())?;
    Ok(())
}

/// The first fault of an unsound source.
#[derive(Clone, Copy, Debug, PartialEq, Eq, Error)]
#[error("line {line}: {kind}")]
pub struct BadSource {
    /// What is wrong.
    pub kind: SourceKind,
    /// The line that it is told of.
    pub line: u32,
}

impl BadSource {
    /// Adds its text, `bad source NUMBER NAME line LINE`, to another. Its one error is out of memory, after which the text may
    /// hold a part of it.
    pub fn push_text(&self, text: &mut Vec<u8>) -> Result<(), NoMemory>
        ensures { OnOk result (text.new.items ≡ text.old.items ++ fault_text self.now) }
    {
        text.extend_from_slice(b"bad source ")?;
        push_number(text, self.kind.number())?;
        text.extend_from_slice(b" ")?;
        text.extend_from_slice(self.kind.name().as_bytes())?;
        text.extend_from_slice(b" line ")?;
        push_number(text, self.line)?;
        Ok(())
    }
}

/// Why a source has no tree.
#[derive(Clone, Copy, Debug, PartialEq, Eq, Error)]
pub enum BuildFault {
    /// The source is not sound.
    #[error(transparent)]
    Bad(BadSource),
    /// There was not enough memory.
    #[error("out of memory")]
    NoMemory,
}

impl From<AllocError> for BuildFault {
    ghost use Rattle.std.specs.Prelude.{◌≡◌};
    ghost use Rattle.cb_tree.specs.declared.fault.BuildFault.TheVariants.{NoMemory};

    ghost from_gives = { λ _ e. e ≡ NoMemory };

    fn from(_error: AllocError) -> BuildFault {
        BuildFault::NoMemory
    }
}

impl<T: Drop> From<AllocFailed<T>> for BuildFault {
    ghost use Rattle.std.specs.Prelude.{◌≡◌};
    ghost use Rattle.cb_tree.specs.declared.fault.BuildFault.TheVariants.{NoMemory};

    ghost from_gives = { λ _ e. e ≡ NoMemory };

    fn from(_error: AllocFailed<T>) -> BuildFault {
        BuildFault::NoMemory
    }
}

impl From<NoMemory> for BuildFault {
    ghost use Rattle.std.specs.Prelude.{◌≡◌};
    ghost use Rattle.cb_tree.specs.declared.fault.BuildFault.TheVariants.{NoMemory};

    ghost from_gives = { λ _ e. e ≡ NoMemory };

    fn from(_error: NoMemory) -> BuildFault {
        BuildFault::NoMemory
    }
}
