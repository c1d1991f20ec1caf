//! What is wrong with an analysis.
ghost use Rattle.std.specs.Prelude.{◌≡◌, option_map};
ghost use Rattle.cb_analysis.specs.Faults.{kind_number, kind_name, kind_text, place_shown};

use cb_paths::{Bytes, NoMemory};
use std::alloc::AllocFailed;
use std::error::Error;
use std::fmt;

/// What is wrong with an analysis.
#[derive(Clone, Copy, Debug, PartialEq, Eq)]
pub enum AnalysisKind {
    /// The file is no TOML document.
    NotToml,
    /// There is no platform.
    NoPlatform,
    /// The name of a platform is none that a platform may have.
    BadName,
    /// A platform has no `commands`.
    NoCommands,
    /// A value is of another type than its key wants.
    WrongType,
    /// A text is no pattern.
    BadPattern,
    /// There are too many platforms, or too many patterns in a list.
    TooMany,
    /// A text is no path below the top.
    BadPath,
}

impl AnalysisKind {
    /// Its number, from 1 to 8.
    pub fn number(self) -> u32
        ensures { result ≡ kind_number self }
    {
        match self {
            AnalysisKind::NotToml => 1,
            AnalysisKind::NoPlatform => 2,
            AnalysisKind::BadName => 3,
            AnalysisKind::NoCommands => 4,
            AnalysisKind::WrongType => 5,
            AnalysisKind::BadPattern => 6,
            AnalysisKind::TooMany => 7,
            AnalysisKind::BadPath => 8,
        }
    }

    /// Its name, that of the variant.
    pub fn name(self) -> &'static str
        ensures { result.now ≡ kind_name self }
    {
        match self {
            AnalysisKind::NotToml => "NotToml",
            AnalysisKind::NoPlatform => "NoPlatform",
            AnalysisKind::BadName => "BadName",
            AnalysisKind::NoCommands => "NoCommands",
            AnalysisKind::WrongType => "WrongType",
            AnalysisKind::BadPattern => "BadPattern",
            AnalysisKind::TooMany => "TooMany",
            AnalysisKind::BadPath => "BadPath",
        }
    }

    /// What it means.
    fn text(self) -> &'static str
        ensures { result.now ≡ kind_text self }
    {
        match self {
            AnalysisKind::NotToml => "the file is no TOML document",
            AnalysisKind::NoPlatform => "there is no platform",
            AnalysisKind::BadName => "a platform cannot have this name",
            AnalysisKind::NoCommands => "the platform has no commands",
            AnalysisKind::WrongType => "the value is of a wrong type",
            AnalysisKind::BadPattern => "the text is no pattern",
            AnalysisKind::TooMany => "there are too many of them",
            AnalysisKind::BadPath => "the text is no path",
        }
    }
}

impl fmt::Display for AnalysisKind {
    ghost use Rattle.std.specs.Prelude.{Some};

    ghost output = { λ kind. Some (kind_text kind) };

    fn fmt<W: fmt::Write>(&self, f: &mut fmt::Formatter<W>) -> fmt::Result {
        f.write_str(self.text())
    }
}

impl Error for AnalysisKind {}

/// The first fault of an analysis.
#[derive(Drop)]
pub struct BadAnalysis {
    /// What is wrong.
    pub kind: AnalysisKind,
    /// Where it is wrong: the key, with a dot between its parts; for a pattern with its number in the list, from 0.
    /// Names stand in it as they are. Empty where the file is no TOML document.
    pub place: Bytes,
}

/// A place as a fault prints it; none where it is empty or no UTF-8.
#[tactic(auto, using(crate::proofs::Places::has_text, crate::proofs::Places::has_no_text))]
fn place_shown(place: &[u8]) -> Option<&str>
    ensures { option_map (λ text. text.now) result ≡ place_shown place.now }
{
    if place.is_empty() {
        return None;
    }
    match std::str::from_utf8(place) {
        Ok(text) => Some(text),
        Err(_) => None,
    }
}

impl fmt::Display for BadAnalysis {
    ghost use Rattle.std.specs.Prelude.{Some};
    ghost use Rattle.cb_analysis.specs.Faults.{bad_text};

    ghost output = { λ bad. Some (bad_text bad) };

    fn fmt<W: fmt::Write>(&self, f: &mut fmt::Formatter<W>) -> fmt::Result {
        match place_shown(self.place.as_slice()) {
            Some(place) => write!(f, "{place}: {}", self.kind),
            None => write!(f, "{}", self.kind),
        }
    }
}

impl fmt::Debug for BadAnalysis {
    ghost use Rattle.std.specs.Prelude.{Some};
    ghost use Rattle.cb_analysis.specs.Faults.{bad_text};

    ghost debug_output = { λ bad. Some (bad_text bad) };

    fn fmt<W: fmt::Write>(&self, f: &mut fmt::Formatter<W>) -> fmt::Result {
        write!(f, "{self}")
    }
}

/// Why an analysis is not read.
#[derive(Debug, Drop)]
pub enum AnalysisFault {
    /// The file is no analysis.
    Bad(BadAnalysis),
    /// There was not enough memory.
    NoMemory,
}

impl fmt::Display for AnalysisFault {
    ghost use Rattle.std.specs.Prelude.{Some};
    ghost use Rattle.cb_analysis.specs.Faults.{refusal_text};

    ghost output = { λ fault. Some (refusal_text fault) };

    fn fmt<W: fmt::Write>(&self, f: &mut fmt::Formatter<W>) -> fmt::Result {
        match self {
            AnalysisFault::Bad(bad) => write!(f, "{bad}"),
            AnalysisFault::NoMemory => f.write_str("out of memory"),
        }
    }
}

impl Error for AnalysisFault {}

impl From<NoMemory> for AnalysisFault {
    ghost use Rattle.std.specs.Prelude.{◌≡◌};
    ghost use Rattle.cb_analysis.specs.declared.fault.AnalysisFault.TheVariants as fault;

    ghost from_gives = { λ _ e. e ≡ fault.NoMemory };

    fn from(_error: NoMemory) -> AnalysisFault {
        AnalysisFault::NoMemory
    }
}

impl<T: Drop> From<AllocFailed<T>> for AnalysisFault {
    ghost use Rattle.std.specs.Prelude.{◌≡◌};
    ghost use Rattle.cb_analysis.specs.declared.fault.AnalysisFault.TheVariants as fault;

    ghost from_gives = { λ _ e. e ≡ fault.NoMemory };

    fn from(_error: AllocFailed<T>) -> AnalysisFault {
        AnalysisFault::NoMemory
    }
}
