//! Why words are no job.
ghost use Rattle.std.specs.Prelude.{◌≡◌};

use cb_paths::NoMemory;
use std::alloc::AllocFailed;
use std::error::Error;
use std::fmt;

/// What is wrong with the words of a command line. The usage is printed for each of them.
#[derive(Clone, Copy, Debug, PartialEq, Eq)]
pub enum BadWords {
    /// There is no word.
    NoCommand,
    /// The first word names no command.
    UnknownCommand,
    /// A word begins as an option does, and the command has none of its name. Behind `specialise`: a word is no part of a `-D`.
    UnknownOption,
    /// An option stands twice.
    RepeatedOption,
    /// An option is the last word, so that it has no value.
    MissingValue,
    /// An option without which there is no job does not stand.
    MissingOption,
    /// There is no such kind of report.
    UnknownKind,
    /// A text names no folder.
    BadFolder,
    /// A text is not one to ten decimal digits.
    BadNumber,
    /// A number is out of its range.
    OutOfRange,
    /// A text names no path below the top.
    BadPath,
    /// There are too few or too many words that belong to no option.
    WrongCount,
    /// The word of a `-D` is no definition.
    BadDefinition,
}

impl BadWords {
    ghost use Rattle.cb_words.specs.Faults.{fault_text};

    /// What it means.
    fn text(self) -> &'static str
        ensures { result.now ≡ fault_text self }
    {
        match self {
            BadWords::NoCommand => "there is no command",
            BadWords::UnknownCommand => "the first word names no command",
            BadWords::UnknownOption => "the command has no such option",
            BadWords::RepeatedOption => "an option stands twice",
            BadWords::MissingValue => "an option has no value",
            BadWords::MissingOption => "an option is missing",
            BadWords::UnknownKind => "there is no such kind of report",
            BadWords::BadFolder => "the text names no folder",
            BadWords::BadNumber => "the text is no number",
            BadWords::OutOfRange => "the number is out of its range",
            BadWords::BadPath => "the text is no path",
            BadWords::WrongCount => "there are too few or too many words",
            BadWords::BadDefinition => "the word of a -D is no definition",
        }
    }
}

impl fmt::Display for BadWords {
    ghost use Rattle.std.specs.Prelude.{Some};
    ghost use Rattle.cb_words.specs.Faults.{fault_text};

    ghost output = { λ bad. Some (fault_text bad) };

    fn fmt<W: fmt::Write>(&self, f: &mut fmt::Formatter<W>) -> fmt::Result {
        f.write_str(self.text())
    }
}

impl Error for BadWords {}

/// Why words are not read.
#[derive(Clone, Copy, Debug, PartialEq, Eq)]
pub enum WordsFault {
    /// The words are no job.
    Bad(BadWords),
    /// There was not enough memory.
    NoMemory,
}

impl fmt::Display for WordsFault {
    ghost use Rattle.std.specs.Prelude.{Some};
    ghost use Rattle.cb_words.specs.Faults.{refusal_text};

    ghost output = { λ fault. Some (refusal_text fault) };

    fn fmt<W: fmt::Write>(&self, f: &mut fmt::Formatter<W>) -> fmt::Result {
        match self {
            WordsFault::Bad(bad) => write!(f, "{bad}"),
            WordsFault::NoMemory => f.write_str("out of memory"),
        }
    }
}

impl Error for WordsFault {}

impl From<BadWords> for WordsFault {
    ghost use Rattle.std.specs.Prelude.{◌≡◌};
    ghost use Rattle.cb_words.specs.declared.fault.WordsFault.TheVariants as fault;

    ghost from_gives = { λ bad f. f ≡ fault.Bad bad };

    fn from(bad: BadWords) -> WordsFault {
        WordsFault::Bad(bad)
    }
}

impl From<NoMemory> for WordsFault {
    ghost use Rattle.std.specs.Prelude.{◌≡◌};
    ghost use Rattle.cb_words.specs.declared.fault.WordsFault.TheVariants as fault;

    ghost from_gives = { λ _ f. f ≡ fault.NoMemory };

    fn from(_error: NoMemory) -> WordsFault {
        WordsFault::NoMemory
    }
}

impl<T: Drop> From<AllocFailed<T>> for WordsFault {
    ghost use Rattle.std.specs.Prelude.{◌≡◌};
    ghost use Rattle.cb_words.specs.declared.fault.WordsFault.TheVariants as fault;

    ghost from_gives = { λ _ f. f ≡ fault.NoMemory };

    fn from(_error: AllocFailed<T>) -> WordsFault {
        WordsFault::NoMemory
    }
}
