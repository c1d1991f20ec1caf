//! The rows that reports are made of.
use crate::lists::LineLists;
use cb_lines::Lines;
use cb_paths::Bytes;

/// A source that counts.
#[derive(Drop)]
pub struct FileRow {
    /// Its path.
    pub path: Bytes,
    /// Its counted lines.
    pub counted: Lines,
    /// Of these, the lines that each platform uses, platform 1 first.
    pub used: LineLists,
}

/// A platform whose database is absent.
#[derive(Drop)]
pub struct AbsentRow {
    /// The name of the platform.
    pub platform: Bytes,
    /// The path of the database.
    pub path: Bytes,
}

/// Why an entry of a database makes no command.
#[derive(Clone, Copy, Debug, PartialEq, Eq)]
pub enum Idle {
    /// Its folder or its file is outside the root.
    Outside,
    /// Its file has no language that is read.
    Unsupported,
}

/// An entry of a database that makes no command.
#[derive(Drop)]
pub struct IdleRow {
    /// The number of the entry among all entries of all platforms, from 1.
    pub command: u32,
    /// The name of the platform.
    pub platform: Bytes,
    /// Why it makes none.
    pub why: Idle,
}

/// A note that commands left.
#[derive(Drop)]
pub struct NoteRow {
    /// The path of the source.
    pub path: Bytes,
    /// The node of the source, from 1; 0 is the start of a command.
    pub node: u32,
    /// The line of the node.
    pub line: u32,
    /// The number of the kind of note, from 1 to 10: Missing, BadInclude, BadDefine, Redefined, BadCondition, TooLong, TooDeep,
    /// Budget, ErrorReached, NoMain; any other number prints as NoMain.
    pub kind: u32,
    /// What the note is about.
    pub detail: Bytes,
    /// The number of commands that left it.
    pub commands: u32,
    /// The least of these commands.
    pub first: u32,
}
