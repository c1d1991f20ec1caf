//! Lists of the rows that reports are made of.
ghost use Rattle.std.specs.Prelude.{◌≡◌};

use crate::rows::{AbsentRow, FileRow, IdleRow, NoteRow};
use std::marker::Model;

/// A vector of files, which contracts see as the list of them.
#[derive(Drop)]
pub struct FileRows {
    items: Vec<FileRow>,
}

impl Model for FileRows {
    ghost use Rattle.std.specs.Prelude.{List};
    ghost use Rattle.cb_reports.specs.declared.rows.FileRow.{FileRow};

    ghost Value = { List FileRow };

    ghost view = { λ l. l.items.items };
}

impl FileRows {
    /// The files of a vector, which is taken as it is.
    pub fn from_vec(items: Vec<FileRow>) -> FileRows
        ensures { result ≡ items.items }
    {
        FileRows { items }
    }

    /// The files in order.
    pub fn as_slice(&self) -> &[FileRow]
        ensures { result.now ≡ self.now }
    {
        self.items.as_slice()
    }

    /// The vector of the files.
    pub fn into_vec(self) -> Vec<FileRow>
        ensures { result.items ≡ self }
    {
        self.items
    }
}

/// A vector of rows, which contracts see as the list of them.
#[derive(Drop)]
pub struct AbsentRows {
    items: Vec<AbsentRow>,
}

impl Model for AbsentRows {
    ghost use Rattle.std.specs.Prelude.{List};
    ghost use Rattle.cb_reports.specs.declared.rows.AbsentRow.{AbsentRow};

    ghost Value = { List AbsentRow };

    ghost view = { λ l. l.items.items };
}

impl AbsentRows {
    /// The rows of a vector, which is taken as it is.
    pub fn from_vec(items: Vec<AbsentRow>) -> AbsentRows
        ensures { result ≡ items.items }
    {
        AbsentRows { items }
    }

    /// The rows in order.
    pub fn as_slice(&self) -> &[AbsentRow]
        ensures { result.now ≡ self.now }
    {
        self.items.as_slice()
    }

    /// The vector of the rows.
    pub fn into_vec(self) -> Vec<AbsentRow>
        ensures { result.items ≡ self }
    {
        self.items
    }
}

/// A vector of rows, which contracts see as the list of them.
#[derive(Drop)]
pub struct IdleRows {
    items: Vec<IdleRow>,
}

impl Model for IdleRows {
    ghost use Rattle.std.specs.Prelude.{List};
    ghost use Rattle.cb_reports.specs.declared.rows.IdleRow.{IdleRow};

    ghost Value = { List IdleRow };

    ghost view = { λ l. l.items.items };
}

impl IdleRows {
    /// The rows of a vector, which is taken as it is.
    pub fn from_vec(items: Vec<IdleRow>) -> IdleRows
        ensures { result ≡ items.items }
    {
        IdleRows { items }
    }

    /// The rows in order.
    pub fn as_slice(&self) -> &[IdleRow]
        ensures { result.now ≡ self.now }
    {
        self.items.as_slice()
    }

    /// The vector of the rows.
    pub fn into_vec(self) -> Vec<IdleRow>
        ensures { result.items ≡ self }
    {
        self.items
    }
}

/// A vector of rows, which contracts see as the list of them.
#[derive(Drop)]
pub struct NoteRows {
    items: Vec<NoteRow>,
}

impl Model for NoteRows {
    ghost use Rattle.std.specs.Prelude.{List};
    ghost use Rattle.cb_reports.specs.declared.rows.NoteRow.{NoteRow};

    ghost Value = { List NoteRow };

    ghost view = { λ l. l.items.items };
}

impl NoteRows {
    /// The rows of a vector, which is taken as it is.
    pub fn from_vec(items: Vec<NoteRow>) -> NoteRows
        ensures { result ≡ items.items }
    {
        NoteRows { items }
    }

    /// The rows in order.
    pub fn as_slice(&self) -> &[NoteRow]
        ensures { result.now ≡ self.now }
    {
        self.items.as_slice()
    }

    /// The vector of the rows.
    pub fn into_vec(self) -> Vec<NoteRow>
        ensures { result.items ≡ self }
    {
        self.items
    }
}
