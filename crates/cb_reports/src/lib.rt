//! The texts of reports, from their figures.
#![tactic(auto)]

mod clustering;
mod details;
mod duplicates;
mod figures;
mod files;
mod kind;
mod lists;
mod measurements;
mod names;
mod notes;
mod places;
mod report;
mod row_lists;
mod rows;
mod run_lines;
mod run_report;
mod summary;
mod text;

pub use figures::Figures;
pub use kind::Kind;
pub use lists::{LineLists, TextLists};
pub use report::{one_report, render};
pub use row_lists::{AbsentRows, FileRows, IdleRows, NoteRows};
pub use rows::{AbsentRow, FileRow, Idle, IdleRow, NoteRow};
