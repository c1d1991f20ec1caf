//! Measurements of applications on platforms, read from CSV, and what they say: efficiency, performance portability
//! and cascades.
#![tactic(auto)]

mod bad_csv;
mod cascade;
mod figure;
mod figures;
mod header;
mod index;
mod laws;
mod mean;
mod metrics;
mod names;
mod numbers;
mod pace;
mod reading;
mod records;
mod row;
mod rows;
mod step;
mod steps;
mod timed;

pub use bad_csv::{BadCsv, CsvFault};
pub use laws::one_reading;
pub use row::Row;
pub use rows::{Rows, read};
pub use step::Step;
pub use steps::Steps;
