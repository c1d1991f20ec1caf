//! The inputs of an analysis: what is read from them, how much of them is kept, and why an edit is refused.
#![tactic(auto)]

mod commands;
mod database;
mod databases;
mod fault_text;
mod inputs;
mod kept_analysis;
mod kept_rows;
mod laws;
mod refused;
mod sizes;
mod source;
mod sources;

pub use commands::{MadeList, command_count, made, root};
pub use database::Database;
pub use databases::Databases;
pub use inputs::Inputs;
pub use kept_analysis::{AnalysisFile, KeptAnalysis};
pub use kept_rows::{KeptRows, Measurements};
pub use laws::{one_known, one_outcome};
pub use refused::{BodyFault, LimitName, Refused};
pub use source::Source;
pub use sources::Sources;
