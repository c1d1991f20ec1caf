//! Analysis files: the platforms of an analysis, and the patterns that tell which sources count.
#![tactic(auto)]

mod analysis;
mod cut;
mod fault;
mod laws;
mod part;
mod parts;
mod pattern;
mod patterns;
mod place;
mod platform;
mod platforms;
mod reading;
mod run;

pub use analysis::Analysis;
pub use fault::{AnalysisFault, AnalysisKind, BadAnalysis};
pub use laws::one_reading;
pub use platform::Platform;
pub use reading::read;
