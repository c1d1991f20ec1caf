//! The words of the command line: which job they ask for, or why they are none.
#![tactic(auto)]

mod commands;
mod cutting;
mod digits;
mod fault;
mod first_fault;
mod job;
mod laws;
mod option_name;
mod part;
mod reading;
mod shown;
mod specialise;
mod values;
mod word_list;

pub use fault::{BadWords, WordsFault};
pub use job::{GenerateJob, Job, ReportJob, ServeJob, StdioJob};
pub use laws::{asks_to_specialise, one_saying};
pub use reading::read;
pub use shown::usage;
pub use word_list::DefinitionWords;
