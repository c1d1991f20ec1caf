//! What a command line asks for.
use crate::word_list::DefinitionWords;
use cb_paths::{Dir, Path};
use cb_reports::Kind;

/// A report over the files of a tree.
#[derive(Drop)]
pub struct ReportJob {
    /// The kind of the report.
    pub kind: Kind,
    /// The folder that the databases mean by the top.
    pub root: Dir,
    /// How many passes run at a time, from 1 to 64.
    pub workers: u32,
    /// The path of the measurements, if there are some.
    pub measurements: Option<Path>,
    /// The path of the analysis.
    pub analysis: Path,
}

/// One connection over the input and the output.
#[derive(Clone, Copy)]
pub struct StdioJob {
    /// How many passes run at a time, from 1 to 64.
    pub workers: u32,
}

/// Connections at a port, one after the other.
#[derive(Clone, Copy)]
pub struct ServeJob {
    /// The port, from 1 to 65,535.
    pub port: u32,
    /// How many connections are taken, from 1 to 1,000,000.
    pub connections: u32,
    /// How many passes run at a time, from 1 to 64.
    pub workers: u32,
}

/// A large input that is made from a number.
#[derive(Clone, Copy)]
pub struct GenerateJob {
    /// The number that it is made from.
    pub seed: u32,
    /// How many sources it has, from 1 to 200.
    pub size: u32,
}

/// What a command line asks for: a command with the values of its options and its other words.
#[derive(Drop)]
pub enum Job {
    /// Which lines of the source on the input are reached, with the definitions of these words.
    Specialise(DefinitionWords),
    /// A report.
    Report(ReportJob),
    /// A session over the input and the output.
    Stdio(StdioJob),
    /// Sessions at a port.
    Serve(ServeJob),
    /// A large input, and what is found in it.
    Generate(GenerateJob),
}
