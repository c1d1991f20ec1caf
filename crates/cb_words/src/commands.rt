//! The jobs of the commands but `specialise`.
ghost use Rattle.std.specs.Prelude.{◌≡◌, map, string_bytes, Ok, IfOk, IfErr};
ghost use Rattle.cb_words.specs.Faults.{Refuses};
ghost use Rattle.cb_words.specs.Commands.{analysis_of, report_of, stdio_of, serve_of, generate_of};
ghost use Rattle.cb_words.specs.Commands.{report_job, stdio_job, serve_job, generate_job};

use crate::digits::number_in;
use crate::fault::WordsFault;
use crate::first_fault::cut_words;
use crate::job::{GenerateJob, Job, ReportJob, ServeJob, StdioJob};
use crate::option_name::OptionName;
use crate::part::Part;
use crate::values::{kind, measurements, needed_number, path_in, plain_words, root, workers};
use cb_paths::{Dir, Path};
use std::alloc::Global;

/// The options of the command `report`.
const REPORT_OPTIONS: &[OptionName] = &[
    OptionName::Kind,
    OptionName::Root,
    OptionName::Workers,
    OptionName::Measurements,
];

/// The options of the command `stdio`.
const STDIO_OPTIONS: &[OptionName] = &[OptionName::Workers];

/// The options of the command `serve`.
const SERVE_OPTIONS: &[OptionName] = &[
    OptionName::Port,
    OptionName::Connections,
    OptionName::Workers,
];

/// The options of the command `generate`.
const GENERATE_OPTIONS: &[OptionName] = &[];

/// The highest port.
const PORT_LIMIT: u32 = 65_535;

/// The connections at most.
const CONNECTION_LIMIT: u32 = 1_000_000;

/// The sources that are made at most.
const SIZE_LIMIT: u32 = 200;

/// The path that the one word of no option names.
fn analysis(alloc: Global, parts: &[Part]) -> Result<Path, WordsFault>
    ensures path { IfOk result (λ path. analysis_of parts.now ≡ Ok path) }
    ensures bad { IfErr result (λ e. Refuses e (analysis_of parts.now)) }
{
    let words = plain_words(alloc, parts, 1)?;
    path_in(alloc, words.as_slice()[0].as_slice())
}

/// The report that parts ask for.
fn report_of(alloc: Global, parts: &[Part], here: &Dir) -> Result<ReportJob, WordsFault>
    ensures job { IfOk result (λ job. report_of here.now parts.now ≡ Ok job) }
    ensures bad { IfErr result (λ e. Refuses e (report_of here.now parts.now)) }
{
    let kind = kind(parts)?;
    let root = root(alloc, parts, here)?;
    let workers = workers(parts)?;
    let measurements = measurements(alloc, parts)?;
    let analysis = analysis(alloc, parts)?;
    Ok(ReportJob {
        kind,
        root,
        workers,
        measurements,
        analysis,
    })
}

/// The session over the input and the output that parts ask for.
fn stdio_of(alloc: Global, parts: &[Part]) -> Result<StdioJob, WordsFault>
    ensures job { IfOk result (λ job. stdio_of parts.now ≡ Ok job) }
    ensures bad { IfErr result (λ e. Refuses e (stdio_of parts.now)) }
{
    let workers = workers(parts)?;
    plain_words(alloc, parts, 0)?;
    Ok(StdioJob { workers })
}

/// The sessions at a port that parts ask for.
fn serve_of(alloc: Global, parts: &[Part]) -> Result<ServeJob, WordsFault>
    ensures job { IfOk result (λ job. serve_of parts.now ≡ Ok job) }
    ensures bad { IfErr result (λ e. Refuses e (serve_of parts.now)) }
{
    let port = needed_number(parts, OptionName::Port, 1, PORT_LIMIT)?;
    let connections = needed_number(parts, OptionName::Connections, 1, CONNECTION_LIMIT)?;
    let workers = workers(parts)?;
    plain_words(alloc, parts, 0)?;
    Ok(ServeJob {
        port,
        connections,
        workers,
    })
}

/// The large input that parts ask for.
fn generate_of(alloc: Global, parts: &[Part]) -> Result<GenerateJob, WordsFault>
    ensures job { IfOk result (λ job. generate_of parts.now ≡ Ok job) }
    ensures bad { IfErr result (λ e. Refuses e (generate_of parts.now)) }
{
    let words = plain_words(alloc, parts, 2)?;
    let seed = number_in(0, u32::MAX, words.as_slice()[0].as_slice())?;
    let size = number_in(1, SIZE_LIMIT, words.as_slice()[1].as_slice())?;
    Ok(GenerateJob { seed, size })
}

/// The job of the words behind `report`.
pub(crate) fn report_job(alloc: Global, words: &[String], here: &Dir) -> Result<Job, WordsFault>
    ensures job { IfOk result (λ job. report_job here.now (map string_bytes words.now) ≡ Ok job) }
    ensures bad { IfErr result (λ e. Refuses e (report_job here.now (map string_bytes words.now))) }
{
    let parts = cut_words(alloc, REPORT_OPTIONS, words)?;
    let job = report_of(alloc, parts.as_slice(), here)?;
    Ok(Job::Report(job))
}

/// The job of the words behind `stdio`.
pub(crate) fn stdio_job(alloc: Global, words: &[String]) -> Result<Job, WordsFault>
    ensures job { IfOk result (λ job. stdio_job (map string_bytes words.now) ≡ Ok job) }
    ensures bad { IfErr result (λ e. Refuses e (stdio_job (map string_bytes words.now))) }
{
    let parts = cut_words(alloc, STDIO_OPTIONS, words)?;
    let job = stdio_of(alloc, parts.as_slice())?;
    Ok(Job::Stdio(job))
}

/// The job of the words behind `serve`.
pub(crate) fn serve_job(alloc: Global, words: &[String]) -> Result<Job, WordsFault>
    ensures job { IfOk result (λ job. serve_job (map string_bytes words.now) ≡ Ok job) }
    ensures bad { IfErr result (λ e. Refuses e (serve_job (map string_bytes words.now))) }
{
    let parts = cut_words(alloc, SERVE_OPTIONS, words)?;
    let job = serve_of(alloc, parts.as_slice())?;
    Ok(Job::Serve(job))
}

/// The job of the words behind `generate`.
pub(crate) fn generate_job(alloc: Global, words: &[String]) -> Result<Job, WordsFault>
    ensures job { IfOk result (λ job. generate_job (map string_bytes words.now) ≡ Ok job) }
    ensures bad { IfErr result (λ e. Refuses e (generate_job (map string_bytes words.now))) }
{
    let parts = cut_words(alloc, GENERATE_OPTIONS, words)?;
    let job = generate_of(alloc, parts.as_slice())?;
    Ok(Job::Generate(job))
}
