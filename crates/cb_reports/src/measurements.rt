//! The reports of measurements.
ghost use Rattle.std.specs.Prelude.{◌≡◌, ◌++◌, IfOk, OnOk};
ghost use Rattle.std.specs.List.{flat_map};
ghost use Rattle.cb_measure.specs.Metrics.{problems_of};
ghost use Rattle.cb_reports.specs.Measurements.{none_line, run_text, problem_text, rows_text, measurements_text};

use crate::run_lines::{add_cascade, add_efficiencies, add_navigation, add_portability};
use crate::run_report::RunReport;
use crate::text::Text;
use cb_diverge::Fraction;
use cb_measure::Rows;
use cb_paths::NoMemory;
use std::alloc::Global;

/// Adds what a report tells of an application for a problem.
fn add_run(
    text: &mut Text,
    alloc: Global,
    report: RunReport,
    pairs: &[Fraction],
    rows: &Rows,
    problem: &[u8],
    application: &[u8],
) -> Result<(), NoMemory>
    ensures { OnOk result (text.new ≡ text.old ++ run_text report pairs.now rows.now problem.now application.now) }
{
    match report {
        RunReport::Efficiency => add_efficiencies(text, alloc, rows, problem, application),
        RunReport::Cascade => add_cascade(text, alloc, rows, problem, application),
        RunReport::Portability => add_portability(text, alloc, rows, problem, application),
        RunReport::Navigation => add_navigation(text, pairs, rows, problem, application),
    }
}

/// Adds what a report tells of each application with a row of a problem.
fn add_problem(
    text: &mut Text,
    alloc: Global,
    report: RunReport,
    pairs: &[Fraction],
    rows: &Rows,
    problem: &[u8],
) -> Result<(), NoMemory>
    ensures { OnOk result (text.new ≡ text.old ++ problem_text report pairs.now rows.now problem.now) }
{
    let names = rows.applications(alloc, problem)?;
    let applications = names.as_slice();
    for at in 0..applications.len() {
        add_run(
            text,
            alloc,
            report,
            pairs,
            rows,
            problem,
            applications[at].as_slice(),
        )?;
    }
    Ok(())
}

/// Adds what a report tells of each problem.
fn add_problems(
    text: &mut Text,
    alloc: Global,
    report: RunReport,
    pairs: &[Fraction],
    rows: &Rows,
) -> Result<(), NoMemory>
    ensures { OnOk result (text.new ≡ text.old ++ flat_map (problem_text report pairs.now rows.now) (problems_of rows.now)) }
{
    let names = rows.problems(alloc)?;
    let problems = names.as_slice();
    for at in 0..problems.len() {
        add_problem(text, alloc, report, pairs, rows, problems[at].as_slice())?;
    }
    Ok(())
}

/// The report where there are no measurements.
fn none(alloc: Global) -> Result<Text, NoMemory>
    ensures { IfOk result (λ text. text ≡ none_line) }
{
    let mut text = Text::new(alloc);
    text.add(b"measurements none")?;
    text.end_line()?;
    Ok(text)
}

/// The report of rows.
fn report_of(
    alloc: Global,
    report: RunReport,
    pairs: &[Fraction],
    rows: &Rows,
) -> Result<Text, NoMemory>
    ensures { IfOk result (λ text. text ≡ rows_text report pairs.now rows.now) }
{
    if rows.is_empty() {
        return none(alloc);
    }
    let mut text = Text::new(alloc);
    add_problems(&mut text, alloc, report, pairs, rows)?;
    Ok(text)
}

/// The whole report.
pub(crate) fn measurements(
    alloc: Global,
    report: RunReport,
    pairs: &[Fraction],
    rows: &Option<Rows>,
) -> Result<Text, NoMemory>
    ensures { IfOk result (λ text. text ≡ measurements_text report pairs.now rows.now) }
{
    match rows {
        Some(rows) => report_of(alloc, report, pairs, rows),
        None => none(alloc),
    }
}
