//! The lines of reports of measurements.
ghost use Rattle.std.specs.Prelude.{◌≡◌, ◌++◌, filter, IfOk, OnOk};
ghost use Rattle.std.specs.List.{flat_map};
ghost use Rattle.cb_measure.specs.Metrics.{platforms_of, portability_of};
ghost use Rattle.cb_measure.specs.Cascade.{cascade_of};
ghost use Rattle.cb_reports.specs.Words.{listed, numbered};
ghost use Rattle.cb_reports.specs.Measurements.{run_name, efficiency_text, efficiency_line, step_line, failing_text, is_failing, portability_line, navigation_line};

use crate::names::add_separator;
use crate::places::add_six_places;
use crate::summary::add_convergence;
use crate::text::Text;
use cb_diverge::Fraction;
use cb_measure::{Rows, Step};
use cb_paths::{Bytes, NoMemory, Texts};
use std::alloc::Global;

/// Adds a problem and an application, each before a comma.
fn add_run_name(text: &mut Text, problem: &[u8], application: &[u8]) -> Result<(), NoMemory>
    ensures { OnOk result (text.new ≡ text.old ++ run_name problem.now application.now) }
{
    text.add(problem)?;
    text.add(b",")?;
    text.add(application)?;
    text.add(b",")
}

/// Adds an efficiency, where there is one.
fn add_efficiency_value(text: &mut Text, efficiency: Option<u64>) -> Result<(), NoMemory>
    ensures { OnOk result (text.new ≡ text.old ++ efficiency_text efficiency) }
{
    match efficiency {
        Some(value) => add_six_places(text, value),
        None => text.add(b"0.000000 failed"),
    }
}

/// Adds the efficiency of an application for a problem on a platform.
fn add_efficiency(
    text: &mut Text,
    rows: &Rows,
    problem: &[u8],
    application: &[u8],
    platform: &[u8],
) -> Result<(), NoMemory>
    ensures { OnOk result (text.new ≡ text.old ++ efficiency_line rows.now problem.now application.now platform.now) }
{
    add_run_name(text, problem, application)?;
    text.add(platform)?;
    text.add(b",")?;
    add_efficiency_value(text, rows.efficiency(problem, application, platform))?;
    text.end_line()
}

/// Adds the efficiency of an application for a problem on each platform.
pub(crate) fn add_efficiencies(
    text: &mut Text,
    alloc: Global,
    rows: &Rows,
    problem: &[u8],
    application: &[u8],
) -> Result<(), NoMemory>
    ensures { OnOk result (text.new ≡ text.old ++ flat_map (efficiency_line rows.now problem.now application.now) (platforms_of rows.now problem.now)) }
{
    let names = rows.platforms(alloc, problem)?;
    let platforms = names.as_slice();
    for at in 0..platforms.len() {
        add_efficiency(text, rows, problem, application, platforms[at].as_slice())?;
    }
    Ok(())
}

/// Adds a step of a cascade with its number.
fn add_step(
    text: &mut Text,
    problem: &[u8],
    application: &[u8],
    number: u64,
    step: &Step,
) -> Result<(), NoMemory>
    ensures { OnOk result (text.new ≡ text.old ++ step_line problem.now application.now number step.now) }
{
    add_run_name(text, problem, application)?;
    text.add_number(number)?;
    text.add(b",")?;
    text.add(step.platform.as_slice())?;
    text.add(b",")?;
    add_six_places(text, step.efficiency)?;
    text.add(b",")?;
    add_six_places(text, step.portability)?;
    text.end_line()
}

/// Adds the cascade of an application for a problem.
pub(crate) fn add_cascade(
    text: &mut Text,
    alloc: Global,
    rows: &Rows,
    problem: &[u8],
    application: &[u8],
) -> Result<(), NoMemory>
    ensures { OnOk result (text.new ≡ text.old ++ numbered (step_line problem.now application.now) 1 (cascade_of rows.now problem.now application.now)) }
{
    let cascade = rows.cascade(alloc, problem, application)?;
    let steps = cascade.as_slice();
    for at in 0..steps.len() {
        add_step(text, problem, application, at as u64 + 1, &steps[at])?;
    }
    Ok(())
}

/// Whether an application fails on a platform.
fn fails(rows: &Rows, problem: &[u8], application: &[u8], platform: &[u8]) -> bool
    ensures { result ≡ is_failing rows.now problem.now application.now platform.now }
{
    rows.efficiency(problem, application, platform).is_none()
}

/// Those of the platforms on which an application fails.
#[tactic(auto, using(crate::proofs::Passing::passing))]
fn failing_on(
    alloc: Global,
    rows: &Rows,
    problem: &[u8],
    application: &[u8],
    platforms: &[Bytes],
) -> Result<Texts, NoMemory>
    ensures { IfOk result (λ names. names ≡ filter (is_failing rows.now problem.now application.now) platforms.now) }
{
    let mut names = Texts::new(alloc);
    'platforms: for platform in platforms {
        if fails(rows, problem, application, platform.as_slice()) {
            names.push(platform.copy(alloc)?)?;
        }
    }
    Ok(names)
}

/// Adds names joined by commas.
fn add_listed(text: &mut Text, names: &[Bytes]) -> Result<(), NoMemory>
    ensures { OnOk result (text.new ≡ text.old ++ listed names.now) }
{
    for at in 0..names.len() {
        add_separator(text, at)?;
        text.add(names[at].as_slice())?;
    }
    Ok(())
}

/// Adds where an application fails, if it does.
fn add_failing(text: &mut Text, names: &[Bytes]) -> Result<(), NoMemory>
    ensures { OnOk result (text.new ≡ text.old ++ failing_text names.now) }
{
    if names.len() == 0 {
        return Ok(());
    }
    text.add(b" fails on ")?;
    add_listed(text, names)
}

/// The platforms on which an application fails, from its portability, which is positive only where it fails on none.
fn failing(
    alloc: Global,
    rows: &Rows,
    problem: &[u8],
    application: &[u8],
    portability: u64,
) -> Result<Texts, NoMemory>
    requires { portability ≡ portability_of rows.now problem.now application.now }
    ensures { IfOk result (λ names. names ≡ filter (is_failing rows.now problem.now application.now) (platforms_of rows.now problem.now)) }
{
    if portability > 0 {
        return Ok(Texts::new(alloc));
    }
    let platforms = rows.platforms(alloc, problem)?;
    failing_on(alloc, rows, problem, application, platforms.as_slice())
}

/// Adds the portability of an application for a problem, and where it fails.
pub(crate) fn add_portability(
    text: &mut Text,
    alloc: Global,
    rows: &Rows,
    problem: &[u8],
    application: &[u8],
) -> Result<(), NoMemory>
    ensures { OnOk result (text.new ≡ text.old ++ portability_line rows.now problem.now application.now) }
{
    let portability = rows.portability(problem, application);
    let names = failing(alloc, rows, problem, application, portability)?;
    add_run_name(text, problem, application)?;
    add_six_places(text, portability)?;
    add_failing(text, names.as_slice())?;
    text.end_line()
}

/// Adds convergence beside the portability of an application for a problem.
pub(crate) fn add_navigation(
    text: &mut Text,
    pairs: &[Fraction],
    rows: &Rows,
    problem: &[u8],
    application: &[u8],
) -> Result<(), NoMemory>
    ensures { OnOk result (text.new ≡ text.old ++ navigation_line pairs.now rows.now problem.now application.now) }
{
    add_run_name(text, problem, application)?;
    add_convergence(text, pairs)?;
    text.add(b",")?;
    add_six_places(text, rows.portability(problem, application))?;
    text.end_line()
}
