//! The report of the lines that platforms share, of coverage and of divergence.
ghost use Rattle.std.specs.Prelude.{◌≡◌, ◌++◌, ◌≤◌, map, OnOk, IfOk};
ghost use Rattle.std.specs.List.{flat_map};
ghost use Rattle.cb_paths.specs.Grid.{share as share_in};
ghost use Rattle.cb_sets.specs.Sets.{members};
ghost use Rattle.cb_sets.specs.Tallies.{lines_where, is_any};
ghost use Rattle.cb_sets.specs.inner.Rows.{seen};
ghost use Rattle.cb_reports.specs.Words.{listed, platform_name as name_in, numbered, set_text};
ghost use Rattle.cb_reports.specs.Summary.{platform_line, set_line, total_of, coverage_text, average_text, divergence_text, convergence_text, sets_text, coverages_text, divergence_line, convergence_line, summary_text};

use crate::names::{add_separator, platform_name};
use crate::places::{add_four_places, add_percent};
use crate::text::Text;
use cb_diverge::{Fraction, divergence};
use cb_paths::{Bytes, GRID_UNITS, NoMemory, share};
use cb_sets::{PLATFORM_LIMIT, PlatformSet, Row, Setmap, average, coverage};
use std::alloc::Global;

/// Adds the line of a platform.
fn add_platform(text: &mut Text, number: u64, name: &Bytes) -> Result<(), NoMemory>
    ensures { OnOk result (text.new ≡ text.old ++ platform_line number name.now) }
{
    text.add_number(number)?;
    text.add(b" ")?;
    text.add(name.as_slice())?;
    text.end_line()
}

/// Adds the lines of platforms, numbered from 1.
fn add_platforms(text: &mut Text, names: &[Bytes]) -> Result<(), NoMemory>
    ensures { OnOk result (text.new ≡ text.old ++ numbered platform_line 1 names.now) }
{
    for at in 0..names.len() {
        add_platform(text, at as u64 + 1, &names[at])?;
    }
    Ok(())
}

/// Adds the names of the platforms of a set, joined by commas.
fn add_names_of(text: &mut Text, names: &[Bytes], set: PlatformSet) -> Result<(), NoMemory>
    ensures { OnOk result (text.new ≡ text.old ++ listed (map (name_in names.now) (members set))) }
{
    let mut count = 0;
    for place in 0..PLATFORM_LIMIT {
        if set.has(place + 1) {
            add_separator(text, count)?;
            text.add(platform_name(names, place + 1))?;
            count += 1;
        }
    }
    Ok(())
}

/// Adds a set of platforms.
fn add_platform_set(text: &mut Text, names: &[Bytes], set: PlatformSet) -> Result<(), NoMemory>
    ensures { OnOk result (text.new ≡ text.old ++ set_text names.now (members set)) }
{
    text.add(b"{")?;
    add_names_of(text, names, set)?;
    text.add(b"}")
}

/// The share of some lines in all lines; of no line it is 0.
fn share_of(lines: u64, total: u64) -> u64
    requires { lines ≤ total }
    ensures value { result ≡ share_in lines total }
    ensures within { result ≤ 1000000000000 }
{
    if total == 0 { 0 } else { share(lines, total) }
}

/// Adds the line of a set.
fn add_row(text: &mut Text, names: &[Bytes], row: &Row, total: u64) -> Result<(), NoMemory>
    requires { row.now.lines ≤ total }
    ensures { OnOk result (text.new ≡ text.old ++ set_line names.now total (seen row.now)) }
{
    add_platform_set(text, names, row.set)?;
    text.add(b" ")?;
    text.add_number(row.lines)?;
    text.add(b" ")?;
    add_percent(text, share_of(row.lines, total))?;
    text.end_line()
}

/// Adds the lines of sets.
fn add_rows(text: &mut Text, names: &[Bytes], rows: &[Row], total: u64) -> Result<(), NoMemory>
    requires { total ≡ lines_where is_any (map seen rows.now) }
    ensures { OnOk result (text.new ≡ text.old ++ flat_map (set_line names.now total) (map seen rows.now)) }
{
    for at in 0..rows.len() {
        add_row(text, names, &rows[at], total)?;
    }
    Ok(())
}

/// Adds the number of all lines, and the lines of sets.
fn add_sets(text: &mut Text, names: &[Bytes], setmap: &Setmap) -> Result<(), NoMemory>
    ensures { OnOk result (text.new ≡ text.old ++ sets_text names.now setmap.now) }
{
    let total = setmap.total();
    text.add(b"lines ")?;
    text.add_number(total)?;
    text.end_line()?;
    add_rows(text, names, setmap.rows(), total)
}

/// Adds coverage, where there is one.
#[tactic(auto, unfolding(crate::specs::Summary::coverage_text))]
fn add_coverage(text: &mut Text, setmap: &Setmap) -> Result<(), NoMemory>
    ensures { OnOk result (text.new ≡ text.old ++ coverage_text setmap.now) }
{
    match coverage(setmap) {
        Some(value) => add_percent(text, value),
        None => text.add(b"n/a"),
    }
}

/// Adds average coverage, where there is one.
#[tactic(auto, unfolding(crate::specs::Summary::average_text))]
fn add_average(text: &mut Text, setmap: &Setmap) -> Result<(), NoMemory>
    ensures { OnOk result (text.new ≡ text.old ++ average_text setmap.now) }
{
    match average(setmap) {
        Some(value) => add_percent(text, value),
        None => text.add(b"n/a"),
    }
}

/// Adds divergence, where there is one.
#[tactic(auto, unfolding(crate::specs::Summary::divergence_text))]
fn add_divergence(text: &mut Text, pairs: &[Fraction]) -> Result<(), NoMemory>
    ensures { OnOk result (text.new ≡ text.old ++ divergence_text pairs.now) }
{
    match divergence(pairs) {
        Some(value) => add_four_places(text, value),
        None => text.add(b"n/a"),
    }
}

/// Adds what divergence leaves to one, where there is one.
#[tactic(auto, unfolding(crate::specs::Summary::convergence_text))]
pub(crate) fn add_convergence(text: &mut Text, pairs: &[Fraction]) -> Result<(), NoMemory>
    ensures { OnOk result (text.new ≡ text.old ++ convergence_text pairs.now) }
{
    match divergence(pairs) {
        Some(value) => add_four_places(text, GRID_UNITS - value),
        None => text.add(b"n/a"),
    }
}

/// Adds coverage and average coverage.
fn add_coverages(text: &mut Text, setmap: &Setmap) -> Result<(), NoMemory>
    ensures { OnOk result (text.new ≡ text.old ++ coverages_text setmap.now) }
{
    text.add(b"coverage ")?;
    add_coverage(text, setmap)?;
    text.end_line()?;
    text.add(b"average coverage ")?;
    add_average(text, setmap)?;
    text.end_line()
}

/// Adds the line of divergence.
fn add_divergence_line(text: &mut Text, pairs: &[Fraction]) -> Result<(), NoMemory>
    ensures { OnOk result (text.new ≡ text.old ++ divergence_line pairs.now) }
{
    text.add(b"divergence ")?;
    add_divergence(text, pairs)?;
    text.end_line()
}

/// Adds the line of convergence.
fn add_convergence_line(text: &mut Text, pairs: &[Fraction]) -> Result<(), NoMemory>
    ensures { OnOk result (text.new ≡ text.old ++ convergence_line pairs.now) }
{
    text.add(b"convergence ")?;
    add_convergence(text, pairs)?;
    text.end_line()
}

/// The whole report.
pub(crate) fn summary(
    alloc: Global,
    names: &[Bytes],
    setmap: &Setmap,
    pairs: &[Fraction],
) -> Result<Text, NoMemory>
    ensures { IfOk result (λ text. text ≡ summary_text names.now setmap.now pairs.now) }
{
    let mut text = Text::new(alloc);
    text.add(b"platforms ")?;
    text.add_number(names.len() as u64)?;
    text.end_line()?;
    add_platforms(&mut text, names)?;
    add_sets(&mut text, names, setmap)?;
    add_coverages(&mut text, setmap)?;
    add_divergence_line(&mut text, pairs)?;
    add_convergence_line(&mut text, pairs)?;
    Ok(text)
}
