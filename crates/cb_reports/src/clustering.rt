//! The report of distances, merges and classes.
ghost use Rattle.std.specs.Prelude.{◌≡◌, ◌++◌, ◌<◌, ◌^◌, List, length, OnOk, IfOk};
ghost use Rattle.std.specs.List.{flat_map};
ghost use Rattle.cb_cluster.specs.declared.merge.Merge.{Merge};
ghost use Rattle.cb_cluster.specs.Links.{pairs_of, links_of};
ghost use Rattle.cb_cluster.specs.Names.{singles};
ghost use Rattle.cb_cluster.specs.Merging.{AreMerges};
ghost use Rattle.cb_reports.specs.Clustering.{distance_line, merge_line, spaced_set, height_line, cut_line, heights_of, clusters_text, IsClusteringText};
ghost use Rattle.cb_reports.specs.Words.{numbered};

use crate::names::{add_set, platform_name};
use crate::places::add_four_places;
use crate::text::Text;
use cb_cluster::{Link, Members, Merge, classes_after, links, merges};
use cb_diverge::{Fraction, grid, less};
use cb_paths::{Bytes, NoMemory};
use std::alloc::Global;

/// Adds the line of two platforms.
fn add_distance(text: &mut Text, names: &[Bytes], link: &Link) -> Result<(), NoMemory>
    ensures { OnOk result (text.new ≡ text.old ++ distance_line names.now link.now) }
{
    text.add(b"distance ")?;
    text.add(platform_name(names, link.left))?;
    text.add(b" ")?;
    text.add(platform_name(names, link.right))?;
    text.add(b" ")?;
    add_four_places(text, grid(link.distance))?;
    text.end_line()
}

/// Adds the lines of all pairs of platforms.
fn add_distances(text: &mut Text, names: &[Bytes], links: &[Link]) -> Result<(), NoMemory>
    ensures { OnOk result (text.new ≡ text.old ++ flat_map (distance_line names.now) links.now) }
{
    for at in 0..links.len() {
        add_distance(text, names, &links[at])?;
    }
    Ok(())
}

/// Adds the line of a merge.
fn add_merge(text: &mut Text, names: &[Bytes], number: u64, merge: &Merge) -> Result<(), NoMemory>
    ensures { OnOk result (text.new ≡ text.old ++ merge_line names.now number merge.now) }
{
    text.add(b"merge ")?;
    text.add_number(number)?;
    text.add(b" ")?;
    add_set(text, names, merge.left.as_slice())?;
    text.add(b" ")?;
    add_set(text, names, merge.right.as_slice())?;
    text.add(b" ")?;
    add_four_places(text, grid(merge.height))?;
    text.end_line()
}

/// Adds the lines of merges, numbered from 1.
fn add_merges(text: &mut Text, names: &[Bytes], merges: &[Merge]) -> Result<(), NoMemory>
    ensures { OnOk result (text.new ≡ text.old ++ numbered (merge_line names.now) 1 merges.now) }
{
    for at in 0..merges.len() {
        add_merge(text, names, at as u64 + 1, &merges[at])?;
    }
    Ok(())
}

/// Adds classes as sets, each behind a space.
fn add_classes(text: &mut Text, names: &[Bytes], classes: &[Members]) -> Result<(), NoMemory>
    ensures { OnOk result (text.new ≡ text.old ++ flat_map (spaced_set names.now) classes.now) }
{
    for at in 0..classes.len() {
        text.add(b" ")?;
        add_set(text, names, classes[at].as_slice())?;
    }
    Ok(())
}

/// Adds a height and classes.
fn add_height(
    text: &mut Text,
    names: &[Bytes],
    height: Fraction,
    classes: &[Members],
) -> Result<(), NoMemory>
    ensures { OnOk result (text.new ≡ text.old ++ height_line names.now height classes.now) }
{
    text.add(b"cut ")?;
    add_four_places(text, grid(height))?;
    add_classes(text, names, classes)?;
    text.end_line()
}

/// Adds a height with the classes that stand after the merges up to it.
fn add_cut(
    text: &mut Text,
    alloc: Global,
    names: &[Bytes],
    merges: &[Merge],
    height: Fraction,
) -> Result<(), NoMemory>
    requires { length names.now < 2 ^ 32 }
    ensures { OnOk result (text.new ≡ text.old ++ cut_line names.now merges.now height) }
{
    let classes = classes_after(alloc, names.len() as u32, merges, height)?;
    add_height(text, names, height, classes.as_slice())
}

/// Adds the different heights of merges with their classes.
fn add_cuts(
    text: &mut Text,
    alloc: Global,
    names: &[Bytes],
    merges: &[Merge],
) -> Result<(), NoMemory>
    requires { length names.now < 2 ^ 32 }
    ensures { OnOk result (text.new ≡ text.old ++ flat_map (cut_line names.now merges.now) (heights_of merges.now)) }
{
    if merges.is_empty() {
        return Ok(());
    }
    let mut last = merges[0].height;
    add_cut(text, alloc, names, merges, last)?;
    for at in 1..merges.len() {
        let height = merges[at].height;
        if less(last, height) {
            add_cut(text, alloc, names, merges, height)?;
            last = height;
        }
    }
    Ok(())
}

/// The whole report.
pub(crate) fn clustering(
    alloc: Global,
    names: &[Bytes],
    pairs: &[Fraction],
) -> Result<Text, NoMemory>
    requires names { length names.now < 2 ^ 32 }
    requires pairs { length pairs.now ≡ length (pairs_of (length names.now)) }
    ensures { IfOk result (λ text. IsClusteringText names.now pairs.now text) }
{
    let mut text = Text::new(alloc);
    if names.len() < 2 {
        text.add(b"clustering n/a")?;
        text.end_line()?;
        return Ok(text);
    }
    add_clusters(&mut text, alloc, names, pairs)?;
    Ok(text)
}

/// Adds the distances, the merges and the classes of platforms.
fn add_clusters(
    text: &mut Text,
    alloc: Global,
    names: &[Bytes],
    pairs: &[Fraction],
) -> Result<(), NoMemory>
    requires names { length names.now < 2 ^ 32 }
    requires pairs { length pairs.now ≡ length (pairs_of (length names.now)) }
    ensures { OnOk result ((ms : List Merge) × AreMerges (links_of (length names.now) pairs.now) (singles (length names.now)) ms
        × (text.new ≡ text.old ++ clusters_text names.now pairs.now ms)) }
{
    let count = names.len() as u32;
    let links = links(alloc, count, pairs)?;
    add_distances(text, names, &links)?;
    let merges = merges(alloc, count, pairs)?;
    add_merges(text, names, merges.as_slice())?;
    add_cuts(text, alloc, names, merges.as_slice())
}
