//! Lines counted by the set of platforms that use them.
ghost use Rattle.std.specs.Prelude.{◌≡◌, ◌+◌, ◌^◌, ◌<◌, ◌≤◌, ◌&&◌, ◌||◌, ℕ};
ghost use Rattle.std.specs.Prelude.{Bool, List, [], length, map, count_by, IfOk, OnOk, OnErr};
ghost use Rattle.std.specs.Str.{bytes_eq};
ghost use Rattle.cb_lines.specs.Lines.{has_line};
ghost use Rattle.cb_sets.specs.Sets.{members, platform_limit};
ghost use Rattle.cb_sets.specs.Tallies.{users, with_file, lines_where, is_any, is_used, lines_of, AreInOrder, IsRow};
ghost use Rattle.std.specs.List.{All};
ghost use Rattle.cb_sets.specs.inner.Rows.{seen, Rise, IsWith};

use crate::counting::{Test, count_where};
use crate::platform_set::PlatformSet;
use crate::row::Row;
use crate::rows::add_span;
use cb_lines::Lines;
use cb_paths::NoMemory;
use std::alloc::Global;
use std::marker::Model;

/// For each set of platforms how many lines just these platforms use. Contracts see the number of platforms, and the
/// sets that have a line in the order of reports.
#[derive(Drop)]
pub struct Setmap {
    alloc: Global,
    platforms: u32,
    rows: Vec<Row>,
}

impl Model for Setmap {
    ghost use Rattle.std.specs.Prelude.{map, ◌<◌, ◌≤◌, ◌^◌};
    ghost use Rattle.cb_sets.specs.Sets.{platform_limit};
    ghost use Rattle.cb_sets.specs.Tallies.{Tally, IsRow, lines_where, is_any};
    ghost use Rattle.std.specs.List.{All};
    ghost use Rattle.cb_sets.specs.inner.Rows.{seen, Rise};

    ghost Value = { Tally };

    ghost view = { λ m. record { platforms = m.platforms; rows = map seen m.rows.items } };

    ghost invariant = { λ m. (m.platforms ≤ platform_limit) × Rise 0 m.rows.items
        × (lines_where is_any (map seen m.rows.items) < 2 ^ 32) × All (IsRow m.platforms) (map seen m.rows.items) };
}

/// Rows with the lines of a file more, each for the set of the platforms that use it.
fn rows_with(
    alloc: Global,
    rows: &[Row],
    counted: &Lines,
    used: &[Lines],
) -> Result<Vec<Row>, NoMemory>
    requires rising { Rise 0 rows.now }
    requires platforms { length used.now ≤ platform_limit }
    requires fits { lines_where is_any (map seen rows.now) + length counted.now < 2 ^ 32 }
    ensures { IfOk result (λ new. IsWith used.now counted.now rows.now new.items) }
{
    let mut new = Vec::from_slice(alloc, rows)?;
    'spans: for span in counted.spans() {
        add_span(&mut new, *span, used)?;
    }
    Ok(new)
}

impl Setmap {
    /// The setmap of no file, for a number of platforms.
    pub fn new(alloc: Global, platforms: u32) -> Setmap
        requires { platforms ≤ platform_limit }
        ensures { result ≡ record { platforms = platforms; rows = [] } }
    {
        Setmap {
            alloc,
            platforms,
            rows: Vec::new(alloc),
        }
    }

    /// Adds a file: the lines of it that are counted, and of these the lines that each platform uses, platform 1
    /// first. A line that is not counted does not matter. The time grows with the spans and the platforms, not with
    /// the lines. Its one error is out of memory, and then nothing has changed.
    pub fn add_file(&mut self, counted: &Lines, used: &[Lines]) -> Result<(), NoMemory>
        requires platforms { length used.now ≡ self.old.platforms }
        requires fits { lines_where is_any self.old.rows + length counted.now < 2 ^ 32 }
        ensures file { OnOk result (self.new ≡ with_file used.now counted.now self.old) }
        ensures counts { OnOk result ((test : List ℕ → Bool) → lines_where test self.new.rows
            ≡ lines_where test self.old.rows + count_by (λ line. test (users used.now line)) counted.now) }
        ensures unchanged { OnErr result (self.new ≡ self.old) }
    {
        self.rows = rows_with(self.alloc, self.rows.as_slice(), counted, used)?;
        Ok(())
    }

    /// The number of platforms that the setmap is made for.
    pub fn platforms(&self) -> u32
        ensures value { result ≡ self.now.platforms }
        ensures within { result ≤ platform_limit }
    {
        self.platforms
    }

    /// The sets that have a line, each with its lines, in the order of reports: by the number of members, then by
    /// their list.
    pub fn rows(&self) -> &[Row]
        ensures rows { map seen result.now ≡ self.now.rows }
        ensures order { AreInOrder self.now.rows }
        ensures known { All (IsRow self.now.platforms) self.now.rows }
    {
        self.rows.as_slice()
    }

    /// How many lines there are, those that no platform uses among them.
    pub fn total(&self) -> u64
        ensures value { result ≡ lines_where is_any self.now.rows }
        ensures small { result < 2 ^ 32 }
    {
        count_where(self.rows.as_slice(), Test::Any)
    }

    /// How many lines some platform uses.
    pub fn used(&self) -> u64
        ensures value { result ≡ lines_where is_used self.now.rows }
        ensures within { result ≤ lines_where is_any self.now.rows }
    {
        count_where(self.rows.as_slice(), Test::Used)
    }

    /// How many lines just the platforms of a set use.
    pub fn lines(&self, set: PlatformSet) -> u64
        ensures { result ≡ lines_where (bytes_eq (members set)) self.now.rows }
    {
        count_where(self.rows.as_slice(), Test::Is(set))
    }

    /// How many lines a platform uses.
    pub fn of(&self, platform: u32) -> u64
        requires some { 0 < platform }
        requires within { platform ≤ platform_limit }
        ensures value { result ≡ lines_of platform self.now }
        ensures within { result ≤ lines_where is_any self.now.rows }
    {
        count_where(self.rows.as_slice(), Test::Has(platform))
    }

    /// How many lines two platforms both use.
    pub fn both(&self, i: u32, j: u32) -> u64
        requires i_some { 0 < i }
        requires i_within { i ≤ platform_limit }
        requires j_some { 0 < j }
        requires j_within { j ≤ platform_limit }
        ensures value { result ≡ lines_where (λ set. has_line set i && has_line set j) self.now.rows }
        ensures within { result ≤ lines_where (λ set. has_line set i || has_line set j) self.now.rows }
    {
        count_where(self.rows.as_slice(), Test::Both(i, j))
    }

    /// How many lines at least one of two platforms uses.
    pub fn either(&self, i: u32, j: u32) -> u64
        requires i_some { 0 < i }
        requires i_within { i ≤ platform_limit }
        requires j_some { 0 < j }
        requires j_within { j ≤ platform_limit }
        ensures value { result ≡ lines_where (λ set. has_line set i || has_line set j) self.now.rows }
        ensures small { result < 2 ^ 32 }
    {
        count_where(self.rows.as_slice(), Test::Either(i, j))
    }
}
