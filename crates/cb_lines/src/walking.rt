//! A walk over the marks of a source.
ghost use Rattle.std.specs.Prelude.{◌≡◌, ◌≢◌, ◌+◌, ◌-◌, ◌^◌, ◌<◌, ◌≤◌, ◌↔◌, ℕ};
ghost use Rattle.std.specs.Prelude.{false, List, length, slice_index, take, drop, min, if◌then◌else◌, OnOk, IsTrue};
ghost use Rattle.cb_lines.specs.inner.Held.{marks_held, feeds, passed, Rises};
ghost use Rattle.cb_lines.specs.Marks.{bytes_of, first_line, is_line_feed};
ghost use Rattle.cb_lines.specs.Lines.{with_line, with_lines, StandOn};

use crate::line_set::Lines;
use crate::mark::Marks;
use crate::splicing::{LINE_FEED, line_behind};
use cb_paths::NoMemory;
use std::marker::Model;

/// A walk over marks, which contracts see as the list of the marks that are left.
#[derive(Drop)]
pub struct Walk<'a> {
    bytes: &'a [u8],
    /// The splices behind the next mark.
    splices: &'a [usize],
    /// The number of the marks before the next one.
    at: usize,
    /// The line of the next mark.
    line: u32,
}

impl<'a> Model for Walk<'a> {
    ghost use Rattle.std.specs.Prelude.{List, length, ◌+◌, ◌^◌, ◌<◌};
    ghost use Rattle.cb_lines.specs.declared.mark.Mark.{Mark};

    ghost Value = { List Mark };

    ghost use Rattle.cb_lines.specs.inner.Held.{marks_held, Rises};

    ghost view = { λ w. marks_held w.line w.at w.bytes.now w.splices.now };

    ghost invariant = { λ w. Rises (w.at + 1) w.splices.now × (w.at + length w.bytes.now < 2 ^ 64) };
}

impl<'a> Walk<'a> {
    /// A walk from the first mark on.
    pub fn new(marks: &'a Marks<'a>) -> Walk<'a>
        ensures { result ≡ marks.now }
    {
        let (splices, line) = past_splices(marks.splices.as_slice(), 0, 1);
        Walk {
            bytes: marks.bytes.as_slice(),
            splices,
            at: 0,
            line,
        }
    }

    /// The bytes of the marks that are left.
    pub fn rest(&self) -> &'a [u8]
        ensures { result.now ≡ bytes_of self.now }
    {
        self.bytes
    }

    /// The line of the first mark that is left.
    pub fn line(&self) -> u32
        requires { 0 < length self.now }
        ensures { result ≡ first_line self.now }
    {
        self.line
    }

    /// Goes past marks.
    pub fn pass(&mut self, count: usize)
        requires { count ≤ length self.old }
        ensures { self.new ≡ drop count self.old }
    {
        let (passed, rest) = self.bytes.split_at(count);
        let at = self.at + count;
        let (splices, line) = past_splices(self.splices, at, line_behind_all(self.line, passed));
        self.bytes = rest;
        self.splices = splices;
        self.at = at;
        self.line = line;
    }

    /// The bytes of the marks that are left before the next splice: at least one, if a mark is left. Those up to the
    /// first LF, this among them, stand on the line of the first one. A mark that is left behind them stands at least
    /// a line further than their last byte leads to, or on the last line that has a number.
    pub fn row(&self) -> &'a [u8]
        ensures some { 0 < length self.now → 0 < length result.now }
        ensures within { length result.now ≤ length self.now }
        ensures front { result.now ≡ take (length result.now) (bytes_of self.now) }
        ensures one_line { (count : ℕ) → count ≤ length result.now → ((k : ℕ) → k + 1 < count
            → is_line_feed (slice_index result.now k) ≡ false)
            → StandOn (first_line self.now) (take count self.now) }
        ensures whole { (count : ℕ) → length result.now ≡ count + 1 → count + 1 < length self.now
            → min (2 ^ 32 - 1) (first_line (drop count self.now)
            + (if is_line_feed (slice_index result.now count) then 1 else 0) + 1) ≤ first_line (drop (count + 1) self.now) }
    {
        let len = self.bytes.len();
        if len == 0 {
            return self.bytes;
        }
        &self.bytes[..marks_to_splice(self.splices, self.at, len)]
    }

    /// Goes past marks of which none but the last is an LF, in the same time for any number of them.
    pub fn pass_row(&mut self, count: usize)
        requires full { 0 < count }
        requires within { count ≤ length self.old }
        requires plain { (k : ℕ) → k + 1 < count → is_line_feed (slice_index (bytes_of self.old) k) ≡ false }
        ensures { self.new ≡ drop count self.old }
    {
        let line = line_behind(self.line, self.bytes[count - 1]);
        let (_, rest) = self.bytes.split_at(count);
        let at = self.at + count;
        let (splices, line) = past_splices(self.splices, at, line);
        self.bytes = rest;
        self.splices = splices;
        self.at = at;
        self.line = line;
    }

    /// Goes past marks and adds their lines to a set. Its one error is out of memory, after which both may be used on,
    /// and no more is said of them.
    pub fn pass_counted(&mut self, count: usize, lines: &mut Lines) -> Result<(), NoMemory>
        requires { count ≤ length self.old }
        ensures passed { OnOk result (self.new ≡ drop count self.old) }
        ensures counted { OnOk result (lines.new ≡ with_lines (take count self.old) lines.old) }
    {
        let mut left = count;
        'rows: while left > 0 {
            let row = self.row_len(left);
            lines.add(self.line())?;
            self.pass_row(row);
            left -= row;
        }
        Ok(())
    }

    /// Goes past marks of which none but the last is an LF, and adds their lines to a set, with a look at splices
    /// alone. Its one error is out of memory, after which both may be used on, and no more is said of them.
    pub fn pass_row_counted(&mut self, count: usize, lines: &mut Lines) -> Result<(), NoMemory>
        requires within { count ≤ length self.old }
        requires plain { (k : ℕ) → k + 1 < count → is_line_feed (slice_index (bytes_of self.old) k) ≡ false }
        ensures passed { OnOk result (self.new ≡ drop count self.old) }
        ensures counted { OnOk result (lines.new ≡ with_lines (take count self.old) lines.old) }
    {
        if count == 0 {
            return Ok(());
        }
        if self.plain_row_len(count) < count {
            return self.pass_parts_counted(count, lines);
        }
        lines.add(self.line())?;
        self.pass_row(count);
        Ok(())
    }

    /// The same, where splices may stand among the marks. It stays out of the way of the calls that pass none.
    #[inline(never)]
    fn pass_parts_counted(&mut self, count: usize, lines: &mut Lines) -> Result<(), NoMemory>
        requires within { count ≤ length self.old }
        requires plain { (k : ℕ) → k + 1 < count → is_line_feed (slice_index (bytes_of self.old) k) ≡ false }
        ensures passed { OnOk result (self.new ≡ drop count self.old) }
        ensures counted { OnOk result (lines.new ≡ with_lines (take count self.old) lines.old) }
    {
        let mut left = count;
        'parts: while left > 0 {
            let part = self.plain_row_len(left);
            lines.add(self.line())?;
            self.pass_row(part);
            left -= part;
        }
        Ok(())
    }

    /// How many of the first marks that are left stand before the next splice, up to a number of marks of which none
    /// but the last is an LF.
    fn plain_row_len(&self, most: usize) -> usize
        requires full { 0 < most }
        requires within { most ≤ length self.now }
        requires plain { (k : ℕ) → k + 1 < most → is_line_feed (slice_index (bytes_of self.now) k) ≡ false }
        ensures within { (0 < result) × (result ≤ most) }
        ensures one_line { (set : List ℕ) → with_lines (take result self.now) set
            ≡ with_line (first_line self.now) set }
    {
        marks_to_splice(self.splices, self.at, most)
    }

    /// How many of the first marks that are left, up to a number, stand on the line of the first one.
    fn row_len(&self, most: usize) -> usize
        requires full { 0 < most }
        requires within { most ≤ length self.now }
        ensures within { (0 < result) × (result ≤ most) }
        ensures plain { (k : ℕ) → k + 1 < result → is_line_feed (slice_index (bytes_of self.now) k) ≡ false }
        ensures one_line { (set : List ℕ) → with_lines (take result self.now) set
            ≡ with_line (first_line self.now) set }
    {
        let reach = marks_to_splice(self.splices, self.at, most);
        let (ahead, _) = self.bytes.split_at(reach);
        bytes_to_feed(ahead)
    }
}

/// The line behind bytes that begin on a line.
fn line_behind_all(from: u32, bytes: &[u8]) -> u32
    ensures { result ≡ min (2 ^ 32 - 1) (from + feeds bytes.now) }
{
    let mut line = from;
    for byte in bytes {
        line = line_behind(line, *byte);
    }
    line
}

/// Whether the splice at a place stands at a mark or before it.
fn is_passed(splices: &[usize], place: usize, at: usize) -> bool
    ensures { IsTrue result ↔ ((place < length splices.now) × slice_index splices.now place ≤ at) }
{
    place < splices.len() && splices[place] <= at
}

/// The splices behind the mark `at`, and the line of this mark, where it is given without these splices.
fn past_splices(splices: &[usize], at: usize, from: u32) -> (&[usize], u32)
    requires { Rises 0 splices.now }
    ensures rises { Rises (at + 1) result.0.now }
    ensures same { (bytes : List ℕ) → marks_held result.1 at bytes result.0.now ≡ marks_held from at bytes splices.now }
{
    let mut line = from;
    let mut count = 0;
    'splices: while is_passed(splices, count, at) {
        count += 1;
        line = line.saturating_add(1);
    }
    (&splices[count..], line)
}

/// How many marks from the mark `at` on, up to a number, stand before the next splice.
fn marks_to_splice(splices: &[usize], at: usize, most: usize) -> usize
    requires rises { Rises (at + 1) splices.now }
    requires full { 0 < most }
    ensures within { (0 < result) × (result ≤ most) }
    ensures before { Rises (at + result) splices.now }
    ensures whole { result < most → passed (at + result) splices.now ≢ 0 }
{
    if splices.is_empty() {
        return most;
    }
    most.min(splices[0] - at)
}

/// How many bytes there are up to the first LF, this among them.
fn bytes_to_feed(bytes: &[u8]) -> usize
    requires { 0 < length bytes.now }
    ensures within { (0 < result) × (result ≤ length bytes.now) }
    ensures plain { (k : ℕ) → k + 1 < result → is_line_feed (slice_index bytes.now k) ≡ false }
{
    for (i, byte) in bytes.iter().enumerate() {
        if *byte == LINE_FEED {
            return i + 1;
        }
    }
    bytes.len()
}
