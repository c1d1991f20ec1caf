//! A source in memory.
ghost use Rattle.std.specs.Prelude.{◌≡◌, ◌<◌, ◌≤◌, ◌↔◌, length, take, drop, min, Some, IfOk, OnOk, OnErr, IsErr};
ghost use Rattle.std.specs.Io.KnownBytes.{ReadConsumes};
ghost use Rattle.cb_outside.specs.Outside.{Rose, one_more};
ghost use Rattle.cb_outside.specs.Memory.{IsDue, given_next, piece_in};

use crate::failed::Failed;
use crate::numbers::Numbers;
use crate::parts::rest;
use crate::source::Source;
use cb_paths::Bytes;
use std::marker::Model;

/// A source that gives bytes from memory, in pieces of stated sizes, and fails at stated reads.
#[derive(Drop)]
pub struct MemSource {
    bytes: Bytes,
    given: usize,
    pieces: Numbers,
    fails: Numbers,
    calls: u64,
    faults: u64,
}

impl Model for MemSource {
    ghost use Rattle.std.specs.Prelude.{◌≤◌, length, drop};
    ghost use Rattle.cb_outside.specs.Memory.{SourceState};

    ghost Value = { SourceState };

    ghost view = { λ s. record {
      left = drop s.given s.bytes;
      pieces = s.pieces;
      fails = s.fails;
      calls = s.calls;
      faults = s.faults;
    } };

    ghost invariant = { λ s. s.given ≤ length s.bytes };
}

impl MemSource {
    /// A source of these bytes. Read number k, counted from 1, fails where k stands in `fails`, and gives at most as
    /// many bytes as the k-th number of `pieces`, where 0 counts as 1; without such a number it gives what fits.
    pub fn new(bytes: Bytes, pieces: Numbers, fails: Numbers) -> MemSource
        ensures { result ≡ record {
          left = bytes;
          pieces = pieces;
          fails = fails;
          calls = 0;
          faults = 0;
        } }
    {
        MemSource {
            bytes,
            given: 0,
            pieces,
            fails,
            calls: 0,
            faults: 0,
        }
    }
}

impl Source for MemSource {
    ghost left = { λ s. Some s.left };

    ghost faults = { λ s. s.faults };

    fn read(&mut self, buf: &mut [u8]) -> Result<usize, Failed>
        ensures within { IfOk result (λ n. n ≤ length buf.new) }
        ensures content { ReadConsumes (Some self.old.left) (Some self.new.left) result buf.new }
        ensures kept { OnOk result (self.new.faults ≡ self.old.faults) }
        ensures rose { OnErr result (Rose self.old.faults self.new.faults) }
        ensures never_falls { self.old.faults ≤ self.new.faults }

        ensures fails { IsErr result ↔ IsDue self.old.fails self.old.calls }
        ensures behind { IfOk result (λ n. drop n buf.new ≡ drop n buf.old) }
        ensures untouched { OnErr result (buf.new ≡ buf.old) }
        ensures count { IfOk result (λ n. n ≡ given_next self.old (length buf.old)) }
        ensures ok { IfOk result (λ n. self.new ≡ record self.old {
          left = drop n self.old.left;
          calls = one_more self.old.calls;
        }) }
        ensures err { OnErr result (self.new ≡ record self.old {
          calls = one_more self.old.calls;
          faults = one_more self.old.faults;
        }) }
    {
        let fails = self.fails.has_next(self.calls);
        let piece = self.pieces.get(self.calls);
        self.calls = self.calls.saturating_add(1);
        if fails {
            self.faults = self.faults.saturating_add(1);
            return Err(Failed);
        }
        let most = most_of_room(piece, buf.len());
        let count = copy_front(rest(self.bytes.as_slice(), self.given), buf, most);
        self.given += count;
        Ok(count)
    }
}

/// How much of this room a piece fills at most.
fn most_of_room(piece: Option<u64>, room: usize) -> usize
    ensures value { result ≡ piece_in piece room }
    ensures within { result ≤ room }
    ensures some { 0 < room → 0 < result }
{
    match piece {
        None => room,
        Some(size) => (size.max(1) as usize).min(room),
    }
}

/// Copies at most `most` bytes from the front of `from` to the front of `to`, and answers how many.
fn copy_front(from: &[u8], to: &mut [u8], most: usize) -> usize
    requires { most ≤ length to.old }
    ensures count { result ≡ min (length from.now) most }
    ensures copied { take result to.new ≡ take result from.now }
    ensures behind { drop result to.new ≡ drop result to.old }
{
    let count = from.len().min(most);
    to[..count].copy_from_slice(&from[..count]);
    count
}
