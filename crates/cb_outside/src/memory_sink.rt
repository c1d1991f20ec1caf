//! A sink in memory.
ghost use Rattle.std.specs.Prelude.{◌≡◌, ◌++◌, ◌<◌, ◌≤◌, ◌↔◌, [], length, take, min, Some, IfOk, OnOk, OnErr, IsErr};
ghost use Rattle.std.specs.Io.KnownBytes.{WriteAppends};
ghost use Rattle.cb_outside.specs.Outside.{Rose, one_more};
ghost use Rattle.cb_outside.specs.Memory.{Refuses, taken_next};

use crate::failed::Failed;
use crate::numbers::Numbers;
use crate::sink::Sink;
use cb_paths::NoMemory;
use std::alloc::Global;
use std::marker::Model;

/// A sink that keeps what it takes in memory, up to its room, and fails at stated writes.
#[derive(Drop)]
pub struct MemSink {
    bytes: Vec<u8>,
    room: usize,
    fails: Numbers,
    calls: u64,
    faults: u64,
}

impl Model for MemSink {
    ghost use Rattle.std.specs.Prelude.{◌≤◌, vec_len, vec_capacity};
    ghost use Rattle.cb_outside.specs.Memory.{SinkState};

    ghost Value = { SinkState };

    ghost view = { λ s. record {
      taken = s.bytes.items;
      room = s.room;
      fails = s.fails;
      calls = s.calls;
      faults = s.faults;
    } };

    ghost invariant = { λ s. (vec_len s.bytes ≤ s.room) × (s.room ≤ vec_capacity s.bytes) };
}

impl MemSink {
    /// A sink with room for this many bytes, which it takes now: no write wants memory. Write number k, counted from
    /// 1, fails where k stands in `fails`, and where no room is left for a piece that is not empty.
    pub fn new(alloc: Global, room: usize, fails: Numbers) -> Result<MemSink, NoMemory>
        ensures { IfOk result (λ s. s ≡ record {
          taken = [];
          room = room;
          fails = fails;
          calls = 0;
          faults = 0;
        }) }
    {
        let bytes = Vec::with_capacity(alloc, room)?;
        Ok(MemSink {
            bytes,
            room,
            fails,
            calls: 0,
            faults: 0,
        })
    }

    /// The bytes that were taken.
    pub fn taken(&self) -> &[u8]
        ensures { result.now ≡ self.now.taken }
    {
        self.bytes.as_slice()
    }
}

impl Sink for MemSink {
    ghost taken = { λ s. Some s.taken };

    ghost faults = { λ s. s.faults };

    fn write(&mut self, bytes: &[u8]) -> Result<usize, Failed>
        ensures within { IfOk result (λ n. n ≤ length bytes.now) }
        ensures some { 0 < length bytes.now → IfOk result (λ n. 0 < n) }
        ensures content { WriteAppends (Some self.old.taken) (Some self.new.taken) result bytes.now }
        ensures kept { OnOk result (self.new.faults ≡ self.old.faults) }
        ensures rose { OnErr result (Rose self.old.faults self.new.faults) }
        ensures never_falls { self.old.faults ≤ self.new.faults }

        ensures fails { IsErr result ↔ Refuses self.old (length bytes.now) }
        ensures count { IfOk result (λ n. n ≡ taken_next self.old (length bytes.now)) }
        ensures ok { IfOk result (λ n. self.new ≡ record self.old {
          taken = self.old.taken ++ take n bytes.now;
          calls = one_more self.old.calls;
        }) }
        ensures err { OnErr result (self.new ≡ record self.old {
          calls = one_more self.old.calls;
          faults = one_more self.old.faults;
        }) }
    {
        let fails = self.fails.has_next(self.calls);
        let free = self.room - self.bytes.len();
        self.calls = self.calls.saturating_add(1);
        if fails || (free == 0 && !bytes.is_empty()) {
            self.faults = self.faults.saturating_add(1);
            return Err(Failed);
        }
        let count = bytes.len().min(free);
        self.bytes.extend_from_slice(&bytes[..count]).unwrap();
        Ok(count)
    }
}
