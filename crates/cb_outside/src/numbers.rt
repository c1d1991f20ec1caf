//! A list of numbers.
ghost use Rattle.std.specs.Prelude.{◌≡◌, ℕ, ◌+◌, ◌↔◌, [], IfOk, IsTrue, Contains, slice_get};
ghost use Rattle.cb_outside.specs.Memory.{IsDue};

use cb_paths::NoMemory;
use std::alloc::Global;
use std::marker::Model;

/// A vector of numbers, which contracts see as the list of them.
#[derive(Drop)]
pub struct Numbers {
    items: Vec<u64>,
}

impl Model for Numbers {
    ghost use Rattle.std.specs.Prelude.{List, ℕ};

    ghost Value = { List ℕ };

    ghost view = { λ n. n.items.items };
}

impl Numbers {
    /// No number.
    pub fn new(alloc: Global) -> Numbers
        ensures { result ≡ [] }
    {
        Numbers {
            items: Vec::new(alloc),
        }
    }

    /// A copy of these numbers.
    pub fn from_slice(alloc: Global, numbers: &[u64]) -> Result<Numbers, NoMemory>
        ensures { IfOk result (λ n. n ≡ numbers.now) }
    {
        let items = Vec::from_slice(alloc, numbers)?;
        Ok(Numbers { items })
    }

    /// The numbers in order.
    pub fn as_slice(&self) -> &[u64]
        ensures { result.now ≡ self.now }
    {
        self.items.as_slice()
    }

    /// Whether the call after this many calls stands among the numbers, where calls are counted from 1.
    pub(crate) fn has_next(&self, calls: u64) -> bool
        ensures { IsTrue result ↔ IsDue self.now calls }
    {
        for number in self.as_slice() {
            if number.checked_sub(1) == Some(calls) {
                return true;
            }
        }
        false
    }

    /// The number for the call after this many calls, if there is one.
    pub(crate) fn get(&self, calls: u64) -> Option<u64>
        ensures { result ≡ slice_get self.now calls }
    {
        self.as_slice().get(calls as usize).copied()
    }
}
