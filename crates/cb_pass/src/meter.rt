//! A count of nodes.
ghost use Rattle.std.specs.Prelude.{◌≡◌, ◌+◌, min};
ghost use Rattle.cb_pass.specs.Meters.{meter_limit};

use std::marker::Model;

/// A count of the nodes that passes have reached, which contracts see as a number. It stands at its last value,
/// 2^64 - 1, once that is reached.
#[derive(Drop)]
pub struct Meter {
    value: u64,
}

impl Model for Meter {
    ghost use Rattle.std.specs.Prelude.{ℕ};

    ghost Value = { ℕ };

    ghost view = { λ m. m.value };
}

impl Meter {
    /// A count of 0.
    pub fn new() -> Meter
        ensures { result ≡ 0 }
    {
        Meter { value: 0 }
    }

    /// The count.
    pub fn value(&self) -> u64
        ensures { result ≡ self.now }
    {
        self.value
    }

    /// Adds another count.
    pub fn join(&mut self, other: Meter)
        ensures { self.new ≡ min (self.old + other) meter_limit }
    {
        self.value = self.value.saturating_add(other.value);
    }

    /// Adds some nodes.
    pub(crate) fn rise(&mut self, nodes: u32)
        ensures { self.new ≡ min (self.old + nodes) meter_limit }
    {
        self.value = self.value.saturating_add(u64::from(nodes));
    }
}
