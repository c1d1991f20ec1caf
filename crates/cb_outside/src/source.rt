//! What bytes are read from.
ghost use Rattle.std.specs.Prelude.{◌≡◌, ℕ, ◌≤◌, List, length, Option, IfOk, OnOk, OnErr};
ghost use Rattle.std.specs.Io.KnownBytes.{ReadConsumes};
ghost use Rattle.cb_outside.specs.Outside.{Rose};

use crate::failed::Failed;

/// What bytes are read from, in order.
pub trait Source {
    /// The bytes that are left, where the object tells them.
    ghost left: { Self → Option (List ℕ) };

    /// How many reads have failed. It never falls.
    ghost faults: { Self → ℕ };

    /// Reads the first bytes that are left into the front of `buf`, and answers how many: at least one if `buf` has
    /// room, or 0 at the end. A read that fails takes nothing from the source.
    fn read(&mut self, buf: &mut [u8]) -> Result<usize, Failed>
        ensures within { IfOk result (λ n. n ≤ length buf.new) }
        ensures content { ReadConsumes (left self.old) (left self.new) result buf.new }
        ensures kept { OnOk result (faults self.new ≡ faults self.old) }
        ensures rose { OnErr result (Rose (faults self.old) (faults self.new)) }
        ensures never_falls { faults self.old ≤ faults self.new };
}
