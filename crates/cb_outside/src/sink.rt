//! What bytes are written to.
ghost use Rattle.std.specs.Prelude.{◌≡◌, ℕ, ◌<◌, ◌≤◌, List, length, take, Option, IfOk, OnOk, OnErr};
ghost use Rattle.std.specs.Io.KnownBytes.{Appends, WriteAppends};
ghost use Rattle.cb_outside.specs.Outside.{Rose};

use crate::failed::Failed;
use crate::parts::rest;

/// What bytes are written to, in order.
pub trait Sink {
    /// The bytes that were taken, where the object tells them.
    ghost taken: { Self → Option (List ℕ) };

    /// How many writes have failed. It never falls.
    ghost faults: { Self → ℕ };

    /// Takes a prefix of `bytes` and answers how long it is: at least one byte, if there is one. A write that fails
    /// takes nothing.
    fn write(&mut self, bytes: &[u8]) -> Result<usize, Failed>
        ensures within { IfOk result (λ n. n ≤ length bytes.now) }
        ensures some { 0 < length bytes.now → IfOk result (λ n. 0 < n) }
        ensures content { WriteAppends (taken self.old) (taken self.new) result bytes.now }
        ensures kept { OnOk result (faults self.new ≡ faults self.old) }
        ensures rose { OnErr result (Rose (faults self.old) (faults self.new)) }
        ensures never_falls { faults self.old ≤ faults self.new };
}

/// Writes all of `bytes`, in as many writes as it takes. After `Failed` the sink has taken a prefix that is not all
/// of them. It takes no memory.
pub fn put_all<W: Sink>(sink: &mut W, bytes: &[u8]) -> Result<(), Failed>
    ensures ok { OnOk result (Appends (W.taken sink.old) (W.taken sink.new) bytes.now) }
    ensures failed { OnErr result ((n : ℕ)
        × (n < length bytes.now)
        × Appends (W.taken sink.old) (W.taken sink.new) (take n bytes.now)) }
    ensures kept { OnOk result (W.faults sink.new ≡ W.faults sink.old) }
    ensures rose { OnErr result (Rose (W.faults sink.old) (W.faults sink.new)) }
    ensures never_falls { W.faults sink.old ≤ W.faults sink.new }
{
    let mut done = 0;
    'writes: while done < bytes.len() {
        done += sink.write(rest(bytes, done))?;
    }
    Ok(())
}
