//! A writer of std, such as standard output, as a sink.
ghost use Rattle.std.specs.Prelude.{◌≡◌, ◌<◌, ◌≤◌, length, IfOk, OnOk, OnErr};
ghost use Rattle.std.specs.Io.KnownBytes.{WriteAppends};
ghost use Rattle.cb_outside.specs.Outside.{Rose, one_more};

use crate::failed::Failed;
use crate::sink::Sink;
use std::io::Write;
use std::marker::Model;

/// A sink over a writer. It keeps no buffer of its own. It tells of its bytes what the writer tells: a vector tells
/// them, and the system's standard output tells nothing.
#[derive(Drop)]
pub struct StdSink<W: Write> {
    writer: W,
    errors: u64,
}

impl<W: Write> Model for StdSink<W> {
    ghost use Rattle.cb_outside.specs.Standard.{OutputState};

    ghost Value = { OutputState };

    ghost view = { λ s. record { taken = W.contents s.writer; faults = s.errors } };
}

impl<W: Write> StdSink<W> {
    /// A sink over this writer, as `std::io::writer(&rt)` is for standard output.
    pub fn new(writer: W) -> StdSink<W>
        ensures { result ≡ record { taken = W.contents writer; faults = 0 } }
    {
        StdSink { writer, errors: 0 }
    }
}

impl<W: Write> Sink for StdSink<W> {
    ghost taken = { λ s. s.taken };

    ghost faults = { λ s. s.faults };

    fn write(&mut self, bytes: &[u8]) -> Result<usize, Failed>
        ensures within { IfOk result (λ n. n ≤ length bytes.now) }
        ensures some { 0 < length bytes.now → IfOk result (λ n. 0 < n) }
        ensures content { WriteAppends self.old.taken self.new.taken result bytes.now }
        ensures kept { OnOk result (self.new.faults ≡ self.old.faults) }
        ensures rose { OnErr result (Rose self.old.faults self.new.faults) }
        ensures never_falls { self.old.faults ≤ self.new.faults }

        ensures err { OnErr result (self.new.faults ≡ one_more self.old.faults) }
    {
        match self.writer.write(bytes) {
            Ok(count) => self.counted(count, bytes.len()),
            Err(_) => {
                self.errors = self.errors.saturating_add(1);
                Err(Failed)
            }
        }
    }
}

impl<W: Write> StdSink<W> {
    /// The answer where the writer took so many bytes of a piece: to take none of some counts as an error.
    fn counted(&mut self, count: usize, len: usize) -> Result<usize, Failed>
        ensures taken { self.new.taken ≡ self.old.taken }
        ensures count { IfOk result (λ n. n ≡ count) }
        ensures some { 0 < len → IfOk result (λ n. 0 < n) }
        ensures none { OnErr result (count ≡ 0) }
        ensures kept { OnOk result (self.new.faults ≡ self.old.faults) }
        ensures never_falls { self.old.faults ≤ self.new.faults }
        ensures err { OnErr result (self.new.faults ≡ one_more self.old.faults) }
    {
        if count == 0 && len > 0 {
            self.errors = self.errors.saturating_add(1);
            return Err(Failed);
        }
        Ok(count)
    }
}
