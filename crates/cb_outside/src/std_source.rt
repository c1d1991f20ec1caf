//! A reader of std, such as standard input, as a source.
ghost use Rattle.std.specs.Prelude.{◌≡◌, ◌≤◌, length, IfOk, OnOk, OnErr};
ghost use Rattle.std.specs.Io.KnownBytes.{ReadConsumes};
ghost use Rattle.cb_outside.specs.Outside.{Rose, one_more};

use crate::failed::Failed;
use crate::source::Source;
use std::io::Read;
use std::marker::Model;

/// A source over a reader. It tells of its bytes what the reader tells: a slice tells them, and the system's standard
/// input tells nothing.
#[derive(Drop)]
pub struct StdSource<R: Read> {
    reader: R,
    errors: u64,
}

impl<R: Read> Model for StdSource<R> {
    ghost use Rattle.cb_outside.specs.Standard.{InputState};

    ghost Value = { InputState };

    ghost view = { λ s. record { left = R.remaining s.reader; faults = s.errors } };
}

impl<R: Read> StdSource<R> {
    /// A source over this reader, as `rt.reader()` is for standard input.
    pub fn new(reader: R) -> StdSource<R>
        ensures { result ≡ record { left = R.remaining reader; faults = 0 } }
    {
        StdSource { reader, errors: 0 }
    }
}

impl<R: Read> Source for StdSource<R> {
    ghost left = { λ s. s.left };

    ghost faults = { λ s. s.faults };

    fn read(&mut self, buf: &mut [u8]) -> Result<usize, Failed>
        ensures within { IfOk result (λ n. n ≤ length buf.new) }
        ensures content { ReadConsumes self.old.left self.new.left result buf.new }
        ensures kept { OnOk result (self.new.faults ≡ self.old.faults) }
        ensures rose { OnErr result (Rose self.old.faults self.new.faults) }
        ensures never_falls { self.old.faults ≤ self.new.faults }

        ensures err { OnErr result (self.new.faults ≡ one_more self.old.faults) }
    {
        match self.reader.read(buf) {
            Ok(count) => Ok(count),
            Err(_) => {
                self.errors = self.errors.saturating_add(1);
                Err(Failed)
            }
        }
    }
}
