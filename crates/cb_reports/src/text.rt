//! A text that grows at its end.
ghost use Rattle.std.specs.Prelude.{◌≡◌, ◌++◌, ◌∷◌, ◌==◌, [], length, decimal, IfOk, OnOk};

use cb_paths::{Bytes, NoMemory};
use itoa::Buffer;
use std::alloc::Global;
use std::marker::Model;

/// A text that grows at its end, which contracts see as its bytes. After a refused call it may be used on, and no more is said
/// of it.
#[derive(Drop)]
pub(crate) struct Text {
    bytes: Vec<u8>,
}

impl Model for Text {
    ghost use Rattle.std.specs.Prelude.{List, ℕ};

    ghost Value = { List ℕ };

    ghost view = { λ t. t.bytes.items };
}

impl Text {
    /// The empty text.
    pub(crate) fn new(alloc: Global) -> Text
        ensures { result ≡ [] }
    {
        Text {
            bytes: Vec::new(alloc),
        }
    }

    /// Adds bytes.
    pub(crate) fn add(&mut self, bytes: &[u8]) -> Result<(), NoMemory>
        ensures { OnOk result (self.new ≡ self.old ++ bytes.now) }
    {
        self.bytes.extend_from_slice(bytes)?;
        Ok(())
    }

    /// Adds a number in decimal digits.
    pub(crate) fn add_number(&mut self, number: u64) -> Result<(), NoMemory>
        ensures { OnOk result (self.new ≡ self.old ++ decimal number) }
    {
        self.bytes
            .extend_from_slice(Buffer::new().format(number).as_bytes())?;
        Ok(())
    }

    /// Ends a line.
    pub(crate) fn end_line(&mut self) -> Result<(), NoMemory>
        ensures { OnOk result (self.new ≡ self.old ++ 10 ∷ []) }
    {
        self.bytes.push(b'\n')?;
        Ok(())
    }

    /// Whether there is no byte.
    pub(crate) fn is_empty(&self) -> bool
        ensures { result ≡ (length self.now == 0) }
    {
        self.bytes.is_empty()
    }

    /// The bytes.
    pub(crate) fn into_bytes(self, alloc: Global) -> Result<Bytes, NoMemory>
        ensures { IfOk result (λ bytes. bytes ≡ self) }
    {
        Bytes::from_vec(alloc, self.bytes)
    }
}
