//! Numbers on lines of their own, one after another.
ghost use Rattle.std.specs.Prelude.{◌≡◌, ◌+◌, ◌<◌, ◌≤◌, ◌++◌, decimal, OnOk};
ghost use Rattle.codebasin.specs.inner.NumberLines.{HasLine};
ghost use Rattle.codebasin.specs.Texts.{line_text};

use cb_paths::NoMemory;
use itoa::write_digits;

/// Where the line end stands; the digits stand directly before it.
const END: usize = 10;

/// How many bytes a line is copied by, though it is shorter: a copy of one length takes no call.
const COPIED: usize = 16;

/// A number on a line of its own, from which those with the same digits but the last are made. Over 200,000 short lines
/// a whole run takes 10 % less time so than where the digits of each number are made anew (`bench/specialise --shape
/// short-text`).
#[derive(Drop)]
pub(crate) struct NumberLine {
    bytes: [u8; 32],
    /// Where the first digit stands.
    start: usize,
    number: u32,
    /// How many numbers from this one on have the same digits but the last.
    count: u32,
}

impl NumberLine {
    /// The line of a number.
    pub(crate) fn new(number: u32) -> NumberLine
        ensures holds { HasLine result.bytes result.start result.number result.count }
        ensures number { result.number ≡ number }
    {
        let mut bytes = [b'\n'; 32];
        let start = write_digits(u64::from(number), &mut bytes, END);
        NumberLine {
            bytes,
            start,
            number,
            count: 10 - number % 10,
        }
    }

    /// Goes on to a number that is no lesser, where it has other digits before the last.
    #[inline]
    pub(crate) fn go_on(&mut self, number: u32)
        requires holds { HasLine self.old.bytes self.old.start self.old.number self.old.count }
        requires rises { self.old.number ≤ number }
        ensures holds { HasLine self.new.bytes self.new.start self.new.number self.new.count }
        ensures near { (self.new.number ≤ number) × (number < self.new.number + self.new.count) }
    {
        if number - self.number >= self.count {
            *self = NumberLine::new(number);
        }
    }

    /// Adds the line of a number that has the same digits but the last. That digit is changed in the text alone: a
    /// write into the copied bytes would hold up the next copy.
    #[inline]
    pub(crate) fn add_to(&self, text: &mut Vec<u8>, number: u32) -> Result<(), NoMemory>
        requires holds { HasLine self.now.bytes self.now.start self.now.number self.now.count }
        requires near { (self.now.number ≤ number) × (number < self.now.number + self.now.count) }
        ensures { OnOk result (text.new.items ≡ text.old.items ++ line_text (decimal number)) }
    {
        self.copy_to(text)?;
        let place = text.len() - 2;
        text[place] = self.bytes[END - 1] + (number - self.number) as u8;
        Ok(())
    }

    /// Adds the line of the number itself to a text.
    #[inline]
    fn copy_to(&self, text: &mut Vec<u8>) -> Result<(), NoMemory>
        requires { HasLine self.now.bytes self.now.start self.now.number self.now.count }
        ensures { OnOk result (text.new.items ≡ text.old.items ++ line_text (decimal self.now.number)) }
    {
        text.extend_from_slice(&self.bytes[self.start..self.start + COPIED])?;
        text.truncate(text.len() - (COPIED - (END + 1 - self.start)));
        Ok(())
    }
}
