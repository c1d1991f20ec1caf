//! The walk over the parts of a path, from the left.
ghost use Rattle.std.specs.Prelude.{◌≡◌, ◌==◌, ◌∷◌, ◌++◌, [], not, ℕ, List, true, false, length, OnOk};
ghost use Rattle.std.specs.List.{list_all, list_any, filter};
ghost use Rattle.cb_paths.specs.Parts.{is_up, is_kept, parts_of};
ghost use Rattle.cb_paths.specs.Paths.{is_control, is_absolute};

use crate::cut::cut;
use crate::memory::NoMemory;
use std::alloc::Global;

/// The parts so far, without those that a `..` took away.
#[derive(Drop)]
pub(crate) struct Trail {
    /// The parts, a slash before each.
    pub(crate) text: Vec<u8>,
    /// Where each part's slash stands.
    pub(crate) starts: Vec<usize>,
    /// Whether a `..` stood where no part was left.
    pub(crate) climbed: bool,
}

/// Whether a part goes up.
#[tactic(auto, unfolding(crate::specs::Parts::is_up))]
fn is_up(part: &[u8]) -> bool
    ensures { result ≡ is_up part.now }
{
    part == b"..".as_slice()
}

/// Whether a part says something.
#[tactic(auto, unfolding(crate::specs::Parts::is_kept))]
fn is_kept(part: &[u8]) -> bool
    ensures { result ≡ is_kept part.now }
{
    if part.len() == 0 {
        return false;
    }
    !(part == b".".as_slice())
}

impl Trail {
    ghost use Rattle.cb_paths.specs.inner.Trails.{Stands};

    /// No part yet.
    pub(crate) fn new(alloc: Global) -> Trail
        ensures { Stands [] result }
    {
        Trail {
            text: Vec::new(alloc),
            starts: Vec::new(alloc),
            climbed: false,
        }
    }

    /// Takes a part that goes down.
    fn enter(&mut self, part: &[u8]) -> Result<(), NoMemory>
        ensures text { OnOk result (self.new.text.items ≡ self.old.text.items ++ 47 ∷ part.now) }
        ensures starts { OnOk result (self.new.starts.items ≡ self.old.starts.items ++ length self.old.text.items ∷ []) }
        ensures climbed { self.new.climbed ≡ self.old.climbed }
    {
        self.starts.push(self.text.len())?;
        self.text.push(b'/')?;
        self.text.extend_from_slice(part)?;
        Ok(())
    }

    /// Takes a `..`.
    fn go_up(&mut self)
        ensures { (so_far : List (List ℕ)) (up : List ℕ) → is_up up ≡ true → Stands so_far self.old
            → Stands (so_far ++ up ∷ []) self.new }
    {
        match self.starts.pop() {
            None => self.climbed = true,
            Some(start) => self.text.truncate(start),
        }
    }

    /// Takes a part of a text that was split at its slashes.
    fn step(&mut self, part: &[u8]) -> Result<(), NoMemory>
        requires { list_all (λ b. not (b == 47)) part.now ≡ true }
        ensures { OnOk result ((so_far : List (List ℕ)) → Stands so_far self.old
            → Stands (so_far ++ filter is_kept (part.now ∷ [])) self.new) }
    {
        if !is_kept(part) {
            return Ok(());
        }
        if is_up(part) {
            self.go_up();
            return Ok(());
        }
        self.enter(part)?;
        Ok(())
    }

    /// Takes the parts of a text.
    pub(crate) fn walk(&mut self, text: &[u8]) -> Result<(), NoMemory>
        ensures { OnOk result ((so_far : List (List ℕ)) → Stands so_far self.old
            → Stands (so_far ++ parts_of text.now) self.new) }
    {
        let mut rest = Some(text);
        'parts: while let Some(left) = rest {
            let (part, behind) = cut(left, b'/');
            self.step(part)?;
            rest = behind;
        }
        Ok(())
    }
}

/// Whether a byte may stand in no path.
fn is_control(byte: u8) -> bool
    ensures { result ≡ is_control byte }
{
    byte < 32 || byte == 127
}

/// Whether a text holds a byte that may stand in no path.
pub(crate) fn has_control(text: &[u8]) -> bool
    ensures { result ≡ list_any is_control text.now }
{
    text.iter().any(|byte| is_control(*byte))
}

/// Whether a text begins with a slash.
pub(crate) fn is_absolute(text: &[u8]) -> bool
    ensures { result ≡ is_absolute text.now }
{
    match text.first() {
        Some(byte) => *byte == b'/',
        None => false,
    }
}
