//! Sets of the nodes of one file.
ghost use Rattle.std.specs.Prelude.{◌≡◌, ◌==◌, ◌||◌, ◌<◌, ◌/◌, ℕ, [], length, slice_index, OnOk};
ghost use Rattle.cb_pass.specs.Reached.{has_bit};

use cb_paths::NoMemory;
use std::alloc::Global;
use std::marker::Model;

/// A set of nodes of one file, which contracts see as words: node n is bit n % 64 of word n / 64.
#[derive(Drop)]
pub struct NodeSet {
    words: Vec<u64>,
}

impl Model for NodeSet {
    ghost use Rattle.std.specs.Prelude.{List, ℕ};

    ghost Value = { List ℕ };

    ghost view = { λ s. s.words.items };
}

impl NodeSet {
    /// The empty set. It takes no memory until a node is added.
    pub(crate) fn new(alloc: Global) -> NodeSet
        ensures { result ≡ [] }
    {
        NodeSet {
            words: Vec::new(alloc),
        }
    }

    /// Adds a node, which may be there.
    pub(crate) fn add(&mut self, node: u32) -> Result<(), NoMemory>
        ensures { OnOk result ((n : ℕ) → has_bit self.new n ≡ ((n == node) || has_bit self.old n)) }
    {
        grow(&mut self.words, node / 64)?;
        set_bit(&mut self.words, node);
        Ok(())
    }

    /// Whether the set has a node. It looks at one word.
    pub fn has(&self, node: u32) -> bool
        ensures { result ≡ has_bit self.now node }
    {
        has_bit(self.words.as_slice(), node)
    }

    /// The words of the set.
    pub fn words(&self) -> &[u64]
        ensures { result.now ≡ self.now }
    {
        self.words.as_slice()
    }
}

/// Puts zeros behind the words until there is one at this place.
fn grow(words: &mut Vec<u64>, at: u32) -> Result<(), NoMemory>
    ensures same { OnOk result ((k : ℕ) → slice_index words.new.items k ≡ slice_index words.old.items k) }
    ensures there { OnOk result (at < length words.new.items) }
{
    'words: while words.len() <= at as usize {
        words.push(0)?;
    }
    Ok(())
}

/// Whether words have the bit of a node.
#[tactic(auto, unfolding(crate::specs::Reached::has_bit))]
fn has_bit(words: &[u64], node: u32) -> bool
    ensures { result ≡ has_bit words.now node }
{
    let at = (node / 64) as usize;
    if at < words.len() {
        words[at] >> (node % 64) & 1 == 1
    } else {
        false
    }
}

/// Sets the bit of a node.
fn set_bit(words: &mut Vec<u64>, node: u32)
    requires { node / 64 < length words.old.items }
    ensures { (n : ℕ) → has_bit words.new.items n ≡ ((n == node) || has_bit words.old.items n) }
{
    let at = (node / 64) as usize;
    let word = words.as_slice()[at];
    words[at] = word | 1 << (node % 64);
}
