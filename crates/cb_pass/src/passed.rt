//! What comes of a pass.
ghost use Rattle.std.specs.Prelude.{◌≡◌, ◌<◌, ℕ, [], true, length, slice_index_or};
ghost use Rattle.cb_include.specs.Seen.{has_path};
ghost use Rattle.cb_pass.specs.Ends.{reached_in};
ghost use Rattle.cb_pass.specs.Reached.{has_bit};

use crate::node_set::NodeSet;
use crate::note::Note;
use crate::note_list::Notes;
use cb_include::Probes;
use cb_paths::Path;
use std::marker::Model;

/// What comes of a pass: which nodes of which files it reached, how many, which paths it asked about, and its notes.
/// Contracts see it as these, with a set of nodes for each of the paths.
#[derive(Drop)]
pub struct Passed {
    pub(crate) rows: Vec<NodeSet>,
    pub(crate) count: u32,
    pub(crate) probes: Probes,
    pub(crate) notes: Notes,
}

impl Model for Passed {
    ghost use Rattle.std.specs.Prelude.{◌≡◌, length};
    ghost use Rattle.cb_pass.specs.Ends.{Kept};

    ghost Value = { Kept };

    ghost view = { λ p. record { rows = p.rows.items; count = p.count; probes = p.probes; notes = p.notes } };

    ghost invariant = { λ p. length p.rows.items ≡ length p.probes };
}

impl Passed {
    /// Whether the pass reached a node of the file at a path. It takes one look-up by hash.
    pub fn reached(&self, path: &Path, node: u32) -> bool
        ensures reached { result ≡ reached_in self.now path.now node }
        ensures probed { result ≡ true → has_path self.now.probes path.now ≡ true }
    {
        match self.probes.place_of(path) {
            Some(place) => self.rows[place].has(node),
            None => false,
        }
    }

    /// How many nodes the pass reached, with repeats.
    pub fn count(&self) -> u32
        ensures { result ≡ self.now.count }
    {
        self.count
    }

    /// The paths that the pass asked about, in the order in which it first did. The first is that of the main file, as
    /// `pass` says.
    pub fn probes(&self) -> &Probes
        ensures { result.now ≡ self.now.probes }
    {
        &self.probes
    }

    /// The notes of the pass, each once, in the order in which they were left.
    pub fn notes(&self) -> &[Note]
        ensures { result.now ≡ self.now.notes }
    {
        self.notes.as_slice()
    }

    /// The nodes that the pass reached of the file at the path that stands at a place of the probes, from 0.
    pub fn row(&self, place: usize) -> &NodeSet
        requires { place < length self.now.probes }
        ensures row { result.now ≡ slice_index_or self.now.rows place [] }
        ensures reached { (n : ℕ) → has_bit result.now n ≡ reached_in self.now (slice_index_or self.now.probes place
            []) n }
    {
        let _distinct = self.probes.len();
        &self.rows[place]
    }
}
