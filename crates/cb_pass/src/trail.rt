//! What a pass found so far.
ghost use Rattle.std.specs.Prelude.{◌≡◌, ◌<◌, ◌≤◌, ◌+◌, ◌++◌, ◌&&◌, ◌||◌, ◌==◌, ℕ, List, [], ◌∷◌};
ghost use Rattle.std.specs.Prelude.{suc, length, max, true, false, OnOk, IfOk, IfSome, MatchOption};
ghost use Rattle.std.specs.List.{position_or_len, find};
ghost use Rattle.std.specs.Str.{bytes_eq};
ghost use Rattle.cb_include.specs.Candidates.{including, candidates};
ghost use Rattle.cb_include.specs.Seen.{has_path, with_paths, up_to};
ghost use Rattle.cb_paths.specs.declared.language.Language.{Language as Tongue};
ghost use Rattle.cb_pass.specs.Reached.{is_in};
ghost use Rattle.cb_pass.specs.Answers.{Answer as Said, IsAnswered, Word};
ghost use Rattle.cb_pass.specs.Files.{is_present};
ghost use Rattle.cb_pass.specs.States.{Frame, Waiting};
ghost use Rattle.cb_pass.specs.Steps.{answered, word_of};
ghost use Rattle.cb_pass.specs.inner.Moves.{IsNoted};
ghost use Rattle.cb_pass.specs.inner.Trails.{state_of};

use crate::files::Files;
use crate::limits::NODE_LIMIT;
use crate::memory::Memory;
use crate::node_set::NodeSet;
use crate::note::NoteKind;
use crate::passed::Passed;
use cb_include::{Command, Header, Op, Origin, Probes, added_paths, one_search, search};
use cb_paths::{NoMemory, Path};
use std::alloc::Global;
use std::marker::Model;

/// What a pass found so far.
#[derive(Drop)]
pub(crate) struct Trail {
    pub(crate) memory: Memory,
    rows: Vec<NodeSet>,
    count: u32,
    probes: Probes,
}

impl Model for Trail {
    ghost use Rattle.std.specs.Prelude.{◌≤◌, length};
    ghost use Rattle.cb_pass.specs.declared.limits.TheConstants.{NODE_LIMIT};
    ghost use Rattle.cb_pass.specs.inner.Trails.{Findings};

    ghost Value = { Findings };

    ghost view = { λ t. record { memo = t.memory; rows = t.rows.items; count = t.count; probes = t.probes } };

    ghost invariant = { λ t. (length t.rows.items ≤ length t.probes) × (t.count ≤ NODE_LIMIT) };
}

impl Trail {
    /// What is known before a file was asked about but the main file, of which this is the path.
    pub(crate) fn new(alloc: Global, memory: Memory, main: &Path) -> Result<Trail, NoMemory>
        ensures { IfOk result (λ t. t ≡ record { memo = memory; rows = []; count = 0; probes = main.now ∷ [] }) }
    {
        let mut probes = Probes::new(alloc);
        probes.add(alloc, main)?;
        Ok(Trail {
            memory,
            rows: Vec::new(alloc),
            count: 0,
            probes,
        })
    }

    /// Whether as many nodes were reached as a pass may reach.
    pub(crate) fn is_full(&self) -> bool
        ensures full { result ≡ true → self.now.count ≡ NODE_LIMIT }
        ensures room { result ≡ false → self.now.count < NODE_LIMIT }
    {
        self.count == NODE_LIMIT
    }

    /// A node is reached of the file whose path stands at a place.
    pub(crate) fn mark(&mut self, alloc: Global, place: usize, node: u32) -> Result<(), NoMemory>
        requires room { self.old.count < NODE_LIMIT }
        requires place { place < length self.old.probes }
        ensures count { OnOk result (self.new.count ≡ suc self.old.count) }
        ensures same { OnOk result ((self.new.memo ≡ self.old.memo) × (self.new.probes ≡ self.old.probes)) }
        ensures marked { OnOk result ((path p : List ℕ) (n : ℕ) → position_or_len (bytes_eq path) self.old.probes
            ≡ place
            → is_in self.new.probes self.new.rows p n ≡ ((bytes_eq p path && (n == node)) || is_in self.old.probes
            self.old.rows p n)) }
    {
        add_node(alloc, &mut self.rows, place, node)?;
        self.count += 1;
        Ok(())
    }

    /// Leaves a note, unless it is there.
    pub(crate) fn note(
        &mut self,
        alloc: Global,
        path: &Path,
        node: u32,
        kind: NoteKind,
        detail: &[u8],
    ) -> Result<(), NoMemory>
        ensures { OnOk result (IsNoted self.old self.new (record { path = path.now; node = node }) kind detail.now) }
    {
        self.memory.note(alloc, path, node, kind, detail)?;
        Ok(())
    }

    /// Takes a word of `-D` or `-U`, of a command with this main file.
    pub(crate) fn take_word(&mut self, alloc: Global, main: &Path, op: &Op) -> Result<(), NoMemory>
        ensures { OnOk result ((language : Tongue) → (answer : Said)
            × IsAnswered language self.old.memo.macros (Word op.now) answer
            × ((fs : List Frame) (waiting : List Waiting) → state_of self.new fs waiting
            ≡ answered (record { path = main.now; node = 0 }) (word_of op.now) answer (state_of self.old fs waiting))
            × (self.new.probes ≡ self.old.probes)) }
    {
        self.memory.take_word(alloc, main, op)?;
        Ok(())
    }

    /// Whether a file is not entered again.
    pub(crate) fn is_read_once(&self, path: &Path) -> bool
        ensures { result ≡ has_path self.now.memo.once path.now }
    {
        self.memory.is_read_once(path)
    }

    /// Looks for a header. The paths that it asks about are known from then on.
    pub(crate) fn search<F: Files>(
        &mut self,
        alloc: Global,
        files: &F,
        command: &Command,
        from: Origin,
        header: &Header,
    ) -> Result<Option<Path>, NoMemory>
        ensures found { IfOk result (λ found. found
            ≡ find (is_present (F.skeletons files.now)) (candidates command.now (including from.entry) header.now)) }
        ensures probed { OnOk result (self.new.probes ≡ with_paths self.old.probes
            (up_to (is_present (F.skeletons files.now)) (candidates command.now (including from.entry) header.now))) }
        ensures there { IfOk result (λ found. IfSome found (λ path. has_path self.new.probes path ≡ true)) }
        ensures memo { OnOk result (self.new.memo ≡ self.old.memo) }
        ensures count { OnOk result (self.new.count ≡ self.old.count) }
        ensures reached { OnOk result ((p : List ℕ) (n : ℕ)
            → is_in self.new.probes self.new.rows p n ≡ is_in self.old.probes self.old.rows p n) }
        ensures longer { OnOk result ((more : List (List ℕ)) × (self.new.probes ≡ self.old.probes ++ more)) }
    {
        one_search();
        added_paths();
        match search(alloc, files, command, from, header, &mut self.probes) {
            Ok(found) => Ok(found),
            Err(NoMemory) => {
                // The probes may hold any paths now, so the sets at their places tell nothing.
                self.rows.clear();
                Err(NoMemory)
            }
        }
    }

    /// The place of a path, if it was asked about.
    pub(crate) fn place_of(&self, path: &Path) -> Option<usize>
        ensures { MatchOption result (has_path self.now.probes path.now ≡ false)
            (λ place. (position_or_len (bytes_eq path.now) self.now.probes ≡ place)
            × (place < length self.now.probes)) }
    {
        self.probes.place_of(path)
    }

    /// What is kept at the end.
    pub(crate) fn finish(self, alloc: Global) -> Result<Passed, NoMemory>
        ensures { IfOk result (λ passed. (passed.count ≡ self.count) × (passed.probes ≡ self.probes)
            × (passed.notes ≡ self.memo.notes) × ((p : List ℕ) (n : ℕ) → is_in passed.probes passed.rows p n
            ≡ is_in self.probes self.rows p n)) }
    {
        let count = self.count;
        let memory = self.memory;
        let probes = self.probes;
        let mut rows = self.rows;
        if let Some(last) = probes.len().checked_sub(1) {
            grow(alloc, &mut rows, last)?;
        }
        let notes = memory.notes;
        Ok(Passed {
            rows,
            count,
            probes,
            notes,
        })
    }
}

/// Puts empty sets behind some until one stands at this place.
fn grow(alloc: Global, rows: &mut Vec<NodeSet>, place: usize) -> Result<(), NoMemory>
    ensures same { OnOk result ((paths : List (List ℕ)) (p : List ℕ) (n : ℕ) → is_in paths rows.new.items p n
        ≡ is_in paths rows.old.items p n) }
    ensures within { length rows.new.items ≤ max (suc place) (length rows.old.items) }
    ensures there { OnOk result (place < length rows.new.items) }
{
    'rows: while rows.len() <= place {
        rows.push(NodeSet::new(alloc))?;
    }
    Ok(())
}

/// Adds a node to the set at a place.
fn add_node(alloc: Global, rows: &mut Vec<NodeSet>, place: usize, node: u32) -> Result<(), NoMemory>
    ensures within { length rows.new.items ≤ max (suc place) (length rows.old.items) }
    ensures marked { OnOk result ((paths : List (List ℕ)) (path p : List ℕ) (n : ℕ)
        → position_or_len (bytes_eq path) paths ≡ place
        → place < length paths → is_in paths rows.new.items p n
        ≡ ((bytes_eq p path && (n == node)) || is_in paths rows.old.items p n)) }
{
    grow(alloc, rows, place)?;
    rows[place].add(node)?;
    Ok(())
}
