//! A file that is being read.
ghost use Rattle.std.specs.Prelude.{◌≡◌, ◌<◌, ◌≤◌, ◌∷◌, length, Some, IfOk, OnOk, suc};
ghost use Rattle.cb_tree.specs.Skeleton.{skeleton};
ghost use Rattle.cb_pass.specs.Files.{first_frame, Files as Skeletons};
ghost use Rattle.cb_pass.specs.States.{State};
ghost use Rattle.cb_pass.specs.Sections.{is_live};
ghost use Rattle.cb_pass.specs.Steps.{is_reached, is_active};
ghost use Rattle.cb_pass.specs.inner.Trails.{next_kind, next_rest};
ghost use Rattle.cb_pass.specs.inner.Moves.{advanced, AtNext, Goes, Leaps};
ghost use Rattle.cb_include.specs.declared.command.Command.{Command as Told};

use crate::limits::DEPTH_LIMIT;
use crate::section::Sections;
use cb_paths::{NoMemory, Path};
use cb_tokens::Token;
use cb_tree::{NodeKind, Tree};
use std::alloc::Global;
use std::marker::Model;

/// A file that is being read.
#[derive(Drop)]
pub(crate) struct OpenFile<'a> {
    path: Path,
    /// The place of the path among those that were asked about.
    place: usize,
    tree: &'a Tree,
    /// How many nodes it has.
    count: u32,
    /// How many of them are behind.
    passed: u32,
    depth: u32,
    sections: Sections,
}

impl<'a> Model for OpenFile<'a> {
    ghost use Rattle.std.specs.Prelude.{◌≡◌, ◌≤◌, ◌<◌, ◌^◌, suc, drop, length};
    ghost use Rattle.cb_tree.specs.Skeleton.{skeleton};
    ghost use Rattle.cb_pass.specs.declared.limits.TheConstants.{DEPTH_LIMIT};
    ghost use Rattle.cb_pass.specs.inner.Trails.{Opened};

    ghost Value = { Opened };

    ghost view = { λ f. record {
      frame = record {
        path = f.path;
        node = suc f.passed;
        rest = drop f.passed (skeleton f.tree.now);
        depth = f.depth;
        sections = f.sections;
      };
      place = f.place;
    } };

    ghost invariant = { λ f. (f.passed ≤ f.count) × (f.count ≡ length f.tree.now) × (f.count < 2 ^ 32)
        × (f.depth ≤ DEPTH_LIMIT) };
}

impl<'a> OpenFile<'a> {
    /// A file before its first node.
    pub(crate) fn new(
        alloc: Global,
        path: Path,
        place: usize,
        tree: &'a Tree,
        depth: u32,
    ) -> OpenFile<'a>
        requires { depth ≤ DEPTH_LIMIT }
        ensures { result ≡ record { frame = first_frame path depth (skeleton tree.now); place = place } }
    {
        OpenFile {
            path,
            place,
            tree,
            count: tree.len(),
            passed: 0,
            depth,
            sections: Sections::new(alloc),
        }
    }

    /// Its path.
    pub(crate) fn path(&self) -> &Path
        ensures { result.now ≡ self.now.frame.path }
    {
        &self.path
    }

    /// The place of its path among those that were asked about.
    pub(crate) fn place(&self) -> usize
        ensures { result ≡ self.now.place }
    {
        self.place
    }

    /// Its depth.
    pub(crate) fn depth(&self) -> u32
        ensures depth { result ≡ self.now.frame.depth }
        ensures limited { result ≤ DEPTH_LIMIT }
    {
        self.depth
    }

    /// How many of its nodes are behind.
    pub(crate) fn passed(&self) -> u32
        ensures { self.now.frame.node ≡ suc result }
    {
        self.passed
    }

    /// The number of its next node.
    pub(crate) fn node(&self) -> u32
        requires { 0 < length self.now.frame.rest }
        ensures { result ≡ self.now.frame.node }
    {
        self.passed + 1
    }

    /// The kind of its next node.
    pub(crate) fn kind(&self) -> Option<NodeKind>
        ensures { result ≡ next_kind self.now.frame.rest }
    {
        if self.passed < self.count {
            Some(self.tree.kind(self.passed + 1))
        } else {
            None
        }
    }

    /// The tokens of its next node behind its directive's name.
    pub(crate) fn rest(&self) -> &'a [Token]
        ensures { result.now ≡ next_rest self.now.frame.rest }
    {
        if self.passed < self.count {
            self.tree.rest(self.passed + 1)
        } else {
            &[]
        }
    }

    /// Whether a node of the kind is reached here.
    fn is_reached(&self, kind: NodeKind) -> bool
        ensures { result ≡ is_reached kind self.now.frame.sections }
    {
        match kind {
            NodeKind::Elif | NodeKind::Else | NodeKind::Endif => self.sections.is_before_live(),
            _ => self.sections.is_live(),
        }
    }

    /// Whether a node that is no part of a section is reached here.
    fn is_live(&self) -> bool
        ensures { result ≡ is_live self.now.frame.sections }
    {
        self.sections.is_live()
    }

    /// Whether a directive of the kind has its effect here.
    pub(crate) fn is_active(&self, kind: NodeKind) -> bool
        ensures { result ≡ is_active kind self.now.frame.sections }
    {
        match kind {
            NodeKind::Elif => self.sections.may_be_taken(),
            _ => self.sections.is_live(),
        }
    }

    /// Goes behind the next node, which is of this kind and has this condition.
    pub(crate) fn advance(&mut self, kind: NodeKind, condition: bool) -> Result<(), NoMemory>
        requires { next_kind self.old.frame.rest ≡ Some kind }
        ensures moved { OnOk result (self.new.frame ≡ advanced kind condition self.old.frame) }
        ensures same { OnOk result (self.new.place ≡ self.old.place) }
    {
        self.sections.pass(kind, condition)?;
        self.passed += 1;
        Ok(())
    }

    /// Goes to the end of a group, of which it stands at the beginning. Else it stays.
    fn leap(&mut self)
        ensures moved { Leaps self.old.frame self.new.frame }
        ensures same { self.new.place ≡ self.old.place }
    {
        if self.passed > 0 {
            if let Some(end) = self.tree.group_end(self.passed) {
                self.passed = end - 1;
            }
        }
    }

    /// Goes over the group in which it stands, where that is not taken.
    fn pass_dead_group(&mut self)
        ensures moved { (files : Skeletons) (command : Told) (s : State) → Goes files command
            (record s { frames = self.old.frame ∷ s.frames }) (record s { frames = self.new.frame ∷ s.frames }) }
        ensures path { self.new.frame.path ≡ self.old.frame.path }
        ensures same { self.new.place ≡ self.old.place }
    {
        if self.is_live() {
            return;
        }
        self.leap();
    }

    /// Goes to the next node that is reached, and answers its kind; none where it comes to the end.
    pub(crate) fn settle(&mut self) -> Result<Option<NodeKind>, NoMemory>
        ensures at { IfOk result (λ kind. AtNext kind self.new.frame) }
        ensures moved { OnOk result ((files : Skeletons) (command : Told) (s : State) → Goes files command
            (record s { frames = self.old.frame ∷ s.frames }) (record s { frames = self.new.frame ∷ s.frames })) }
        ensures path { OnOk result (self.new.frame.path ≡ self.old.frame.path) }
        ensures same { OnOk result (self.new.place ≡ self.old.place) }
    {
        self.pass_dead_group();
        'nodes: while let Some(kind) = self.kind() {
            if self.is_reached(kind) {
                return Ok(Some(kind));
            }
            self.advance(kind, false)?;
        }
        Ok(None)
    }
}
