//! The if sections that are open at a place of a source.
ghost use Rattle.std.specs.Prelude.{◌≡◌, [], OnOk};
ghost use Rattle.cb_pass.specs.Sections.{is_live, is_before_live, may_be_taken};
ghost use Rattle.cb_pass.specs.Sections.{entered, continued, turned, closed, section_continued, section_turned};
ghost use Rattle.cb_pass.specs.Steps.{sections_behind};

use cb_paths::NoMemory;
use cb_tree::NodeKind;
use std::alloc::Global;
use std::marker::Model;

/// An open if section.
#[derive(Clone, Copy, Debug, PartialEq, Eq)]
pub struct Section {
    /// Whether the whole section stands in live text.
    pub before: bool,
    /// Whether one of its groups was taken.
    pub taken: bool,
    /// Whether its present group is taken.
    pub now: bool,
}

/// The open sections, which contracts see as the list of them, the innermost first.
#[derive(Drop)]
pub(crate) struct Sections {
    stack: Vec<Section>,
}

impl Model for Sections {
    ghost use Rattle.std.specs.Prelude.{List, reverse};
    ghost use Rattle.cb_pass.specs.declared.section.Section.{Section};

    ghost Value = { List Section };

    ghost view = { λ s. reverse s.stack.items };
}

impl Sections {
    /// No open section.
    pub(crate) fn new(alloc: Global) -> Sections
        ensures { result ≡ [] }
    {
        Sections {
            stack: Vec::new(alloc),
        }
    }

    /// Whether a node that is no part of a section is reached here.
    pub(crate) fn is_live(&self) -> bool
        ensures { result ≡ is_live self.now }
    {
        match self.stack.last() {
            Some(section) => section.now,
            None => true,
        }
    }

    /// Whether the innermost section stands in live text.
    pub(crate) fn is_before_live(&self) -> bool
        ensures { result ≡ is_before_live self.now }
    {
        match self.stack.last() {
            Some(section) => section.before,
            None => false,
        }
    }

    /// Whether the next group of the innermost section may be taken.
    pub(crate) fn may_be_taken(&self) -> bool
        ensures { result ≡ may_be_taken self.now }
    {
        match self.stack.last() {
            Some(section) => section.before && !section.taken,
            None => false,
        }
    }

    /// Opens a section whose first group has this condition.
    pub(crate) fn enter(&mut self, condition: bool) -> Result<(), NoMemory>
        ensures { OnOk result (self.new ≡ entered condition self.old) }
    {
        let before = self.is_live();
        let holds = before && condition;
        self.stack.push(Section {
            before,
            taken: holds,
            now: holds,
        })?;
        Ok(())
    }

    /// Goes on with the next group of the innermost section, which has this condition where it is looked at.
    pub(crate) fn go_on(&mut self, condition: bool)
        ensures { self.new ≡ continued condition self.old }
    {
        if let Some(last) = self.stack.len().checked_sub(1) {
            self.stack[last] = after_elif(self.stack[last], condition);
        }
    }

    /// Goes on with the `#else` group of the innermost section.
    pub(crate) fn turn(&mut self)
        ensures { self.new ≡ turned self.old }
    {
        if let Some(last) = self.stack.len().checked_sub(1) {
            self.stack[last] = after_else(self.stack[last]);
        }
    }

    /// Closes the innermost section.
    pub(crate) fn close(&mut self)
        ensures { self.new ≡ closed self.old }
    {
        let _ = self.stack.pop();
    }

    /// Goes behind a node of this kind, which has this condition.
    pub(crate) fn pass(&mut self, kind: NodeKind, condition: bool) -> Result<(), NoMemory>
        ensures { OnOk result (self.new ≡ sections_behind kind condition self.old) }
    {
        match kind {
            NodeKind::If => self.enter(condition),
            NodeKind::Ifdef => self.enter(condition),
            NodeKind::Ifndef => self.enter(condition),
            NodeKind::Elif => {
                self.go_on(condition);
                Ok(())
            }
            NodeKind::Else => {
                self.turn();
                Ok(())
            }
            NodeKind::Endif => {
                self.close();
                Ok(())
            }
            _ => Ok(()),
        }
    }
}

/// A section behind an `#elif` with this condition.
fn after_elif(section: Section, condition: bool) -> Section
    ensures { result ≡ section_continued condition section }
{
    let Section { before, taken, .. } = section;
    Section {
        before,
        taken: taken || before && condition,
        now: before && !taken && condition,
    }
}

/// A section behind its `#else`.
fn after_else(section: Section) -> Section
    ensures { result ≡ section_turned section }
{
    let Section { before, taken, .. } = section;
    Section {
        before,
        taken: true,
        now: before && !taken,
    }
}
