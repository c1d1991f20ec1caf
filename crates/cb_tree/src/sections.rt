//! The if sections that are open while the nodes of a source are read.
ghost use Rattle.std.specs.Prelude.{◌≡◌, ◌∷◌, [], MatchOption, OnOk, Ok, Err};
ghost use Rattle.cb_tree.specs.Sections.{opened, continued, turned, closed, sections_after, fault_at_end};
ghost use Rattle.cb_tree.specs.declared.fault.BadSource.{BadSource as Fault};

use crate::fault::{BadSource, BuildFault, SourceKind};
use crate::node::NodeKind;
use cb_paths::SECTION_LIMIT;
use std::alloc::Global;
use std::marker::Model;

/// An open section.
#[derive(Clone, Copy)]
pub(crate) struct OpenSection {
    /// The line of its first directive.
    pub(crate) line: u32,
    /// Whether its `#else` has come.
    pub(crate) has_else: bool,
}

/// The open sections, which contracts see as the list of them, the last opened first.
#[derive(Drop)]
pub(crate) struct Sections {
    items: Vec<OpenSection>,
}

impl Model for Sections {
    ghost use Rattle.std.specs.Prelude.{List, reverse};
    ghost use Rattle.cb_tree.specs.declared.sections.OpenSection.{OpenSection};

    ghost Value = { List OpenSection };

    ghost view = { λ s. reverse s.items.items };
}

/// The fault of this kind at a line.
fn fault(kind: SourceKind, line: u32) -> BuildFault
    ensures { result ≡ BuildFault.Bad (record { kind = kind; line = line }) }
{
    BuildFault::Bad(BadSource { kind, line })
}

impl Sections {
    /// No section is open.
    pub(crate) fn new(alloc: Global) -> Sections
        ensures { result ≡ [] }
    {
        Sections {
            items: Vec::new(alloc),
        }
    }

    /// Puts a section before the others.
    #[tactic(auto, using(crate::proofs::Stack::last_first))]
    fn push(&mut self, line: u32, has_else: bool) -> Result<(), BuildFault>
        ensures ok { OnOk result (self.new ≡ record { line = line; has_else = has_else } ∷ self.old) }
        ensures err { (f : Fault) → result ≡ Err (BuildFault.Bad f) → ⊥ }
    {
        self.items.push(OpenSection { line, has_else })?;
        Ok(())
    }

    /// Takes the first section out.
    fn pop(&mut self) -> Option<OpenSection>
        ensures { MatchOption result ((self.old ≡ []) × (self.new ≡ [])) (λ s. self.old ≡ s ∷ self.new) }
    {
        self.items.pop()
    }

    /// Opens a section.
    fn open_one(&mut self, line: u32) -> Result<(), BuildFault>
        ensures ok { OnOk result (opened line self.old ≡ Ok self.new) }
        ensures err { (f : Fault) → result ≡ Err (BuildFault.Bad f) → opened line self.old ≡ Err f }
    {
        if self.items.len() == SECTION_LIMIT {
            return Err(fault(SourceKind::TooDeep, line));
        }
        self.push(line, false)
    }

    /// Goes past an `#elif`.
    fn pass_elif(&mut self, line: u32) -> Result<(), BuildFault>
        ensures ok { OnOk result (continued line self.old ≡ Ok self.new) }
        ensures err { (f : Fault) → result ≡ Err (BuildFault.Bad f) → continued line self.old ≡ Err f }
    {
        match self.pop() {
            None => Err(fault(SourceKind::StrayElif, line)),
            Some(innermost) => {
                if innermost.has_else {
                    return Err(fault(SourceKind::AfterElse, line));
                }
                self.push(innermost.line, innermost.has_else)
            }
        }
    }

    /// Goes past an `#else`.
    fn pass_else(&mut self, line: u32) -> Result<(), BuildFault>
        ensures ok { OnOk result (turned line self.old ≡ Ok self.new) }
        ensures err { (f : Fault) → result ≡ Err (BuildFault.Bad f) → turned line self.old ≡ Err f }
    {
        match self.pop() {
            None => Err(fault(SourceKind::StrayElse, line)),
            Some(section) => {
                if section.has_else {
                    return Err(fault(SourceKind::AfterElse, line));
                }
                self.push(section.line, true)
            }
        }
    }

    /// Goes past an `#endif`.
    fn close_one(&mut self, line: u32) -> Result<(), BuildFault>
        ensures ok { OnOk result (closed line self.old ≡ Ok self.new) }
        ensures err { (f : Fault) → result ≡ Err (BuildFault.Bad f) → closed line self.old ≡ Err f }
    {
        match self.pop() {
            None => Err(fault(SourceKind::StrayEndif, line)),
            Some(_) => Ok(()),
        }
    }

    /// Goes past a node of the kind that stands on the line. Text, which is every second node, is told first.
    pub(crate) fn after(&mut self, kind: NodeKind, line: u32) -> Result<(), BuildFault>
        ensures ok { OnOk result (sections_after kind line self.old ≡ Ok self.new) }
        ensures err { (f : Fault) → result ≡ Err (BuildFault.Bad f) → sections_after kind line self.old ≡ Err f }
    {
        if kind == NodeKind::Text {
            return Ok(());
        }
        match kind {
            NodeKind::If | NodeKind::Ifdef | NodeKind::Ifndef => self.open_one(line),
            NodeKind::Elif => self.pass_elif(line),
            NodeKind::Else => self.pass_else(line),
            NodeKind::Endif => self.close_one(line),
            NodeKind::Text
            | NodeKind::Define
            | NodeKind::Undef
            | NodeKind::Include
            | NodeKind::Once
            | NodeKind::Error
            | NodeKind::Other => Ok(()),
        }
    }

    /// The fault of a source that ends here, where a section is open.
    pub(crate) fn fault_at_end(&self) -> Option<BadSource>
        ensures { result ≡ fault_at_end self.now }
    {
        match self.items.last() {
            None => None,
            Some(section) => Some(BadSource {
                kind: SourceKind::OpenIf,
                line: section.line,
            }),
        }
    }
}
