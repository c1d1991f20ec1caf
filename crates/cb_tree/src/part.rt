//! The parts of a tree: its nodes, nested as their if sections.
use sqlite_items::Items;

/// A list of parts.
pub type Parts = Items<Part>;

/// A list of groups.
pub type Groups = Items<Group>;

/// A part of a tree.
#[cycle(parts)]
#[derive(Drop)]
pub enum Part {
    /// A node that neither begins a group nor ends a section.
    Plain(u32),
    /// An if section.
    Section(Section),
}

/// An if section.
#[cycle(parts)]
#[derive(Drop)]
pub struct Section {
    /// Its groups, each from its own directive on.
    pub groups: Groups,
    /// The number of its `#endif`.
    pub end: u32,
}

/// A group of an if section.
#[cycle(parts)]
#[derive(Drop)]
pub struct Group {
    /// The number of the directive that begins it.
    pub head: u32,
    /// The parts between that directive and the next one of the section.
    pub parts: Parts,
}
