//! The tree of a source.
ghost use Rattle.std.specs.Prelude.{◌≡◌, ◌<◌, ◌≤◌, ◌-◌, length, slice_get, [], None, Some, ◌↔◌, IsTrue, IsSome, IfSome, MatchOption, true};
ghost use Rattle.std.specs.Option.{option_map};
ghost use Rattle.std.specs.List.{flat_map};
ghost use Rattle.cb_lines.specs.Lines.{AreMaximal, span_lines};
ghost use Rattle.cb_tree.specs.Nodes.{AreCounted, node_line, node_rest, first_of, total_lines};
ghost use Rattle.cb_tree.specs.Groups.{kinds_of, group_end_of};
ghost use Rattle.cb_tree.specs.Roles.{opens_group};
ghost use Rattle.cb_tree.specs.Nesting.{places_of, places_from};
ghost use Rattle.cb_tree.specs.Sections.{first_fault};
ghost use Rattle.cb_tree.specs.Skeleton.{skeleton};

use crate::node::NodeKind;
use crate::nodes::Nodes;
use crate::part::{Part, Parts};
use crate::skeleton::are_same_bones;
use cb_lines::{Lines, Span};
use cb_tokens::Token;
use std::marker::Model;

/// The tree of a sound source, which contracts see as the list of its nodes. Nodes are numbered from 1.
#[derive(Drop)]
pub struct Tree {
    pub(crate) nodes: Nodes,
    pub(crate) ends: Vec<u32>,
    pub(crate) parts: Parts,
}

impl Model for Tree {
    ghost use Rattle.std.specs.Prelude.{List};
    ghost use Rattle.cb_tree.specs.Nodes.{Node};

    ghost Value = { List Node };

    ghost use Rattle.cb_tree.specs.inner.Trees.{IsKept};

    ghost view = { λ t. t.nodes };

    ghost invariant = { λ t. IsKept t.nodes t.ends.items t.parts };
}

/// The least number of spans; 0 where there is none.
#[tactic(auto, using(crate::proofs::Spans::first_of_spans))]
pub(crate) fn first_line(spans: &[Span]) -> u32
    requires { AreMaximal spans.now }
    ensures { result ≡ first_of (flat_map span_lines spans.now) }
{
    if spans.is_empty() { 0 } else { spans[0].first }
}

/// The end of a group by its entry in the table of ends, where 0 stands for none.
fn end_by_entry(entry: u32) -> Option<u32>
    ensures { MatchOption result (entry ≡ 0) (λ end. (0 < end) × (entry ≡ end)) }
{
    if entry == 0 { None } else { Some(entry) }
}

impl Tree {
    /// The number of nodes. They have no fault.
    pub fn len(&self) -> u32
        ensures count { result ≡ length self.now }
        ensures sound { first_fault self.now [] ≡ None }
    {
        self.nodes.len() as u32
    }

    /// The number of the counted lines of all nodes together. No line stands in two nodes.
    pub fn total(&self) -> u64
        ensures count { result ≡ total_lines self.now }
        ensures apart { AreCounted self.now }
    {
        self.nodes.total()
    }

    /// Whether the nodes of two trees agree in kinds and, where they are directives, in all tokens.
    pub fn same_skeleton(&self, other: &Tree) -> bool
        ensures { IsTrue result ↔ (skeleton self.now ≡ skeleton other.now) }
    {
        are_same_bones(&self.nodes, &other.nodes)
    }

    /// The kind of a node.
    pub fn kind(&self, node: u32) -> NodeKind
        requires { (1 ≤ node) × (node ≤ length self.now) }
        ensures { option_map (λ n. n.kind) (slice_get self.now (node - 1)) ≡ Some result }
    {
        self.nodes.kind(node as usize - 1)
    }

    /// The number of the `#elif`, `#else` or `#endif` that ends the group which a node begins, none where it begins none.
    pub fn group_end(&self, node: u32) -> Option<u32>
        requires { (1 ≤ node) × (node ≤ length self.now) }
        ensures end { result ≡ group_end_of (kinds_of self.now) node }
        ensures every { option_map (λ n. opens_group n.kind) (slice_get self.now (node - 1)) ≡ Some true → IsSome result }
        ensures behind { IfSome result (λ end. (node < end) × (end ≤ length self.now)) }
    {
        let ends = self.ends.as_slice();
        end_by_entry(ends[node as usize - 1])
    }

    /// The nodes in order, nested as their if sections. Read from front to back they are all nodes, each once and in its
    /// role, and each section has a group at least: by `one_nesting` no other parts are so.
    pub fn parts(&self) -> &[Part]
        ensures places { places_of result.now ≡ places_from 1 (kinds_of self.now) }
        ensures sound { first_fault self.now [] ≡ None }
    {
        self.parts.as_slice()
    }

    /// The tokens of a directive behind its name, or behind its `#` where no identifier follows that; none of text.
    pub fn rest(&self, node: u32) -> &[Token]
        requires { (1 ≤ node) × (node ≤ length self.now) }
        ensures { option_map node_rest (slice_get self.now (node - 1)) ≡ Some result.now }
    {
        self.nodes.rest(node as usize - 1)
    }

    /// The set of the physical lines on which a byte of a token of the node stands: at least one.
    pub fn counted(&self, node: u32) -> &Lines
        requires { (1 ≤ node) × (node ≤ length self.now) }
        ensures some { 0 < length result.now }
        ensures lines { option_map (λ n. n.counted) (slice_get self.now (node - 1)) ≡ Some result.now }
    {
        self.nodes.counted(node as usize - 1)
    }

    /// The first physical line with a byte of a token of the node, at least 1.
    pub fn line(&self, node: u32) -> u32
        requires { (1 ≤ node) × (node ≤ length self.now) }
        ensures some { 1 ≤ result }
        ensures line { option_map node_line (slice_get self.now (node - 1)) ≡ Some result }
    {
        let _ = &self.nodes;
        first_line(self.counted(node).spans())
    }
}
