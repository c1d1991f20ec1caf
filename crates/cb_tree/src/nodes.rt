//! The nodes of a source. The tokens that are kept of their directives lie in one list.
ghost use Rattle.std.specs.Prelude.{◌≡◌, ◌-◌, ◌<◌, ◌≤◌, ◌↔◌, length, take, drop, slice_get, Some, IsTrue};
ghost use Rattle.std.specs.Option.{option_map};
ghost use Rattle.cb_tree.specs.inner.Heads.{kept_up_to, node_of, bone_with};
ghost use Rattle.cb_tree.specs.Nodes.{node_rest, total_lines};
ghost use Rattle.cb_tree.specs.Skeleton.{bone_of};

use crate::hash::Hash;
use crate::kind::{is_line, rest_behind_hash};
use crate::node::NodeKind;
use crate::skeleton::are_same_tokens;
use cb_lines::Lines;
use cb_tokens::Token;
use std::marker::Model;

/// A node but for its tokens: those of a directive behind its `#` lie among the tokens of all nodes.
#[derive(Drop)]
pub(crate) struct Head {
    /// The number of the tokens that are kept of the nodes up to it. Its own stand behind those of the nodes before it.
    pub(crate) to: u32,
    /// Its kind.
    pub(crate) kind: NodeKind,
    /// The spelling of the `#` of a directive.
    pub(crate) hash: Hash,
    /// The set of its counted lines.
    pub(crate) counted: Lines,
}

/// The nodes of a source, which contracts see as the list of them. They are numbered from 0 here.
#[derive(Drop)]
pub(crate) struct Nodes {
    pub(crate) heads: Vec<Head>,
    /// The tokens that are kept of the directives, one behind another.
    pub(crate) tokens: Vec<Token>,
    /// The number of their counted lines.
    pub(crate) total: u64,
}

impl Model for Nodes {
    ghost use Rattle.std.specs.Prelude.{◌≡◌, List, length};
    ghost use Rattle.cb_tree.specs.Nodes.{Node};

    ghost Value = { List Node };

    ghost use Rattle.cb_tree.specs.inner.Heads.{nodes_in, AreWithin};
    ghost use Rattle.cb_tree.specs.Nodes.{total_lines};

    ghost view = { λ n. nodes_in n.tokens.items 0 n.heads.items };

    ghost invariant = { λ n. AreWithin (length n.tokens.items) 0 n.heads.items × (n.total ≡ total_lines (nodes_in n.tokens.items 0 n.heads.items)) };
}

/// The tokens from one place to another.
pub(crate) fn part(tokens: &[Token], from: usize, to: usize) -> &[Token]
    requires rises { from ≤ to }
    requires within { to ≤ length tokens.now }
    ensures { result.now ≡ take (to - from) (drop from tokens.now) }
{
    &tokens[from..to]
}

/// The number of the tokens that are kept of the nodes before a place.
fn kept_before(heads: &[Head], at: usize) -> u32
    requires { at ≤ length heads.now }
    ensures { result ≡ kept_up_to 0 (take at heads.now) }
{
    if at == 0 { 0 } else { heads[at - 1].to }
}

/// Whether two nodes agree but for their lines, where these are the tokens that are kept of them.
fn are_same(a: &Head, own: &[Token], b: &Head, others: &[Token]) -> bool
    ensures { IsTrue result ↔ (bone_with own.now a.now ≡ bone_with others.now b.now) }
{
    if a.kind != b.kind {
        return false;
    }
    if !is_line(a.kind) {
        return true;
    }
    a.hash == b.hash && are_same_tokens(own, others)
}

impl Nodes {
    /// The number of nodes.
    pub(crate) fn len(&self) -> usize
        ensures { result ≡ length self.now }
    {
        self.heads.len()
    }

    /// The number of the counted lines of all nodes together.
    pub(crate) fn total(&self) -> u64
        ensures { result ≡ total_lines self.now }
    {
        self.total
    }

    /// The kind of a node.
    pub(crate) fn kind(&self, at: usize) -> NodeKind
        requires { at < length self.now }
        ensures { option_map (λ n. n.kind) (slice_get self.now at) ≡ Some result }
    {
        self.heads[at].kind
    }

    /// A node but for its tokens, and those of them that are kept.
    fn kept(&self, at: usize) -> (&Head, &[Token])
        requires { at < length self.now }
        ensures { slice_get self.now at ≡ Some (node_of result.1.now result.0.now) }
    {
        let head = &self.heads[at];
        let from = kept_before(self.heads.as_slice(), at) as usize;
        (head, part(self.tokens.as_slice(), from, head.to as usize))
    }

    /// The tokens of a directive behind its name, or behind its `#` where no identifier follows that; none of text.
    pub(crate) fn rest(&self, at: usize) -> &[Token]
        requires { at < length self.now }
        ensures { option_map node_rest (slice_get self.now at) ≡ Some result.now }
    {
        let (head, kept) = self.kept(at);
        if is_line(head.kind) {
            rest_behind_hash(kept)
        } else {
            &[]
        }
    }

    /// Whether a node agrees with one of another list but for their lines.
    pub(crate) fn has_same_bone(&self, other: &Nodes, at: usize) -> bool
        requires { (at < length self.now) × (at < length other.now) }
        ensures { IsTrue result ↔ (option_map bone_of (slice_get self.now at) ≡ option_map bone_of (slice_get other.now at)) }
    {
        let (a, own) = self.kept(at);
        let (b, others) = other.kept(at);
        are_same(a, own, b, others)
    }

    /// The set of the counted lines of a node.
    pub(crate) fn counted(&self, at: usize) -> &Lines
        requires { at < length self.now }
        ensures { option_map (λ n. n.counted) (slice_get self.now at) ≡ Some result.now }
    {
        &self.heads[at].counted
    }
}
