//! The nodes of a source in order, with the first fault among them.
ghost use Rattle.std.specs.Prelude.{◌≡◌, ◌+◌, ◌^◌, ◌<◌, ◌≤◌, false, length, IfOk, IfErr, OnOk};
ghost use Rattle.cb_tree.specs.inner.Reads.{Tells, ReadsNode, ReadsOut, Refuses, AreSound};

use crate::directive::read_directive;
use crate::fault::BuildFault;
use crate::hash::Hash;
use crate::kind::is_hash_text;
use crate::node::NodeKind;
use crate::nodes::{Head, Nodes};
use crate::reading::{Start, look_ahead, skip_white};
use crate::run::{read_on, read_run};
use crate::sections::Sections;
use crate::stretch::{begin_run, pass_white};
use crate::tree::first_line;
use cb_lines::{Lines, Walk};
use cb_tokens::{Token, TokenKind, begins_with_hash};
use std::alloc::Global;

/// The head of a run of text behind so many tokens.
fn text_head(count: u32, counted: Lines) -> Head
    ensures { result ≡ record { to = count; kind = NodeKind.Text; hash = Hash.Sign; counted = counted } }
{
    Head {
        to: count,
        kind: NodeKind::Text,
        hash: Hash::Sign,
        counted,
    }
}

/// Reads the next node from its first token on, which need not stand next, or goes to the end of the source where there is none.
fn read_from_token(
    alloc: Global,
    walk: &mut Walk,
    tokens: &mut Vec<Token>,
) -> Result<Option<Head>, BuildFault>
    requires room { length tokens.old.items + length walk.old < 2 ^ 32 }
    ensures reads { IfOk result (ReadsNode walk.old walk.new tokens.old.items tokens.new.items) }
    ensures few_tokens { OnOk result (length tokens.new.items + length walk.new ≤ length tokens.old.items + length walk.old) }
    ensures tells { IfErr result (Tells walk.old) }
{
    let Some(token) = skip_white(walk)? else {
        return Ok(None);
    };
    if is_hash_text(&walk.rest()[..token.len]) {
        let head = read_directive(alloc, walk, token, tokens)?;
        return Ok(Some(head));
    }
    let counted = read_run(alloc, walk, token)?;
    Ok(Some(text_head(tokens.len() as u32, counted)))
}

/// Reads the next node and adds its tokens to those of the nodes before it, or goes to the end of the source where there is none.
fn read_node(
    alloc: Global,
    walk: &mut Walk,
    tokens: &mut Vec<Token>,
) -> Result<Option<Head>, BuildFault>
    requires room { length tokens.old.items + length walk.old < 2 ^ 32 }
    ensures reads { IfOk result (ReadsNode walk.old walk.new tokens.old.items tokens.new.items) }
    ensures few_tokens { OnOk result (length tokens.new.items + length walk.new ≤ length tokens.old.items + length walk.old) }
    ensures tells { IfErr result (Tells walk.old) }
{
    pass_white(walk);
    if begins_with_hash(walk.rest()) {
        let hash = Start {
            kind: TokenKind::Punct,
            len: 1,
        };
        let head = read_directive(alloc, walk, hash, tokens)?;
        return Ok(Some(head));
    }
    match begin_run(alloc, walk) {
        Some(begun) => {
            let counted = read_on(walk, begun.counted, begun.place)?;
            Ok(Some(text_head(tokens.len() as u32, counted)))
        }
        None => {
            let head = read_from_token(alloc, walk, tokens)?;
            Ok(head)
        }
    }
}

/// Reads the rest of a source after a node's fault: a comment that is open overrules it.
fn read_out(walk: &mut Walk, fault: BuildFault) -> BuildFault
    ensures { ReadsOut walk.old fault result }
{
    'pieces: loop {
        match look_ahead(walk) {
            Ok(Some(piece)) => walk.pass(piece.len),
            Ok(None) => return fault,
            Err(open_comment) => return open_comment,
        }
    }
}

/// The nodes of a source.
pub(crate) fn read_nodes(alloc: Global, walk: &mut Walk) -> Result<Nodes, BuildFault>
    requires { length walk.old < 2 ^ 32 }
    ensures nodes { IfOk result (AreSound walk.old) }
    ensures fault { IfErr result (Refuses walk.old) }
{
    let mut heads = Vec::new(alloc);
    let mut tokens = Vec::new(alloc);
    let mut total = 0;
    let mut sections = Sections::new(alloc);
    'nodes: loop {
        match read_node(alloc, walk, &mut tokens)? {
            None => break,
            Some(head) => {
                let line = first_line(head.counted.spans());
                total += head.counted.count();
                match sections.after(head.kind, line) {
                    Ok(()) => heads.push(head)?,
                    Err(fault) => return Err(read_out(walk, fault)),
                }
            }
        }
    }
    match sections.fault_at_end() {
        None => Ok(Nodes {
            heads,
            tokens,
            total,
        }),
        Some(fault) => Err(BuildFault::Bad(fault)),
    }
}
