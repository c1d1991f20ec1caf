//! Sources with their nodes, worked by hand.
use cb_tree::{BuildFault, NodeKind, Tree, build};
use std::alloc::Global;
use std::test::Fail;

fn is_shared<T: Send + Sync>() {}

/// A letter for each kind.
fn letter(kind: NodeKind) -> u8 {
    match kind {
        NodeKind::Text => b'T',
        NodeKind::If => b'I',
        NodeKind::Ifdef => b'D',
        NodeKind::Ifndef => b'N',
        NodeKind::Elif => b'L',
        NodeKind::Else => b'E',
        NodeKind::Endif => b'Z',
        NodeKind::Define => b'F',
        NodeKind::Undef => b'U',
        NodeKind::Include => b'C',
        NodeKind::Once => b'O',
        NodeKind::Error => b'R',
        NodeKind::Other => b'X',
    }
}

/// Adds a node: the letter of its kind, the last digits of the first and last line of each span of its counted lines, its tokens,
/// each behind a `|`, and a `.`.
fn push_node(text: &mut Vec<u8>, tree: &Tree, node: u32) -> Result<(), BuildFault> {
    if node == 0 || node > tree.len() {
        return Ok(());
    }
    text.push(letter(tree.kind(node)))?;
    for span in tree.counted(node).spans() {
        text.push(b'0' + (span.first % 10) as u8)?;
        text.push(b'0' + (span.last % 10) as u8)?;
    }
    for token in tree.rest(node) {
        text.push(b'|')?;
        text.extend_from_slice(token.text.as_slice())?;
    }
    text.push(b'.')?;
    Ok(())
}

/// The nodes of a source, one behind another.
fn shown(alloc: Global, source: &[u8]) -> Result<Vec<u8>, BuildFault> {
    let tree = build(alloc, source)?;
    let mut text = Vec::new(alloc);
    for node in 0..tree.len() {
        push_node(&mut text, &tree, node + 1)?;
    }
    Ok(text)
}

/// Whether a source has these nodes.
fn has_nodes(alloc: Global, source: &[u8], expected: &[u8]) -> Result<bool, BuildFault> {
    let text = shown(alloc, source)?;
    Ok(text.as_slice() == expected)
}

/// Sources, and the nodes of each.
const NODES: &[(&[u8], &[u8])] = &[
    (b"", b""),
    (
        b"int a;\n\nint b; /*\n#if */ c;\n%:if A\n#pragma once x\n#pragma twice\n#\n## b\r\n # /*c*/ else\n#endif",
        b"T1134.I55|A.O66|once|x.X77|twice.X88.T99.E00.Z11.",
    ),
    (
        b"%\\\n:if A\\\r\nB\r\nx\\\r\ny\r\n%:endif\r\n",
        b"I13|AB.T45.Z66.",
    ),
    (
        b"# define A(x) x##1 // c\n#undef A\n#error \"e\" '\n#ifndef B\n#elif C\n#ifdef D\n#endif\n#endif\n",
        b"F11|A|(|x|)|x|##|1.U22|A.R33|\"e\"|'.N44|B.L55|C.D66|D.Z77.Z88.",
    ),
    (b"#include <a.h>\r\n", b"C11|<|a|.|h|>."),
    (b"a\n\n/* b */\nc\n", b"T1144."),
    (b"a #if\n%:%: b\n", b"T12."),
    (b"#elifdef A\n", b"X11|A."),
    (b"#1 2\n#'\n# \"s\"", b"X11|1|2.X22|'.X33|\"s\"."),
    (b"#/* c\n*/define A /*\n*/ 1\n\n\nx", b"F13|A|1.T66."),
];

/// The first source that has other nodes.
fn wrong_nodes(alloc: Global) -> Result<Option<&'static [u8]>, BuildFault> {
    for row in NODES {
        if !has_nodes(alloc, row.0, row.1)? {
            return Ok(Some(row.0));
        }
    }
    Ok(None)
}

#[test]
fn nodes_are_in_order(rt: HostRuntime) -> Result<(), Fail> {
    is_shared::<Tree>();
    assert_eq!(rt; wrong_nodes(rt.alloc())?, None);
    Ok(())
}

/// The number of nodes and of counted lines of a source.
fn counts(alloc: Global, source: &[u8]) -> Result<(u32, u64), BuildFault> {
    let tree = build(alloc, source)?;
    Ok((tree.len(), tree.total()))
}

/// The lines of the nodes of a source, added up.
fn line_sum(alloc: Global, source: &[u8]) -> Result<u64, BuildFault> {
    let tree = build(alloc, source)?;
    let mut sum = 0u64;
    for node in 0..tree.len() {
        sum = sum.saturating_add(u64::from(tree.line(node + 1)));
    }
    Ok(sum)
}

#[test]
fn nodes_are_counted(rt: HostRuntime) -> Result<(), Fail> {
    assert_eq!(rt;
        counts(rt.alloc(), b"a\nb\n\n#if A\nc; /*\n\n*/ d\n#endif")?,
        (4, 6)
    );
    assert_eq!(rt; line_sum(rt.alloc(), b"\n\na\nb\n#if A\n\nc\n#endif")?, 23);
    Ok(())
}
