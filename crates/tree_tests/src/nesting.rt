//! How the nodes of sources nest.
use cb_tree::{BuildFault, Part, Section, Tree, build};
use std::alloc::Global;
use std::test::Fail;

/// Adds the last digit of a number.
fn push_digit(text: &mut Vec<u8>, number: u32) -> Result<(), BuildFault> {
    text.push(b'0' + (number % 10) as u8)?;
    Ok(())
}

/// Adds a section: each group as its head, its parts and a `|`, then the end, between brackets.
#[cycle(show)]
fn push_section(text: &mut Vec<u8>, section: &Section) -> Result<(), BuildFault> {
    text.push(b'[')?;
    for group in section.groups.as_slice() {
        push_digit(text, group.head)?;
        push_parts(text, group.parts.as_slice())?;
        text.push(b'|')?;
    }
    push_digit(text, section.end)?;
    text.push(b']')?;
    Ok(())
}

/// Adds parts.
#[cycle(show)]
fn push_parts(text: &mut Vec<u8>, parts: &[Part]) -> Result<(), BuildFault> {
    for part in parts {
        match part {
            Part::Plain(node) => push_digit(text, *node)?,
            Part::Section(section) => push_section(text, section)?,
        }
    }
    Ok(())
}

/// The parts of a source.
fn shown(alloc: Global, source: &[u8]) -> Result<Vec<u8>, BuildFault> {
    let tree = build(alloc, source)?;
    let mut text = Vec::new(alloc);
    push_parts(&mut text, tree.parts())?;
    Ok(text)
}

/// Whether the nodes of a source nest so.
fn is_nested(alloc: Global, source: &[u8], expected: &[u8]) -> Result<bool, BuildFault> {
    let text = shown(alloc, source)?;
    Ok(text.as_slice() == expected)
}

/// Sources, and how the nodes of each nest.
const NESTINGS: &[(&[u8], &[u8])] = &[
    (b"", b""),
    (b"a\n#define A\nb", b"123"),
    (
        b"a\n#if A\nb\n#elif B\n#else\nc\n#endif\nd",
        b"1[23|4|56|7]8",
    ),
    (
        b"#if A\n#ifdef B\n#endif\n#ifndef C\nx\n#endif\n#endif",
        b"[1[2|3][45|6]|7]",
    ),
    (
        b"#if A\n#if B\n#else\n#endif\n#endif\n#if C\n#endif",
        b"[1[2|3|4]|5][6|7]",
    ),
];

/// The first source whose nodes nest in another way.
fn wrong_nesting(alloc: Global) -> Result<Option<&'static [u8]>, BuildFault> {
    for row in NESTINGS {
        if !is_nested(alloc, row.0, row.1)? {
            return Ok(Some(row.0));
        }
    }
    Ok(None)
}

#[test]
fn nodes_nest_as_their_sections(rt: HostRuntime) -> Result<(), Fail> {
    assert_eq!(rt; wrong_nesting(rt.alloc())?, None);
    Ok(())
}

/// Adds where the group of a node ends, `-` where it begins none.
fn push_end(text: &mut Vec<u8>, tree: &Tree, node: u32) -> Result<(), BuildFault> {
    if node == 0 || node > tree.len() {
        return Ok(());
    }
    match tree.group_end(node) {
        Some(end) => push_digit(text, end),
        None => {
            text.push(b'-')?;
            Ok(())
        }
    }
}

/// The ends of the groups of a source's nodes.
fn ends(alloc: Global, source: &[u8]) -> Result<Vec<u8>, BuildFault> {
    let tree = build(alloc, source)?;
    let mut text = Vec::new(alloc);
    for node in 0..tree.len() {
        push_end(&mut text, &tree, node + 1)?;
    }
    Ok(text)
}

#[test]
fn groups_end_at_the_next_directive_of_their_section(rt: HostRuntime) -> Result<(), Fail> {
    let source = b"a\n#if A\n#if B\n#else\n#endif\n#elif C\nx\n#else\n#endif";
    assert_eq!(rt;
        ends(rt.alloc(), source)?.as_slice(),
        b"-645-8-9-".as_slice()
    );
    Ok(())
}
