//! Which edits of a source leave its skeleton.
use cb_tree::{BuildFault, build};
use std::alloc::Global;
use std::test::Fail;

/// Whether two sources have one skeleton.
fn agree(alloc: Global, a: &[u8], b: &[u8]) -> Result<bool, BuildFault> {
    Ok(build(alloc, a)?.same_skeleton(&build(alloc, b)?))
}

/// Two sources, and whether they have one skeleton.
const PAIRS: &[(&[u8], &[u8], bool)] = &[
    (b"#undef A", b"\n#undef A", true),
    (b"#undef A", b"x;\n#undef A", false),
    (b"#undef A", b"%:undef A", false),
    (b"#undef A", b"# undef A", false),
    (b"#undef A", b"#undef B", false),
    (b"# undef A", b"#/**/undef A", true),
    (b"#", b"%:", false),
    (b"#", b"# // c", true),
    (b"# 1 2", b"# 1 2", true),
    (b"# 1 2", b"#1 2", false),
    (b"# line 2", b"# line 3", false),
    (
        b"x\n#if A\n#endif",
        b"y;\n\nz\n#if A // b\n#endif\r\n",
        true,
    ),
    (b"#if A\n#else\n#endif", b"#if A\n#endif\n", false),
    (b"#pragma once", b"#pragma/**/once", true),
];

/// The first pair of sources for which it is otherwise: the first of the pair.
fn wrong_pair(alloc: Global) -> Result<Option<(&'static [u8], &'static [u8])>, BuildFault> {
    for row in PAIRS {
        if agree(alloc, row.0, row.1)? != row.2 {
            return Ok(Some((row.0, row.1)));
        }
    }
    Ok(None)
}

#[test]
fn skeletons_tell_directives_apart(rt: HostRuntime) -> Result<(), Fail> {
    assert_eq!(rt; wrong_pair(rt.alloc())?, None);
    Ok(())
}
