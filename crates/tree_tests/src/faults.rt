//! Sources that are not sound, and the limits.
use cb_tree::{BadSource, BuildFault, SourceKind, build};
use std::alloc::Global;
use std::test::Fail;

/// The fault of a source; none where it is sound or memory runs out.
fn fault_of(alloc: Global, source: &[u8]) -> Option<BadSource> {
    match build(alloc, source) {
        Err(BuildFault::Bad(fault)) => Some(fault),
        Err(BuildFault::NoMemory) => None,
        Ok(_) => None,
    }
}

/// Whether the fault of a source has this text.
fn has_fault(alloc: Global, source: &[u8], expected: &[u8]) -> Result<bool, BuildFault> {
    let mut text = Vec::new(alloc);
    if let Some(fault) = fault_of(alloc, source) {
        fault.push_text(&mut text)?;
    }
    Ok(text.as_slice() == expected)
}

/// Sources, and the text of the fault of each.
const FAULTS: &[(&[u8], &[u8])] = &[
    (
        b"#if A\nx;\n#else\ny;\n#else\n#endif\n",
        b"bad source 5 AfterElse line 5",
    ),
    (
        b"#if A\n#else\n#elif B\n#endif",
        b"bad source 5 AfterElse line 3",
    ),
    (b"a\n\n#elif B\n", b"bad source 2 StrayElif line 3"),
    (b"# /* c */ else\n", b"bad source 3 StrayElse line 1"),
    (
        b"#if A\n#endif\n%: endif\n",
        b"bad source 4 StrayEndif line 3",
    ),
    (
        b"#if A\n#ifdef B\n#endif\n#\\\nifndef C\n",
        b"bad source 6 OpenIf line 4",
    ),
    (
        b"#endif\n\"/*\" // /*\n/* a\n",
        b"bad source 1 OpenComment line 3",
    ),
    (
        b"\n\n\n\n\n\n\n\n\n\n\n#endif\n",
        b"bad source 4 StrayEndif line 12",
    ),
    (b"#if A\n#else\n#endif\n", b""),
];

/// The first source with another fault.
fn wrong_fault(alloc: Global) -> Result<Option<&'static [u8]>, BuildFault> {
    for row in FAULTS {
        if !has_fault(alloc, row.0, row.1)? {
            return Ok(Some(row.0));
        }
    }
    Ok(None)
}

#[test]
fn the_first_fault_decides(rt: HostRuntime) -> Result<(), Fail> {
    assert_eq!(rt; wrong_fault(rt.alloc())?, None);
    Ok(())
}

/// A source of so many nested sections, each on two lines.
fn nested(alloc: Global, sections: usize) -> Result<Vec<u8>, BuildFault> {
    let mut source = Vec::new(alloc);
    for _ in 0..sections {
        source.extend_from_slice(b"#if A\n")?;
    }
    for _ in 0..sections {
        source.extend_from_slice(b"#endif\n")?;
    }
    Ok(source)
}

/// A source of so many copies of a byte, and then an `a`.
fn repeated(alloc: Global, byte: u8, count: usize) -> Result<Vec<u8>, BuildFault> {
    let mut source = Vec::new(alloc);
    for _ in 0..count {
        source.push(byte)?;
    }
    source.push(b'a')?;
    Ok(source)
}

/// The kind and line of the fault of so many nested sections.
fn fault_of_nested(alloc: Global, sections: usize) -> Result<Option<BadSource>, BuildFault> {
    let source = nested(alloc, sections)?;
    Ok(fault_of(alloc, source.as_slice()))
}

/// The kind and line of the fault of so many copies of a byte and an `a`.
fn fault_of_repeated(
    alloc: Global,
    byte: u8,
    count: usize,
) -> Result<Option<BadSource>, BuildFault> {
    let source = repeated(alloc, byte, count)?;
    Ok(fault_of(alloc, source.as_slice()))
}

/// A byte, how many copies of it stand before an `a`, and the line of the fault.
const LIMITS: &[(u8, u32, Option<u32>)] = &[
    (b'\n', 199_999, None),
    (b'\n', 200_000, Some(200_001)),
    (b' ', 4_194_303, None),
    (b' ', 4_194_304, Some(0)),
];

/// The first of the rows at which a limit is not held.
fn wrong_limit(alloc: Global) -> Result<Option<u32>, BuildFault> {
    let too_deep = Some(BadSource {
        kind: SourceKind::TooDeep,
        line: 257,
    });
    if fault_of_nested(alloc, 256)? != None || fault_of_nested(alloc, 257)? != too_deep {
        return Ok(Some(257));
    }
    for row in LIMITS {
        let fault = row.2.map(|line| BadSource {
            kind: SourceKind::TooLarge,
            line,
        });
        if fault_of_repeated(alloc, row.0, row.1 as usize)? != fault {
            return Ok(Some(row.1));
        }
    }
    Ok(None)
}

#[test]
fn limits_hold_at_both_sides(rt: HostRuntime) -> Result<(), Fail> {
    assert_eq!(rt; wrong_limit(rt.alloc())?, None);
    Ok(())
}

#[test]
fn faults_are_shown(rt: HostRuntime) -> Result<(), Fail> {
    let fault = BadSource {
        kind: SourceKind::OpenIf,
        line: 7,
    };
    let text = format!(in rt.alloc(); "{}", BuildFault::Bad(fault))?;
    assert_eq!(rt; text.as_str(), "line 7: a section has no #endif");
    Ok(())
}
