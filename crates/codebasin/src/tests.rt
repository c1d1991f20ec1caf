//! Whole runs over objects in memory.
use crate::running::run;
use cb_outside::{MemSink, MemSource, Numbers};
use cb_paths::{Bytes, NoMemory, SOURCE_BYTE_LIMIT};
use std::alloc::Global;
use std::test::Fail;

/// The calls that fail, and what there is room for.
#[derive(Clone, Copy)]
struct Faults {
    pieces: &'static [u64],
    reads: &'static [u64],
    writes: &'static [u64],
    room: usize,
}

/// Nothing fails, and all is read at once.
const NO_FAULTS: Faults = Faults {
    pieces: &[],
    reads: &[],
    writes: &[],
    room: 4096,
};

/// The arguments of a command line.
fn texts_of(alloc: Global, arguments: &[&str]) -> Result<Vec<String>, NoMemory> {
    let mut texts = Vec::new(alloc);
    for argument in arguments {
        texts.push(String::from_str(alloc, *argument)?)?;
    }
    Ok(texts)
}

/// An input in memory.
fn input_of(alloc: Global, source: &[u8], faults: Faults) -> Result<MemSource, NoMemory> {
    let bytes = Bytes::from_slice(alloc, source)?;
    let pieces = Numbers::from_slice(alloc, faults.pieces)?;
    let fails = Numbers::from_slice(alloc, faults.reads)?;
    Ok(MemSource::new(bytes, pieces, fails))
}

/// Whether a run with these arguments over an input ends with a status and a text.
fn ends_with(
    rt: &HostRuntime,
    arguments: &[&str],
    source: &[u8],
    faults: Faults,
    status: u8,
    text: &[u8],
) -> Result<bool, NoMemory> {
    let alloc = rt.alloc();
    let fails = Numbers::from_slice(alloc, faults.writes)?;
    let mut out = MemSink::new(alloc, faults.room, fails)?;
    let mut input = input_of(alloc, source, faults)?;
    let got = run(
        rt,
        texts_of(alloc, arguments)?.as_slice(),
        &mut input,
        &mut out,
    );
    Ok(got == status && out.taken() == text)
}

const USAGE: &[u8] = b"usage: codebasin specialise|report|stdio|serve|generate\n";

const GPU: &[u8] = b"#ifdef GPU\na();\n#else\nb();\n#endif\nc();\n";

const WITH_GPU: &[u8] = b"1\n2\n3\n5\n6\n";

const WITHOUT_GPU: &[u8] = b"1\n3\n4\n5\n6\n";

const ARGUMENTS: [(&[&str], u8, &[u8]); 24] = [
    (&["specialise"], 0, WITHOUT_GPU),
    (&["specialise", "-D", "GPU"], 0, WITH_GPU),
    (&["specialise", "-DGPU"], 0, WITH_GPU),
    (&["specialise", "-DCPU", "-D", "GPU"], 0, WITH_GPU),
    (&["specialise", "-DCPU=GPU"], 0, WITHOUT_GPU),
    // what a macro is defined as does not matter here
    (&["specialise", "-DGPU=0"], 0, WITH_GPU),
    (&["specialise", "-DGPU="], 0, WITH_GPU),
    (&["specialise", "-DGPU(x)=x"], 0, WITH_GPU),
    (&["specialise", "-DGPU=#"], 0, WITH_GPU),
    // a word is cut at its first line end
    (&["specialise", "-DGPU=1\n/*"], 0, WITH_GPU),
    (&["specialise", "-D"], 1, USAGE),
    (&["specialise", "-D", ""], 1, USAGE),
    (&["specialise", "-D", "9"], 1, USAGE),
    (&["specialise", "-DGPU=##"], 1, USAGE),
    (&["specialise", "-DGPU(x"], 1, USAGE),
    (&["specialise", "-DGPU=/*"], 1, USAGE),
    (&["specialise", "-Ddefined"], 1, USAGE),
    (&["specialise", "-D__VA_ARGS__"], 1, USAGE),
    (&["specialise", "-DGPU", "-D9"], 1, USAGE),
    (&["specialise", "GPU"], 1, USAGE),
    (&["specialise", "-D", "-DGPU"], 1, USAGE),
    (&["specialise", "-UGPU"], 1, USAGE),
    (&["generate"], 1, USAGE),
    (&[], 1, USAGE),
];

#[test]
fn arguments_are_read(rt: HostRuntime) -> Result<(), Fail> {
    for at in 0..ARGUMENTS.len() {
        let (arguments, status, text) = ARGUMENTS[at];
        assert!(rt;
            ends_with(&rt, arguments, GPU, NO_FAULTS, status, text)?,
            "row {at}"
        );
    }
    Ok(())
}

/// Sources, with no macro of the caller's.
const SPECIALISED: [(&[u8], u8, &[u8]); 20] = [
    (b"", 0, b""),
    (
        b"#ifndef A\n#define A\na;\n#endif\n#ifdef A\nb;\n#endif\n",
        0,
        b"1\n2\n3\n4\n5\n6\n7\n",
    ),
    (
        b"#ifdef A\n#define B\n#endif\n#ifdef B\nb;\n#endif\n",
        0,
        b"1\n3\n4\n6\n",
    ),
    (
        b"#ifdef A\n#ifdef B\nx;\n#else\ny;\n#endif\n#endif\n",
        0,
        b"1\n7\n",
    ),
    (
        b"#define A\n#undef A\n#ifdef A\nx;\n#endif\n#ifndef\nz;\n#endif\n",
        0,
        b"1\n2\n3\n5\n6\n8\n",
    ),
    (b"#ifdef __STDC__\nx;\n#endif\n", 0, b"1\n2\n3\n"),
    (b"int a; /* x\ny\nz */ int b;\n", 0, b"1\n3\n"),
    (
        b"#if A\nx;\n#else\ny;\n#else\n#endif\n",
        2,
        b"error input: bad source 5 AfterElse line 5\n",
    ),
    (
        b"x;\n#endif\n",
        2,
        b"error input: bad source 4 StrayEndif line 2\n",
    ),
    (
        b"\n#ifdef A\n",
        2,
        b"error input: bad source 6 OpenIf line 2\n",
    ),
    (
        b"\n /* x\n",
        2,
        b"error input: bad source 1 OpenComment line 2\n",
    ),
    (
        b"#elif 1\n",
        2,
        b"error input: bad source 2 StrayElif line 1\n",
    ),
    (
        b"x;\n\n#else\n",
        2,
        b"error input: bad source 3 StrayElse line 3\n",
    ),
    // CR LF, splices and the digraph of #
    (
        b"%:ifndef A\r\na;\\\r\nb;\r\n%:endif\r\n",
        0,
        b"1\n2\n3\n4\n",
    ),
    (b"#if\\\ndef A\nx;\n#endif\ny;\n", 0, b"1\n2\n4\n5\n"),
    (
        b"#undef __STDC__\n#ifdef __STDC__\nx;\n#endif\n",
        0,
        b"1\n2\n4\n",
    ),
    // a malformed condition in a skipped group is not looked at
    (b"#ifdef A\n#if (\n#endif\n#endif\n", 0, b"1\n4\n"),
    // a header that is absent, and one that is the source itself, once and up to the depth at which it is not entered
    (b"#include \"no.h\"\nx;\n", 0, b"1\n2\n"),
    (b"#pragma once\n#include \"input.c\"\nx;\n", 0, b"1\n2\n3\n"),
    (b"#include \"input.c\"\nx;\n", 0, b"1\n2\n"),
];

#[test]
fn sources_are_specialised(rt: HostRuntime) -> Result<(), Fail> {
    for at in 0..SPECIALISED.len() {
        let (source, status, text) = SPECIALISED[at];
        assert!(rt;
            ends_with(&rt, &["specialise"], source, NO_FAULTS, status, text)?,
            "row {at}"
        );
    }
    Ok(())
}

/// Sources where `N` is 2: lines with an `a` are reached, and those with a `b` are not.
const CONDITIONS: [(&[u8], &[u8]); 24] = [
    (b"#if N*N == 4\na;\n#endif\n", b"1\n2\n3\n"),
    (b"#if N == 2 && !defined M\na;\n#endif\n", b"1\n2\n3\n"),
    (b"#if __STDC__ == 1\na;\n#endif\n", b"1\n2\n3\n"),
    (
        b"#if __STDC_VERSION__ == 201112L\na;\n#endif\n",
        b"1\n2\n3\n",
    ),
    (
        b"#define SQUARE(x) ((x) * (x))\n#if SQUARE(3) == 9\na;\n#endif\n",
        b"1\n2\n3\n4\n",
    ),
    (
        b"#define f(a) a*g\n#define g(a) f(a)\n#if f(2)(9)\nb;\n#endif\n",
        b"1\n2\n3\n5\n",
    ),
    (
        b"#define HAS defined N\n#if HAS\na;\n#endif\n",
        b"1\n2\n3\n4\n",
    ),
    // a definition that differs takes effect
    (b"#define N 3\n#if N == 3\na;\n#endif\n", b"1\n2\n3\n4\n"),
    (
        b"#undef N\n#if N\nb;\n#else\na;\n#endif\n",
        b"1\n2\n4\n5\n6\n",
    ),
    (
        b"#define JOIN(a, b) a##b\n#if JOIN(1, N) == 12\nb;\n#endif\n",
        b"1\n2\n4\n",
    ),
    (
        b"#define JOIN(a, b) a##b\n#define BOTH(a, b) JOIN(a, b)\n#if BOTH(1, N) == 12\na;\n#endif\n",
        b"1\n2\n3\n4\n5\n",
    ),
    (
        b"#define FIRST(x, ...) x\n#if FIRST(1, 0, 0)\na;\n#endif\n",
        b"1\n2\n3\n4\n",
    ),
    // the source includes itself, by its name and by a macro
    (
        b"#ifdef A\na;\n#endif\n#ifndef A\n#define A\n#include \"input.c\"\n#endif\n",
        b"1\n2\n3\n4\n5\n6\n7\n",
    ),
    (
        b"#ifdef A\na;\n#endif\n#ifndef A\n#define A\n#define H \"input.c\"\n#include H\n#endif\n",
        b"1\n2\n3\n4\n5\n6\n7\n8\n",
    ),
    // a header between < and > is looked for elsewhere
    (
        b"#ifdef A\nb;\n#endif\n#ifndef A\n#define A\n#include <input.c>\n#endif\n",
        b"1\n3\n4\n5\n6\n7\n",
    ),
    // at the start of its name there is the folder of the source, which is the root
    (
        b"#ifdef A\na;\n#endif\n#ifndef A\n#define A\n#include \"x/../input.c\"\n#endif\n",
        b"1\n2\n3\n4\n5\n6\n7\n",
    ),
    (
        b"#if 0\n#elif 1\na;\n#elif 1/0\nb;\n#endif\n",
        b"1\n2\n3\n4\n6\n",
    ),
    (b"#if 1/0\nb;\n#else\na;\n#endif\n", b"1\n3\n4\n5\n"),
    (b"#if (1\nb;\n#endif\n", b"1\n3\n"),
    (b"#if defined\nb;\n#endif\n", b"1\n3\n"),
    (b"#if M\nb;\n#endif\n", b"1\n3\n"),
    (b"#if !defined ( M ) && -1 > 0u\na;\n#endif\n", b"1\n2\n3\n"),
    (b"#if defined(N)+defined M==1\na;\n#endif\n", b"1\n2\n3\n"),
    (
        b"#if N == 1\nb;\n#elif N == 2\na;\n#else\nb;\n#endif\n",
        b"1\n3\n4\n5\n7\n",
    ),
];

#[test]
fn conditions_choose(rt: HostRuntime) -> Result<(), Fail> {
    for at in 0..CONDITIONS.len() {
        let (source, text) = CONDITIONS[at];
        assert!(rt;
            ends_with(&rt, &["specialise", "-DN=2"], source, NO_FAULTS, 0, text)?,
            "row {at}"
        );
    }
    Ok(())
}

/// Whether a run over so many copies of a byte ends with a status and a text.
fn repeated_ends_with(
    rt: &HostRuntime,
    byte: u8,
    count: usize,
    status: u8,
    text: &[u8],
) -> Result<bool, NoMemory> {
    let source = vec![in rt.alloc(); byte; count]?;
    ends_with(
        rt,
        &["specialise"],
        source.as_slice(),
        NO_FAULTS,
        status,
        text,
    )
}

#[test]
fn limits_hold_at_both_sides(rt: HostRuntime) -> Result<(), Fail> {
    let rows: [(u8, usize, u8, &[u8]); 4] = [
        (b' ', SOURCE_BYTE_LIMIT, 0, b""),
        (
            b' ',
            SOURCE_BYTE_LIMIT + 1,
            3,
            b"error input: limit bytes 4194304\n",
        ),
        (b'\n', 200_000, 0, b""),
        (
            b'\n',
            200_001,
            2,
            b"error input: bad source 8 TooLarge line 200001\n",
        ),
    ];
    for (byte, count, status, text) in rows {
        assert!(rt;
            repeated_ends_with(&rt, byte, count, status, text)?,
            "{count} bytes"
        );
    }
    Ok(())
}

/// Whether a run over so many nested sections, and so many ends, ends with a status and the front of a text.
fn nested_ends_with(
    rt: &HostRuntime,
    depth: usize,
    status: u8,
    text: &[u8],
) -> Result<bool, NoMemory> {
    let mut source = Vec::new(rt.alloc());
    for _ in 0..depth {
        source.extend_from_slice(b"#ifdef A\n")?;
    }
    ends_with(
        rt,
        &["specialise"],
        source.as_slice(),
        NO_FAULTS,
        status,
        text,
    )
}

#[test]
fn sections_are_nested_up_to_a_limit(rt: HostRuntime) -> Result<(), Fail> {
    for (depth, text) in [
        (
            256,
            b"error input: bad source 6 OpenIf line 256\n".as_slice(),
        ),
        (257, b"error input: bad source 7 TooDeep line 257\n"),
    ] {
        assert!(rt; nested_ends_with(&rt, depth, 2, text)?, "{depth} sections");
    }
    Ok(())
}

#[test]
fn failed_calls_are_told(rt: HostRuntime) -> Result<(), Fail> {
    let rows: [(
        &'static [u64],
        &'static [u64],
        &'static [u64],
        usize,
        u8,
        &[u8],
    ); 7] = [
        (&[1, 0, 3, 1], &[], &[], 4096, 0, b"1\n2\n3\n5\n6\n"),
        (&[], &[1], &[], 4096, 4, b"error read\n"),
        (&[1, 1, 1, 1], &[4], &[], 4096, 4, b"error read\n"),
        (&[], &[], &[1], 4096, 5, b""),
        (&[], &[], &[], 3, 5, b"1\n2"),
        (&[], &[1], &[2], 5, 5, b"error"),
        (&[], &[2], &[], 5, 5, b"error"),
    ];
    for at in 0..rows.len() {
        let (pieces, reads, writes, room, status, text) = rows[at];
        let faults = Faults {
            pieces,
            reads,
            writes,
            room,
        };
        assert!(rt;
            ends_with(&rt, &["specialise", "-DGPU"], GPU, faults, status, text)?,
            "row {at}"
        );
    }
    Ok(())
}
