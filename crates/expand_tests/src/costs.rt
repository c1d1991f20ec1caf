//! The limit of an expansion.
use crate::telling::{expanded, text_of};
use cb_expand::Mode;
use cb_paths::NoMemory;
use std::alloc::Global;
use std::test::Fail;

/// A chain of macros, each with twice the tokens of the one before: that with number k costs 3 * 2^(k + 1) - 3. And one
/// that costs 1, one that costs 2, and one that costs 1 and its argument's tokens and cost.
const DOUBLING: &str = r#"a0=x x
a1=a0 a0
a2=a1 a1
a3=a2 a2
a4=a3 a3
a5=a4 a4
a6=a5 a5
a7=a6 a6
a8=a7 a7
a9=a8 a8
a10=a9 a9
a11=a10 a10
a12=a11 a11
a13=a12 a12
a14=a13 a13
e=
n=1
f(x)=x"#;

/// How many tokens a source expands to, and the bytes of their text; nothing where it is too long.
fn sizes(alloc: Global, source: &str) -> Result<Option<(usize, usize)>, NoMemory> {
    match expanded(alloc, DOUBLING, source, Mode::Plain)? {
        Some(out) => Ok(Some((out.len(), text_of(alloc, out.as_slice())?.len()))),
        None => Ok(None),
    }
}

/// Sources, and how many tokens and bytes they expand to.
const SIZES: &[(&str, Option<(usize, usize)>)] = &[
    ("a0", Some((2, 3))),
    ("e", Some((0, 0))),
    ("a13", Some((16_384, 32_767))),
    ("a14", None),
    // at a cost of exactly 65,536, and of one more
    ("a13 a11 a9 a7 a5 a3 a2 a1 a0 e", Some((21_854, 43_707))),
    ("a13 a11 a9 a7 a5 a3 a2 a1 a0 e e", None),
    ("a13 a11 a9 a7 a5 a3 a2 a1 e e f(e)", Some((21_852, 43_703))),
    ("a13 a11 a9 a7 a5 a3 a2 a1 e e e f(e)", None),
    ("n n a13 a11 a9 a7 a5 a3 a2 a1", Some((21_854, 43_707))),
    ("n n a13 a11 a9 a7 a5 a3 a2 a1 e", None),
    ("f(a13 a11 a9 a7 a5 a3 a2 a1)", None),
    // an argument is expanded once: twice at each depth would not end within a test's time
    (
        "f(f(f(f(f(f(f(f(f(f(f(f(f(f(f(f(f(f(f(f(f(f(f(f(f(f(f(f(f(f(f(f(x))))))))))))))))))))))))))))))))",
        Some((1, 1)),
    ),
];

#[test]
fn costs_are_limited(rt: HostRuntime) -> Result<(), Fail> {
    for (source, expected) in SIZES {
        assert!(rt; sizes(rt.alloc(), source)? == *expected, "{source}");
    }
    Ok(())
}
