//! Definitions and their faults.
use crate::telling::tells;
use std::test::Fail;

/// Words after `-D`, and what they define.
const DEFINITIONS: &[(&str, &str)] = &[
    ("A", "A=1"),
    ("A=", "A="),
    ("A=1=2", "A=1=2"),
    ("=x", "x="),
    ("A=x\ny", "A=x"),
    ("A=b /* c */ d", "A=b d"),
    ("f(a)=a*g", "f(s)=$0*g"),
    ("g(a)=f(a)", "g(s)=f($0)"),
    ("O (a)=-a", "O=(a) -a"),
    ("f()=x", "f()=x"),
    ("f(defined)=defined", "f(s)=$0"),
    ("S(x)=#x", "S(r)=#0"),
    ("S(x)=x #x", "S(b)=$0 #0"),
    ("J(a,b)=a##b c", "J(rr)=$0~$1 c"),
    ("J(a,b)=a %:%: %:b", "J(rr)=$0 ~#1"),
    ("h=x ## ## y", "h=x ~## y"),
    ("h=# ## #x", "h=# ~#x"),
    ("W(a,...)=a,##__VA_ARGS__", "W(sr...)=$0,~$1"),
    ("W(...)=0", "W(n...)=0"),
    ("f=\"a\" 'b' 1.5e+3", "f=\"a\" 'b' 1.5e+3"),
];

/// Words that define nothing.
const FAULTS: &[&str] = &[
    "",
    "1",
    "+",
    "defined",
    "__VA_ARGS__=1",
    "f(",
    "f(a",
    "f(a b)=1",
    "f(a,)=1",
    "f(,a)=1",
    "f(1)=1",
    "f(...,a)=1",
    "f(a...)=1",
    "K(a,a)=a",
    "K(a,b,a)=b",
    "f(__VA_ARGS__)=1",
    "O=## a",
    "O=a ##",
    "O=%:%:",
    "f(a)=##a",
    "f(a)=a##",
    "f(a)=#b",
    "f(a)=a#",
    "f(a)=# #a",
    "O=__VA_ARGS__",
    "f(a)=a+__VA_ARGS__",
    "A=/* no end",
];

#[test]
fn words_define(rt: HostRuntime) -> Result<(), Fail> {
    for (word, expected) in DEFINITIONS {
        assert!(rt; tells(rt.alloc(), word, expected)?, "{word}");
    }
    Ok(())
}

#[test]
fn words_define_nothing(rt: HostRuntime) -> Result<(), Fail> {
    for word in FAULTS {
        assert!(rt; tells(rt.alloc(), word, "bad")?, "{word}");
    }
    Ok(())
}
