//! `defined` in conditions.
use crate::telling::becomes;
use cb_expand::Mode;
use std::test::Fail;

/// Macros, a condition, and its result.
const CONDITIONS: &[(&str, &str, &str)] = &[
    ("X=1", "defined X", "1"),
    ("X=1", "defined Y", "0"),
    ("X=1", "defined(X) && !defined ( Y )", "1 && !0"),
    ("X=Y", "defined X", "1"),
    ("X=Y", "X defined(X)", "Y 1"),
    ("X=1\nf(a)=a", "defined f", "1"),
    ("X=1\nf(a)=a", "f(defined X)", "1"),
    ("X=1\nD=defined", "D X", "1"),
    ("X=1\nD=defined(X)", "D", "1"),
    ("X=1", "defined", "defined"),
    ("X=1", "defined (X", "defined (1"),
    ("X=1", "defined (1)", "defined (1)"),
    ("X=1", "defined defined", "0"),
    ("X=1", "(defined X)", "(1)"),
    ("X=1", "1 + defined(Y) + X + defined X", "1 + 0 + 1 + 1"),
    ("f(a)=a", "defined f + f", "1 + f"),
    ("X=1\nY=2", "Y>defined X Y", "2>1 2"),
];

/// The same where `defined` is a name like any other.
const PLAIN: &[(&str, &str, &str)] = &[
    ("X=1", "defined X", "defined 1"),
    ("X=1", "defined(Y)", "defined(Y)"),
];

#[test]
fn conditions_ask(rt: HostRuntime) -> Result<(), Fail> {
    for (words, source, expected) in CONDITIONS {
        assert!(rt;
            becomes(rt.alloc(), words, source, Mode::Condition, expected)?,
            "{words} {source}"
        );
    }
    Ok(())
}

#[test]
fn plain_tokens_do_not_ask(rt: HostRuntime) -> Result<(), Fail> {
    for (words, source, expected) in PLAIN {
        assert!(rt;
            becomes(rt.alloc(), words, source, Mode::Plain, expected)?,
            "{words} {source}"
        );
    }
    Ok(())
}
