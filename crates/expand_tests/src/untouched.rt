//! Tokens among which nothing is to be replaced.
use crate::telling::is_alone;
use cb_expand::Mode;
use std::test::Fail;

/// Macros, tokens, where they stand, and whether they stay as they are.
const TOKENS: &[(&str, &str, Mode, bool)] = &[
    ("X=1", "", Mode::Condition, true),
    ("X=1", "a + b ( 1 )", Mode::Condition, true),
    ("X=1", "'X' \"X\" 1X", Mode::Condition, true),
    ("X=1", "a + X", Mode::Condition, false),
    ("X=1", "X", Mode::Plain, false),
    ("f(a)=a", "f", Mode::Plain, false),
    ("X=1", "defined Y", Mode::Condition, false),
    ("X=1", "defined Y", Mode::Plain, true),
    ("X=1", "defined X", Mode::Plain, false),
];

#[test]
fn tokens_stay(rt: HostRuntime) -> Result<(), Fail> {
    for (words, source, mode, expected) in TOKENS {
        assert!(rt;
            is_alone(rt.alloc(), words, source, *mode)? == *expected,
            "{words} {source}"
        );
    }
    Ok(())
}
