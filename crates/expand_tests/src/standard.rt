//! The examples of ISO/IEC 9899:2011, 6.10.3.5 and 6.10.3.3, with the results that it prints.
use crate::telling::becomes;
use cb_expand::Mode;
use std::test::Fail;

/// The macros of EXAMPLE 3.
const THIRD: &str = r#"x=2
f(a)=f(x * (a))
g=f
z=z[0]
h=g(~
m(a)=a(w)
w=0,1
t(a)=a
p()=int
q(x)=x
r(x,y)=x ## y
str(x)=# x"#;

/// The macros of EXAMPLE 4.
const FOURTH: &str = r#"str(s)=# s
xstr(s)=str(s)
debug(s, t)=printf("x" # s "= %d, x" # t "= %s", x ## s, x ## t)
INCFILE(n)=vers ## n
glue(a, b)=a ## b
xglue(a, b)=glue(a, b)
HIGHLOW="hello"
LOW=LOW ", world""#;

/// The macro of EXAMPLE 5.
const FIFTH: &str = "t(x,y,z)=x ## y ## z";

/// The macros of EXAMPLE 7.
const SEVENTH: &str = r#"debug(...)=fprintf(stderr, __VA_ARGS__)
showlist(...)=puts(#__VA_ARGS__)
report(test, ...)=((test)?puts(#test): printf(__VA_ARGS__))"#;

/// The macros of the example of 6.10.3.3.
const HASHES: &str = r#"hash_hash=# ## #
mkstr(a)=# a
in_between(a)=mkstr(a)
join(c, d)=in_between(c hash_hash d)"#;

/// Macros, a source, and its result.
const EXAMPLES: &[(&str, &str, &str)] = &[
    (
        THIRD,
        "f(y+1) + f(f(z)) % t(t(g)(0) + t)(1);",
        "f(2 * (y+1)) + f(2 * (f(2 * (z[0])))) % f(2 * (0)) + t(1);",
    ),
    (
        THIRD,
        "g(x+(3,4)-w) | h 5) & m (f)^m(m);",
        "f(2 * (2+(3,4)-0,1)) | f(2 * (~ 5)) & f(2 * (0,1))^m(0,1);",
    ),
    (
        THIRD,
        "p() i[q()] = { q(1), r(2,3), r(4,), r(,5), r(,) };",
        "int i[] = { 1, 23, 4, 5, };",
    ),
    (
        THIRD,
        "char c[2][6] = { str(hello), str() };",
        r#"char c[2][6] = { "hello", "" };"#,
    ),
    (
        FOURTH,
        "debug(1, 2);",
        r#"printf("x" "1" "= %d, x" "2" "= %s", x1, x2);"#,
    ),
    (
        FOURTH,
        r#"fputs(str(strncmp("abc\0d", "abc", '\4') /* this goes away */ == 0) str(: @\n), s);"#,
        r#"fputs("strncmp(\"abc\\0d\", \"abc\", '\\4') == 0" ": @\n", s);"#,
    ),
    (FOURTH, "xstr(INCFILE(2).h)", r#""vers2.h""#),
    (FOURTH, "glue(HIGH, LOW);", r#""hello";"#),
    (FOURTH, "xglue(HIGH, LOW)", r#""hello" ", world""#),
    (
        FIFTH,
        "int j[] = { t(1,2,3), t(,4,5), t(6,,7), t(8,9,), t(10,,), t(,11,), t(,,12), t(,,) };",
        "int j[] = { 123, 45, 67, 89, 10, 11, 12, };",
    ),
    (
        SEVENTH,
        r#"debug("X = %d\n", x);"#,
        r#"fprintf(stderr, "X = %d\n", x);"#,
    ),
    (
        SEVENTH,
        "showlist(The first, second, and third items.);",
        r#"puts("The first, second, and third items.");"#,
    ),
    (
        SEVENTH,
        r#"report(x>y, "x is %d but y is %d", x, y);"#,
        r#"((x>y)?puts("x>y"): printf("x is %d but y is %d", x, y));"#,
    ),
    (HASHES, "char p[] = join(x, y);", r#"char p[] = "x ## y";"#),
];

#[test]
fn examples_expand(rt: HostRuntime) -> Result<(), Fail> {
    for (words, source, expected) in EXAMPLES {
        assert!(rt;
            becomes(rt.alloc(), words, source, Mode::Plain, expected)?,
            "{source}"
        );
    }
    Ok(())
}
