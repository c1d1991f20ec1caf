//! Calls and their arguments, and names that are hidden.
use crate::telling::becomes;
use cb_expand::Mode;
use std::test::Fail;

/// Macros, a source, and its result.
const CALLS: &[(&str, &str, &str)] = &[
    ("", "a + b", "a + b"),
    ("", "", ""),
    ("x=x+1", "x x", "x+1 x+1"),
    ("x=y\ny=x", "x y", "x y"),
    ("e=", "a e b", "a b"),
    ("f(a)=a*g\ng(a)=f(a)", "f(2)(9)", "2*9*g"),
    ("f=g\ng(x)=x f", "f(1)(2)(3)", "1 g(2)(3)"),
    ("f(x)=x\nE=", "f E (1)", "f (1)"),
    ("f(x)=x", "f(f)(1)", "f(1)"),
    ("f(x)=x+1", "f(f(f(0)))", "0+1+1+1"),
    ("f(x)=<x>\ng=f(", "g 1)", "<1>"),
    ("f(x)=<x>\ng=f", "g(g(2))", "<<2>>"),
    ("J(a,b)=a##b", "J(1", "J(1"),
    ("J(a,b)=a##b", "J(1,", "J(1,"),
    ("J(a,b)=a##b", "J", "J"),
    ("J(a,b)=a##b\nX=1", "J(1, X", "J(1, 1"),
    ("J(a,b)=a##b\nX=1", "J(X,X)", "XX"),
    ("J(a,b)=a##b\nxy=5", "J(x,y)", "5"),
    ("K(a)=a a##1 a\nX=2", "K(X)", "2 X1 2"),
    ("f(a)=[a]", "f()", "[]"),
    ("f(a)=[a]", "f( )", "[]"),
    ("z()=0", "z() z( ) z(1)", "0 0 z(1)"),
    ("f(a,b)=a|b", "f((1,2),3)", "(1,2)|3"),
    (
        "f(a,b)=a|b",
        "f((1,2)) f(1) f(1,2,3)",
        "f((1,2)) f(1) f(1,2,3)",
    ),
    ("f(a,b)=a|b", "f(,)", "|"),
    ("f(a,b)=a|b", "f(((1)),)", "((1))|"),
    ("f(a,b)=b", "f(f(1,2),f(3,f(4,5)))", "5"),
    ("W(a,...)=a,__VA_ARGS__;", "W()", ",;"),
    ("W(a,...)=a,__VA_ARGS__;", "W(1)", "1,;"),
    ("W(a,...)=a,__VA_ARGS__;", "W(1,)", "1,;"),
    ("W(a,...)=a,__VA_ARGS__;", "W(1,2,(3,4))", "1,2,(3,4);"),
    ("V(...)=<__VA_ARGS__>", "V() V(1) V(1,2)", "<> <1> <1,2>"),
    ("S(...)=#__VA_ARGS__", "S( a , \"b\" )", r#""a , \"b\"""#),
    ("f(a)=( a )", "-f( 1 )", "-( 1 )"),
    ("o=(a) b", "o", "(a) b"),
    ("N=2\nf(a)=a a", "f(N N)", "2 2 2 2"),
    ("N=2\nf(a)=a a", "N f(N)-N", "2 2 2-2"),
    ("N= 2\nM=x\nx=3", "N M+N N", "2 3+2 2"),
    ("P=(\nf(a)=<a>", "P f P 1)", "( f ( 1)"),
    ("N=\"s\"\nM=N N", "N+M", "\"s\"+\"s\" \"s\""),
];

#[test]
fn calls_expand(rt: HostRuntime) -> Result<(), Fail> {
    for (words, source, expected) in CALLS {
        assert!(rt;
            becomes(rt.alloc(), words, source, Mode::Plain, expected)?,
            "{words} {source}"
        );
    }
    Ok(())
}
