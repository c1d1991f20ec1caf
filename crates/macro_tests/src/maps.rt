//! The map of macros, and the words after `-U`.
use cb_macro::{DefineFault, Macros, define_word, undef_word};
use cb_paths::NoMemory;
use std::alloc::Global;
use std::test::Fail;

/// Defines what a word says, and answers whether a different definition stood.
fn add(alloc: Global, macros: &mut Macros, word: &str) -> Result<bool, NoMemory> {
    match define_word(alloc, word.as_bytes()) {
        Ok(defined) => macros.define(alloc, defined),
        Err(DefineFault::Bad) => Ok(false),
        Err(DefineFault::NoMemory) => Err(NoMemory),
    }
}

/// Whether the second word defines otherwise what the first one defines.
fn differs(alloc: Global, first: &str, second: &str) -> Result<bool, NoMemory> {
    let mut macros = Macros::new(alloc);
    let _ = add(alloc, &mut macros, first)?;
    add(alloc, &mut macros, second)
}

/// Whether a name has a definition and a place, where three words are defined and then one is undefined.
fn is_left(alloc: Global, words: [&str; 3], undefined: &str, name: &str) -> Result<bool, NoMemory> {
    let mut macros = Macros::new(alloc);
    for word in words.as_slice() {
        let _ = add(alloc, &mut macros, word)?;
    }
    macros.undef(undefined.as_bytes());
    let has_place = match macros.place_of(name.as_bytes()) {
        Some(place) => place < macros.len() && !macros.at(place).is_function(),
        None => false,
    };
    Ok(macros.get(name.as_bytes()).is_some() && has_place && !macros.is_empty())
}

/// Whether a word after `-U` undefines a name; the empty one stands for none.
fn undefines(alloc: Global, word: &str, name: &str) -> Result<bool, NoMemory> {
    match undef_word(alloc, word.as_bytes())? {
        Some(found) => Ok(found.as_slice() == name.as_bytes()),
        None => Ok(name.is_empty()),
    }
}

/// Two definitions of a name, and whether they differ.
const REDEFINITIONS: &[(&str, &str, bool)] = &[
    (
        "OBJ_LIKE=(1-1)",
        "OBJ_LIKE=/* white space */ (1-1) /* other */",
        false,
    ),
    (
        "FUNC_LIKE(a)=( a )",
        "FUNC_LIKE( a )=( /* note the white space */ a /* other stuff on this line */ )",
        false,
    ),
    ("OBJ_LIKE=(1-1)", "OBJ_LIKE=(0)", true),
    ("OBJ_LIKE=(1-1)", "OBJ_LIKE=(1 - 1)", true),
    ("FUNC_LIKE(a)=( a )", "FUNC_LIKE(b)=( a )", true),
    ("FUNC_LIKE(a)=( a )", "FUNC_LIKE(b)=( b )", true),
    ("f=x", "f()=x", true),
    ("f(a)=x", "f(a,...)=x", true),
    ("f=x", "f=  x", false),
    ("f=x", "g=y", false),
    ("f=x", "f=\"x\"", true),
    ("f=##", "f=x", false),
];

/// What is undefined after `A`, `B` and `C` are defined, a name, and whether it is left.
const UNDEFINITIONS: &[(&str, &str, bool)] = &[
    ("A", "A", false),
    ("A", "B", true),
    ("A", "C", true),
    ("C", "A", true),
    ("D", "B", true),
    ("A", "D", false),
];

/// Words after `-U`, and the names that they undefine.
const UNDEFINED: &[(&str, &str)] = &[
    ("A", "A"),
    ("A B", "A"),
    (" /* c */ A", "A"),
    ("A\nB", "A"),
    ("", ""),
    ("1", ""),
    ("defined", ""),
    ("__VA_ARGS__", ""),
    ("A /*", ""),
];

#[test]
fn definitions_differ(rt: HostRuntime) -> Result<(), Fail> {
    for (first, second, expected) in REDEFINITIONS {
        assert!(rt;
            differs(rt.alloc(), first, second)? == *expected,
            "{first} {second}"
        );
    }
    Ok(())
}

#[test]
fn undefined_names_go(rt: HostRuntime) -> Result<(), Fail> {
    for (undefined, name, expected) in UNDEFINITIONS {
        assert!(rt;
            is_left(rt.alloc(), ["A=1", "B=2", "C"], undefined, name)? == *expected,
            "{undefined} {name}"
        );
    }
    Ok(())
}

#[test]
fn words_undefine(rt: HostRuntime) -> Result<(), Fail> {
    for (word, name) in UNDEFINED {
        assert!(rt; undefines(rt.alloc(), word, name)?, "{word}");
    }
    Ok(())
}
