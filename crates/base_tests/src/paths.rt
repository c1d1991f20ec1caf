//! Texts, lists of texts, names and the grid.
use cb_paths::{Bytes, GRID_UNITS, NoMemory, Texts, is_name, mean, share};
use std::alloc::Global;
use std::test::Fail;

fn is_shared<T: Send + Sync>() {}

const TEXTS: &[&[u8]] = &[
    b"",
    b"a",
    b"ab",
    b"fourteen bytes",
    b"fifteen bytes, ",
    b"a text of 16 ...",
    b"a text of some more than fifteen bytes",
];

/// Whether a text keeps these bytes through each way of making and giving it.
fn is_kept(alloc: Global, text: &[u8]) -> Result<bool, NoMemory> {
    let bytes = Bytes::from_slice(alloc, text)?
        .copy(alloc)?
        .into_vec(alloc)?;
    let bytes = Bytes::from_vec(alloc, bytes)?;
    Ok(bytes.as_slice() == text && bytes.len() == text.len() && bytes.is_empty() == text.is_empty())
}

/// Whether each front of a text is given exactly where it is short and the text is not.
fn fronts_are_given(text: &[u8]) -> bool {
    for len in 0..text.len() {
        let is_right = match Bytes::short_front(text, len) {
            Some(front) => front.as_slice() == &text[..len],
            None => text.len() < 14 || len > 14,
        };
        if !is_right {
            return false;
        }
    }
    true
}

/// Whether a text is kept, and its fronts are given.
fn is_kept_with_fronts(alloc: Global, text: &[u8]) -> Result<bool, NoMemory> {
    Ok(is_kept(alloc, text)? && fronts_are_given(text))
}

#[test]
fn texts_are_kept(rt: HostRuntime) -> Result<(), Fail> {
    is_shared::<Bytes>();
    is_shared::<Texts>();
    for text in TEXTS {
        assert!(rt;
            is_kept_with_fronts(rt.alloc(), text)?,
            "a text of {} bytes",
            text.len()
        );
    }
    Ok(())
}

/// How many texts a copy of their list holds that are equal to those at their places.
fn listed(alloc: Global, texts: &[&[u8]]) -> Result<usize, NoMemory> {
    let mut list = Texts::new(alloc);
    for text in texts {
        list.push(Bytes::from_slice(alloc, text)?)?;
    }
    let copy = list.copy(alloc)?;
    let same = copy
        .as_slice()
        .iter()
        .zip(list.as_slice())
        .filter(|(a, b)| a == b)
        .count();
    Ok(same)
}

#[test]
fn lists_of_texts_are_kept(rt: HostRuntime) -> Result<(), Fail> {
    assert!(rt; listed(rt.alloc(), TEXTS)? == 7);
    Ok(())
}

/// Names, and what are none: too long, empty, a byte that parts names, a space at an end, a byte that does not print.
const NAMES: &[(&[u8], bool)] = &[
    (b"a", true),
    (b"GPU (2nd) ~!", true),
    (&[b'a'; 64], true),
    (&[b'a'; 65], false),
    (b"", false),
    (b" a", false),
    (b"a ", false),
    (b"a,b", false),
    (b"{a", false),
    (b"a}", false),
    (b"a\"", false),
    (b"a\tb", false),
    (b"a\x7f", false),
    (b"\xc3\xa4", false),
];

#[test]
fn names_are_told(rt: HostRuntime) {
    for row in NAMES {
        assert!(rt; is_name(row.0) == row.1, "a name of {} bytes", row.0.len());
    }
}

/// Parts, wholes and shares, worked by hand: 1/3 and 2/3 of 10^12, rounded; a half of a unit goes up.
const SHARES: &[(u64, u64, u64)] = &[
    (0, 7, 0),
    (7, 7, GRID_UNITS),
    (1, 3, 333_333_333_333),
    (2, 3, 666_666_666_667),
    (1, 2_000_000_000_000, 1),
    (1, 2_000_000_000_001, 0),
];

/// The shares, and means of two and of three values, worked by hand.
#[test]
fn the_grid_rounds_half_up(rt: HostRuntime) {
    for row in SHARES {
        assert!(rt; share(row.0, row.1) == row.2, "{} of {}", row.0, row.1);
    }
    assert!(rt; mean(1, 2) == 1 && mean(4, 3) == 1 && mean(5, 3) == 2 && mean(0, 3) == 0);
}
