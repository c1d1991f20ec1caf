//! Gathering the arguments of a call.
ghost use Rattle.std.specs.Prelude.{◌≡◌, ℕ, List, ◌<◌, ◌≤◌, None, length, IfOk, MatchOption};
ghost use Rattle.cb_expand.specs.Arguments.{gather};
ghost use Rattle.cb_expand.specs.inner.Gathers.{turn_of, commas_end, IsGathered};
ghost use Rattle.cb_expand.specs.inner.Rows.{signs, between, IsRow};
ghost use Rattle.cb_expand.specs.inner.Works.{seen_all};

use crate::row::Row;
use crate::sign::Sign;
use cb_paths::NoMemory;
use std::alloc::Global;

/// What the end of an argument means.
#[derive(Clone, Copy)]
pub(crate) enum Turn {
    /// The number of arguments is wrong.
    Wrong,
    /// More arguments follow.
    More,
    /// It was the last argument.
    Last,
    /// It was the last argument, and nothing stands for `...`.
    Lacks,
}

/// What an end means where so many parameters are left, with that of the argument.
#[tactic(auto, using(crate::proofs::ByEnds::turns), unfolding(crate::specs::inner::Gathers::turn_of))]
fn meaning_of(sign: Sign, is_variadic: bool, left: usize) -> Turn
    ensures { result ≡ turn_of sign is_variadic left }
{
    match sign {
        Sign::Close => {
            if left == 1 {
                return Turn::Last;
            }
            if left == 2 {
                return if is_variadic {
                    Turn::Lacks
                } else {
                    Turn::Wrong
                };
            }
            Turn::Wrong
        }
        Sign::Comma => { if left > 1 { Turn::More } else { Turn::Wrong } }
        Sign::Open | Sign::Plain => Turn::Wrong,
    }
}

/// Where the arguments of a call end.
#[derive(Drop)]
pub(crate) struct Gathered {
    /// The heights of the ends.
    pub(crate) ends: Vec<usize>,
    /// Whether nothing stands for `...`.
    pub(crate) lacks_rest: bool,
}

/// Whether commas end an argument where so many parameters are left, with that of the argument.
#[tactic(auto, using(crate::proofs::ByEnds::turns), unfolding(crate::specs::inner::Gathers::commas_end))]
fn commas_end_it(is_variadic: bool, left: usize) -> bool
    ensures { result ≡ commas_end is_variadic left }
{
    if left == 1 { !is_variadic } else { true }
}

/// Where the arguments of a call end for at least one parameter.
fn some_ends(
    alloc: Global,
    row: &Row,
    floor: usize,
    height: usize,
    count: usize,
    is_variadic: bool,
) -> Result<Option<Gathered>, NoMemory>
    requires row { IsRow (signs row.now.tokens.items) row.now.ends.items }
    requires within { height ≤ length row.now.tokens.items }
    requires floor { floor ≤ height }
    requires some { 0 < count }
    ensures { (sets : List (List ℕ)) → IfOk result (λ o. MatchOption o
        (gather is_variadic count (between floor height (seen_all sets row.now.tokens.items)) ≡ None)
        (λ g. IsGathered (gather is_variadic count (between floor height (seen_all sets row.now.tokens.items)))
        (seen_all sets row.now.tokens.items) count floor height g.ends.items g.lacks_rest)) }
{
    let mut ends = Vec::new(alloc);
    let mut from = height;
    let mut left = count;
    'arguments: loop {
        let end = row.end_below(from, commas_end_it(is_variadic, left));
        if end <= floor {
            return Ok(None);
        }
        ends.push(end)?;
        match meaning_of(row.sign(end), is_variadic, left) {
            Turn::Wrong => return Ok(None),
            Turn::Last => {
                return Ok(Some(Gathered {
                    ends,
                    lacks_rest: false,
                }));
            }
            Turn::Lacks => {
                return Ok(Some(Gathered {
                    ends,
                    lacks_rest: true,
                }));
            }
            Turn::More => {}
        }
        from = end - 1;
        left -= 1;
    }
}

/// Where the arguments of a call end, if the tokens behind its opening parenthesis reach to a height; None where it is no
/// call.
pub(crate) fn argument_ends(
    alloc: Global,
    row: &Row,
    floor: usize,
    height: usize,
    count: usize,
    is_variadic: bool,
) -> Result<Option<Gathered>, NoMemory>
    requires row { IsRow (signs row.now.tokens.items) row.now.ends.items }
    requires within { height ≤ length row.now.tokens.items }
    requires floor { floor ≤ height }
    ensures { (sets : List (List ℕ)) → IfOk result (λ o. MatchOption o
        (gather is_variadic count (between floor height (seen_all sets row.now.tokens.items)) ≡ None)
        (λ g. IsGathered (gather is_variadic count (between floor height (seen_all sets row.now.tokens.items)))
        (seen_all sets row.now.tokens.items) count floor height g.ends.items g.lacks_rest)) }
{
    if count > 0 {
        return some_ends(alloc, row, floor, height, count, is_variadic);
    }
    if height == floor {
        return Ok(None);
    }
    if !row.sign(height).is_close() {
        return Ok(None);
    }
    Ok(Some(Gathered {
        ends: Vec::new(alloc),
        lacks_rest: false,
    }))
}
