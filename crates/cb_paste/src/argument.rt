//! Arguments of calls.
ghost use Rattle.std.specs.Prelude.{◌≡◌, ℕ, List, map};
ghost use Rattle.cb_paste.specs.Shades.{seen, AreIn};
ghost use Rattle.cb_paste.specs.Puts.{seen_argument, given_at, AreArgumentsIn};
ghost use Rattle.cb_paste.specs.inner.Given.{tokens_of};
ghost use Rattle.cb_paste.specs.inner.Uses.{is_other, Kept};

use crate::work_token::WorkToken;
use std::alloc::Global;
use std::mem;

/// An argument of a call.
#[derive(Drop)]
pub struct Argument {
    /// The argument as written, which operands of `#` and `##` take.
    pub raw: Vec<WorkToken>,
    /// The argument after its own expansion, which every other use of its parameter takes.
    pub expanded: Vec<WorkToken>,
}

/// The tokens of the argument of a parameter, those as written (`raw`) or those after its own expansion; none where there is
/// no such argument.
pub(crate) fn tokens_of(arguments: &[Argument], i: usize, raw: bool) -> &[WorkToken]
    ensures tokens { (sets : List (List ℕ)) → map (seen sets) result.now
        ≡ tokens_of raw (given_at (map (seen_argument sets) arguments.now) i) }
    ensures within { (count : ℕ) → AreArgumentsIn count arguments.now → AreIn count result.now }
{
    if i >= arguments.len() {
        return &[];
    }
    let argument = &arguments[i];
    if raw {
        return argument.raw.as_slice();
    }
    argument.expanded.as_slice()
}

/// Takes these tokens away. The argument's other tokens stay, and so do the other arguments.
pub(crate) fn take_tokens(
    alloc: Global,
    arguments: &mut [Argument],
    i: usize,
    raw: bool,
) -> Vec<WorkToken>
    ensures tokens { (sets : List (List ℕ)) → map (seen sets) result.items
        ≡ tokens_of raw (given_at (map (seen_argument sets) arguments.old) i) }
    ensures within { (count : ℕ) → AreArgumentsIn count arguments.old → AreIn count result.items }
    ensures others { Kept (is_other raw i) arguments.old arguments.new }
{
    if i >= arguments.len() {
        return Vec::new(alloc);
    }
    let argument = &mut arguments[i];
    if raw {
        return mem::replace(&mut argument.raw, Vec::new(alloc));
    }
    mem::replace(&mut argument.expanded, Vec::new(alloc))
}
