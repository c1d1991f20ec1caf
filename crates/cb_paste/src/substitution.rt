//! A macro's replacement list with the arguments of a call in the place of its parameters.
ghost use Rattle.std.specs.Prelude.{◌≡◌, ◌++◌, ◌<◌, ◌≤◌, [], map, length, IfOk, OnOk};
ghost use Rattle.cb_paste.specs.Sets.{hides, Extends};
ghost use Rattle.cb_paste.specs.Shades.{seen, waiting, all_shaded, AreIn};
ghost use Rattle.cb_paste.specs.Joins.{reals};
ghost use Rattle.cb_paste.specs.Puts.{seen_arguments, put_from, puts, AreArgumentsIn};

use crate::argument::Argument;
use crate::fault::PasteFault;
use crate::filling::put_all;
use crate::hides::Hides;
use crate::part::{Part, is_plain};
use crate::placing::{push_slots, space_first};
use crate::plain::put_plain;
use crate::site::Site;
use crate::work_token::WorkToken;
use std::alloc::Global;

/// Puts the tokens of a replacement list in which a `##` stands onto the stack, and answers how many there are.
fn put_joined(
    alloc: Global,
    arena: &mut Hides,
    parts: &[Part],
    arguments: &mut [Argument],
    site: Site,
    stack: &mut Vec<WorkToken>,
) -> Result<usize, PasteFault>
    requires arguments { AreArgumentsIn (length arena.old) arguments.old }
    requires stack { AreIn (length arena.old) stack.old.items }
    requires extra { site.hides ≤ length arena.old }
    ensures put { OnOk result (waiting arena.new stack.new.items ≡ all_shaded (hides arena.old site.hides)
        (reals (put_from (seen_arguments arena.old arguments.old) [] parts.now))
        ++ waiting arena.old stack.old.items) }
    ensures count { IfOk result (λ count. count
        ≡ length (reals (put_from (seen_arguments arena.old arguments.old) [] parts.now))) }
    ensures room { IfOk result (λ count. count ≤ site.room) }
    ensures long { result ≡ Err PasteFault.TooLong
        → (site.room < length (reals (put_from (seen_arguments arena.old arguments.old) [] parts.now)))
        × (stack.new ≡ stack.old) }
    ensures within { OnOk result (AreIn (length arena.new) stack.new.items) }
    ensures kept { Extends arena.old arena.new }
{
    let slots = put_all(alloc, arena, parts, arguments, site.room)?;
    let count = slots.tokens();
    push_slots(arena, slots, site.hides, stack)?;
    Ok(count)
}

/// Puts the tokens of a replacement list onto the stack, and answers how many there are.
fn put_list(
    alloc: Global,
    arena: &mut Hides,
    parts: &[Part],
    arguments: &mut [Argument],
    site: Site,
    stack: &mut Vec<WorkToken>,
) -> Result<usize, PasteFault>
    requires arguments { AreArgumentsIn (length arena.old) arguments.old }
    requires stack { AreIn (length arena.old) stack.old.items }
    requires extra { site.hides ≤ length arena.old }
    ensures put { OnOk result (waiting arena.new stack.new.items ≡ all_shaded (hides arena.old site.hides)
        (reals (put_from (seen_arguments arena.old arguments.old) [] parts.now))
        ++ waiting arena.old stack.old.items) }
    ensures count { IfOk result (λ count. count
        ≡ length (reals (put_from (seen_arguments arena.old arguments.old) [] parts.now))) }
    ensures room { IfOk result (λ count. count ≤ site.room) }
    ensures long { result ≡ Err PasteFault.TooLong
        → (site.room < length (reals (put_from (seen_arguments arena.old arguments.old) [] parts.now)))
        × (stack.new ≡ stack.old) }
    ensures within { OnOk result (AreIn (length arena.new) stack.new.items) }
    ensures kept { Extends arena.old arena.new }
{
    if is_plain(parts) {
        return put_plain(alloc, arena, parts, arguments, site, stack);
    }
    put_joined(alloc, arena, parts, arguments, site, stack)
}

/// Puts the tokens of a macro's replacement list, with the arguments in the place of the parameters, onto a stack whose
/// last token is the next one to be read, and answers how many there are. An object-like macro has no arguments.
/// Tokens of an argument that no part still to come takes are not copied: of what is left of the arguments nothing is said. It
/// stops with `TooLong` as soon as it is certain that there is no room for all of them, and then leaves the stack as it was;
/// out of memory it leaves there a part of them.
pub fn substitute(
    alloc: Global,
    arena: &mut Hides,
    parts: &[Part],
    arguments: &mut [Argument],
    site: Site,
    stack: &mut Vec<WorkToken>,
) -> Result<usize, PasteFault>
    requires arguments { AreArgumentsIn (length arena.old) arguments.old }
    requires stack { AreIn (length arena.old) stack.old.items }
    requires extra { site.hides ≤ length arena.old }
    ensures put { OnOk result (waiting arena.new stack.new.items
        ≡ all_shaded (hides arena.old site.hides) (puts (seen_arguments arena.old arguments.old) site.spaced parts.now)
        ++ waiting arena.old stack.old.items) }
    ensures count { IfOk result (λ count. count
        ≡ length (puts (seen_arguments arena.old arguments.old) site.spaced parts.now)) }
    ensures room { IfOk result (λ count. count ≤ site.room) }
    ensures long { result ≡ Err PasteFault.TooLong
        → (site.room < length (puts (seen_arguments arena.old arguments.old) site.spaced parts.now))
        × (stack.new ≡ stack.old) }
    ensures within { OnOk result (AreIn (length arena.new) stack.new.items) }
    ensures kept { Extends arena.old arena.new }
{
    let count = put_list(alloc, arena, parts, arguments, site, stack)?;
    if count == 0 {
        return Ok(0);
    }
    space_first(stack, site.spaced);
    Ok(count)
}
