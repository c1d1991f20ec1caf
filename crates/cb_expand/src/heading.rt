//! What the token that is read next is: one that stands, `defined` with its name, or the name of a call.
ghost use Rattle.std.specs.Prelude.{◌≡◌, ◌<◌, ◌≤◌, List, ℕ, None, length, slice_get, IfOk, IsSomeAnd, if◌then◌else◌};
ghost use Rattle.cb_paste.specs.declared.work_token.WorkToken.{WorkToken as Held};
ghost use Rattle.cb_paste.specs.Shades.{Shaded, seen};
ghost use Rattle.cb_macro.specs.Definitions.{Definition};
ghost use Rattle.cb_expand.specs.Heads.{Named, asked, asked_of, asking, called, gathered};
ghost use Rattle.cb_expand.specs.inner.Works.{IsWork};
ghost use Rattle.cb_expand.specs.inner.Readings.{rest_of, head_of, IsHeading};

use crate::asking::asked_name;
use crate::mode::Mode;
use crate::numbers::small;
use crate::work::Work;
use cb_macro::Macros;
use cb_paste::WorkToken;
use cb_paths::NoMemory;

/// What a token is.
#[derive(Clone, Copy)]
pub(crate) enum Heading {
    /// It stands.
    Stands,
    /// It is `defined`: whether its name is that of a macro, and how many tokens stand behind that.
    Asks(bool, usize),
    /// It is the name of an object-like macro in this place.
    Object(usize),
    /// It is the name of a function-like macro in this place, behind which a parenthesis opens.
    Function(usize),
}

/// Whether a token may ask for a name.
#[tactic(auto, unfolding(crate::specs::Heads::asked))]
fn asks(mode: Mode, token: &WorkToken) -> bool
    ensures { (sets : List (List ℕ)) (ts : List Shaded)
        → asked mode (seen sets token.now) ts ≡ (if result then asked_of ts else None) }
{
    match mode {
        Mode::Plain => false,
        Mode::Condition => {
            token.kind.is_identifier() && token.text.as_slice() == b"defined".as_slice()
        }
    }
}

/// What the name of a function-like macro is, which is no call where no parenthesis opens behind it.
fn function_heading(work: &Work, place: usize) -> Heading
    requires floor { work.now.floor ≤ length work.now.row.tokens.items }
    ensures { (ms : Named) (t : Held) (d : Definition) → place < length ms → IsSomeAnd (slice_get ms place) (λ e. e.1 ≡ d)
        → IsHeading ms work.now t (called place d (seen work.now.arena t) (rest_of work.now) (gathered d (rest_of work.now))) result }
{
    let height = work.row.tokens.len();
    if height == work.floor {
        return Heading::Stands;
    }
    if !work.row.sign(height).is_open() {
        return Heading::Stands;
    }
    Heading::Function(place)
}

/// What a token is that asks for no name.
fn named_heading(macros: &Macros, work: &Work, token: &WorkToken) -> Result<Heading, NoMemory>
    requires work { IsWork (length macros.now) work.now None }
    requires token { token.now.hides ≤ length work.now.arena }
    ensures { IfOk result (IsHeading macros.now work.now token.now
        (asking macros.now None (seen work.now.arena token.now) (rest_of work.now))) }
{
    if !token.kind.is_identifier() {
        return Ok(Heading::Stands);
    }
    let Some(place) = macros.place_of(token.text.as_slice()) else {
        return Ok(Heading::Stands);
    };
    if work.arena.has(token.hides, small(place)?) {
        return Ok(Heading::Stands);
    }
    let body = macros.at(place);
    if body.is_function() {
        return Ok(function_heading(work, place));
    }
    Ok(Heading::Object(place))
}

/// What a token is that was taken from the row.
pub(crate) fn heading_of(
    macros: &Macros,
    mode: Mode,
    work: &Work,
    token: &WorkToken,
) -> Result<Heading, NoMemory>
    requires work { IsWork (length macros.now) work.now None }
    requires token { token.now.hides ≤ length work.now.arena }
    ensures { IfOk result (IsHeading macros.now work.now token.now (head_of macros.now mode work.now token.now)) }
{
    if !asks(mode, token) {
        return named_heading(macros, work, token);
    }
    match asked_name(work.row.tokens.as_slice(), work.floor) {
        None => named_heading(macros, work, token),
        Some(asked) => {
            let name = &work.row.tokens[asked.name];
            let is_defined = macros.place_of(name.text.as_slice()).is_some();
            Ok(Heading::Asks(is_defined, asked.height))
        }
    }
}
