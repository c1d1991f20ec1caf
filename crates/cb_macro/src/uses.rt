//! How the parameters of a macro are used.
ghost use Rattle.std.specs.Prelude.{◌≡◌, ℕ, ◌==◌, ◌||◌, ◌+◌, ◌<◌, [], length, drop, IfOk, if◌then◌else◌};
ghost use Rattle.std.specs.List.{slice_index_or};
ghost use Rattle.cb_paste.specs.declared.part.Part.{Part};
ghost use Rattle.cb_macro.specs.declared.uses.Use.{Use};
ghost use Rattle.cb_paste.specs.Puts.{next_glued};
ghost use Rattle.cb_macro.specs.inner.Uses.{used};
ghost use Rattle.cb_macro.specs.inner.Kept.{AreUsesOf};

use cb_paste::{Part, Shape};
use cb_paths::NoMemory;
use std::alloc::Global;

/// How a parameter is used.
#[derive(Clone, Copy)]
pub(crate) struct Use {
    /// Whether it stands somewhere outside `#` and `##`.
    pub(crate) is_shown: bool,
    /// Whether it stands somewhere beside `#` or `##`.
    pub(crate) is_raw: bool,
}

/// Parameters that are not used.
fn unused(alloc: Global, count: usize) -> Result<Vec<Use>, NoMemory>
    ensures uses { IfOk result (λ uses. AreUsesOf uses.items []) }
    ensures count { IfOk result (λ uses. length uses.items ≡ count) }
{
    let mut uses = Vec::with_capacity(alloc, count)?;
    'uses: while uses.len() < count {
        uses.push(Use {
            is_shown: false,
            is_raw: false,
        })?;
    }
    Ok(uses)
}

/// Notes that a parameter stands beside `#` or `##`, or elsewhere.
fn note_use(uses: &mut [Use], place: usize, is_raw: bool)
    ensures { (i : ℕ) → (other : Use) → i < length uses.old → slice_index_or uses.new i other ≡ (if i == place then used is_raw (slice_index_or uses.old i other) else slice_index_or uses.old i other) }
{
    if place >= uses.len() {
        return;
    }
    if is_raw {
        uses[place].is_raw = true;
    } else {
        uses[place].is_shown = true;
    }
}

/// Whether `##` joins the first part to what stands before it.
fn glued_first(parts: &[Part]) -> bool
    ensures { result ≡ next_glued parts.now }
{
    match parts {
        [] => false,
        [first, ..] => first.glued,
    }
}

/// Whether a part stands beside `##`.
fn stands_beside(parts: &[Part], at: usize) -> bool
    requires { at < length parts.now }
    ensures { (other : Part) → result ≡ ((slice_index_or parts.now at other).glued || next_glued (drop (at + 1) parts.now)) }
{
    parts[at].glued || glued_first(&parts[at + 1..])
}

/// Notes the use that a part makes, where those behind it are noted.
fn note_part(uses: &mut [Use], parts: &[Part], at: usize)
    requires { at < length parts.now }
    ensures { AreUsesOf uses.old (drop (at + 1) parts.now) → AreUsesOf uses.new (drop at parts.now) }
{
    let part = &parts[at];
    match &part.shape {
        Shape::Fixed(_, _) => {}
        Shape::Parameter(place) => note_use(uses, *place, stands_beside(parts, at)),
        Shape::Quoted(place) => note_use(uses, *place, true),
    }
}

/// How each parameter is used in these parts.
pub(crate) fn read_uses(alloc: Global, count: usize, parts: &[Part]) -> Result<Vec<Use>, NoMemory>
    ensures uses { IfOk result (λ uses. AreUsesOf uses.items parts.now) }
    ensures count { IfOk result (λ uses. length uses.items ≡ count) }
{
    let mut uses = unused(alloc, count)?;
    let mut at = parts.len();
    'parts: while at > 0 {
        at -= 1;
        note_part(&mut uses, parts, at);
    }
    Ok(uses)
}
