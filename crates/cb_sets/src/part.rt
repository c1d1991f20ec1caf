//! Lines that the same platforms use.
ghost use Rattle.std.specs.Prelude.{◌≡◌, ◌+◌, ◌<◌, ◌≤◌, ℕ, true, if◌then◌else◌, length};
ghost use Rattle.cb_lines.specs.Lines.{with_line};
ghost use Rattle.cb_sets.specs.Sets.{members, platform_limit};
ghost use Rattle.cb_sets.specs.Tallies.{users};

use crate::platform_set::PlatformSet;
use cb_lines::Lines;

/// Lines from one on that the same platforms use.
#[derive(Clone, Copy)]
pub(crate) struct Part {
    /// These platforms.
    pub(crate) set: PlatformSet,
    /// The last of the lines.
    pub(crate) last: u32,
}

/// A set with a platform more, where that uses the lines.
fn with_user(set: PlatformSet, platform: u32, is_user: bool) -> PlatformSet
    requires some { 0 < platform }
    requires within { platform ≤ platform_limit }
    ensures { members result ≡ (if is_user then with_line platform (members set) else members set) }
{
    if is_user { set.with(platform) } else { set }
}

/// Lines from one on, up to a last one, that the same platforms use; the first of the sets is that of platform 1. For
/// each platform it takes one binary search.
pub(crate) fn part_from(used: &[Lines], first: u32, last: u32) -> Part
    requires platforms { length used.now ≤ platform_limit }
    requires rising { first ≤ last }
    ensures from { first ≤ result.last }
    ensures within { result.last ≤ last }
    ensures alike { (line : ℕ) → first ≤ line → line ≤ result.last → users used.now line ≡ members result.set }
{
    let mut set = PlatformSet::none();
    let mut end = last;
    'platforms: for (place, lines) in used.iter().enumerate() {
        let stretch = lines.alike_from(first, end);
        set = with_user(set, place as u32 + 1, stretch.is_held);
        end = stretch.last;
    }
    Part { set, last: end }
}
