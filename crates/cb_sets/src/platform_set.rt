//! Sets of platforms.
ghost use Rattle.std.specs.Prelude.{◌≡◌, ◌<◌, ◌≤◌, ◌==◌, ℕ, [], length, filter};
ghost use Rattle.std.specs.List.{All, range_with_len};
ghost use Rattle.cb_sets.specs.declared.platform_set.PlatformSet.{PlatformSet};
ghost use Rattle.cb_lines.specs.Lines.{with_line, has_line, union_of};
ghost use Rattle.cb_sets.specs.Sets.{members, platform_limit};
ghost use Rattle.cb_sets.specs.inner.Ranks.{rank_of};

use cb_lines::rising_sets;

/// The greatest number that a platform may have; the least is 1.
pub const PLATFORM_LIMIT: u32 = 32;

/// A set of platforms, each a number from 1 to 32.
#[derive(Clone, Copy, Debug, PartialEq, Eq)]
pub struct PlatformSet {
    /// Platform p has bit 32 - p, so that of two sets with as many members the one with more here stands first in
    /// reports.
    bits: u32,
}

impl PlatformSet {
    /// The empty set.
    pub fn none() -> PlatformSet
        ensures { members result ≡ [] }
    {
        PlatformSet { bits: 0 }
    }

    /// The set with a platform more, which it may hold already.
    pub fn with(self, platform: u32) -> PlatformSet
        requires some { 0 < platform }
        requires within { platform ≤ platform_limit }
        ensures { members result ≡ with_line platform (members self) }
    {
        rising_sets();
        PlatformSet {
            bits: self.bits | 1 << (PLATFORM_LIMIT - platform),
        }
    }

    /// Whether the set holds a platform.
    pub fn has(&self, platform: u32) -> bool
        requires some { 0 < platform }
        requires within { platform ≤ platform_limit }
        ensures { result ≡ has_line (members self.now) platform }
    {
        self.bits >> (PLATFORM_LIMIT - platform) & 1 == 1
    }

    /// The platforms of this set and of another one.
    pub fn union(self, other: PlatformSet) -> PlatformSet
        ensures { members result ≡ union_of (members self) (members other) }
    {
        rising_sets();
        PlatformSet {
            bits: self.bits | other.bits,
        }
    }

    /// How many platforms the set holds.
    pub fn len(&self) -> u32
        ensures { result ≡ length (members self.now) }
    {
        self.bits.count_ones()
    }

    /// Whether the set holds no platform.
    pub fn is_empty(&self) -> bool
        ensures { result ≡ (length (members self.now) == 0) }
    {
        self.len() == 0
    }

    /// The place of the set in reports: a number that rises with the number of members, and then with their list.
    pub(crate) fn rank(self) -> u64
        ensures { result ≡ rank_of self }
    {
        u64::from(self.bits.count_ones()) * 4_294_967_296 + u64::from(u32::MAX - self.bits)
    }
}

/// The members of a set are those of the first platforms that it holds, in their order, if it holds no others; and
/// none has a number above 32.
pub fn listed_members()
    ensures listed { (set : PlatformSet) (count : ℕ) → All (λ platform. platform ≤ count) (members set)
        → members set ≡ filter (has_line (members set)) (range_with_len 1 count) }
    ensures within { (set : PlatformSet) → All (λ platform. platform ≤ platform_limit) (members set) }
{
    rising_sets();
}
