//! Which shares of the lines platforms use.
ghost use Rattle.std.specs.Prelude.{◌≡◌, ◌*◌, ◌<◌, ◌≤◌, sum_by, SomeIff, IfSome};
ghost use Rattle.std.specs.List.{range_with_len};
ghost use Rattle.cb_paths.specs.Grid.{units, share};
ghost use Rattle.cb_sets.specs.Sets.{platform_limit};
ghost use Rattle.cb_sets.specs.Tallies.{lines_where, is_any, lines_of, coverage_of, average_of};

use crate::setmap::Setmap;
use cb_paths::{mean, share};

/// The lines that some platform uses, as a share of all lines in units of the grid (10^-12); none exactly where there
/// is no line.
pub fn coverage(map: &Setmap) -> Option<u64>
    ensures value { SomeIff result (0 < lines_where is_any map.now.rows) (coverage_of map.now) }
    ensures within { IfSome result (λ value. value ≤ units) }
{
    let total = map.total();
    if total == 0 {
        return None;
    }
    Some(share(map.used(), total))
}

/// The sum over the first platforms of the share of the lines that each uses.
fn sum_of_shares(map: &Setmap, platforms: u32, total: u64) -> u64
    requires some { 0 < total }
    requires all { total ≡ lines_where is_any map.now.rows }
    requires within { platforms ≤ platform_limit }
    ensures value { result ≡ sum_by (λ platform. share (lines_of platform map.now) total) (range_with_len 1 platforms) }
    ensures within { result ≤ platforms * units }
{
    let mut sum = 0u64;
    'platforms: for place in 0..platforms {
        sum += share(map.of(place + 1), total);
    }
    sum
}

/// The mean over all platforms of the share of the lines that each uses, in units of the grid (10^-12); none exactly
/// where there is no line or no platform.
pub fn average(map: &Setmap) -> Option<u64>
    ensures value { SomeIff result ((0 < lines_where is_any map.now.rows)
        × (0 < map.now.platforms)) (average_of map.now) }
    ensures within { IfSome result (λ value. value ≤ units) }
{
    let total = map.total();
    let platforms = map.platforms();
    if total == 0 {
        return None;
    }
    if platforms == 0 {
        return None;
    }
    Some(mean(sum_of_shares(map, platforms, total), u64::from(platforms)))
}
