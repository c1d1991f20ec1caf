//! The distances of platforms, exactly and on the grid. Nothing here takes memory.
ghost use Rattle.std.specs.Prelude.{◌≡◌, ◌-◌, ◌^◌, ◌<◌, ◌≤◌, ◌==◌, ◌↔◌, [], if◌then◌else◌, IfSome, IsNone};
ghost use Rattle.cb_diverge.specs.Distances.{grid_of, is_less, divergence_of};

use crate::fraction::Fraction;
use cb_paths::share;

/// The Jaccard distance of two platforms, from the number of lines that both use and of those that at least one of them uses:
/// the share of the lines that only one of them uses. Without a line it is 0 over 1.
pub fn distance(both: u64, either: u64) -> Fraction
    requires held { both ≤ either }
    requires few { either < 2 ^ 32 }
    ensures n { result.n ≡ either - both }
    ensures d { result.d ≡ (if either == 0 then 1 else either) }
{
    if either == 0 {
        return Fraction { n: 0, d: 1 };
    }
    Fraction {
        n: either - both,
        d: either,
    }
}

/// A fraction in steps of 10^-12, rounded to the nearest step and halves up.
pub fn grid(f: Fraction) -> u64
    ensures value { result ≡ grid_of f }
    ensures within { result ≤ 1000000000000 }
{
    share(f.n, f.d)
}

/// Whether a fraction is less than another one, by their exact values.
pub fn less(a: Fraction, b: Fraction) -> bool
    ensures { result ≡ is_less a b }
{
    u128::from(a.n) * u128::from(b.d) < u128::from(b.n) * u128::from(a.d)
}

/// The divergence of a code base in steps of 10^-12: the mean of the distances of all pairs of platforms, each rounded to the
/// nearest step, and rounded to the nearest step itself, halves up. There is none without a pair.
pub fn divergence(pairs: &[Fraction]) -> Option<u64>
    ensures none { IsNone result ↔ (pairs.now ≡ []) }
    ensures value { IfSome result (λ value. value ≡ divergence_of pairs.now) }
    ensures within { IfSome result (λ value. value ≤ 1000000000000) }
{
    if pairs.is_empty() {
        return None;
    }
    let mut total: u128 = 0;
    for pair in pairs {
        total += u128::from(grid(*pair));
    }
    let count = pairs.len() as u128;
    Some(((total + count / 2) / count) as u64)
}
