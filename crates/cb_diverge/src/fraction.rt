//! A fraction from 0 to 1.
ghost use Rattle.cb_diverge.specs.Proper.{IsProper};

/// A fraction from 0 to 1, as a numerator and a denominator. Fractions of one value may differ in both.
#[derive(Clone, Copy, Debug)]
pub struct Fraction {
    /// The numerator, at most the denominator.
    pub n: u64,
    /// The denominator, from 1 to 2^32.
    pub d: u64,
    pub ghost proper: { IsProper n d },
}
