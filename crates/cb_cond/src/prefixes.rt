//! Runs of operators before an operand.
ghost use Rattle.std.specs.Prelude.{◌≡◌};
ghost use Rattle.cb_cond.specs.inner.Prefixes.{linear, extended, applied};

use crate::meaning::{Meaning, Value};
use crate::symbol::Prefix;

/// A run of operators before an operand, however long, as the one function of 64 bits that it is.
#[derive(Clone, Copy, Debug, PartialEq, Eq)]
pub(crate) enum Prefixes {
    /// The operand or its negation, and a number added to it; the type stays.
    Linear {
        negative: bool,
        plus: u64,
    },
    /// One number where the operand is a given one, and another number elsewhere; signed.
    Test {
        operand: u64,
        there: u64,
        elsewhere: u64,
    },
}

/// A number, plus the operand or less it.
#[tactic(auto, unfolding(crate::specs::inner::Prefixes::linear))]
fn sum(negative: bool, plus: u64, operand: u64) -> u64
    ensures { result ≡ linear negative plus operand }
{
    if negative {
        plus.wrapping_sub(operand)
    } else {
        plus.wrapping_add(operand)
    }
}

impl Prefixes {
    /// The run without an operator.
    pub(crate) const NONE: Prefixes = Prefixes::Linear {
        negative: false,
        plus: 0,
    };

    /// The run with one more operator, which stands next to the operand.
    #[tactic(auto, unfolding(crate::specs::inner::Prefixes::extended))]
    pub(crate) fn then(self, operator: Prefix) -> Prefixes
        ensures { result ≡ extended self operator }
    {
        match self {
            Prefixes::Linear { negative, plus } => match operator {
                Prefix::Not => Prefixes::Test {
                    operand: 0,
                    there: sum(negative, plus, 1),
                    elsewhere: sum(negative, plus, 0),
                },
                Prefix::Complement => Prefixes::Linear {
                    negative: !negative,
                    plus: if negative {
                        plus.wrapping_add(1)
                    } else {
                        plus.wrapping_sub(1)
                    },
                },
                Prefix::Plus => self,
                Prefix::Minus => Prefixes::Linear {
                    negative: !negative,
                    plus,
                },
            },
            Prefixes::Test {
                operand,
                there,
                elsewhere,
            } => match operator {
                Prefix::Not => Prefixes::Test {
                    operand: 0,
                    there: if operand == 1 { there } else { elsewhere },
                    elsewhere: if operand == 0 { there } else { elsewhere },
                },
                Prefix::Complement => Prefixes::Test {
                    operand: u64::MAX - operand,
                    there,
                    elsewhere,
                },
                Prefix::Plus => self,
                Prefix::Minus => Prefixes::Test {
                    operand: 0u64.wrapping_sub(operand),
                    there,
                    elsewhere,
                },
            },
        }
    }

    /// What the run makes of its operand.
    #[tactic(auto, unfolding(crate::specs::inner::Prefixes::applied, crate::specs::Values::after_left))]
    pub(crate) fn apply(self, operand: Meaning) -> Meaning
        ensures { result ≡ applied self operand }
    {
        let signed = match self {
            Prefixes::Linear { .. } => false,
            Prefixes::Test { .. } => true,
        };
        let unsigned = operand.unsigned && !signed;
        let Value::Bits(bits) = operand.value else {
            return Meaning {
                unsigned,
                value: operand.value,
            };
        };
        let value = match self {
            Prefixes::Linear { negative, plus } => sum(negative, plus, bits),
            Prefixes::Test {
                operand,
                there,
                elsewhere,
            } => { if bits == operand { there } else { elsewhere } }
        };
        Meaning {
            unsigned,
            value: Value::Bits(value),
        }
    }
}
