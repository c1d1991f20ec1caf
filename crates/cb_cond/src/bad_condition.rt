//! What is wrong with a condition.
ghost use Rattle.std.specs.Prelude.{◌≡◌};

use thiserror::Error;

/// Why a condition has no value. Where several reasons hold, a later one of this list stands before an earlier one, but
/// for `ZeroDivisor` and `Shift`, of which evaluation from the left meets one first.
#[derive(Clone, Copy, Debug, PartialEq, Eq, Error)]
pub enum BadCondition {
    /// The tokens are no conditional expression.
    #[error("the tokens are no conditional expression")]
    Malformed,
    /// A divisor is 0.
    #[error("a divisor is 0")]
    ZeroDivisor,
    /// A value is shifted by a negative number, or by 64 or more.
    #[error("a value is shifted by a negative number, or by 64 or more")]
    Shift,
    /// An integer is 2^64 or more.
    #[error("an integer is 2^64 or more")]
    TooWide,
    /// More than 256 parentheses are open at once, or there are more than 256 question marks.
    #[error("more than 256 parentheses are open at once, or there are more than 256 question marks")]
    TooDeep,
}

impl BadCondition {
    ghost use Rattle.cb_cond.specs.Faults.{fault_name, fault_number};

    /// The number of the fault, from 1.
    pub fn number(&self) -> u32
        ensures { result ≡ fault_number self.now }
    {
        match self {
            BadCondition::Malformed => 1,
            BadCondition::ZeroDivisor => 2,
            BadCondition::Shift => 3,
            BadCondition::TooWide => 4,
            BadCondition::TooDeep => 5,
        }
    }

    /// The name of the fault.
    pub fn name(&self) -> &'static str
        ensures { result.now ≡ fault_name self.now }
    {
        match self {
            BadCondition::Malformed => "Malformed",
            BadCondition::ZeroDivisor => "ZeroDivisor",
            BadCondition::Shift => "Shift",
            BadCondition::TooWide => "TooWide",
            BadCondition::TooDeep => "TooDeep",
        }
    }
}
