//! The operations on meanings.
ghost use Rattle.std.specs.Prelude.{◌≡◌, not, nat_lt};
ghost use Rattle.cb_cond.specs.Values.{binary, unary, choose, operated, wrapped, is_decided, after_left, prefix_value, chosen_value, binary_value, result_is_unsigned, prefix_is_unsigned, is_less, quotient, remainder, shift_left, shift_right, truth};

use crate::meaning::{Meaning, Value};
use crate::symbol::{Operator, Prefix};

/// 1 where it holds, else 0.
#[tactic(auto, unfolding(crate::specs::Values::truth))]
fn truth_value(holds: bool) -> Value
    ensures { result ≡ truth holds }
{
    Value::Bits(u64::from(holds))
}

/// Whether the one number is less than the other, in a type.
#[tactic(auto, unfolding(crate::specs::Values::is_less))]
fn is_less_than(unsigned: bool, a: u64, b: u64) -> bool
    ensures { result ≡ is_less unsigned a b }
{
    if unsigned {
        a < b
    } else {
        a.cast_signed() < b.cast_signed()
    }
}

/// The quotient, truncated toward zero.
#[tactic(auto, unfolding(crate::specs::Values::quotient))]
fn divided(unsigned: bool, a: u64, b: u64) -> Value
    ensures { result ≡ quotient unsigned a b }
{
    if b == 0 {
        return Value::ZeroDivisor;
    }
    if unsigned {
        return Value::Bits(a / b);
    }
    let quotient = a.cast_signed().wrapping_div(b.cast_signed());
    Value::Bits(quotient.cast_unsigned())
}

/// The remainder of the quotient.
#[tactic(auto, unfolding(crate::specs::Values::remainder))]
fn remaining(unsigned: bool, a: u64, b: u64) -> Value
    ensures { result ≡ remainder unsigned a b }
{
    if b == 0 {
        return Value::ZeroDivisor;
    }
    if unsigned {
        return Value::Bits(a % b);
    }
    let remainder = a.cast_signed().wrapping_rem(b.cast_signed());
    Value::Bits(remainder.cast_unsigned())
}

/// Whether a shift by the number has no value.
fn shifts_too_far(by: u64) -> bool
    ensures { result ≡ not (nat_lt by 64) }
{
    by >= 64
}

/// The bits moved to the left.
#[tactic(auto, unfolding(crate::specs::Values::shift_left, crate::specs::Values::wrapped))]
fn shifted_left(a: u64, b: u64) -> Value
    ensures { result ≡ wrapped (shift_left a b) }
{
    if shifts_too_far(b) {
        return Value::Shift;
    }
    Value::Bits(a.wrapping_shl(b as u32))
}

/// The bits moved to the right, where a signed number keeps its sign.
#[tactic(auto, unfolding(crate::specs::Values::shift_right))]
fn shifted_right(unsigned: bool, a: u64, b: u64) -> Value
    ensures { result ≡ shift_right unsigned a b }
{
    if shifts_too_far(b) {
        return Value::Shift;
    }
    if unsigned {
        return Value::Bits(a >> b);
    }
    Value::Bits((a.cast_signed() >> b).cast_unsigned())
}

/// The bits that an operator makes of those of both operands.
#[inline(always)]
#[tactic(auto, using(crate::proofs::Wrapped::bits_wrapped), unfolding(crate::specs::Values::operated, crate::specs::Values::wrapped, crate::specs::Values::truth, crate::specs::Values::quotient, crate::specs::Values::remainder, crate::specs::Values::shift_right))]
fn operate(operator: Operator, a_unsigned: bool, b_unsigned: bool, a: u64, b: u64) -> Value
    ensures { result ≡ wrapped (operated operator a_unsigned b_unsigned a b) }
{
    let unsigned = a_unsigned || b_unsigned;
    match operator {
        Operator::Or => truth_value(a != 0 || b != 0),
        Operator::And => truth_value(a != 0 && b != 0),
        Operator::BitOr => Value::Bits(a | b),
        Operator::BitXor => Value::Bits(a ^ b),
        Operator::BitAnd => Value::Bits(a & b),
        Operator::Equal => truth_value(a == b),
        Operator::Unequal => truth_value(a != b),
        Operator::Less => truth_value(is_less_than(unsigned, a, b)),
        Operator::Greater => truth_value(is_less_than(unsigned, b, a)),
        Operator::AtMost => truth_value(!is_less_than(unsigned, b, a)),
        Operator::AtLeast => truth_value(!is_less_than(unsigned, a, b)),
        Operator::ShiftLeft => shifted_left(a, b),
        Operator::ShiftRight => shifted_right(a_unsigned, a, b),
        Operator::Add => Value::Bits(a.wrapping_add(b)),
        Operator::Subtract => Value::Bits(a.wrapping_sub(b)),
        Operator::Multiply => Value::Bits(a.wrapping_mul(b)),
        Operator::Divide => divided(unsigned, a, b),
        Operator::Remainder => remaining(unsigned, a, b),
    }
}

/// Whether the left operand alone decides.
#[tactic(auto, unfolding(crate::specs::Values::is_decided))]
fn decides(operator: Operator, left: u64) -> bool
    ensures { result ≡ is_decided operator left }
{
    match operator {
        Operator::And => left == 0,
        Operator::Or => left != 0,
        _ => false,
    }
}

/// The value of an operator's result.
#[inline(always)]
#[tactic(auto, unfolding(crate::specs::Values::binary_value, crate::specs::Values::wrapped, crate::specs::Values::truth, crate::specs::Values::after_left))]
fn binary_result(operator: Operator, a: Meaning, b: Meaning) -> Value
    ensures { result ≡ wrapped (binary_value operator a.unsigned b.unsigned a.value b.value) }
{
    let Value::Bits(left) = a.value else {
        return a.value;
    };
    if decides(operator, left) {
        return truth_value(left != 0);
    }
    let Value::Bits(right) = b.value else {
        return b.value;
    };
    operate(operator, a.unsigned, b.unsigned, left, right)
}

/// Whether an operator's result is unsigned.
#[inline(always)]
#[tactic(auto, unfolding(crate::specs::Values::result_is_unsigned))]
fn is_result_unsigned(operator: Operator, a: bool, b: bool) -> bool
    ensures { result ≡ result_is_unsigned operator a b }
{
    match operator {
        Operator::Or
        | Operator::And
        | Operator::Equal
        | Operator::Unequal
        | Operator::Less
        | Operator::Greater
        | Operator::AtMost
        | Operator::AtLeast => false,
        Operator::ShiftLeft | Operator::ShiftRight => a,
        Operator::BitOr
        | Operator::BitXor
        | Operator::BitAnd
        | Operator::Add
        | Operator::Subtract
        | Operator::Multiply
        | Operator::Divide
        | Operator::Remainder => a || b,
    }
}

/// The meaning of a binary operator's result.
#[inline(always)]
#[tactic(auto, unfolding(crate::specs::Values::binary))]
pub(crate) fn binary_meaning(operator: Operator, a: Meaning, b: Meaning) -> Meaning
    ensures { result ≡ binary operator a b }
{
    Meaning {
        unsigned: is_result_unsigned(operator, a.unsigned, b.unsigned),
        value: binary_result(operator, a, b),
    }
}

/// The meaning of `a ? b : c`.
#[tactic(auto, unfolding(crate::specs::Values::choose, crate::specs::Values::chosen_value, crate::specs::Values::after_left))]
pub(crate) fn choice_meaning(a: Meaning, b: Meaning, c: Meaning) -> Meaning
    ensures { result ≡ choose a b c }
{
    let unsigned = b.unsigned || c.unsigned;
    let value = match a.value {
        Value::Bits(0) => c.value,
        Value::Bits(_) => b.value,
        fault => fault,
    };
    Meaning { unsigned, value }
}
