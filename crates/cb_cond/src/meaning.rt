//! The meaning of an expression: its type and its value.

/// The value of an expression, or the first fault that its evaluation meets.
#[derive(Clone, Copy, Debug, PartialEq, Eq)]
pub(crate) enum Value {
    /// 64 bits, which the type reads as signed or as unsigned.
    Bits(u64),
    /// A divisor is 0.
    ZeroDivisor,
    /// A shift by a negative number, or by 64 or more.
    Shift,
}

/// The type of an expression, and its value.
#[derive(Clone, Copy, Debug, PartialEq, Eq)]
pub(crate) struct Meaning {
    /// Whether the type is unsigned.
    pub(crate) unsigned: bool,
    /// The value.
    pub(crate) value: Value,
}
