//! What a token is to the grammar of conditions.

/// A binary operator.
#[derive(Clone, Copy, Debug, PartialEq, Eq)]
pub(crate) enum Operator {
    Or,
    And,
    BitOr,
    BitXor,
    BitAnd,
    Equal,
    Unequal,
    Less,
    Greater,
    AtMost,
    AtLeast,
    ShiftLeft,
    ShiftRight,
    Add,
    Subtract,
    Multiply,
    Divide,
    Remainder,
}

/// An operator that stands before its operand.
#[derive(Clone, Copy, Debug, PartialEq, Eq)]
pub(crate) enum Prefix {
    Not,
    Complement,
    Plus,
    Minus,
}

/// What a token is to the grammar.
#[derive(Clone, Copy, Debug, PartialEq, Eq)]
pub(crate) enum Symbol {
    /// A number below 2^64, with its type.
    Number { bits: u64, unsigned: bool },
    /// A binary operator. `+` and `-` may stand before an operand too.
    Between(Operator),
    /// `!`.
    Exclamation,
    /// `~`.
    Tilde,
    /// `(`.
    OpenParenthesis,
    /// `)`.
    CloseParenthesis,
    /// `?`.
    Question,
    /// `:`.
    Colon,
    /// An integer that is 2^64 or more.
    WideInteger,
    /// A token that is in no form of the grammar.
    Stray,
}
