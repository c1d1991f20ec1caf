//! Punctuators of one byte.
ghost use Rattle.std.specs.Prelude.{◌≡◌, ◌∷◌, []};
ghost use Rattle.cb_cond.specs.Words.{punctuator};

use crate::symbol::{Operator, Symbol};

/// What a punctuator of one byte is to the grammar.
#[inline(always)]
#[tactic(auto, unfolding(crate::specs::Words::punctuator, crate::specs::Words::punctuators, crate::specs::Words::looked_up))]
pub(crate) fn single_symbol(byte: u8) -> Symbol
    ensures { result ≡ punctuator (byte ∷ []) }
{
    match byte {
        b'(' => Symbol::OpenParenthesis,
        b')' => Symbol::CloseParenthesis,
        b'?' => Symbol::Question,
        b':' => Symbol::Colon,
        b'!' => Symbol::Exclamation,
        b'~' => Symbol::Tilde,
        b'|' => Symbol::Between(Operator::BitOr),
        b'^' => Symbol::Between(Operator::BitXor),
        b'&' => Symbol::Between(Operator::BitAnd),
        b'<' => Symbol::Between(Operator::Less),
        b'>' => Symbol::Between(Operator::Greater),
        b'+' => Symbol::Between(Operator::Add),
        b'-' => Symbol::Between(Operator::Subtract),
        b'*' => Symbol::Between(Operator::Multiply),
        b'/' => Symbol::Between(Operator::Divide),
        b'%' => Symbol::Between(Operator::Remainder),
        _ => Symbol::Stray,
    }
}
