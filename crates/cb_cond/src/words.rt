//! Punctuators and words of conditions.
ghost use Rattle.std.specs.Prelude.{◌≡◌, ◌≢◌, length};
ghost use Rattle.std.specs.Str.{bytes_eq};
ghost use Rattle.cb_cond.specs.Words.{punctuator, identifier, word};

use crate::singles::single_symbol;
use crate::symbol::{Operator, Symbol};
use cb_paths::Language;

/// Whether the text is the word.
fn is(text: &[u8], word: &[u8]) -> bool
    ensures { result ≡ bytes_eq text.now word.now }
{
    text == word
}

/// What a punctuator of more bytes than one is to the grammar.
#[tactic(auto, unfolding(crate::specs::Words::punctuator, crate::specs::Words::punctuators, crate::specs::Words::looked_up))]
fn longer_symbol(text: &[u8]) -> Symbol
    requires { length text.now ≢ 1 }
    ensures { result ≡ punctuator text.now }
{
    match text {
        b"||" => Symbol::Between(Operator::Or),
        b"&&" => Symbol::Between(Operator::And),
        b"==" => Symbol::Between(Operator::Equal),
        b"!=" => Symbol::Between(Operator::Unequal),
        b"<=" => Symbol::Between(Operator::AtMost),
        b">=" => Symbol::Between(Operator::AtLeast),
        b"<<" => Symbol::Between(Operator::ShiftLeft),
        b">>" => Symbol::Between(Operator::ShiftRight),
        _ => Symbol::Stray,
    }
}

/// What a punctuator is to the grammar.
#[inline(always)]
pub(crate) fn punctuator_symbol(text: &[u8]) -> Symbol
    ensures { result ≡ punctuator text.now }
{
    if text.len() == 1 {
        return single_symbol(text[0]);
    }
    longer_symbol(text)
}

/// What an identifier other than `defined` is to the grammar.
#[tactic(auto, unfolding(crate::specs::Words::word, crate::specs::Words::cxx_words, crate::specs::Words::looked_up))]
fn word_symbol(language: Language, text: &[u8]) -> Symbol
    ensures { result ≡ word language text.now }
{
    if let Language::C = language {
        return Symbol::Number {
            bits: 0,
            unsigned: false,
        };
    }
    if is(text, b"and") {
        return Symbol::Between(Operator::And);
    }
    if is(text, b"or") {
        return Symbol::Between(Operator::Or);
    }
    if is(text, b"not") {
        return Symbol::Exclamation;
    }
    if is(text, b"xor") {
        return Symbol::Between(Operator::BitXor);
    }
    if is(text, b"bitand") {
        return Symbol::Between(Operator::BitAnd);
    }
    if is(text, b"bitor") {
        return Symbol::Between(Operator::BitOr);
    }
    if is(text, b"compl") {
        return Symbol::Tilde;
    }
    if is(text, b"not_eq") {
        return Symbol::Between(Operator::Unequal);
    }
    if is(text, b"true") {
        return Symbol::Number {
            bits: 1,
            unsigned: false,
        };
    }
    Symbol::Number {
        bits: 0,
        unsigned: false,
    }
}

/// What an identifier is to the grammar: a `defined` that is left has no place in it.
#[inline(always)]
#[tactic(auto, unfolding(crate::specs::Words::identifier))]
pub(crate) fn identifier_symbol(language: Language, text: &[u8]) -> Symbol
    ensures { result ≡ identifier language text.now }
{
    if is(text, b"defined") {
        return Symbol::Stray;
    }
    word_symbol(language, text)
}
