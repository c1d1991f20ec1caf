//! Tokens as symbols of the grammar.
ghost use Rattle.std.specs.Prelude.{◌≡◌, ◌≢◌};
ghost use Rattle.cb_paths.specs.declared.language.Language.{Language};
ghost use Rattle.cb_cond.specs.Symbols.{symbol};
ghost use Rattle.cb_cond.specs.Faults.{is_open, is_close, is_question};

use crate::characters::character_symbol;
use crate::integers::integer_symbol;
use crate::symbol::Symbol;
use crate::words::{identifier_symbol, punctuator_symbol};
use cb_paths::Language;
use cb_tokens::{Token, TokenKind};

/// What a token is to the grammar that is neither a punctuator nor a number: there are few of them.
#[inline(never)]
#[tactic(auto, unfolding(crate::specs::Symbols::symbol, crate::specs::Symbols::symbol_of))]
fn other_symbol(language: Language, token: &Token) -> Symbol
    requires punctuator { token.now.kind ≢ TokenKind.Punct }
    requires number { token.now.kind ≢ TokenKind.Number }
    ensures { result ≡ symbol language token.now }
{
    match token.kind {
        TokenKind::Identifier => identifier_symbol(language, token.text.as_slice()),
        TokenKind::Char => character_symbol(token.text.as_slice()),
        _ => Symbol::Stray,
    }
}

/// What a token is to the grammar.
#[inline(always)]
#[tactic(auto, unfolding(crate::specs::Symbols::symbol, crate::specs::Symbols::symbol_of))]
pub(crate) fn token_symbol(language: Language, token: &Token) -> Symbol
    ensures { result ≡ symbol language token.now }
{
    if let TokenKind::Punct = token.kind {
        return punctuator_symbol(token.text.as_slice());
    }
    if let TokenKind::Number = token.kind {
        return integer_symbol(token.text.as_slice());
    }
    other_symbol(language, token)
}

/// What a punctuator is to the grammar, and nothing of another token: enough to see the parentheses and question marks.
#[tactic(auto, unfolding(crate::specs::Symbols::symbol, crate::specs::Symbols::symbol_of))]
pub(crate) fn outline_symbol(token: &Token) -> Symbol
    ensures opens { (language : Language) → is_open result ≡ is_open (symbol language token.now) }
    ensures closes { (language : Language) → is_close result ≡ is_close (symbol language token.now) }
    ensures asks { (language : Language) → is_question result ≡ is_question (symbol language token.now) }
{
    match token.kind {
        TokenKind::Punct => punctuator_symbol(token.text.as_slice()),
        _ => Symbol::Stray,
    }
}
