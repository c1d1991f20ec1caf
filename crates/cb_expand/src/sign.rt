//! What a token is to the arguments of a call.
ghost use Rattle.std.specs.Prelude.{◌≡◌};
ghost use Rattle.cb_expand.specs.Arguments.{sign, is_open, is_close};

use cb_tokens::TokenKind;

/// What a token is to the arguments of a call.
#[derive(Clone, Copy, Debug, PartialEq, Eq)]
pub enum Sign {
    /// It opens a parenthesis.
    Open,
    /// It closes one.
    Close,
    /// It separates arguments.
    Comma,
    /// It is part of an argument.
    Plain,
}

/// What a token of a kind and these bytes is to the arguments of a call.
#[tactic(auto, unfolding(crate::specs::Arguments::sign))]
pub(crate) fn sign_of(kind: TokenKind, text: &[u8]) -> Sign
    ensures { result ≡ sign kind text.now }
{
    match kind {
        TokenKind::Punct => {
            if text == b"(".as_slice() {
                return Sign::Open;
            }
            if text == b")".as_slice() {
                return Sign::Close;
            }
            if text == b",".as_slice() {
                return Sign::Comma;
            }
            Sign::Plain
        }
        _ => Sign::Plain,
    }
}

impl Sign {
    /// Whether it opens a parenthesis.
    pub(crate) fn is_open(self) -> bool
        ensures { result ≡ is_open self }
    {
        match self {
            Sign::Open => true,
            _ => false,
        }
    }

    /// Whether it closes one.
    pub(crate) fn is_close(self) -> bool
        ensures { result ≡ is_close self }
    {
        match self {
            Sign::Close => true,
            _ => false,
        }
    }
}
