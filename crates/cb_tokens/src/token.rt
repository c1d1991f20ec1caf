//! The kinds of pieces that a source is cut into, and a token.
ghost use Rattle.std.specs.Prelude.{◌≡◌, ◌↔◌, IsTrue, IfOk};
ghost use Rattle.cb_tokens.specs.Kinds.{is_identifier_kind};

use cb_paths::{Bytes, NoMemory};
use std::alloc::Global;

/// The form of a preprocessing token.
#[derive(Clone, Copy, Debug, PartialEq, Eq)]
pub enum TokenKind {
    /// A letter, `_`, `$` or a byte of 128 and above, then such bytes and digits.
    Identifier,
    /// A preprocessing number.
    Number,
    /// A character constant with both its quotes, and its prefix where it has one.
    Char,
    /// A string literal with both its quotes, and its prefix where it has one.
    Str,
    /// A punctuator.
    Punct,
    /// A quote without its end and the rest of its logical line, or a byte that begins nothing else.
    Other,
}

/// What a piece of a source is.
#[derive(Clone, Copy, Debug, PartialEq, Eq)]
pub enum PieceKind {
    /// White bytes.
    White,
    /// A comment of either form.
    Comment,
    /// The end of a logical line.
    LineEnd,
    /// A token.
    Token(TokenKind),
}

/// A preprocessing token.
#[derive(Drop)]
pub struct Token {
    /// Its form.
    pub kind: TokenKind,
    /// Whether white space or a comment stands between it and the token before it on its logical line.
    pub spaced: bool,
    /// Its bytes, without the splices that stood in it.
    pub text: Bytes,
}

impl TokenKind {
    /// Whether it is that of an identifier.
    #[inline]
    pub fn is_identifier(self) -> bool
        ensures { result ≡ is_identifier_kind self }
    {
        match self {
            TokenKind::Identifier => true,
            _ => false,
        }
    }
}

impl Token {
    /// Whether it is an identifier.
    #[inline]
    pub fn is_identifier(&self) -> bool
        ensures { result ≡ is_identifier_kind self.now.kind }
    {
        self.kind.is_identifier()
    }

    /// Whether it agrees with another token in kind, bytes and white space. It takes no memory.
    pub fn is_same(&self, other: &Token) -> bool
        ensures { IsTrue result ↔ (self.now ≡ other.now) }
    {
        self.kind == other.kind
            && self.spaced == other.spaced
            && self.text.as_slice() == other.text.as_slice()
    }

    /// A second token of the same kind, bytes and white space.
    pub fn copy(&self, alloc: Global) -> Result<Token, NoMemory>
        ensures { IfOk result (λ token. token ≡ self.now) }
    {
        let text = self.text.copy(alloc)?;
        Ok(Token {
            kind: self.kind,
            spaced: self.spaced,
            text,
        })
    }
}
