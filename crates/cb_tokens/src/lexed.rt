//! The logical lines of a source.
ghost use Rattle.std.specs.Prelude.{◌≡◌, ◌==◌, ◌<◌, length, slice_get, IsSomeAnd};

use crate::token::Token;
use cb_lines::Lines;
use std::marker::Model;

/// A logical line.
#[derive(Drop)]
pub(crate) struct LogicalLine {
    pub(crate) tokens: Vec<Token>,
    pub(crate) counted: Lines,
}

/// The logical lines of a source in order, which contracts see as the list of them.
#[derive(Drop)]
pub struct Lexed {
    pub(crate) lines: Vec<LogicalLine>,
}

impl Model for Lexed {
    ghost use Rattle.std.specs.Prelude.{List, map};
    ghost use Rattle.cb_tokens.specs.Logical.{Line};

    ghost Value = { List Line };

    ghost view = { λ l. map (λ line. record { tokens = line.tokens.items; counted = line.counted }) l.lines.items };
}

impl Lexed {
    /// The number of logical lines.
    pub fn len(&self) -> usize
        ensures { result ≡ length self.now }
    {
        self.lines.len()
    }

    /// Whether there is no logical line.
    pub fn is_empty(&self) -> bool
        ensures { result ≡ (length self.now == 0) }
    {
        self.lines.is_empty()
    }

    /// The tokens of a logical line. Lines are numbered from 0.
    pub fn tokens(&self, line: usize) -> &[Token]
        requires { line < length self.now }
        ensures { IsSomeAnd (slice_get self.now line) (λ l. l.tokens ≡ result.now) }
    {
        self.lines[line].tokens.as_slice()
    }

    /// The set of the physical lines on which a byte of a token of a logical line stands.
    pub fn counted(&self, line: usize) -> &Lines
        requires { line < length self.now }
        ensures { IsSomeAnd (slice_get self.now line) (λ l. l.counted ≡ result.now) }
    {
        &self.lines[line].counted
    }
}
