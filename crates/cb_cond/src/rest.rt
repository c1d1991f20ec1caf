//! Tokens that are read one after another.
ghost use Rattle.std.specs.Prelude.{◌≡◌, ◌+◌, ◌≤◌, ◌^◌, true, [], ◌∷◌, length, MatchOption};
ghost use Rattle.cb_cond.specs.inner.Rests.{left};

use cb_tokens::Token;

/// The tokens that stand in no condition that is too deep: each opens one parenthesis at most, or asks one question.
const SHORT: usize = 256;

/// The tokens that are left to read.
#[derive(Clone, Copy)]
pub(crate) struct Rest<'a> {
    tokens: &'a [Token],
}

impl<'a> Rest<'a> {
    /// All of a list.
    pub(crate) fn new(tokens: &'a [Token]) -> Rest<'a>
        ensures { left result ≡ tokens.now }
    {
        Rest { tokens }
    }

    /// The next token.
    pub(crate) fn next(&mut self) -> Option<&'a Token>
        ensures { MatchOption result (left self.old ≡ []) (λ token. left self.old ≡ token.now ∷ left self.new) }
    {
        let (token, behind) = self.tokens.split_first()?;
        self.tokens = behind;
        Some(token)
    }

    /// The number of the tokens that are left.
    pub(crate) fn len(&self) -> usize
        ensures { result ≡ length (left self.now) }
    {
        self.tokens.len()
    }

    /// Whether too few tokens are left for a condition that is too deep.
    pub(crate) fn is_short(&self) -> bool
        ensures short { result ≡ true → length (left self.now) ≤ SHORT }
        ensures counted { length (left self.now) + 2 ^ 64 ≤ 2 ^ 128 }
    {
        self.tokens.len() <= SHORT
    }
}
