//! The tokens that are still to be read, with the ends of the arguments that begin at those below a call.
ghost use Rattle.std.specs.Prelude.{◌≡◌, ◌+◌, ◌-◌, ◌≤◌, ◌<◌, [], ◌∷◌, ◌++◌, false, true, length, take, OnOk};
ghost use Rattle.std.specs.List.{slice_index_or};
ghost use Rattle.cb_expand.specs.declared.sign.Sign.{Sign as Kind};
ghost use Rattle.cb_expand.specs.inner.Rows.{signs, kept, end_height, AreEnds, IsRow};

use crate::sign::{Sign, sign_of};
use cb_paste::WorkToken;
use cb_paths::NoMemory;

/// Where what begins at a token ends: how many tokens stand from there down, with the end itself; 0 where it has no end.
#[derive(Clone, Copy)]
pub(crate) struct Ends {
    /// The parenthesis that closes what the token stands in.
    pub(crate) close: usize,
    /// That parenthesis, or a comma before it.
    pub(crate) separator: usize,
}

/// The end by a parenthesis of what begins below a height.
fn close_below(ends: &[Ends], height: usize) -> usize
    requires { height ≤ length ends.now }
    ensures { result ≡ kept (λ e. e.close) ends.now height }
{
    if height == 0 {
        0
    } else {
        ends[height - 1].close
    }
}

/// The end by a comma or a parenthesis of what begins below a height.
fn separator_below(ends: &[Ends], height: usize) -> usize
    requires { height ≤ length ends.now }
    ensures { result ≡ kept (λ e. e.separator) ends.now height }
{
    if height == 0 {
        0
    } else {
        ends[height - 1].separator
    }
}

/// Where what begins at the first token for which no ends are kept yet ends.
fn next_ends(tokens: &[WorkToken], ends: &[Ends]) -> Ends
    requires kept { AreEnds (signs tokens.now) ends.now }
    requires more { length ends.now < length tokens.now }
    ensures close { result.close ≡ end_height false (signs tokens.now) (length ends.now + 1) }
    ensures separator { result.separator ≡ end_height true (signs tokens.now) (length ends.now + 1) }
{
    let height = ends.len();
    let close = close_below(ends, height);
    let token = &tokens[height];
    match sign_of(token.kind, token.text.as_slice()) {
        Sign::Close => Ends {
            close: height + 1,
            separator: height + 1,
        },
        Sign::Comma => Ends {
            close,
            separator: height + 1,
        },
        Sign::Plain => Ends {
            close,
            separator: separator_below(ends, height),
        },
        Sign::Open => {
            let behind = close.saturating_sub(1);
            Ends {
                close: close_below(ends, behind),
                separator: separator_below(ends, behind),
            }
        }
    }
}

/// The tokens that are still to be read, the next one last. The ends of what begins at the first of them are kept: those of
/// all are found once a call is met, so that tokens in which none stands cost nothing, and each is looked at once.
#[derive(Drop)]
pub(crate) struct Row {
    /// The tokens.
    pub(crate) tokens: Vec<WorkToken>,
    /// The ends of what begins at each of the first tokens.
    pub(crate) ends: Vec<Ends>,
}

impl Row {
    /// Keeps the ends for the tokens for which none are kept yet.
    pub(crate) fn keep_ends(&mut self) -> Result<(), NoMemory>
        requires { AreEnds (signs self.old.tokens.items) self.old.ends.items }
        ensures tokens { self.new.tokens ≡ self.old.tokens }
        ensures kept { OnOk result (IsRow (signs self.new.tokens.items) self.new.ends.items) }
    {
        let missing = self.tokens.len().saturating_sub(self.ends.len());
        self.ends.reserve(missing)?;
        for height in self.ends.len()..self.tokens.len() {
            let ends = next_ends(self.tokens.as_slice(), self.ends.as_slice());
            self.ends.push(ends)?;
        }
        Ok(())
    }

    /// Takes the top token away, of which there is one.
    #[inline(always)]
    pub(crate) fn pop(&mut self) -> WorkToken
        requires some { 0 < length self.old.tokens.items }
        requires kept { AreEnds (signs self.old.tokens.items) self.old.ends.items }
        ensures tokens { self.old.tokens.items ≡ self.new.tokens.items ++ result ∷ [] }
        ensures kept { AreEnds (signs self.new.tokens.items) self.new.ends.items }
    {
        let token = self.tokens.take_last();
        self.ends.truncate(self.tokens.len());
        token
    }

    /// Takes all tokens above a height away.
    pub(crate) fn truncate(&mut self, height: usize)
        requires { AreEnds (signs self.old.tokens.items) self.old.ends.items }
        ensures tokens { self.new.tokens.items ≡ take height self.old.tokens.items }
        ensures kept { AreEnds (signs self.new.tokens.items) self.new.ends.items }
    {
        self.ends.truncate(height);
        self.tokens.truncate(height);
    }

    /// What the token at a height is to the arguments of a call.
    pub(crate) fn sign(&self, height: usize) -> Sign
        requires above { 0 < height }
        requires within { height ≤ length self.now.tokens.items }
        ensures { (other : Kind) → slice_index_or (signs self.now.tokens.items) (height - 1) other ≡ result }
    {
        let token = &self.tokens[height - 1];
        sign_of(token.kind, token.text.as_slice())
    }

    /// The end of an argument that begins below a height: 0 where it has none.
    pub(crate) fn end_below(&self, height: usize, commas: bool) -> usize
        requires row { IsRow (signs self.now.tokens.items) self.now.ends.items }
        requires within { height ≤ length self.now.tokens.items }
        ensures end { result ≡ end_height commas (signs self.now.tokens.items) height }
        ensures below { result ≤ height }
    {
        if commas {
            separator_below(self.ends.as_slice(), height)
        } else {
            close_below(self.ends.as_slice(), height)
        }
    }
}
