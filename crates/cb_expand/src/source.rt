//! Tokens of a source before they are expanded, and after it.
ghost use Rattle.std.specs.Prelude.{◌≡◌, ◌≤◌, ◌++◌, IfOk, map, reverse};
ghost use Rattle.cb_expand.specs.inner.Sources.{as_read, as_token, IsStart};

use crate::row::Row;
use crate::work::Work;
use cb_paste::{Hides, WorkToken};
use cb_paths::NoMemory;
use cb_tokens::{Token, Tokens};
use std::alloc::Global;

/// A token of a source, which hides nothing.
fn read_of(alloc: Global, token: &Token) -> Result<WorkToken, NoMemory>
    ensures { IfOk result (λ read. read ≡ as_read token.now) }
{
    let text = token.text.copy(alloc)?;
    Ok(WorkToken {
        kind: token.kind,
        spaced: token.spaced,
        text,
        hides: 0,
    })
}

/// The tokens of a source, the first one last.
fn stacked(alloc: Global, tokens: &[Token]) -> Result<Vec<WorkToken>, NoMemory>
    ensures { IfOk result (λ stack. stack.items ≡ map as_read (reverse tokens.now)) }
{
    let mut stack = Vec::with_capacity(alloc, tokens.len())?;
    let mut at = tokens.len();
    'tokens: while at > 0 {
        at -= 1;
        let token = read_of(alloc, &tokens[at])?;
        stack.push_reserved(token);
    }
    Ok(stack)
}

/// The tokens of a source, of which none is read yet, where so much was paid before.
pub(crate) fn work_of(alloc: Global, tokens: &[Token], paid: usize) -> Result<Work, NoMemory>
    requires { paid ≤ 65536 }
    ensures { IfOk result (IsStart tokens.now paid) }
{
    let done = Vec::with_capacity(alloc, tokens.len())?;
    let tokens = stacked(alloc, tokens)?;
    let row = Row {
        tokens,
        ends: Vec::new(alloc),
    };
    Ok(Work {
        arena: Hides::new(alloc),
        row,
        floor: 0,
        frames: Vec::new(alloc),
        done,
        used: paid,
    })
}

/// What stands at the end, without all else.
pub(crate) fn done_of(work: Work) -> Vec<WorkToken>
    ensures { result ≡ work.done }
{
    work.done
}

/// Tokens with others behind them, of which the hide sets are dropped.
pub(crate) fn with_plain(front: Tokens, tokens: Vec<WorkToken>) -> Result<Tokens, NoMemory>
    ensures { IfOk result (λ all. all ≡ front ++ map as_token tokens.items) }
{
    let mut all = front.into_vec();
    all.reserve(tokens.len())?;
    'tokens: for token in tokens {
        all.push_reserved(Token {
            kind: token.kind,
            spaced: token.spaced,
            text: token.text,
        });
    }
    Ok(Tokens::from_vec(all))
}
