//! How deeply a condition is nested.
ghost use Rattle.std.specs.Prelude.{◌≡◌, ◌+◌, ◌<◌, ◌^◌, true, false, MatchOption};
ghost use Rattle.cb_paths.specs.declared.language.Language.{Language};
ghost use Rattle.cb_cond.specs.inner.Rests.{left};
ghost use Rattle.cb_cond.specs.Symbols.{symbols};
ghost use Rattle.cb_cond.specs.Faults.{IsTooDeep};
ghost use Rattle.cb_cond.specs.inner.Attempts.{IsSpent, IsSlackBehind};

use crate::rest::Rest;
use crate::symbol::Symbol;
use crate::symbols::outline_symbol;

/// The parentheses that may be open at once.
const PARENTHESIS_LIMIT: u128 = 256;

/// The question marks that a condition may have.
const QUESTION_LIMIT: u32 = 256;

/// What a condition may still open.
#[derive(Clone, Copy)]
pub(crate) struct Slack {
    /// The parentheses that may be opened. Each one that is closed makes room for another.
    parentheses: u128,
    /// The question marks that may come.
    questions: u32,
}

/// What may be opened behind a symbol, or nothing where the symbol opens too much.
#[tactic(auto, unfolding(crate::specs::Faults::is_open, crate::specs::Faults::is_close, crate::specs::Faults::is_question))]
fn slack_behind(slack: Slack, symbol: Symbol) -> Option<Slack>
    requires { slack.parentheses + 1 < 2 ^ 128 }
    ensures { MatchOption result (IsSpent slack symbol) (IsSlackBehind slack symbol) }
{
    match symbol {
        Symbol::OpenParenthesis => Some(Slack {
            parentheses: slack.parentheses.checked_sub(1)?,
            questions: slack.questions,
        }),
        Symbol::CloseParenthesis => Some(Slack {
            parentheses: slack.parentheses + 1,
            questions: slack.questions,
        }),
        Symbol::Question => Some(Slack {
            parentheses: slack.parentheses,
            questions: slack.questions.checked_sub(1)?,
        }),
        _ => Some(slack),
    }
}

/// Whether too many parentheses are open at once, or there are too many question marks.
pub(crate) fn is_too_deep(mut rest: Rest) -> bool
    ensures deep { (language : Language) → result ≡ true → IsTooDeep (symbols language (left rest.entry)) }
    ensures flat { (language : Language) → result ≡ false → ¬ (IsTooDeep (symbols language (left rest.entry))) }
{
    if rest.is_short() {
        return false;
    }
    let mut slack = Slack {
        parentheses: PARENTHESIS_LIMIT,
        questions: QUESTION_LIMIT,
    };
    'tokens: while let Some(token) = rest.next() {
        let Some(behind) = slack_behind(slack, outline_symbol(token)) else {
            return true;
        };
        slack = behind;
    }
    false
}
