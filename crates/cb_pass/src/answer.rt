//! Whether tokens hold as a condition, and which header they name.
ghost use Rattle.std.specs.Prelude.{◌≡◌, IfOk, Some};
ghost use Rattle.cb_cond.specs.Symbols.{symbols};
ghost use Rattle.cb_pass.specs.Answers.{Truth, Named, IsAnswered, IsReplaced, holds_or_not, named_or_not};
ghost use Rattle.cb_pass.specs.Headers.{header_of};
ghost use Rattle.cb_expand.specs.declared.mode.Mode.TheVariants as mode;
ghost use Rattle.cb_pass.specs.inner.Said.{said};

use crate::header::header_of;
use cb_cond::{BadCondition, value};
use cb_expand::{ExpandFault, Mode, expand, is_untouched};
use cb_include::Header;
use cb_macro::Macros;
use cb_paths::{Language, NoMemory};
use cb_tokens::Token;
use std::alloc::Global;

/// What the macros of a pass say to a directive.
#[derive(Drop)]
pub(crate) enum Reply {
    /// Its condition holds, or does not.
    Holds(bool),
    /// Its condition has a fault.
    Faulty(BadCondition),
    /// It names a header.
    Names(Header),
    /// It names no header.
    Nameless,
    /// Replacement would cost too much.
    Long,
}

/// The reply by the value of a condition.
fn holds_or_not(value: Result<bool, BadCondition>) -> Reply
    ensures { said result ≡ holds_or_not value }
{
    match value {
        Ok(holds) => Reply::Holds(holds),
        Err(bad) => Reply::Faulty(bad),
    }
}

/// Whether tokens hold as a condition. They are read in place where none of them is to be replaced.
pub(crate) fn truth(
    alloc: Global,
    macros: &Macros,
    language: Language,
    tokens: &[Token],
) -> Result<Reply, NoMemory>
    ensures { IfOk result (λ reply. IsAnswered language macros.now (Truth tokens.now) (said reply)) }
{
    if is_untouched(macros, tokens, Mode::Condition) {
        return Ok(holds_or_not(value(tokens, language)));
    }
    match expand(alloc, macros, tokens, Mode::Condition) {
        Ok(out) => Ok(holds_or_not(value(out.as_slice(), language))),
        Err(ExpandFault::TooLong) => Ok(Reply::Long),
        Err(ExpandFault::NoMemory) => Err(NoMemory),
    }
}

/// The reply by the header that tokens begin with.
fn named_or_not(header: Option<Header>) -> Reply
    ensures { said result ≡ named_or_not header }
{
    match header {
        Some(header) => named(header),
        None => Reply::Nameless,
    }
}

/// The reply by a header, which names none where it is empty.
fn named(header: Header) -> Reply
    ensures { said result ≡ named_or_not (Some header) }
{
    if header.text.is_empty() {
        Reply::Nameless
    } else {
        Reply::Names(header)
    }
}

/// Which header tokens name: as they are written, else as they are replaced.
pub(crate) fn header_named(
    alloc: Global,
    macros: &Macros,
    language: Language,
    tokens: &[Token],
) -> Result<Reply, NoMemory>
    ensures { IfOk result (λ reply. IsAnswered language macros.now (Named tokens.now) (said reply)) }
{
    match header_of(alloc, tokens)? {
        Some(header) => Ok(named(header)),
        None => header_replaced(alloc, macros, tokens),
    }
}

/// Which header tokens name as they are replaced. They are read in place where none of them is.
fn header_replaced(alloc: Global, macros: &Macros, tokens: &[Token]) -> Result<Reply, NoMemory>
    ensures { IfOk result (λ reply. IsReplaced macros.now mode.Plain tokens.now
        (λ out answer. answer ≡ named_or_not (header_of out)) (said reply)) }
{
    if is_untouched(macros, tokens, Mode::Plain) {
        let header = header_of(alloc, tokens)?;
        return Ok(named_or_not(header));
    }
    match expand(alloc, macros, tokens, Mode::Plain) {
        Ok(out) => {
            let header = header_of(alloc, out.as_slice())?;
            Ok(named_or_not(header))
        }
        Err(ExpandFault::TooLong) => Ok(Reply::Long),
        Err(ExpandFault::NoMemory) => Err(NoMemory),
    }
}
