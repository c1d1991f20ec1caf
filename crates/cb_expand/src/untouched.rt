//! Tokens among which nothing is to be replaced.
ghost use Rattle.std.specs.Prelude.{◌≡◌, IsTrue};
ghost use Rattle.cb_expand.specs.Untouched.{is_untouched, are_untouched};
ghost use Rattle.cb_expand.specs.Expansion.{IsReplacement};

use crate::mode::Mode;
use cb_macro::Macros;
use cb_tokens::Token;

/// Whether a token is no name of a macro, nor `defined` in a condition.
fn stays(macros: &Macros, token: &Token, mode: Mode) -> bool
    ensures { result ≡ is_untouched macros.now mode token.now }
{
    if !token.is_identifier() {
        return true;
    }
    let name = token.text.as_slice();
    if macros.place_of(name).is_some() {
        return false;
    }
    match mode {
        Mode::Plain => true,
        Mode::Condition => name != b"defined".as_slice(),
    }
}

/// Whether each token is no name of a macro, nor `defined` in a condition.
fn all_stay(macros: &Macros, tokens: &[Token], mode: Mode) -> bool
    ensures { result ≡ are_untouched macros.now mode tokens.now }
{
    tokens.iter().all(|token| stays(macros, token, mode))
}

/// Whether no token is the name of a macro, nor `defined` in a condition: then `expand` answers the same tokens. It takes
/// no memory, and looks each name up once.
pub fn is_untouched(macros: &Macros, tokens: &[Token], mode: Mode) -> bool
    ensures untouched { result ≡ are_untouched macros.now mode tokens.now }
    ensures replacement { IsTrue result → IsReplacement macros.now mode tokens.now tokens.now }
{
    all_stay(macros, tokens, mode)
}
