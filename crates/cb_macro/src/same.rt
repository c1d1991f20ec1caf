//! Whether lists of names and of tokens are the same.
ghost use Rattle.std.specs.Prelude.{◌≡◌, ◌↔◌, IsTrue};

use crate::signs::same_bytes;
use cb_paths::Bytes;
use cb_tokens::Token;

/// Whether two lists have the same names.
pub(crate) fn same_names(names: &[Bytes], others: &[Bytes]) -> bool
    ensures { IsTrue result ↔ (names.now ≡ others.now) }
{
    if names.len() != others.len() {
        return false;
    }
    for at in 0..names.len() {
        if !same_bytes(names[at].as_slice(), others[at].as_slice()) {
            return false;
        }
    }
    true
}

/// Whether two lists have the same tokens, with white space between the same ones.
pub(crate) fn same_tokens(tokens: &[Token], others: &[Token]) -> bool
    ensures { IsTrue result ↔ (tokens.now ≡ others.now) }
{
    if tokens.len() != others.len() {
        return false;
    }
    for at in 0..tokens.len() {
        if !tokens[at].is_same(&others[at]) {
            return false;
        }
    }
    true
}
