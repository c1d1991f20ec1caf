//! The tokens after `undef`.
ghost use Rattle.std.specs.Prelude.{◌≡◌};
ghost use Rattle.std.specs.Option.{option_copied};
ghost use Rattle.cb_macro.specs.Definitions.{undefines};

use crate::signs::may_name;
use cb_tokens::Token;

/// The name that the tokens after `undef` undefine. None comes exactly where the name is missing, or is `defined` or
/// `__VA_ARGS__`; tokens behind it do not matter. It takes no memory.
#[tactic(auto, unfolding(crate::specs::Definitions::undefines))]
pub fn undef_name(tokens: &[Token]) -> Option<&[u8]>
    ensures { option_copied result ≡ undefines tokens.now }
{
    match tokens {
        [] => None,
        [name, ..] => {
            if may_name(name) {
                Some(name.text.as_slice())
            } else {
                None
            }
        }
    }
}
