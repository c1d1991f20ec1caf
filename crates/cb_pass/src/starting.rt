//! What a pass begins with.
ghost use Rattle.std.specs.Prelude.{◌≡◌, true, ◌∷◌, [], Some, IfOk, OnOk};
ghost use Rattle.cb_tokens.specs.declared.token.TokenKind.TheVariants as tokens;
ghost use Rattle.cb_macro.specs.Definitions.{defines};
ghost use Rattle.cb_macro.specs.Maps.{with_definition};
ghost use Rattle.cb_pass.specs.Passes.{first_macros, number_macro};

use cb_macro::{DefineFault, Macros, read_define};
use cb_paths::{Bytes, Language, NoMemory};
use cb_tokens::{Token, TokenKind};
use std::alloc::Global;

/// A token with white space before it.
fn token(alloc: Global, kind: TokenKind, text: &[u8]) -> Result<Token, NoMemory>
    ensures { IfOk result (λ t. t ≡ record { kind = kind; spaced = true; text = text.now }) }
{
    let text = Bytes::from_slice(alloc, text)?;
    Ok(Token {
        kind,
        spaced: true,
        text,
    })
}

/// Defines a name as a number.
fn define_number(
    alloc: Global,
    macros: &mut Macros,
    name: &[u8],
    number: &[u8],
) -> Result<(), NoMemory>
    requires { defines (record { kind = tokens.Identifier; spaced = true; text = name.now }
        ∷ record { kind = tokens.Number; spaced = true; text = number.now } ∷ [])
        ≡ Some (name.now, number_macro number.now) }
    ensures { OnOk result (macros.new ≡ with_definition name.now (number_macro number.now) macros.old) }
{
    let pair = [
        token(alloc, TokenKind::Identifier, name)?,
        token(alloc, TokenKind::Number, number)?,
    ];
    match read_define(alloc, &pair) {
        Ok(defined) => {
            macros.define(alloc, defined)?;
            Ok(())
        }
        Err(DefineFault::Bad) => unreachable!(),
        Err(DefineFault::NoMemory) => Err(NoMemory),
    }
}

/// The macros that are defined at the start: for C those of 2011, for C++ that of 2017 (ISO/IEC 9899:2011, 6.10.8.1;
/// ISO/IEC 14882:2017, 19.8).
pub(crate) fn first_macros(alloc: Global, language: Language) -> Result<Macros, NoMemory>
    ensures { IfOk result (λ macros. macros ≡ first_macros language) }
{
    let mut macros = Macros::new(alloc);
    match language {
        Language::C => {
            define_number(alloc, &mut macros, b"__STDC__", b"1")?;
            define_number(alloc, &mut macros, b"__STDC_VERSION__", b"201112L")?;
        }
        Language::Cxx => define_number(alloc, &mut macros, b"__cplusplus", b"201703L")?,
    }
    Ok(macros)
}
