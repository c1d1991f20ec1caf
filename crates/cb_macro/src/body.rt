//! A macro: its definition, and what replacement needs of it.
ghost use Rattle.std.specs.Prelude.{◌≡◌, ◌<◌, ◌↔◌, length, IsTrue, IfOk};
ghost use Rattle.cb_macro.specs.Definitions.{Definition, all_parameters};
ghost use Rattle.cb_macro.specs.Parts.{parts, is_shown, is_raw};

use crate::item::read_parts;
use crate::names::Names;
use crate::parameters::Parameters;
use crate::same::{same_names, same_tokens};
use crate::uses::{Use, read_uses};
use cb_paste::Part;
use cb_paths::{Bytes, NoMemory};
use cb_tokens::Token;
use std::alloc::Global;
use std::marker::Model;

/// What a macro is defined as. Contracts see the definition: whether it is function-like, the names of its parameters,
/// whether `...` stands behind them, and the replacement list. What replacement reads stands first and side by side: a whole run
/// over 60,000 macros takes 3 % less time so (`bench/passes --shape macros`).
#[derive(Drop)]
pub struct Macro {
    is_function: bool,
    is_variadic: bool,
    parts: Vec<Part>,
    uses: Vec<Use>,
    parameters: Vec<Bytes>,
    replacement: Vec<Token>,
}

impl Model for Macro {
    ghost use Rattle.cb_macro.specs.Definitions.{Definition};

    ghost Value = { Definition };

    ghost use Rattle.cb_macro.specs.inner.Kept.{AreKeptOf};

    ghost view = { λ m. record { is_function = m.is_function; parameters = m.parameters.items; is_variadic = m.is_variadic; replacement = m.replacement.items } };

    ghost invariant = { λ m. AreKeptOf (record { is_function = m.is_function; parameters = m.parameters.items; is_variadic = m.is_variadic; replacement = m.replacement.items }) m.parts.items m.uses.items };
}

impl Macro {
    /// The macro of a definition, of which these are the names of all parameters.
    pub(crate) fn of(
        alloc: Global,
        is_function: bool,
        parameters: Parameters,
        names: &Names,
        replacement: Vec<Token>,
    ) -> Result<Macro, NoMemory>
        requires { names.now ≡ all_parameters (record { is_function = is_function; parameters = parameters.names.items; is_variadic = parameters.is_variadic; replacement = replacement.items }) }
        ensures { IfOk result (λ m. m ≡ record { is_function = is_function; parameters = parameters.names.items; is_variadic = parameters.is_variadic; replacement = replacement.items }) }
    {
        let parts = read_parts(alloc, is_function, names, &replacement)?;
        let uses = read_uses(alloc, names.len(), &parts)?;
        Ok(Macro {
            is_function,
            parameters: parameters.names,
            is_variadic: parameters.is_variadic,
            replacement,
            parts,
            uses,
        })
    }

    /// Whether it is function-like.
    pub fn is_function(&self) -> bool
        ensures { result ≡ self.now.is_function }
    {
        self.is_function
    }

    /// Whether `...` stands behind its parameters.
    pub fn is_variadic(&self) -> bool
        ensures { result ≡ self.now.is_variadic }
    {
        self.is_variadic
    }

    /// The number of its parameters, with `__VA_ARGS__` as one more where `...` stands behind them.
    pub fn parameter_count(&self) -> usize
        ensures { result ≡ length (all_parameters self.now) }
    {
        self.uses.len()
    }

    /// The parts of its replacement list.
    pub fn parts(&self) -> &[Part]
        ensures { result.now ≡ parts self.now }
    {
        self.parts.as_slice()
    }

    /// Whether the parameter in this place, from 0, stands somewhere outside `#` and `##`, so that its argument is
    /// replaced first.
    pub fn is_shown(&self, place: usize) -> bool
        requires { place < length (all_parameters self.now) }
        ensures { result ≡ is_shown place (parts self.now) }
    {
        self.uses[place].is_shown
    }

    /// Whether the parameter in this place, from 0, stands somewhere beside `#` or `##`, so that its argument is
    /// wanted as it is written.
    pub fn is_raw(&self, place: usize) -> bool
        requires { place < length (all_parameters self.now) }
        ensures { result ≡ is_raw place (parts self.now) }
    {
        self.uses[place].is_raw
    }

    /// Whether another macro has the same definition. White space between the tokens of the replacement list counts,
    /// and that before its first token does not. It takes no memory.
    pub fn is_same(&self, other: &Macro) -> bool
        ensures { IsTrue result ↔ (self.now ≡ other.now) }
    {
        self.is_function == other.is_function
            && self.is_variadic == other.is_variadic
            && same_names(&self.parameters, &other.parameters)
            && same_tokens(&self.replacement, &other.replacement)
    }
}
