//! A list of fractions.
ghost use Rattle.std.specs.Prelude.{◌≡◌, [], ◌∷◌, ◌++◌, OnOk, OnErr};

use crate::fraction::Fraction;
use cb_paths::NoMemory;
use std::alloc::Global;
use std::marker::Model;

/// A vector of fractions, which contracts see as the list of them.
#[derive(Drop)]
pub struct Fractions {
    items: Vec<Fraction>,
}

impl Model for Fractions {
    ghost use Rattle.std.specs.Prelude.{List};
    ghost use Rattle.cb_diverge.specs.declared.fraction.Fraction.{Fraction};

    ghost Value = { List Fraction };

    ghost view = { λ f. f.items.items };
}

impl Fractions {
    /// No fraction.
    pub fn new(alloc: Global) -> Fractions
        ensures { result ≡ [] }
    {
        Fractions {
            items: Vec::new(alloc),
        }
    }

    /// The fractions of a vector, which is taken as it is.
    pub fn from_vec(items: Vec<Fraction>) -> Fractions
        ensures { result ≡ items.items }
    {
        Fractions { items }
    }

    /// Adds a fraction at the end. Its one error is out of memory, after which nothing has changed.
    pub fn push(&mut self, fraction: Fraction) -> Result<(), NoMemory>
        ensures ok { OnOk result (self.new ≡ self.old ++ fraction ∷ []) }
        ensures unchanged { OnErr result (self.new ≡ self.old) }
    {
        self.items.push(fraction)?;
        Ok(())
    }

    /// The fractions in order.
    pub fn as_slice(&self) -> &[Fraction]
        ensures { result.now ≡ self.now }
    {
        self.items.as_slice()
    }

    /// The vector of the fractions.
    pub fn into_vec(self) -> Vec<Fraction>
        ensures { result.items ≡ self }
    {
        self.items
    }
}
