//! Lists of platforms and of classes.
ghost use Rattle.std.specs.Prelude.{◌≡◌};

use std::marker::Model;

/// A vector of platform numbers, which contracts see as the list of them.
#[derive(Drop)]
pub struct Members {
    items: Vec<u32>,
}

impl Model for Members {
    ghost use Rattle.std.specs.Prelude.{List, ℕ};

    ghost Value = { List ℕ };

    ghost view = { λ m. m.items.items };
}

impl Members {
    /// The platforms of a vector, which is taken as it is.
    pub fn from_vec(items: Vec<u32>) -> Members
        ensures { result ≡ items.items }
    {
        Members { items }
    }

    /// The platforms in order.
    pub fn as_slice(&self) -> &[u32]
        ensures { result.now ≡ self.now }
    {
        self.items.as_slice()
    }

    /// The vector of the platforms.
    pub fn into_vec(self) -> Vec<u32>
        ensures { result.items ≡ self }
    {
        self.items
    }
}

/// A vector of classes of platforms, which contracts see as the list of them.
#[derive(Drop)]
pub struct Classes {
    items: Vec<Members>,
}

impl Model for Classes {
    ghost use Rattle.std.specs.Prelude.{List, ℕ};

    ghost Value = { List (List ℕ) };

    ghost view = { λ c. c.items.items };
}

impl Classes {
    /// The classes of a vector, which is taken as it is.
    pub fn from_vec(items: Vec<Members>) -> Classes
        ensures { result ≡ items.items }
    {
        Classes { items }
    }

    /// The classes in order.
    pub fn as_slice(&self) -> &[Members]
        ensures { result.now ≡ self.now }
    {
        self.items.as_slice()
    }

    /// The vector of the classes.
    pub fn into_vec(self) -> Vec<Members>
        ensures { result.items ≡ self }
    {
        self.items
    }
}
