//! Lists of texts and of line sets.
ghost use Rattle.std.specs.Prelude.{◌≡◌};

use cb_lines::Lines;
use cb_paths::Texts;
use std::marker::Model;

/// A vector of lists of texts, which contracts see as the list of them.
#[derive(Drop)]
pub struct TextLists {
    items: Vec<Texts>,
}

impl Model for TextLists {
    ghost use Rattle.std.specs.Prelude.{List, ℕ};

    ghost Value = { List (List (List ℕ)) };

    ghost view = { λ l. l.items.items };
}

impl TextLists {
    /// The lists of a vector, which is taken as it is.
    pub fn from_vec(items: Vec<Texts>) -> TextLists
        ensures { result ≡ items.items }
    {
        TextLists { items }
    }

    /// The lists in order.
    pub fn as_slice(&self) -> &[Texts]
        ensures { result.now ≡ self.now }
    {
        self.items.as_slice()
    }

    /// The vector of the lists.
    pub fn into_vec(self) -> Vec<Texts>
        ensures { result.items ≡ self }
    {
        self.items
    }
}

/// A vector of line sets, which contracts see as the list of them.
#[derive(Drop)]
pub struct LineLists {
    items: Vec<Lines>,
}

impl Model for LineLists {
    ghost use Rattle.std.specs.Prelude.{List, ℕ};

    ghost Value = { List (List ℕ) };

    ghost view = { λ l. l.items.items };
}

impl LineLists {
    /// The line sets of a vector, which is taken as it is.
    pub fn from_vec(items: Vec<Lines>) -> LineLists
        ensures { result ≡ items.items }
    {
        LineLists { items }
    }

    /// The line sets in order.
    pub fn as_slice(&self) -> &[Lines]
        ensures { result.now ≡ self.now }
    {
        self.items.as_slice()
    }

    /// The vector of the line sets.
    pub fn into_vec(self) -> Vec<Lines>
        ensures { result.items ≡ self }
    {
        self.items
    }
}
