//! The words of the `-D` options.
ghost use Rattle.std.specs.Prelude.{◌≡◌};

use cb_paths::Bytes;
use std::marker::Model;

/// The words of the `-D` options of a command line, in their order. Contracts see them as the list of them.
#[derive(Drop)]
pub struct DefinitionWords {
    words: Vec<Bytes>,
}

impl Model for DefinitionWords {
    ghost use Rattle.std.specs.Prelude.{List, ℕ};

    ghost Value = { List (List ℕ) };

    ghost view = { λ d. d.words.items };
}

impl DefinitionWords {
    /// The words of a vector.
    pub(crate) fn from_vec(words: Vec<Bytes>) -> DefinitionWords
        ensures { result ≡ words.items }
    {
        DefinitionWords { words }
    }

    /// The words in order.
    pub fn as_slice(&self) -> &[Bytes]
        ensures { result.now ≡ self.now }
    {
        self.words.as_slice()
    }

    /// The words as the vector that they lie in. It takes no memory.
    pub fn into_vec(self) -> Vec<Bytes>
        ensures { result.items ≡ self }
    {
        self.words
    }
}
