//! Words that are put together from pieces.
ghost use Rattle.std.specs.Prelude.{◌≡◌, ◌∷◌, ◌++◌, [], List, ℕ, Option, Some, None, IfOk, OnOk};
ghost use Rattle.cb_compdb.specs.inner.Steps.{start, words_behind};

use cb_paths::{Bytes, NoMemory, Texts};
use std::alloc::Global;
use std::marker::Model;

/// The words that have ended, and the word that has begun, if one has.
#[derive(Drop)]
pub(crate) struct Splitter {
    alloc: Global,
    done: Texts,
    word: Option<Vec<u8>>,
}

impl Model for Splitter {
    ghost use Rattle.std.specs.Prelude.{option_map};
    ghost use Rattle.cb_compdb.specs.inner.Steps.{Progress};

    ghost Value = { Progress };

    ghost view = { λ s. record { done = s.done; word = option_map (λ w. w.items) s.word } };
}

impl Splitter {
    /// No word.
    pub(crate) fn new(alloc: Global) -> Splitter
        ensures { result ≡ start }
    {
        Splitter {
            alloc,
            done: Texts::new(alloc),
            word: None,
        }
    }

    /// Adds bytes to the word that has begun, or begins one.
    pub(crate) fn add(&mut self, bytes: &[u8]) -> Result<(), NoMemory>
        ensures { OnOk result
            ((gives : List (Option (List ℕ)))
            → words_behind self.old (Some bytes.now ∷ gives) ≡ words_behind self.new gives) }
    {
        match &mut self.word {
            Some(word) => word.extend_from_slice(bytes)?,
            None => self.word = Some(Vec::from_slice(self.alloc, bytes)?),
        }
        Ok(())
    }

    /// Ends the word that has begun, if one has.
    pub(crate) fn end(&mut self) -> Result<(), NoMemory>
        ensures ends { OnOk result
            ((gives : List (Option (List ℕ))) → words_behind self.old (None ∷ gives) ≡ words_behind self.new gives) }
        ensures none { OnOk result (self.new.word ≡ None) }
    {
        match self.word.take() {
            Some(word) => self.done.push(Bytes::from_vec(self.alloc, word)?)?,
            None => {}
        }
        Ok(())
    }

    /// The words, where nothing comes behind.
    pub(crate) fn into_words(mut self) -> Result<Texts, NoMemory>
        ensures { IfOk result (λ words. words ≡ words_behind self []) }
    {
        self.end()?;
        Ok(self.done)
    }
}
