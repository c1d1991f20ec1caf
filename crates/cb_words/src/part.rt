//! What a word behind a command is.
ghost use Rattle.std.specs.Prelude.{◌≡◌};
ghost use Rattle.std.specs.Option.{option_copied};
ghost use Rattle.cb_words.specs.inner.Forms.{part_of};

use crate::option_name::{OptionName, is_same};
use std::marker::Model;

/// What a word behind a command is.
#[derive(Clone, Copy)]
pub(crate) enum Form<'a> {
    /// An option with its value.
    Given(OptionName, &'a [u8]),
    /// An option that is the last word, so that it has no value.
    Lone(OptionName),
    /// A word that begins as an option does and is none of the command's.
    Stray,
    /// A word that belongs to no option.
    Plain(&'a [u8]),
}

/// A part of the words behind a command. Contracts see it as what it is.
#[derive(Drop)]
pub(crate) struct Part<'a> {
    pub(crate) form: Form<'a>,
}

impl<'a> Model for Part<'a> {
    ghost use Rattle.cb_words.specs.Parts as parts;

    ghost Value = { parts.Part };

    ghost use Rattle.cb_words.specs.inner.Forms.{part_of};

    ghost view = { λ p. part_of p.form };
}

impl<'a> Part<'a> {
    ghost use Rattle.cb_words.specs.Parts.{is_of};
    ghost use Rattle.cb_words.specs.Values.{value_of, plain_word};

    /// The part of this form.
    pub(crate) fn new(form: Form<'a>) -> Part<'a>
        ensures { result ≡ part_of form.entry }
    {
        Part { form }
    }

    /// Whether it is of an option.
    pub(crate) fn is_of(&self, option: OptionName) -> bool
        ensures { result ≡ is_of option self.now }
    {
        match self.form {
            Form::Given(other, _) => is_same(option, other),
            Form::Lone(other) => is_same(option, other),
            Form::Stray => false,
            Form::Plain(_) => false,
        }
    }

    /// The value that it gives to an option, if it gives it one.
    pub(crate) fn value_of(&self, option: OptionName) -> Option<&'a [u8]>
        ensures { option_copied result ≡ value_of option self.now }
    {
        match self.form {
            Form::Given(other, value) => {
                if is_same(option, other) {
                    Some(value)
                } else {
                    None
                }
            }
            _ => None,
        }
    }

    /// The word that it is, if it is of no option.
    pub(crate) fn plain_word(&self) -> Option<&'a [u8]>
        ensures { option_copied result ≡ plain_word self.now }
    {
        match self.form {
            Form::Plain(word) => Some(word),
            _ => None,
        }
    }
}
