//! Laws of the words of a compiler's command.
ghost use Rattle.std.specs.Prelude.{◌≡◌, ℕ, List, Option};
ghost use Rattle.cb_macro.specs.Definitions.{Definition};
ghost use Rattle.cb_macro.specs.Words.{WordDefines, WordUndefines};

use cb_tokens::one_cut;

/// A word after `-D` is read in one way, and so is a word after `-U`.
pub fn one_word()
    ensures defined { (word : List ℕ) (a b : Option (List ℕ × Definition)) → WordDefines word a → WordDefines word b → a ≡ b }
    ensures undefined { (word : List ℕ) (a b : Option (List ℕ)) → WordUndefines word a → WordUndefines word b → a ≡ b }
{
    one_cut();
}
