//! Laws of conditions.
ghost use Rattle.std.specs.Prelude.{◌≡◌, ◌⊎◌, ℕ, Bool, List, Result};
ghost use Rattle.cb_paths.specs.declared.language.Language.{Language as Tongue};
ghost use Rattle.cb_tokens.specs.declared.token.Token.{Token};
ghost use Rattle.cb_cond.specs.declared.bad_condition.BadCondition.{BadCondition};
ghost use Rattle.cb_cond.specs.Integers.{IsInteger, integer, number};
ghost use Rattle.cb_cond.specs.Grammar.{Expression, IsCondition};
ghost use Rattle.cb_cond.specs.Symbols.{symbols};
ghost use Rattle.cb_cond.specs.Faults.{IsAnswer};
ghost use Rattle.cb_cond.specs.declared.symbol.Symbol.TheVariants as Symbol;

/// A condition has at most one syntax tree, and at most one answer. Each integer of the grammar is read with its value, and nothing
/// else is read as one.
#[tactic(auto, using(crate::proofs::Unique::exact))]
pub fn one_condition()
    ensures expression { (language : Tongue) (tokens : List Token) (a b : Expression)
        → IsCondition (symbols language tokens) a → IsCondition (symbols language tokens) b → a ≡ b }
    ensures answer { (language : Tongue) (tokens : List Token) (a b : Result Bool BadCondition)
        → IsAnswer (symbols language tokens) a → IsAnswer (symbols language tokens) b → a ≡ b }
    ensures each_integer { (text : List ℕ) (n : ℕ) (unsigned : Bool)
        → IsInteger text n unsigned → integer text ≡ number n unsigned }
    ensures only_integers { (text : List ℕ)
        → (integer text ≡ Symbol.Stray) ⊎ ((n : ℕ) × (unsigned : Bool) × IsInteger text n unsigned) }
{}
