//! Laws of expansion.
ghost use Rattle.std.specs.Prelude.{◌≡◌, ℕ, List};
ghost use Rattle.cb_tokens.specs.declared.token.Token.{Token};
ghost use Rattle.cb_expand.specs.declared.mode.Mode.{Mode as Tongue};
ghost use Rattle.cb_expand.specs.Heads.{Named};
ghost use Rattle.cb_expand.specs.Expansion.{IsExpansion};

/// Tokens expand to one list at most, at one cost.
pub fn one_expansion()
    ensures { (ms : Named) (mode : Tongue) (tokens a b : List Token) (m n : ℕ)
        → IsExpansion ms mode tokens a m → IsExpansion ms mode tokens b n → (a ≡ b) × (m ≡ n) }
{}
