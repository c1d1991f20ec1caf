//! Laws of the cut.
ghost use Rattle.std.specs.Prelude.{ℕ, ◌≡◌, ◌⊎◌, ◌<◌, List, length};
ghost use Rattle.cb_lines.specs.declared.mark.Mark.{Mark};
ghost use Rattle.cb_tokens.specs.declared.first.First.{First};
ghost use Rattle.cb_tokens.specs.Cut.{StandsFirst, Piece, IsCut, HasOpenComment};
ghost use Rattle.cb_tokens.specs.Logical.{Line, AreLinesOf};

/// There is one cut of marks at most, and none where a comment is open.
pub fn one_cut()
    ensures first { (bytes : List ℕ) (a b : First) → StandsFirst bytes a → StandsFirst bytes b → a ≡ b }
    ensures cut { (ms : List Mark) (ps qs : List Piece) → IsCut ms ps → IsCut ms qs → ps ≡ qs }
    ensures lines { (ms : List Mark) (a b : List Line) → AreLinesOf ms a → AreLinesOf ms b → a ≡ b }
    ensures no_cut { (ms : List Mark) (ps : List Piece) (line : ℕ) → IsCut ms ps → HasOpenComment ms line → ⊥ }
    ensures line { (ms : List Mark) (a b : ℕ) → HasOpenComment ms a → HasOpenComment ms b → a ≡ b }
{}

/// Something stands at the front of bytes, if there are any; and marks have a cut, or a comment is open in them.
pub fn some_cut()
    ensures first { (bytes : List ℕ) → 0 < length bytes → (first : First) × StandsFirst bytes first }
    ensures cut { (ms : List Mark) → ((ps : List Piece) × IsCut ms ps) ⊎ ((line : ℕ) × HasOpenComment ms line) }
{}
