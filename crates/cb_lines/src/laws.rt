//! Laws of lines and of sets of them.
ghost use Rattle.std.specs.Prelude.{ℕ, ◌≡◌, ◌<◌, ◌==◌, ◌||◌, List, length};
ghost use Rattle.std.specs.List.Sorted.{IsStrictlyIncreasing};
ghost use Rattle.cb_lines.specs.declared.mark.Mark.{Mark};
ghost use Rattle.cb_lines.specs.Lines.{with_line, with_lines, has_line, union_of, StandOn};

/// Marks on one line, if there are any, add this line.
pub fn one_line()
    ensures { (line : ℕ) (ms : List Mark) (set : List ℕ) → 0 < length ms → StandOn line ms → with_lines ms set
        ≡ with_line line set }
{}

/// What rising lists hold after a number more and after those of another list, which still rise; and that rising lists
/// which hold the same numbers are one.
pub fn rising_sets()
    ensures same { (a b : List ℕ) → IsStrictlyIncreasing a → IsStrictlyIncreasing b → ((line : ℕ) → has_line a line
        ≡ has_line b line) → a ≡ b }
    ensures with_line { (added : ℕ) (set : List ℕ) (line : ℕ) → has_line (with_line added set) line
        ≡ ((added == line) || has_line set line) }
    ensures with_line_rises { (added : ℕ) (set : List ℕ) → IsStrictlyIncreasing set
        → IsStrictlyIncreasing (with_line added set) }
    ensures union_of { (a b : List ℕ) (line : ℕ) → has_line (union_of a b) line ≡ (has_line a line || has_line b line) }
    ensures union_of_rises { (a b : List ℕ) → IsStrictlyIncreasing b → IsStrictlyIncreasing (union_of a b) }
{}
