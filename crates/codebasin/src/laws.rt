//! Laws of what a run says.
ghost use Rattle.std.specs.Prelude.{◌≡◌, ◌≢◌, ℕ, List, Some};
ghost use Rattle.codebasin.specs.Run.{World, Says};

use cb_pass::one_pass;
use cb_tree::one_reading;

/// Two runs with the same arguments over the same input, where it tells its bytes and no read fails, say the same.
pub(crate) fn one_saying()
    ensures { (arguments : List (List ℕ)) (w a b : World) (bytes : List ℕ) (s r : ℕ) (t u : List ℕ)
        → w.input.bytes ≡ Some bytes → Says arguments w a s t → Says arguments w b r u → s ≢ 4 → r ≢ 4
        → (s ≡ r) × (t ≡ u) }
{
    one_pass();
    one_reading();
}
