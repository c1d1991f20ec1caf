//! A text is cut at a byte.
ghost use Rattle.std.specs.Prelude.{◌≡◌, ◌==◌, ◌∷◌, ◌++◌, true, IfSome, IfNone};
ghost use Rattle.cb_analysis.specs.inner.Fronts.{has_no};

use memchr::memchr;

/// What stands before the first such byte, and what stands behind it, if there is one.
pub(crate) fn cut(text: &[u8], byte: u8) -> (&[u8], Option<&[u8]>)
    ensures front { has_no (λ b. b == byte) result.0.now ≡ true }
    ensures found { IfSome result.1 (λ rest. text.now ≡ result.0.now ++ byte ∷ rest.now) }
    ensures whole { IfNone result.1 (text.now ≡ result.0.now) }
{
    match memchr(byte, text) {
        Some(at) => (&text[..at], Some(&text[at + 1..])),
        None => (text, None),
    }
}
