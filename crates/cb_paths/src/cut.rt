//! A text is cut at a byte.
ghost use Rattle.std.specs.Prelude.{◌≡◌, ◌==◌, ◌∷◌, ◌++◌, not, true, IfSome, IfNone};
ghost use Rattle.std.specs.List.{list_all};

use memchr::memchr;

/// What stands before the first such byte, and what stands behind it, if there is one.
pub(crate) fn cut(text: &[u8], byte: u8) -> (&[u8], Option<&[u8]>)
    ensures front { list_all (λ b. not (b == byte)) result.0.now ≡ true }
    ensures found { IfSome result.1 (λ rest. text.now ≡ result.0.now ++ byte ∷ rest.now) }
    ensures whole { IfNone result.1 (text.now ≡ result.0.now) }
{
    match memchr(byte, text) {
        Some(at) => (&text[..at], Some(&text[at + 1..])),
        None => (text, None),
    }
}
