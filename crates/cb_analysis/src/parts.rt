//! The parts of a text, between its slashes.
ghost use Rattle.std.specs.Prelude.{◌≡◌, ◌∷◌, ◌==◌, [], IfSome, IfNone};
ghost use Rattle.std.specs.List.{slice_split};
ghost use Rattle.cb_analysis.specs.Fits.{is_empty};
ghost use Rattle.cb_analysis.specs.inner.Left.{left_of};

use crate::cut::cut;

/// The parts of a text that are left: a text in which they stand with a slash between two, or none where no part is
/// left.
#[derive(Clone, Copy)]
pub(crate) struct Parts<'a> {
    text: Option<&'a [u8]>,
}

impl<'a> Parts<'a> {
    /// All parts of a text. The empty text has one part, which is empty.
    pub(crate) fn of(text: &'a [u8]) -> Parts<'a>
        ensures { left_of result ≡ slice_split (λ b. b == 47) text.now }
    {
        Parts { text: Some(text) }
    }

    /// The first part and those behind it, if a part is left.
    pub(crate) fn first(self) -> Option<(&'a [u8], Parts<'a>)>
        ensures some { IfSome result (λ r. left_of self.entry ≡ r.0.now ∷ left_of r.1) }
        ensures none { IfNone result (left_of self.entry ≡ []) }
    {
        let Some(text) = self.text else {
            return None;
        };
        let (part, behind) = cut(text, b'/');
        Some((part, Parts { text: behind }))
    }

    /// Whether no part is left.
    pub(crate) fn is_empty(self) -> bool
        ensures { result ≡ is_empty (left_of self.entry) }
    {
        match self.text {
            Some(_) => false,
            None => true,
        }
    }
}
