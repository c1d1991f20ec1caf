//! How much there would be.
ghost use Rattle.std.specs.Prelude.{◌≡◌, ◌≤◌, [], ◌∷◌, length, IfNone};
ghost use Rattle.cb_outside.specs.Tables.{Texts};
ghost use Rattle.cb_inputs.specs.Texts.{bytes_in, first_over, most};

use crate::refused::LimitName;

/// How many texts there would be, and how many bytes.
#[derive(Clone, Copy)]
pub(crate) struct Sizes {
    /// The number of texts.
    pub(crate) count: u64,
    /// The bytes of all texts together.
    pub(crate) bytes: u64,
}

impl Sizes {
    /// The first limit that would be passed, with how much there would be.
    pub(crate) fn first_over(&self, count: LimitName, bytes: LimitName) -> Option<(LimitName, u64)>
        ensures first { (texts : Texts) → self.now.count ≡ length texts → self.now.bytes ≡ bytes_in texts
            → result ≡ first_over ((count, length texts) ∷ (bytes, bytes_in texts) ∷ []) }
        ensures within { IfNone result ((self.now.count ≤ most count) × (self.now.bytes ≤ most bytes)) }
    {
        if self.count > count.most() {
            return Some((count, self.count));
        }
        if self.bytes > bytes.most() {
            return Some((bytes, self.bytes));
        }
        None
    }
}
