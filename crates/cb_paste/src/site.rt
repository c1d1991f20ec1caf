//! Where a macro is replaced.

/// What the place where a macro is replaced gives to the tokens that are put in there.
#[derive(Clone, Copy, Debug, PartialEq, Eq)]
pub struct Site {
    /// Whether white space stands before the macro's name: the first token put in takes it.
    pub spaced: bool,
    /// The hide set that joins that of each token put in.
    pub hides: u32,
    /// How many tokens may be put in.
    pub room: usize,
}
