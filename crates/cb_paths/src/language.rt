//! The languages of the sources that are preprocessed.

/// The language in which a source is read.
#[derive(Clone, Copy, Debug, PartialEq, Eq)]
pub enum Language {
    /// C, by ISO/IEC 9899:2011.
    C,
    /// C++, which reads some identifiers of conditions as operators.
    Cxx,
}
