//! Where tokens are expanded.

/// Where tokens are expanded.
#[derive(Clone, Copy, Debug, PartialEq, Eq)]
pub enum Mode {
    /// Where `defined` is a name like any other.
    Plain,
    /// In the condition of `#if` or `#elif`, where `defined` asks whether a name is defined.
    Condition,
}
