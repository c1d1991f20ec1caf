//! What may be told when the pass of a command begins.

/// What may be told of each command before its pass begins; it can be shared by threads.
pub trait Gate: Sync {
    /// The pass of the command of this number begins.
    fn enter(&self, command: u32);
}

/// A gate that does nothing.
#[derive(Clone, Copy, Debug, PartialEq, Eq)]
pub struct NoGate;

impl Gate for NoGate {
    fn enter(&self, _command: u32) {}
}
