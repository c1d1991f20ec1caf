//! The steps of a cascade.
ghost use Rattle.std.specs.Prelude.{◌≡◌, ◌++◌, ◌∷◌, ◌==◌, [], length, OnOk, OnErr};

use crate::step::Step;
use cb_paths::NoMemory;
use std::alloc::Global;
use std::marker::Model;

/// The steps of a cascade, which contracts see as the list of them.
#[derive(Drop)]
pub struct Steps {
    items: Vec<Step>,
}

impl Model for Steps {
    ghost use Rattle.std.specs.Prelude.{List};
    ghost use Rattle.cb_measure.specs.declared.step.Step.{Step};

    ghost Value = { List Step };

    ghost view = { λ s. s.items.items };
}

impl Steps {
    /// No step. It takes no memory until the first one is added.
    pub(crate) fn new(alloc: Global) -> Steps
        ensures { result ≡ [] }
    {
        Steps {
            items: Vec::new(alloc),
        }
    }

    /// Adds a step at the end.
    pub(crate) fn push(&mut self, step: Step) -> Result<(), NoMemory>
        ensures { OnOk result (self.new ≡ self.old ++ step ∷ []) }
    {
        self.items.push(step)?;
        Ok(())
    }

    /// The steps in order.
    pub fn as_slice(&self) -> &[Step]
        ensures { result.now ≡ self.now }
    {
        self.items.as_slice()
    }

    /// The number of steps.
    pub fn len(&self) -> usize
        ensures { result ≡ length self.now }
    {
        self.items.len()
    }

    /// Whether there is no step.
    pub fn is_empty(&self) -> bool
        ensures { result ≡ (length self.now == 0) }
    {
        self.items.is_empty()
    }
}
