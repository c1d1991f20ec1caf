//! Lists of definitions.
ghost use Rattle.std.specs.Prelude.{◌≡◌, ◌++◌, ◌∷◌, ◌==◌, [], length, IfOk, OnOk, OnErr};

use crate::op::Op;
use cb_paths::NoMemory;
use std::alloc::Global;
use std::marker::Model;

/// A vector of definitions, which contracts see as the list of them.
#[derive(Drop)]
pub struct Ops {
    items: Vec<Op>,
}

impl Model for Ops {
    ghost use Rattle.std.specs.Prelude.{List};
    ghost use Rattle.cb_include.specs.declared.op.Op.{Op};

    ghost Value = { List Op };

    ghost view = { λ o. o.items.items };
}

impl Ops {
    /// No definition. It takes no memory until the first one is added.
    pub fn new(alloc: Global) -> Ops
        ensures { result ≡ [] }
    {
        Ops {
            items: Vec::new(alloc),
        }
    }

    /// Adds a definition at the end. After a refusal the list is as it was.
    pub fn push(&mut self, op: Op) -> Result<(), NoMemory>
        ensures added { OnOk result (self.new ≡ self.old ++ op ∷ []) }
        ensures kept { OnErr result (self.new ≡ self.old) }
    {
        match self.items.push(op) {
            Ok(()) => Ok(()),
            Err(_refused) => Err(NoMemory),
        }
    }

    /// The definitions in order.
    pub fn as_slice(&self) -> &[Op]
        ensures { result.now ≡ self.now }
    {
        self.items.as_slice()
    }

    /// The number of definitions.
    pub fn len(&self) -> usize
        ensures { result ≡ length self.now }
    {
        self.items.len()
    }

    /// Whether there is no definition.
    pub fn is_empty(&self) -> bool
        ensures { result ≡ (length self.now == 0) }
    {
        self.items.is_empty()
    }

    /// A second list of the same definitions.
    pub fn copy(&self, alloc: Global) -> Result<Ops, NoMemory>
        ensures { IfOk result (λ ops. ops ≡ self.now) }
    {
        let mut items = Vec::new(alloc);
        'ops: for op in self.as_slice() {
            items.push(op.copy(alloc)?)?;
        }
        Ok(Ops { items })
    }
}
