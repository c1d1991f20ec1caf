//! A list of merges.
ghost use Rattle.std.specs.Prelude.{◌≡◌};

use crate::merge::Merge;
use std::marker::Model;

/// A vector of merges in the order in which they happen, which contracts see as the list of them.
#[derive(Drop)]
pub struct Merges {
    items: Vec<Merge>,
}

impl Model for Merges {
    ghost use Rattle.std.specs.Prelude.{List};
    ghost use Rattle.cb_cluster.specs.declared.merge.Merge.{Merge};

    ghost Value = { List Merge };

    ghost view = { λ m. m.items.items };
}

impl Merges {
    /// The merges of a vector, which is taken as it is.
    pub fn from_vec(items: Vec<Merge>) -> Merges
        ensures { result ≡ items.items }
    {
        Merges { items }
    }

    /// The merges in order.
    pub fn as_slice(&self) -> &[Merge]
        ensures { result.now ≡ self.now }
    {
        self.items.as_slice()
    }

    /// The vector of the merges.
    pub fn into_vec(self) -> Vec<Merge>
        ensures { result.items ≡ self }
    {
        self.items
    }
}
