//! Lists of definitions and of folders are compared and hashed item by item.
ghost use Rattle.std.specs.Prelude.{bytes_eq};
ghost use Rattle.std.specs.Cmp.{partial_equiv_from_equiv};
ghost use Rattle.std.specs.Cmp.Lexicographic.{pointwise, bytes_decides, lists_equiv, nat_list_eq_equiv};
ghost use Rattle.std.specs.Hash as fed;
ghost use Rattle.cb_include.specs.contracts.op.OpEq.TheImpl.Laws.{laws-law as op_laws};
ghost use Rattle.cb_include.specs.contracts.op.OpHash.TheImpl.Laws.{respects_eq-law as op_respects_eq};

use crate::dir_list::Dirs;
use crate::op::Op;
use crate::op_list::Ops;
use std::hash::{Hash, Hasher};

impl PartialEq for Ops {
    ghost eq = { pointwise ⟦<Op as PartialEq>⟧.eq };

    ghost laws = { partial_equiv_from_equiv (lists_equiv op_laws) };

    fn eq(&self, other: &Ops) -> bool {
        self.as_slice() == other.as_slice()
    }
}

impl Eq for Ops {
    ghost laws = { lists_equiv op_laws };
}

impl Hash for Ops {
    ghost hash_input = { fed.slice ⟦<Op as Hash>⟧.hash_input };

    ghost respects_eq = { (fed.items_Alike (record { fed = op_respects_eq })).fed };

    fn hash<H: Hasher>(&self, state: &mut H) {
        self.as_slice().hash(state);
    }
}

impl PartialEq for Dirs {
    ghost eq = { pointwise bytes_eq };

    ghost laws = { partial_equiv_from_equiv (lists_equiv nat_list_eq_equiv) };

    fn eq(&self, other: &Dirs) -> bool {
        self.as_slice() == other.as_slice()
    }
}

impl Eq for Dirs {
    ghost laws = { lists_equiv nat_list_eq_equiv };
}

impl Hash for Dirs {
    ghost hash_input = { fed.slice (fed.slice fed.u8) };

    ghost respects_eq = { (fed.items_Alike (fed.same_Alike (fed.slice fed.u8) bytes_decides)).fed };

    fn hash<H: Hasher>(&self, state: &mut H) {
        self.as_slice().hash(state);
    }
}
