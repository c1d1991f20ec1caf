//! Where the groups of if sections end.
ghost use Rattle.std.specs.Prelude.{◌≡◌, ◌≤◌, length, map, reverse, IfOk, OnOk};
ghost use Rattle.cb_tree.specs.Groups.{kinds_of};
ghost use Rattle.cb_tree.specs.inner.Trees.{ends_from};
ghost use Rattle.cb_tree.specs.inner.Trees.{end_by, entry_of, turns_by};

use crate::nodes::Nodes;
use crate::role::{Role, find_role};
use cb_paths::NoMemory;
use std::alloc::Global;

/// Goes to a node in this role from those behind it, and answers the end of the group that it begins. The numbers of the next
/// `#elif`, `#else` or `#endif` of the sections that are open there are kept with the innermost last.
fn step_back(turns: &mut Vec<u32>, role: Role, node: u32) -> Result<Option<u32>, NoMemory>
    ensures end { IfOk result (λ end. end ≡ end_by role (reverse turns.old.items)) }
    ensures turns { OnOk result (reverse turns.new.items ≡ turns_by role node (reverse turns.old.items)) }
{
    match role {
        Role::Within => Ok(None),
        Role::Opens => Ok(turns.pop()),
        Role::Turns => {
            let end = turns.pop();
            turns.push(node)?;
            Ok(end)
        }
        Role::Closes => {
            turns.push(node)?;
            Ok(None)
        }
    }
}

/// The end of the group that each node begins, 0 where it begins none.
pub(crate) fn group_ends(alloc: Global, nodes: &Nodes) -> Result<Vec<u32>, NoMemory>
    requires { length nodes.now ≤ 4194304 }
    ensures { IfOk result (λ ends. ends.items ≡ map entry_of (ends_from 1 (kinds_of nodes.now))) }
{
    let mut turns = Vec::new(alloc);
    let mut left = nodes.len();
    let mut ends = Vec::with_capacity(alloc, left)?;
    'nodes: while left > 0 {
        let node = left as u32;
        left -= 1;
        let end = step_back(&mut turns, find_role(nodes.kind(left)), node)?;
        ends.push(end.unwrap_or(0))?;
    }
    ends.reverse();
    Ok(ends)
}
