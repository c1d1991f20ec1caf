//! From a source to its tree.
ghost use Rattle.std.specs.Prelude.{List, ◌≡◌, ◌⊎◌, ◌≤◌, length, [], None, IfOk, IfErr};
ghost use Rattle.cb_tree.specs.Sound.{IsRead, Sound, Unsound};
ghost use Rattle.cb_tree.specs.Nodes.{Node, AreCounted};
ghost use Rattle.cb_tree.specs.Sections.{first_fault};
ghost use Rattle.cb_tree.specs.inner.Reads.{IsReadAs};
ghost use Rattle.cb_tree.specs.declared.fault.BadSource.{BadSource as Fault};

use crate::fault::BuildFault;
use crate::groups::group_ends;
use crate::laws::{every_reading, one_reading};
use crate::nesting::nest;
use crate::nodes::Nodes;
use crate::sequence::read_nodes;
use crate::size::check_size;
use crate::tree::Tree;
use cb_lines::{Walk, marks};
use std::alloc::Global;

/// The nodes of a source.
fn read_source(alloc: Global, source: &[u8]) -> Result<Nodes, BuildFault>
    ensures nodes { IfOk result (λ nodes. IsRead source.now (Sound nodes)) }
    ensures no_fault { IfOk result (λ nodes. first_fault nodes [] ≡ None) }
    ensures counted { IfOk result (λ nodes. AreCounted nodes) }
    ensures few { IfOk result (λ nodes. length nodes ≤ 4194304) }
    ensures fault { IfErr result (IsReadAs source.now) }
{
    check_size(source)?;
    let marks = marks(alloc, source)?;
    let mut walk = Walk::new(&marks);
    let nodes = read_nodes(alloc, &mut walk)?;
    every_reading();
    Ok(nodes)
}

/// The tree of a sound source. Else it is `Bad` with the first fault; its other error is out of memory.
pub fn build(alloc: Global, source: &[u8]) -> Result<Tree, BuildFault>
    ensures nodes { IfOk result (λ tree. IsRead source.now (Sound tree)) }
    ensures fault { (f : Fault) → result ≡ Err (BuildFault.Bad f) → IsRead source.now (Unsound f) }
    ensures every_fault { (f : Fault) → IsRead source.now (Unsound f)
        → (result ≡ Err (BuildFault.Bad f)) ⊎ (result ≡ Err BuildFault.NoMemory) }
    ensures every_tree { (nodes : List Node) → IsRead source.now (Sound nodes)
        → (result ≡ Ok nodes) ⊎ (result ≡ Err BuildFault.NoMemory) }
{
    one_reading();
    let nodes = read_source(alloc, source)?;
    let ends = group_ends(alloc, &nodes)?;
    let parts = nest(alloc, &nodes)?;
    Ok(Tree { nodes, ends, parts })
}
