//! A source that is kept.
ghost use Rattle.std.specs.Prelude.{◌≡◌, ◌⊎◌, ℕ, List, IfOk, IfErr, OnOk};
ghost use Rattle.cb_tree.specs.Sound.{IsRead, Sound};
ghost use Rattle.cb_inputs.specs.Sources.{IsReadSource};
ghost use Rattle.cb_inputs.specs.Refusals.{IsSourceFault};
ghost use Rattle.cb_inputs.specs.inner.Kept.{TellsPut};
ghost use Rattle.cb_inputs.specs.declared.refused.LimitName.{LimitName};
ghost use Rattle.cb_inputs.specs.declared.refused.BodyFault.{BodyFault as Fault};

use crate::refused::{BodyFault, Refused};
use cb_paths::{Bytes, NoMemory};
use cb_tree::{BuildFault, Tree, build, one_reading};
use std::alloc::Global;

/// A source and its tree.
#[derive(Drop)]
pub struct Source {
    /// Its bytes.
    pub bytes: Bytes,
    /// Its tree.
    pub tree: Tree,
}

/// The tree of a source, or its first fault.
fn read_tree(alloc: Global, bytes: &[u8]) -> Result<Tree, Refused>
    ensures tree { IfOk result (λ tree. IsRead bytes.now (Sound tree)) }
    ensures cause { (amounts : List (LimitName × ℕ)) → IfErr result (TellsPut (IsSourceFault bytes.now) amounts) }
{
    match build(alloc, bytes) {
        Ok(tree) => Ok(tree),
        Err(BuildFault::Bad(bad)) => Err(Refused::Body(BodyFault::Source(bad))),
        Err(BuildFault::NoMemory) => Err(Refused::NoMemory),
    }
}

/// The source of these bytes, or its first fault.
pub(crate) fn read_source(alloc: Global, bytes: &[u8]) -> Result<Source, Refused>
    ensures bytes { IfOk result (λ source. source.bytes ≡ bytes.now) }
    ensures read { IfOk result IsReadSource }
    ensures sound { OnOk result ((fault : Fault) → IsSourceFault bytes.now fault → ⊥) }
    ensures cause { (amounts : List (LimitName × ℕ)) → IfErr result (TellsPut (IsSourceFault bytes.now) amounts) }
    ensures only { IfErr result (λ told. (fault : Fault) → IsSourceFault bytes.now fault
        → (told ≡ Refused.Body fault) ⊎ (told ≡ Refused.NoMemory)) }
{
    one_reading();
    let tree = match read_tree(alloc, bytes) {
        Ok(tree) => tree,
        Err(refused) => return Err(refused),
    };
    match Bytes::from_slice(alloc, bytes) {
        Ok(bytes) => Ok(Source { bytes, tree }),
        Err(NoMemory) => Err(Refused::NoMemory),
    }
}
