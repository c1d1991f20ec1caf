//! A keeper that keeps nothing.
ghost use Rattle.std.specs.Prelude.{◌≡◌, ℕ, ◌<◌, ◌≤◌, Some, None};
ghost use Rattle.std.specs.Prelude.{IfOk, IfSome, IsSomeAnd, IsOk, IsErrOf, OnOk, OnErr, option_map, slice_get};
ghost use Rattle.cb_outside.specs.Outside.{Rose};

use crate::keeper::Keeper;
use crate::kept::{KeepFault, Kept, Table};

/// A keeper that keeps nothing, tells no tables, lists nothing and never refuses.
#[derive(Clone, Copy, Debug, PartialEq, Eq)]
pub struct NoKeeper;

impl Keeper for NoKeeper {
    ghost tables = { λ _. None };

    ghost order = { λ _. None };

    ghost listed = { λ _. 0 };

    ghost faults = { λ _. 0 };

    ghost wants = { λ _. 0 };

    ghost lists_all = { λ _. tt };

    fn put(&mut self, _table: Table, _key: &[u8], _bytes: &[u8]) -> Result<(), KeepFault>
        ensures { IsOk result }
    {
        Ok(())
    }

    fn remove(&mut self, _table: Table, _key: &[u8]) -> Result<(), KeepFault>
        ensures { IsOk result }
    {
        Ok(())
    }

    fn count(&mut self) -> Result<u64, KeepFault>
        ensures none { IfOk result (λ n. n ≡ 0) }
        ensures ok { IsOk result }
    {
        Ok(0)
    }

    /// There is no entry to load: a call would be answered as out of memory.
    fn load(&mut self, i: u64) -> Result<Kept, KeepFault>
        requires { 0 ≤ i }
        ensures { IsErrOf result KeepFault.NoMemory }
    {
        let _ = i;
        Err(KeepFault::NoMemory)
    }
}
