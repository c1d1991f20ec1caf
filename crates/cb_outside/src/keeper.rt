//! Where inputs are kept.
ghost use Rattle.std.specs.Prelude.{◌≡◌, ℕ, ◌<◌, ◌≤◌, List, Option, Some};
ghost use Rattle.std.specs.Prelude.{IfOk, IfSome, IsSomeAnd, IsErrOf, OnOk, OnErr, option_map, slice_get};
ghost use Rattle.cb_outside.specs.Outside.{Rose};
ghost use Rattle.cb_outside.specs.Tables.{Tables, put, removed, changed, entry_count, AreEntries};
ghost use Rattle.cb_outside.specs.declared.kept.Kept.{Kept};

use crate::kept::{KeepFault, Kept, Table};

/// Where inputs are kept, each in a table at a key.
pub trait Keeper {
    /// What is kept, where the object tells it.
    ghost tables: { Self → Option Tables };

    /// The entries in the order in which they are loaded, where the object tells what is kept.
    ghost order: { Self → Option (List Kept) };

    /// How many entries can be loaded.
    ghost listed: { Self → ℕ };

    /// How many calls have failed. It never falls.
    ghost faults: { Self → ℕ };

    /// How many removals were refused as out of memory. It never falls.
    ghost wants: { Self → ℕ };

    /// Keeps these bytes in a table at a key, in place of those that stood there.
    fn put(&mut self, table: Table, key: &[u8], bytes: &[u8]) -> Result<(), KeepFault>
        ensures kept { OnOk result
            (tables self.new ≡ option_map (changed table (put key.now bytes.now)) (tables self.old)) }
        ensures unchanged { OnErr result (tables self.new ≡ tables self.old) }
        ensures same_order { OnErr result (order self.new ≡ order self.old) }
        ensures same_list { OnErr result (listed self.new ≡ listed self.old) }
        ensures failed { IsErrOf result KeepFault.Failed → Rose (faults self.old) (faults self.new) }
        ensures steady { OnOk result (faults self.new ≡ faults self.old) }
        ensures no_memory { IsErrOf result KeepFault.NoMemory → faults self.new ≡ faults self.old }
        ensures never_falls { faults self.old ≤ faults self.new }
        ensures wants_never_fall { wants self.old ≤ wants self.new };

    /// Takes what stands in a table at a key away, if something does.
    fn remove(&mut self, table: Table, key: &[u8]) -> Result<(), KeepFault>
        ensures kept { OnOk result (tables self.new ≡ option_map (changed table (removed key.now)) (tables self.old)) }
        ensures unchanged { OnErr result (tables self.new ≡ tables self.old) }
        ensures same_order { OnErr result (order self.new ≡ order self.old) }
        ensures same_list { OnErr result (listed self.new ≡ listed self.old) }
        ensures failed { IsErrOf result KeepFault.Failed → Rose (faults self.old) (faults self.new) }
        ensures wanted { IsErrOf result KeepFault.NoMemory → Rose (wants self.old) (wants self.new) }
        ensures steady { OnOk result (faults self.new ≡ faults self.old) }
        ensures no_memory { IsErrOf result KeepFault.NoMemory → faults self.new ≡ faults self.old }
        ensures never_falls { faults self.old ≤ faults self.new }
        ensures wants_never_fall { wants self.old ≤ wants self.new };

    /// The number of entries that can be loaded. Where the object tells what is kept, the entries are those of the
    /// tables, each once.
    fn count(&mut self) -> Result<u64, KeepFault>
        ensures count { IfOk result (λ n. n ≡ listed self.old) }
        ensures entries { OnOk result
            (IfSome (tables self.old) (λ t. IsSomeAnd (order self.old) (λ entries. AreEntries entries t))) }
        ensures unchanged { tables self.new ≡ tables self.old }
        ensures same_order { order self.new ≡ order self.old }
        ensures same_list { listed self.new ≡ listed self.old }
        ensures failed { IsErrOf result KeepFault.Failed → Rose (faults self.old) (faults self.new) }
        ensures steady { OnOk result (faults self.new ≡ faults self.old) }
        ensures no_memory { IsErrOf result KeepFault.NoMemory → faults self.new ≡ faults self.old }
        ensures never_falls { faults self.old ≤ faults self.new }
        ensures wants_never_fall { wants self.old ≤ wants self.new };

    /// The entry of this number, from 0.
    fn load(&mut self, i: u64) -> Result<Kept, KeepFault>
        requires { i < listed self.old }
        ensures entry { IfOk result (λ kept. IfSome (order self.old) (λ entries. slice_get entries i ≡ Some kept)) }
        ensures unchanged { tables self.new ≡ tables self.old }
        ensures same_order { order self.new ≡ order self.old }
        ensures same_list { listed self.new ≡ listed self.old }
        ensures failed { IsErrOf result KeepFault.Failed → Rose (faults self.old) (faults self.new) }
        ensures steady { OnOk result (faults self.new ≡ faults self.old) }
        ensures no_memory { IsErrOf result KeepFault.NoMemory → faults self.new ≡ faults self.old }
        ensures never_falls { faults self.old ≤ faults self.new }
        ensures wants_never_fall { wants self.old ≤ wants self.new };

    /// Where the object tells what is kept, all of it can be loaded.
    ghost lists_all: { (s : Self) → IfSome (tables s) (λ t. listed s ≡ entry_count t) };
}
