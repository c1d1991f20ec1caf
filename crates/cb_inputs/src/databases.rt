//! The databases by their paths.
ghost use Rattle.std.specs.Prelude.{◌≡◌, ◌⊎◌, ◌≤◌, ℕ, [], ◌∷◌, None, Some, length, All, IfOk, IfErr, IfSome, OnOk, OnErr, option_map, is_some, true, ◌↔◌};
ghost use Rattle.std.specs.Option.{option_copied};
ghost use Rattle.std.specs.BTreeMap.{insert_entry, is_at};
ghost use Rattle.std.specs.Map.{keys_of, values_of, remove_entry};
ghost use Rattle.std.specs.List.Sorted.{IsStrictlySortedBy};
ghost use Rattle.std.specs.Ordering.{nat_cmp};
ghost use Rattle.std.specs.Cmp.Lexicographic.{slice_cmp};
ghost use Rattle.cb_outside.specs.Outside.{Rose};
ghost use Rattle.cb_outside.specs.Tables.{changed, put, removed};
ghost use Rattle.cb_outside.specs.declared.kept.Table.TheVariants as table;
ghost use Rattle.cb_inputs.specs.Texts.{bytes_in, database_amounts, first_over, value_at};
ghost use Rattle.cb_inputs.specs.Refusals.{IsDatabaseFault, IsDenied, IsOutside};
ghost use Rattle.cb_inputs.specs.Databases.{database_texts, IsReadDatabase};
ghost use Rattle.cb_inputs.specs.inner.Kept.{AreDatabases, SaysEntries, TellsPut};
ghost use Rattle.cb_inputs.specs.declared.refused.LimitName.{LimitName as Name};
ghost use Rattle.cb_inputs.specs.declared.refused.Refused.{Refused as Refusal};

use crate::database::{Database, read_database};
use crate::refused::{LimitName, Refused, not_kept};
use crate::sizes::Sizes;
use cb_outside::{Keeper, Table};
use cb_paths::{NoMemory, Path};
use std::alloc::Global;
use std::collections::BTreeMap;
use std::marker::Model;

/// The databases by their paths, which contracts see as the list of paths and databases in the order of the paths.
#[derive(Drop)]
pub struct Databases {
    map: BTreeMap<Path, Database>,
    total: u64,
}

impl Model for Databases {
    ghost use Rattle.cb_inputs.specs.Texts.{ByPath};
    ghost use Rattle.cb_inputs.specs.declared.database.Database.{Database};
    ghost use Rattle.cb_inputs.specs.inner.Kept.{AreDatabases};

    ghost Value = { ByPath Database };

    ghost view = { λ d. d.map.entries };

    ghost invariant = { λ d. AreDatabases d.map.entries d.total };
}

/// A database that is ready to be put, with the bytes that all databases together would have.
#[derive(Drop)]
pub(crate) struct FreshDatabase {
    /// Its path.
    pub(crate) key: Path,
    /// The database.
    pub(crate) database: Database,
    /// The bytes of all databases together.
    pub(crate) total: u64,
}

/// How much there would be with these bytes at a path.
fn sizes_with(map: &BTreeMap<Path, Database>, total: u64, path: &Path, bytes: &[u8]) -> Sizes
    requires { AreDatabases map.now.entries total }
    ensures count { result.count ≡ length (put path.now bytes.now (database_texts map.now.entries)) }
    ensures bytes { result.bytes ≡ bytes_in (put path.now bytes.now (database_texts map.now.entries)) }
{
    let count = map.len() as u64;
    let more = bytes.len() as u64;
    match map.get(path) {
        Some(database) => Sizes {
            count,
            bytes: total - database.bytes.len() as u64 + more,
        },
        None => Sizes {
            count: count + 1,
            bytes: total + more,
        },
    }
}

/// Puts a database where none stands. Where the keeper refuses it, it is taken away again.
fn add_kept<K: Keeper>(
    map: &mut BTreeMap<Path, Database>,
    keeper: &mut K,
    path: &Path,
    bytes: &[u8],
    fresh: FreshDatabase,
) -> Result<(), Refused>
    requires same_key { fresh.key ≡ path.now }
    requires absent { value_at path.now map.old.entries ≡ None }
    ensures entries { OnOk result
        (map.new.entries ≡ insert_entry (slice_cmp nat_cmp) map.old.entries path.now fresh.database) }
    ensures unchanged { OnErr result (map.new.entries ≡ map.old.entries) }
    ensures cause { IfErr result IsOutside }
    ensures kept { OnOk result
        (K.tables keeper.new ≡ option_map (changed table.Databases (put path.now bytes.now)) (K.tables keeper.old)) }
    ensures told { OnErr result (K.tables keeper.new ≡ K.tables keeper.old) }
    ensures store { result ≡ Err Refused.Store → Rose (K.faults keeper.old) (K.faults keeper.new) }
    ensures never_falls { K.faults keeper.old ≤ K.faults keeper.new }
    ensures wants_never_fall { K.wants keeper.old ≤ K.wants keeper.new }
{
    if map.insert(fresh.key, fresh.database).is_err() {
        return Err(Refused::NoMemory);
    }
    match keeper.put(Table::Databases, path.bytes(), bytes) {
        Ok(()) => Ok(()),
        Err(fault) => {
            map.remove(path);
            Err(not_kept(fault))
        }
    }
}

/// Puts a database in the place of the one that stands there. It takes no memory.
fn replace(map: &mut BTreeMap<Path, Database>, fresh: FreshDatabase)
    requires { is_some (value_at fresh.key map.old.entries) ≡ true }
    ensures { map.new.entries ≡ insert_entry (slice_cmp nat_cmp) map.old.entries fresh.key fresh.database }
{
    match map.insert(fresh.key, fresh.database) {
        Ok(_) => {}
        Err(_) => unreachable!(),
    }
}

/// Puts a database at a path, and has the keeper keep it.
fn put_kept<K: Keeper>(
    map: &mut BTreeMap<Path, Database>,
    keeper: &mut K,
    path: &Path,
    bytes: &[u8],
    fresh: FreshDatabase,
) -> Result<(), Refused>
    requires same_key { fresh.key ≡ path.now }
    ensures entries { OnOk result
        (map.new.entries ≡ insert_entry (slice_cmp nat_cmp) map.old.entries path.now fresh.database) }
    ensures unchanged { OnErr result (map.new.entries ≡ map.old.entries) }
    ensures cause { IfErr result IsOutside }
    ensures kept { OnOk result
        (K.tables keeper.new ≡ option_map (changed table.Databases (put path.now bytes.now)) (K.tables keeper.old)) }
    ensures told { OnErr result (K.tables keeper.new ≡ K.tables keeper.old) }
    ensures store { result ≡ Err Refused.Store → Rose (K.faults keeper.old) (K.faults keeper.new) }
    ensures never_falls { K.faults keeper.old ≤ K.faults keeper.new }
    ensures wants_never_fall { K.wants keeper.old ≤ K.wants keeper.new }
{
    if !map.contains_key(path) {
        return add_kept(map, keeper, path, bytes, fresh);
    }
    match keeper.put(Table::Databases, path.bytes(), bytes) {
        Ok(()) => {
            replace(map, fresh);
            Ok(())
        }
        Err(fault) => Err(not_kept(fault)),
    }
}

impl Databases {
    /// No database.
    pub fn new(alloc: Global) -> Databases
        ensures { result ≡ [] }
    {
        Databases {
            map: BTreeMap::new(alloc),
            total: 0,
        }
    }

    /// The number of databases. Their paths rise, and each says what stands in its bytes.
    pub fn len(&self) -> usize
        ensures count { result ≡ length self.now }
        ensures few { length self.now ≤ 64 }
        ensures within { bytes_in (database_texts self.now) ≤ 268435456 }
        ensures rising { IsStrictlySortedBy (slice_cmp nat_cmp) (keys_of self.now) }
        ensures read { All IsReadDatabase (values_of self.now) }
    {
        self.map.len()
    }

    /// The database at a path, if there is one. It says what stands in its bytes.
    pub fn get(&self, path: &Path) -> Option<&Database>
        ensures value { option_copied result ≡ value_at path.now self.now }
        ensures read { IfSome (value_at path.now self.now) IsReadDatabase }
    {
        self.map.get(path)
    }

    /// Whether a database stands at a path.
    pub fn has(&self, path: &Path) -> bool
        ensures { result ≡ is_some (value_at path.now self.now) }
    {
        self.map.contains_key(path)
    }

    /// A database that is ready to be put at a path. It is refused for the first fault of the bytes, for the first
    /// limit that would be passed, or where memory runs out.
    pub(crate) fn fresh(
        &self,
        alloc: Global,
        path: &Path,
        bytes: &[u8],
    ) -> Result<FreshDatabase, Refused>
        ensures same_key { IfOk result (λ fresh. fresh.key ≡ path.now) }
        ensures same_bytes { IfOk result (λ fresh. fresh.database.bytes ≡ bytes.now) }
        ensures read { IfOk result (λ fresh. IsReadDatabase fresh.database) }
        ensures total { IfOk result
            (λ fresh. fresh.total ≡ bytes_in (put path.now bytes.now (database_texts self.now))) }
        ensures few { OnOk result (length (put path.now bytes.now (database_texts self.now)) ≤ 64) }
        ensures within { OnOk result (bytes_in (put path.now bytes.now (database_texts self.now)) ≤ 268435456) }
        ensures cause { IfErr result
            (TellsPut (IsDatabaseFault bytes.now)
            (database_amounts (put path.now bytes.now (database_texts self.now)))) }
        ensures only { IfErr result (λ told. (refused : Refusal)
            → IsDenied (IsDatabaseFault bytes.now)
            (database_amounts (put path.now bytes.now (database_texts self.now))) refused
            → (told ≡ refused) ⊎ (told ≡ Refused.NoMemory)) }
        ensures sound { OnOk result ((refused : Refusal)
            → IsDenied (IsDatabaseFault bytes.now)
            (database_amounts (put path.now bytes.now (database_texts self.now))) refused → ⊥) }
        ensures before_limits { (name : Name) (n : ℕ) → result ≡ Err (Refused.Limit name n) → SaysEntries bytes.now }
    {
        let database = match read_database(alloc, bytes) {
            Ok(database) => database,
            Err(refused) => return Err(refused),
        };
        let sizes = sizes_with(&self.map, self.total, path, bytes);
        match sizes.first_over(LimitName::Databases, LimitName::DatabaseBytes) {
            Some((name, amount)) => return Err(Refused::Limit(name, amount)),
            None => {}
        }
        match path.copy(alloc) {
            Ok(key) => Ok(FreshDatabase {
                key,
                database,
                total: sizes.bytes,
            }),
            Err(NoMemory) => Err(Refused::NoMemory),
        }
    }

    /// Puts a database that is ready, and has the keeper keep it. After a refusal the databases and what is kept are
    /// as they were.
    pub(crate) fn keep<K: Keeper>(
        &mut self,
        keeper: &mut K,
        path: &Path,
        bytes: &[u8],
        fresh: FreshDatabase,
    ) -> Result<(), Refused>
        requires same_key { fresh.key ≡ path.now }
        requires same_bytes { fresh.database.bytes ≡ bytes.now }
        requires read { IsReadDatabase fresh.database }
        requires total { fresh.total ≡ bytes_in (put path.now bytes.now (database_texts self.old)) }
        requires few { length (put path.now bytes.now (database_texts self.old)) ≤ 64 }
        requires within { bytes_in (put path.now bytes.now (database_texts self.old)) ≤ 268435456 }
        ensures accepted { OnOk result (database_texts self.new ≡ put path.now bytes.now (database_texts self.old)) }
        ensures entries { OnOk result
            (self.new ≡ insert_entry (slice_cmp nat_cmp) self.old path.now fresh.database) }
        ensures unchanged { OnErr result (self.new ≡ self.old) }
        ensures cause { IfErr result IsOutside }
        ensures kept { OnOk result
            (K.tables keeper.new
            ≡ option_map (changed table.Databases (put path.now bytes.now)) (K.tables keeper.old)) }
        ensures told { OnErr result (K.tables keeper.new ≡ K.tables keeper.old) }
        ensures store { result ≡ Err Refused.Store → Rose (K.faults keeper.old) (K.faults keeper.new) }
        ensures never_falls { K.faults keeper.old ≤ K.faults keeper.new }
        ensures wants_never_fall { K.wants keeper.old ≤ K.wants keeper.new }
    {
        let total = fresh.total;
        match put_kept(&mut self.map, keeper, path, bytes, fresh) {
            Ok(()) => {
                self.total = total;
                Ok(())
            }
            Err(refused) => Err(refused),
        }
    }

    /// Puts a database at a path, in place of the one that stood there, and has the keeper keep it. It is refused for
    /// the first fault of the bytes; else for the first limit that would be passed, 64 databases or 268,435,456 bytes
    /// of all of them, with how much there would be; else where the keeper fails or memory runs out. After a refusal
    /// the databases and what is kept are as they were.
    pub fn put<K: Keeper>(
        &mut self,
        alloc: Global,
        keeper: &mut K,
        path: &Path,
        bytes: &[u8],
    ) -> Result<(), Refused>
        ensures accepted { OnOk result (database_texts self.new ≡ put path.now bytes.now (database_texts self.old)) }
        ensures unchanged { OnErr result (self.new ≡ self.old) }
        ensures cause { IfErr result (λ refused. IsOutside refused
            ⊎ IsDenied (IsDatabaseFault bytes.now)
            (database_amounts (put path.now bytes.now (database_texts self.old))) refused) }
        ensures every { (refused : Refusal) → IsDenied (IsDatabaseFault bytes.now)
            (database_amounts (put path.now bytes.now (database_texts self.old))) refused
            → (result ≡ Err refused) ⊎ (result ≡ Err Refused.NoMemory) }
        ensures kept { OnOk result
            (K.tables keeper.new
            ≡ option_map (changed table.Databases (put path.now bytes.now)) (K.tables keeper.old)) }
        ensures told { OnErr result (K.tables keeper.new ≡ K.tables keeper.old) }
        ensures store { result ≡ Err Refused.Store → Rose (K.faults keeper.old) (K.faults keeper.new) }
        ensures never_falls { K.faults keeper.old ≤ K.faults keeper.new }
        ensures wants_never_fall { K.wants keeper.old ≤ K.wants keeper.new }
    {
        match self.fresh(alloc, path, bytes) {
            Ok(fresh) => self.keep(keeper, path, bytes, fresh),
            Err(refused) => Err(refused),
        }
    }

    /// Takes the database at a path away, and has the keeper drop it. Refused as absent exactly where none stands
    /// there; else where the keeper fails or wants memory. It takes no memory of its own. After a refusal the
    /// databases and what is kept are as they were.
    pub fn remove<K: Keeper>(&mut self, keeper: &mut K, path: &Path) -> Result<(), Refused>
        ensures accepted { OnOk result (database_texts self.new ≡ removed path.now (database_texts self.old)) }
        ensures entries { OnOk result (self.new ≡ remove_entry (is_at (slice_cmp nat_cmp path.now)) self.old) }
        ensures unchanged { OnErr result (self.new ≡ self.old) }
        ensures absent { (result ≡ Err Refused.Absent) ↔ (value_at path.now self.old ≡ None) }
        ensures cause { IfErr result (λ refused. IsOutside refused ⊎ (refused ≡ Refused.Absent)) }
        ensures kept { OnOk result
            (K.tables keeper.new ≡ option_map (changed table.Databases (removed path.now)) (K.tables keeper.old)) }
        ensures told { OnErr result (K.tables keeper.new ≡ K.tables keeper.old) }
        ensures store { result ≡ Err Refused.Store → Rose (K.faults keeper.old) (K.faults keeper.new) }
        ensures wanted { result ≡ Err Refused.NoMemory → Rose (K.wants keeper.old) (K.wants keeper.new) }
        ensures never_falls { K.faults keeper.old ≤ K.faults keeper.new }
        ensures wants_never_fall { K.wants keeper.old ≤ K.wants keeper.new }
    {
        let len = match self.map.get(path) {
            Some(database) => database.bytes.len() as u64,
            None => return Err(Refused::Absent),
        };
        match keeper.remove(Table::Databases, path.bytes()) {
            Ok(()) => {
                self.map.remove(path);
                self.total -= len;
                Ok(())
            }
            Err(fault) => Err(not_kept(fault)),
        }
    }
}
