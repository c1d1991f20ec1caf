//! The sources by their paths.
ghost use Rattle.std.specs.Prelude.{◌≡◌, ◌⊎◌, ℕ, List, ◌≤◌, [], ◌∷◌, None, Some, length, All, IfOk, IfErr, OnOk, OnErr, option_map, is_some, true, ◌↔◌};
ghost use Rattle.std.specs.Option.{option_copied};
ghost use Rattle.std.specs.BTreeMap.{insert_entry};
ghost use Rattle.std.specs.Map.{keys_of, values_of};
ghost use Rattle.std.specs.List.Sorted.{IsStrictlySortedBy};
ghost use Rattle.std.specs.Map.Iter.{ShowsInOrder, deref_pair};
ghost use Rattle.std.specs.Ordering.{nat_cmp};
ghost use Rattle.std.specs.Cmp.Lexicographic.{slice_cmp};
ghost use Rattle.cb_outside.specs.Outside.{Rose};
ghost use Rattle.cb_outside.specs.Tables.{changed, put, removed};
ghost use Rattle.cb_outside.specs.declared.kept.Table.TheVariants as table;
ghost use Rattle.cb_inputs.specs.Texts.{bytes_in, source_amounts, first_over, value_at};
ghost use Rattle.cb_inputs.specs.Refusals.{IsSourceFault, IsDenied, IsOutside};
ghost use Rattle.cb_inputs.specs.Sources.{source_texts, IsReadSource, IsSource};
ghost use Rattle.cb_inputs.specs.inner.Kept.{AreSources, TellsPut};
ghost use Rattle.cb_inputs.specs.declared.refused.LimitName.{LimitName as Name};
ghost use Rattle.cb_inputs.specs.declared.refused.Refused.{Refused as Refusal};
ghost use Rattle.cb_inputs.specs.declared.source.Source.{Source as Known};

use crate::refused::{LimitName, Refused, not_kept};
use crate::sizes::Sizes;
use crate::source::{Source, read_source};
use cb_outside::{Keeper, Table};
use cb_paths::{NoMemory, Path};
use std::alloc::Global;
use std::collections::BTreeMap;
use std::collections::btree_map::Iter;
use std::marker::Model;

/// The sources by their paths, which contracts see as the list of paths and sources in the order of the paths.
#[derive(Drop)]
pub struct Sources {
    map: BTreeMap<Path, Source>,
    total: u64,
}

impl Model for Sources {
    ghost use Rattle.cb_inputs.specs.Texts.{ByPath};
    ghost use Rattle.cb_inputs.specs.declared.source.Source.{Source};
    ghost use Rattle.cb_inputs.specs.inner.Kept.{AreSources};

    ghost Value = { ByPath Source };

    ghost view = { λ d. d.map.entries };

    ghost invariant = { λ d. AreSources d.map.entries d.total };
}

/// A source that is ready to be put, with the bytes that all sources together would have.
#[derive(Drop)]
pub(crate) struct FreshSource {
    key: Path,
    source: Source,
    total: u64,
}

/// How much there would be with these bytes at a path.
fn sizes_with(map: &BTreeMap<Path, Source>, total: u64, path: &Path, bytes: &[u8]) -> Sizes
    requires { AreSources map.now.entries total }
    ensures count { result.count ≡ length (put path.now bytes.now (source_texts map.now.entries)) }
    ensures bytes { result.bytes ≡ bytes_in (put path.now bytes.now (source_texts map.now.entries)) }
{
    let count = map.len() as u64;
    let more = bytes.len() as u64;
    match map.get(path) {
        Some(source) => Sizes {
            count,
            bytes: total - source.bytes.len() as u64 + more,
        },
        None => Sizes {
            count: count + 1,
            bytes: total + more,
        },
    }
}

/// Puts a source where none stands. Where the keeper refuses it, it is taken away again.
fn add_kept<K: Keeper>(
    map: &mut BTreeMap<Path, Source>,
    keeper: &mut K,
    path: &Path,
    bytes: &[u8],
    fresh: FreshSource,
) -> Result<(), Refused>
    requires same_key { fresh.key ≡ path.now }
    requires absent { value_at path.now map.old.entries ≡ None }
    ensures entries { OnOk result
        (map.new.entries ≡ insert_entry (slice_cmp nat_cmp) map.old.entries path.now fresh.source) }
    ensures unchanged { OnErr result (map.new.entries ≡ map.old.entries) }
    ensures cause { IfErr result IsOutside }
    ensures kept { OnOk result
        (K.tables keeper.new ≡ option_map (changed table.Sources (put path.now bytes.now)) (K.tables keeper.old)) }
    ensures told { OnErr result (K.tables keeper.new ≡ K.tables keeper.old) }
    ensures store { result ≡ Err Refused.Store → Rose (K.faults keeper.old) (K.faults keeper.new) }
    ensures never_falls { K.faults keeper.old ≤ K.faults keeper.new }
    ensures wants_never_fall { K.wants keeper.old ≤ K.wants keeper.new }
{
    if map.insert(fresh.key, fresh.source).is_err() {
        return Err(Refused::NoMemory);
    }
    match keeper.put(Table::Sources, path.bytes(), bytes) {
        Ok(()) => Ok(()),
        Err(fault) => {
            map.remove(path);
            Err(not_kept(fault))
        }
    }
}

/// Puts a source in the place of the one that stands there. It takes no memory.
fn replace(map: &mut BTreeMap<Path, Source>, fresh: FreshSource)
    requires { is_some (value_at fresh.key map.old.entries) ≡ true }
    ensures { map.new.entries ≡ insert_entry (slice_cmp nat_cmp) map.old.entries fresh.key fresh.source }
{
    match map.insert(fresh.key, fresh.source) {
        Ok(_) => {}
        Err(_) => unreachable!(),
    }
}

/// Puts a source at a path, and has the keeper keep it.
fn put_kept<K: Keeper>(
    map: &mut BTreeMap<Path, Source>,
    keeper: &mut K,
    path: &Path,
    bytes: &[u8],
    fresh: FreshSource,
) -> Result<(), Refused>
    requires same_key { fresh.key ≡ path.now }
    ensures entries { OnOk result
        (map.new.entries ≡ insert_entry (slice_cmp nat_cmp) map.old.entries path.now fresh.source) }
    ensures unchanged { OnErr result (map.new.entries ≡ map.old.entries) }
    ensures cause { IfErr result IsOutside }
    ensures kept { OnOk result
        (K.tables keeper.new ≡ option_map (changed table.Sources (put path.now bytes.now)) (K.tables keeper.old)) }
    ensures told { OnErr result (K.tables keeper.new ≡ K.tables keeper.old) }
    ensures store { result ≡ Err Refused.Store → Rose (K.faults keeper.old) (K.faults keeper.new) }
    ensures never_falls { K.faults keeper.old ≤ K.faults keeper.new }
    ensures wants_never_fall { K.wants keeper.old ≤ K.wants keeper.new }
{
    if !map.contains_key(path) {
        return add_kept(map, keeper, path, bytes, fresh);
    }
    match keeper.put(Table::Sources, path.bytes(), bytes) {
        Ok(()) => {
            replace(map, fresh);
            Ok(())
        }
        Err(fault) => Err(not_kept(fault)),
    }
}

impl Sources {
    /// No source.
    pub fn new(alloc: Global) -> Sources
        ensures { result ≡ [] }
    {
        Sources {
            map: BTreeMap::new(alloc),
            total: 0,
        }
    }

    /// The number of sources. Their paths rise, and the tree of each is that of its bytes.
    pub fn len(&self) -> usize
        ensures count { result ≡ length self.now }
        ensures few { length self.now ≤ 20000 }
        ensures within { bytes_in (source_texts self.now) ≤ 268435456 }
        ensures rising { IsStrictlySortedBy (slice_cmp nat_cmp) (keys_of self.now) }
        ensures read { All IsReadSource (values_of self.now) }
    {
        self.map.len()
    }

    /// The source at a path, if there is one.
    pub fn get(&self, path: &Path) -> Option<&Source>
        ensures { option_copied result ≡ value_at path.now self.now }
    {
        self.map.get(path)
    }

    /// Whether a source stands at a path.
    pub fn has(&self, path: &Path) -> bool
        ensures { result ≡ is_some (value_at path.now self.now) }
    {
        self.map.contains_key(path)
    }

    /// The sources with their paths, in the order of the paths.
    pub fn iter(&self) -> Iter<'_, Path, Source>
        ensures rest { result ≡ self.now }
        ensures runs { ShowsInOrder (deref_pair {K = List ℕ} {X = Known}) }
    {
        self.map.iter()
    }

    /// A source that is ready to be put at a path. It is refused for the first fault of the bytes, for the first
    /// limit that would be passed, or where memory runs out.
    pub(crate) fn fresh(
        &self,
        alloc: Global,
        path: &Path,
        bytes: &[u8],
    ) -> Result<FreshSource, Refused>
        ensures same_key { IfOk result (λ fresh. fresh.key ≡ path.now) }
        ensures same_bytes { IfOk result (λ fresh. fresh.source.bytes ≡ bytes.now) }
        ensures read { IfOk result (λ fresh. IsReadSource fresh.source) }
        ensures total { IfOk result (λ fresh. fresh.total ≡ bytes_in (put path.now bytes.now (source_texts self.now))) }
        ensures few { OnOk result (length (put path.now bytes.now (source_texts self.now)) ≤ 20000) }
        ensures within { OnOk result (bytes_in (put path.now bytes.now (source_texts self.now)) ≤ 268435456) }
        ensures cause { IfErr result
            (TellsPut (IsSourceFault bytes.now) (source_amounts (put path.now bytes.now (source_texts self.now)))) }
        ensures only { IfErr result (λ told. (refused : Refusal)
            → IsDenied (IsSourceFault bytes.now)
            (source_amounts (put path.now bytes.now (source_texts self.now))) refused
            → (told ≡ refused) ⊎ (told ≡ Refused.NoMemory)) }
        ensures sound { OnOk result ((refused : Refusal)
            → IsDenied (IsSourceFault bytes.now)
            (source_amounts (put path.now bytes.now (source_texts self.now))) refused → ⊥) }
        ensures before_limits { (name : Name) (n : ℕ) → result ≡ Err (Refused.Limit name n) → IsSource bytes.now }
    {
        let source = match read_source(alloc, bytes) {
            Ok(source) => source,
            Err(refused) => return Err(refused),
        };
        let sizes = sizes_with(&self.map, self.total, path, bytes);
        match sizes.first_over(LimitName::Sources, LimitName::SourceBytes) {
            Some((name, amount)) => return Err(Refused::Limit(name, amount)),
            None => {}
        }
        match path.copy(alloc) {
            Ok(key) => Ok(FreshSource {
                key,
                source,
                total: sizes.bytes,
            }),
            Err(NoMemory) => Err(Refused::NoMemory),
        }
    }

    /// Puts a source that is ready, and has the keeper keep it. After a refusal the sources and what is kept are as
    /// they were.
    pub(crate) fn keep<K: Keeper>(
        &mut self,
        keeper: &mut K,
        path: &Path,
        bytes: &[u8],
        fresh: FreshSource,
    ) -> Result<(), Refused>
        requires same_key { fresh.key ≡ path.now }
        requires same_bytes { fresh.source.bytes ≡ bytes.now }
        requires read { IsReadSource fresh.source }
        requires total { fresh.total ≡ bytes_in (put path.now bytes.now (source_texts self.old)) }
        requires few { length (put path.now bytes.now (source_texts self.old)) ≤ 20000 }
        requires within { bytes_in (put path.now bytes.now (source_texts self.old)) ≤ 268435456 }
        ensures accepted { OnOk result (source_texts self.new ≡ put path.now bytes.now (source_texts self.old)) }
        ensures unchanged { OnErr result (self.new ≡ self.old) }
        ensures cause { IfErr result IsOutside }
        ensures kept { OnOk result
            (K.tables keeper.new ≡ option_map (changed table.Sources (put path.now bytes.now)) (K.tables keeper.old)) }
        ensures told { OnErr result (K.tables keeper.new ≡ K.tables keeper.old) }
        ensures store { result ≡ Err Refused.Store → Rose (K.faults keeper.old) (K.faults keeper.new) }
        ensures never_falls { K.faults keeper.old ≤ K.faults keeper.new }
        ensures wants_never_fall { K.wants keeper.old ≤ K.wants keeper.new }
    {
        let total = fresh.total;
        match put_kept(&mut self.map, keeper, path, bytes, fresh) {
            Ok(()) => {
                self.total = total;
                Ok(())
            }
            Err(refused) => Err(refused),
        }
    }

    /// Puts a source at a path, in place of the one that stood there, and has the keeper keep it. It is refused for
    /// the first fault of the bytes; else for the first limit that would be passed, 20,000 sources or 268,435,456
    /// bytes of all of them, with how much there would be; else where the keeper fails or memory runs out. After a
    /// refusal the sources and what is kept are as they were.
    pub fn put<K: Keeper>(
        &mut self,
        alloc: Global,
        keeper: &mut K,
        path: &Path,
        bytes: &[u8],
    ) -> Result<(), Refused>
        ensures accepted { OnOk result (source_texts self.new ≡ put path.now bytes.now (source_texts self.old)) }
        ensures unchanged { OnErr result (self.new ≡ self.old) }
        ensures cause { IfErr result (λ refused. IsOutside refused
            ⊎ IsDenied (IsSourceFault bytes.now)
            (source_amounts (put path.now bytes.now (source_texts self.old))) refused) }
        ensures every { (refused : Refusal) → IsDenied (IsSourceFault bytes.now)
            (source_amounts (put path.now bytes.now (source_texts self.old))) refused
            → (result ≡ Err refused) ⊎ (result ≡ Err Refused.NoMemory) }
        ensures source { OnOk result (IsSource bytes.now) }
        ensures before_limits { (name : Name) (n : ℕ) → result ≡ Err (Refused.Limit name n) → IsSource bytes.now }
        ensures kept { OnOk result
            (K.tables keeper.new ≡ option_map (changed table.Sources (put path.now bytes.now)) (K.tables keeper.old)) }
        ensures told { OnErr result (K.tables keeper.new ≡ K.tables keeper.old) }
        ensures store { result ≡ Err Refused.Store → Rose (K.faults keeper.old) (K.faults keeper.new) }
        ensures never_falls { K.faults keeper.old ≤ K.faults keeper.new }
        ensures wants_never_fall { K.wants keeper.old ≤ K.wants keeper.new }
    {
        match self.fresh(alloc, path, bytes) {
            Ok(fresh) => self.keep(keeper, path, bytes, fresh),
            Err(refused) => Err(refused),
        }
    }

    /// Takes the source at a path away, and has the keeper drop it. Refused as absent exactly where none stands
    /// there; else where the keeper fails or wants memory. It takes no memory of its own. After a refusal the sources
    /// and what is kept are as they were.
    pub fn remove<K: Keeper>(&mut self, keeper: &mut K, path: &Path) -> Result<(), Refused>
        ensures accepted { OnOk result (source_texts self.new ≡ removed path.now (source_texts self.old)) }
        ensures unchanged { OnErr result (self.new ≡ self.old) }
        ensures absent { (result ≡ Err Refused.Absent) ↔ (value_at path.now self.old ≡ None) }
        ensures cause { IfErr result (λ refused. IsOutside refused ⊎ (refused ≡ Refused.Absent)) }
        ensures kept { OnOk result
            (K.tables keeper.new ≡ option_map (changed table.Sources (removed path.now)) (K.tables keeper.old)) }
        ensures told { OnErr result (K.tables keeper.new ≡ K.tables keeper.old) }
        ensures store { result ≡ Err Refused.Store → Rose (K.faults keeper.old) (K.faults keeper.new) }
        ensures wanted { result ≡ Err Refused.NoMemory → Rose (K.wants keeper.old) (K.wants keeper.new) }
        ensures never_falls { K.faults keeper.old ≤ K.faults keeper.new }
        ensures wants_never_fall { K.wants keeper.old ≤ K.wants keeper.new }
    {
        let len = match self.map.get(path) {
            Some(source) => source.bytes.len() as u64,
            None => return Err(Refused::Absent),
        };
        match keeper.remove(Table::Sources, path.bytes()) {
            Ok(()) => {
                self.map.remove(path);
                self.total -= len;
                Ok(())
            }
            Err(fault) => Err(not_kept(fault)),
        }
    }
}
