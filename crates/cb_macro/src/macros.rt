//! The map of macros.
ghost use Rattle.std.specs.Prelude.{◌≡◌, ◌==◌, ◌<◌, List, ℕ, [], Some, None, length, slice_get, option_map, IfOk, IfSome, OnOk, OnErr, IsSomeAnd, MatchOption, if◌then◌else◌};
ghost use Rattle.std.specs.Option.{option_copied};
ghost use Rattle.std.specs.Str.{bytes_eq};
ghost use Rattle.cb_macro.specs.Definitions.{Definition};
ghost use Rattle.cb_macro.specs.Maps.{found, found_at, IsChange, with_definition, without};

use crate::body::Macro;
use crate::define::Defined;
use cb_paths::NoMemory;
use indexmap::IndexMap;
use std::alloc::Global;
use std::marker::Model;

/// The macros that are defined, which contracts see as the list of their names with their definitions. A name is
/// looked up by its hash.
#[derive(Drop)]
pub struct Macros {
    table: IndexMap<Vec<u8>, Macro>,
}

impl Model for Macros {
    ghost use Rattle.std.specs.Prelude.{List, ℕ, map};
    ghost use Rattle.cb_macro.specs.Definitions.{Definition};

    ghost Value = { List (List ℕ × Definition) };

    ghost view = { λ m. map (λ e. (e.0.items, e.1)) m.table.entries };
}

impl Macros {
    /// No macros.
    pub fn new(alloc: Global) -> Macros
        ensures { result ≡ [] }
    {
        Macros {
            table: IndexMap::new(alloc),
        }
    }

    /// Defines a name, and answers whether a different definition stood. Its one error is out of memory, after
    /// which nothing has changed.
    pub fn define(&mut self, alloc: Global, defined: Defined) -> Result<bool, NoMemory>
        ensures different { IfOk result (λ different. IsChange (found self.old defined.name) defined.body different) }
        ensures defined { OnOk result ((name : List ℕ) → found self.new name ≡ (if bytes_eq name defined.name then Some defined.body else found self.old name)) }
        ensures entries { OnOk result (self.new ≡ with_definition defined.name defined.body self.old) }
        ensures kept { OnErr result (self.new ≡ self.old) }
    {
        let name = Vec::from_slice(alloc, defined.name.as_slice())?;
        let other = self.table.insert(name, defined.body)?;
        Ok(self.is_changed(defined.name.as_slice(), other))
    }

    /// Whether the definition of a name differs from the one whose place it has taken, if there was one.
    fn is_changed(&self, name: &[u8], other: Option<Macro>) -> bool
        ensures { (body : Definition) → found self.now name.now ≡ Some body → IsChange other body result }
    {
        let Some(other) = other else {
            return false;
        };
        match self.get(name) {
            None => false,
            Some(body) => !other.is_same(body),
        }
    }

    /// Takes the definition of a name away, where it has one. It takes no memory.
    pub fn undef(&mut self, name: &[u8])
        ensures undefined { (other : List ℕ) → found self.new other ≡ (if bytes_eq other name.now then None else found self.old other) }
        ensures entries { self.new ≡ without name.now self.old }
    {
        let _ = self.table.swap_remove(name);
    }

    /// What a name is defined as. It takes no memory.
    pub fn get(&self, name: &[u8]) -> Option<&Macro>
        ensures { option_copied result ≡ found self.now name.now }
    {
        self.table.get(name)
    }

    /// The place of a name, from 0, where it has a definition. Places stay until a name is defined or undefined. It
    /// takes no memory.
    pub fn place_of(&self, name: &[u8]) -> Option<usize>
        ensures place { MatchOption result (found_at self.now name.now ≡ None) (λ place. place < length self.now) }
        ensures found { MatchOption result (found_at self.now name.now ≡ None) (λ place. IsSomeAnd (slice_get self.now place) (λ e. found_at self.now name.now ≡ Some (place, e.1))) }
    {
        self.table.get_index_of(name)
    }

    /// The macro in a place.
    pub fn at(&self, place: usize) -> &Macro
        requires { place < length self.now }
        ensures { IsSomeAnd (slice_get self.now place) (λ e. e.1 ≡ result.now) }
    {
        match self.table.get_index(place) {
            Some((_, body)) => body,
            None => unreachable!(),
        }
    }

    /// The number of names that are defined.
    pub fn len(&self) -> usize
        ensures { result ≡ length self.now }
    {
        self.table.len()
    }

    /// Whether no name is defined.
    pub fn is_empty(&self) -> bool
        ensures { result ≡ (length self.now == 0) }
    {
        self.table.is_empty()
    }
}
