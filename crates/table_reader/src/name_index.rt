// Values by name.
ghost use Rattle.std.specs.Prelude.{◌≡◌, ◌<◌, ◌∷◌, ◌++◌, [], None, length, map, is_some, IfOk, IfErr, IfSome, OnOk, OnErr, IsSome};
ghost use Rattle.table_reader.specs.Words.{sem, IsDistinct, option_copied_mut, bytes_eq, IfBadCause, value_under};
ghost use Rattle.table_reader.specs.Words.{names_of, place_among, lends_value};

use crate::faults::RowFault;
use indexmap::IndexMap;
use route_base::{Cause, OutOfMemory};
use std::alloc::Global;
use std::marker::Model;

/// Values by name in the order in which they were added, which contracts see as a list of pairs of a name and a value.
pub struct NameIndex<V> {
    held: IndexMap<Vec<u8>, V>,
}

impl<V> Model for NameIndex<V> {
    ghost use Rattle.std.specs.Prelude.{List, ℕ, map};

    ghost Value = { List (List ℕ × V) };

    ghost view = { λ n. map (λ e. (e.0.items, e.1)) n.held.entries };
}

// By hand, so that the drops of its parts are proved here alone.
impl<V: Drop> Drop for NameIndex<V> {
    fn drop(self) {
        let NameIndex { held: _ } = self;
    }
}

impl<V> NameIndex<V> {
    /// No names.
    pub fn new(alloc: Global) -> Self
        ensures { result ≡ [] }
    {
        NameIndex {
            held: IndexMap::new(alloc),
        }
    }

    /// The number of names, of which no two are the same. In constant time.
    pub fn len(&self) -> usize
        ensures value { result ≡ length self.now }
        ensures distinct { IsDistinct bytes_eq (names_of self.now) }
    {
        self.held.len()
    }

    /// Whether the name has a value, in constant time on average.
    pub fn contains(&self, name: &[u8]) -> bool
        ensures { result ≡ is_some (value_under self.now name.now) }
    {
        self.held.contains_key(name)
    }

    /// The place of a name from 0, in constant time on average.
    pub fn place(&self, name: &[u8]) -> Option<usize>
        ensures place { result ≡ place_among (names_of self.now) name.now }
        ensures within { IfSome result (λ i. i < length self.now) }
    {
        self.held.get_index_of(name)
    }

    /// The value of a name, to write. In constant time on average.
    pub fn value_mut(&mut self, name: &[u8]) -> Option<&mut V>
        ensures* writes_back { sem 𝓛 (lends_value V.row self.entry name.now result) }
        ensures value { option_copied_mut result ≡ value_under self.old name.now }
    {
        match self.held.get_mut(name) {
            Some(value) => Some(value),
            None => None,
        }
    }
}

impl<V: Copy> NameIndex<V> {
    /// The value of a name, in constant time on average.
    pub fn value(&self, name: &[u8]) -> Option<V>
        ensures { result ≡ value_under self.now name.now }
    {
        self.held.get(name).copied()
    }
}

impl<V: Drop> NameIndex<V> {
    /// Adds a name with its value, in constant time on average; `Duplicate` where the name has one.
    pub fn add(&mut self, alloc: Global, name: &[u8], value: V) -> Result<(), RowFault>
        ensures free { OnOk result (value_under self.old name.now ≡ None) }
        ensures added { OnOk result (self.new ≡ self.old ++ (name.now, value) ∷ []) }
        ensures refused { IfErr result (λ e. IfBadCause e (λ cause.
            (cause ≡ Cause.Duplicate) × IsSome (value_under self.old name.now))) }
        ensures kept { OnErr result (self.new ≡ self.old) }
    {
        if self.held.contains_key(name) {
            return Err(RowFault::Bad(Cause::Duplicate));
        }
        self.held.insert(Vec::from_slice(alloc, name)?, value)?;
        Ok(())
    }

    /// The values in the order of their names. Linear in them, in time and memory.
    pub fn into_values(self, alloc: Global) -> Result<Vec<V>, OutOfMemory>
        ensures { IfOk result (λ values. values.items ≡ map (λ e. e.1) self) }
    {
        let NameIndex { held } = self;
        Ok(held.into_values().collect(alloc)?)
    }
}
