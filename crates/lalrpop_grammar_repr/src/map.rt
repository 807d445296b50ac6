//! Maps in order of their keys, which contracts see as the list of their entries.

ghost use Rattle.std.specs.Prelude.{◌≡◌, ◌↔◌, [], length, map, IsTrue, IfOk, OnOk, OnErr};
ghost use Rattle.std.specs.BTreeMap.{insert_entry, is_at};
ghost use Rattle.std.specs.List.Sorted.{IsStrictlySortedBy};
ghost use Rattle.std.specs.Map.{keys_of, lookup};
ghost use Rattle.std.specs.Map.Iter.{ShowsInOrder, deref_pair};
ghost use Rattle.std.specs.Option.{option_copied};
ghost use Rattle.lalrpop_grammar_repr.specs.Maps.{swapped};

use crate::try_clone::TryClone;
use std::alloc::{AllocError, Global};
use std::collections::BTreeMap;
use std::collections::btree_map::Iter;
use std::marker::Model;

/// A map whose entries stand in order of their keys.
#[derive(Debug, Drop)]
pub struct Map<K: Ord, V> {
    map: BTreeMap<K, V>,
}

impl<K: Ord, V> Model for Map<K, V> {
    ghost use Rattle.std.specs.Prelude.{List};
    ghost use Rattle.std.specs.List.Sorted.{IsStrictlySortedBy};
    ghost use Rattle.std.specs.Map.{keys_of};

    ghost Value = { List (K × V) };

    ghost view = { λ it. it.map.entries };

    ghost invariant = { λ it. IsStrictlySortedBy K.cmp (keys_of it.map.entries) };
}

impl<K: Ord, V> Map<K, V> {
    /// A map without entries.
    pub fn new(alloc: Global) -> Map<K, V>
        ensures { result ≡ [] }
    {
        Map {
            map: BTreeMap::new(alloc),
        }
    }

    /// How many entries it has.
    pub fn len(&self) -> usize
        ensures { result ≡ length self.now }
    {
        self.map.len()
    }

    /// Whether it has no entries.
    pub fn is_empty(&self) -> bool
        ensures { IsTrue result ↔ (self.now ≡ []) }
    {
        self.map.is_empty()
    }

    /// Its entries, keys ascending.
    pub fn iter(&self) -> Iter<'_, K, V>
        ensures rest { result ≡ self.now }
        ensures runs { ShowsInOrder (deref_pair {K = K} {X = V}) }
        ensures ordered { IsStrictlySortedBy K.cmp (keys_of self.now) }
    {
        self.map.iter()
    }

    /// What is known of a map, its keys ascend: a law for proofs.
    pub fn known(&self)
        ensures { IsStrictlySortedBy K.cmp (keys_of self.now) }
    {
        self.map.iter();
    }

    /// What stands at the key.
    pub fn get(&self, key: &K) -> Option<&V>
        ensures { option_copied result ≡ lookup (is_at (K.cmp key.now)) self.now }
    {
        self.map.get(key)
    }
}

impl<K: Ord + Drop, V: Drop> Map<K, V> {
    /// Puts the value at the key, in place of what stood there. Where memory is refused, the map is as before.
    pub fn insert(&mut self, key: K, value: V) -> Result<(), AllocError>
        ensures ok { OnOk result (self.new ≡ insert_entry K.cmp self.old key value) }
        ensures err { OnErr result (self.new ≡ self.old) }
    {
        self.map.insert(key, value)?;
        Ok(())
    }
}

/// The value, or the other where it equals the first.
fn redirected<V: Copy + PartialEq>(value: V, from: V, to: V) -> V
    ensures { result ≡ swapped V.eq from to value }
{
    if value == from { to } else { value }
}

impl<K: Ord + Drop, V: Copy + PartialEq + Drop> Map<K, V> {
    /// Puts `to` in place of each value that equals `from`.
    pub fn redirect(&mut self, from: V, to: V)
        ensures { self.new ≡ map (λ e. (e.0, swapped V.eq from to e.1)) self.old }
    {
        self.map.retain(|_, value| {
            *value = redirected(*value, from, to);
            true
        });
    }
}

impl<K: Ord + Drop + TryClone, V: Drop + TryClone> Map<K, V> {
    /// Puts a copy of the value at a copy of the key.
    fn insert_copy(&mut self, alloc: Global, key: &K, value: &V) -> Result<(), AllocError>
        ensures { OnOk result (self.new ≡ insert_entry K.cmp self.old key.now value.now) }
    {
        let value = value.try_clone_in(alloc)?;
        let key = key.try_clone_in(alloc)?;
        self.insert(key, value)
    }

    /// A copy that equals it.
    pub fn try_clone(&self, alloc: Global) -> Result<Map<K, V>, AllocError>
        ensures { IfOk result (λ copy. copy ≡ self.now) }
    {
        let mut copy = Map::new(alloc);
        for (key, value) in self.iter() {
            copy.insert_copy(alloc, key, value)?;
        }
        Ok(copy)
    }
}
