//! Maps from keys to collections.

ghost use Rattle.std.specs.Prelude.{◌≡◌, ◌↔◌, [], IsTrue, IfOk, IfErr};
ghost use Rattle.std.specs.BTreeMap.{is_at};
ghost use Rattle.std.specs.List.Sorted.{IsStrictlySortedBy};
ghost use Rattle.std.specs.Map.{keys_of, lookup};
ghost use Rattle.std.specs.Map.Iter.{GivesInOrder, ShowsInOrder, deref_pair};
ghost use Rattle.std.specs.Option.{option_copied};
ghost use Rattle.lalrpop_sets.specs.Collections.{Puts, PutsAll, SameEntries};

use crate::collection::Collection;
use std::alloc::{AllocError, Global};
use std::collections::BTreeMap;
use std::collections::btree_map::{IntoIter, Iter};
use std::marker::Model;

/// A map that keeps a collection at each of its keys, in order of the keys.
#[derive(Drop)]
pub struct Multimap<K: Ord, C> {
    alloc: Global,
    map: BTreeMap<K, C>,
}

impl<K: Ord, C> Model for Multimap<K, C> {
    ghost use Rattle.std.specs.Prelude.{List};
    ghost use Rattle.std.specs.List.Sorted.{IsStrictlySortedBy};
    ghost use Rattle.std.specs.Map.{keys_of};

    ghost Value = { List (K × C) };

    ghost view = { λ it. it.map.entries };

    ghost invariant = { λ it. IsStrictlySortedBy K.cmp (keys_of it.map.entries) };
}

impl<K: Ord, C> Multimap<K, C> {
    /// A map without keys.
    pub fn new(alloc: Global) -> Multimap<K, C>
        ensures { result ≡ [] }
    {
        Multimap {
            alloc,
            map: BTreeMap::new(alloc),
        }
    }

    /// Whether it has no keys.
    pub fn is_empty(&self) -> bool
        ensures { IsTrue result ↔ (self.now ≡ []) }
    {
        self.map.is_empty()
    }

    /// What stands at the key.
    pub fn get(&self, key: &K) -> Option<&C>
        ensures { option_copied result ≡ lookup (is_at (K.cmp key.now)) self.now }
    {
        self.map.get(key)
    }

    /// Its entries, keys ascending.
    pub fn iter(&self) -> Iter<'_, K, C>
        ensures rest { result ≡ self.now }
        ensures runs { ShowsInOrder (deref_pair {K = K} {X = C}) }
        ensures ordered { IsStrictlySortedBy K.cmp (keys_of self.now) }
    {
        self.map.iter()
    }
}

impl<K: Ord + Drop, C: Collection> Multimap<K, C> {
    /// Adds the item to what stands at the key, and says whether the key came or its content changed. Where memory is
    /// refused, the content is as before.
    pub fn push(&mut self, key: K, item: C::Item) -> Result<bool, AllocError>
        ensures puts { IfOk result (λ changed.
            Puts K.cmp C.holds_nothing C.same C.pushes self.old key item changed self.new) }
        ensures kept { IfErr result (λ _. SameEntries C.same self.old self.new) }
    {
        if let Some(content) = self.map.get_mut(&key) {
            return content.push(item);
        }
        let mut content = C::empty(self.alloc);
        content.push(item)?;
        self.map.insert(key, content)?;
        Ok(true)
    }
}

impl<K: Ord + Drop, C: Collection> Multimap<K, C>
where
    C::Item: Drop,
{
    /// The map that the pairs make, put in one after another.
    pub fn from_pairs(alloc: Global, pairs: Vec<(K, C::Item)>) -> Result<Multimap<K, C>, AllocError>
        ensures { IfOk result (λ map. PutsAll K.cmp C.holds_nothing C.same C.pushes [] pairs.items map) }
    {
        let mut map = Multimap::new(alloc);
        for (key, item) in pairs {
            map.push(key, item)?;
        }
        Ok(map)
    }
}

impl<K: Ord + Drop, C: Collection> Collection for Multimap<K, C> {
    ghost use Rattle.lalrpop_sets.specs.Collections.{PutsSome, same_all};

    type Item = (K, C::Item);

    ghost holds_nothing = { λ m. m ≡ [] };

    ghost same = { SameEntries C.same };

    ghost pushes = { PutsSome K.cmp C.holds_nothing C.same C.pushes };

    ghost same_self = { same_all C.same C.same_self };

    fn empty(alloc: Global) -> Multimap<K, C> {
        Multimap::new(alloc)
    }

    fn push(&mut self, pair: (K, C::Item)) -> Result<bool, AllocError> {
        let (key, item) = pair;
        Multimap::push(self, key, item)
    }
}

impl<K: Ord + Drop, C: Drop> IntoIterator for Multimap<K, C> {
    type Item = (K, C);

    type IntoIter = IntoIter<K, C>;

    ghost into_iter_gives = { λ m r. (r ≡ m) × GivesInOrder (K × C) × IsStrictlySortedBy K.cmp (keys_of m) };

    fn into_iter(self) -> IntoIter<K, C> {
        let Multimap { alloc: _, map } = self;
        map.into_iter()
    }
}

impl<'a, K: Ord, C> IntoIterator for &'a Multimap<K, C> {
    type Item = (&'a K, &'a C);

    type IntoIter = Iter<'a, K, C>;

    ghost into_iter_gives = { λ m r. (r ≡ m.now) × ShowsInOrder (deref_pair {K = K} {X = C}) × IsStrictlySortedBy K.cmp (keys_of m.now) };

    fn into_iter(self) -> Iter<'a, K, C> {
        self.iter()
    }
}
