//! Maps to collections.

use crate::check::{check, says};
use lalrpop_sets::{Collection, Multimap, Nil};
use std::alloc::Global;
use std::collections::BTreeSet;
use std::process::Abort;

fn a_push_says_whether_a_set_grew(rt: &impl Abort, alloc: Global) {
    let mut map: Multimap<u32, BTreeSet<char>> = Multimap::new(alloc);
    check(rt, map.is_empty());
    says(rt, map.push(0, 'a'), true);
    says(rt, map.push(0, 'b'), true);
    says(rt, map.push(0, 'b'), false);
    says(rt, map.push(1, 'a'), true);
    check(rt, !map.is_empty() & map.get(&2).is_none());
    check(rt, map.get(&0).expect(rt, "a set").len() == 2);
}

fn a_push_says_whether_a_key_came(rt: &impl Abort, alloc: Global) {
    let mut map: Multimap<u32, ()> = Multimap::new(alloc);
    says(rt, map.push(0, ()), true);
    says(rt, map.push(0, ()), false);
    says(rt, map.push(1, ()), true);
    says(rt, map.push(0, ()), false);
}

/// A map of one character at 1 and of two at 3.
fn two_keys(rt: &impl Abort, alloc: Global) -> Multimap<u32, Vec<char>> {
    let mut pairs = Vec::new(alloc);
    pairs.push((3u32, 'c')).expect(rt, "memory");
    pairs.push((1, 'a')).expect(rt, "memory");
    pairs.push((3, 'd')).expect(rt, "memory");
    Multimap::from_pairs(alloc, pairs).expect(rt, "memory")
}

/// That the map has just the keys 1 and 3, in order.
fn has_two_keys(rt: &impl Abort, map: &Multimap<u32, Vec<char>>) {
    let mut entries = map.iter();
    let (first, _) = entries.next().expect(rt, "an entry");
    let (second, _) = entries.next().expect(rt, "an entry");
    check(
        rt,
        (*first == 1) & (*second == 3) & entries.next().is_none(),
    );
}

fn entries_stand_in_order_of_their_keys(rt: &impl Abort, alloc: Global) {
    let map = two_keys(rt, alloc);
    has_two_keys(rt, &map);
    let mut entries = map.into_iter();
    let (_, first) = entries.next().expect(rt, "an entry");
    let (_, second) = entries.next().expect(rt, "an entry");
    check(rt, (first.len() == 1) & (second.len() == 2));
    check(rt, entries.next().is_none());
}

fn a_collection_says_whether_a_push_changed_it(rt: &impl Abort, alloc: Global) {
    let mut list: Vec<u32> = Collection::empty(alloc);
    says(rt, Collection::push(&mut list, 1), true);
    says(rt, Collection::push(&mut list, 1), true);
    let mut nothing: Nil = Collection::empty(alloc);
    says(rt, Collection::push(&mut nothing, Nil), false);
    let mut maps: Multimap<u32, Vec<u32>> = Collection::empty(alloc);
    says(rt, Collection::push(&mut maps, (1, 2)), true);
}

#[test]
fn maps_to_collections(rt: HostRuntime) {
    let alloc = rt.alloc();
    a_push_says_whether_a_set_grew(&rt, alloc);
    a_push_says_whether_a_key_came(&rt, alloc);
    entries_stand_in_order_of_their_keys(&rt, alloc);
    a_collection_says_whether_a_push_changed_it(&rt, alloc);
}
