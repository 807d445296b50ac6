//! Maps in order of their keys, and copies of what they hold.

use crate::check::{check, name_of};
use crate::lowered::parts::terminal_of;
use lalrpop_grammar_repr::{Map, NonterminalData, TryClone};
use lalrpop_grammar_symbols::{List, Span, TerminalString};
use std::alloc::Global;
use std::process::Abort;

/// The places of c, a and b, the last of which is put twice.
fn places(rt: &impl Abort, alloc: Global) -> Map<TerminalString, usize> {
    let mut map = Map::new(alloc);
    map.insert(terminal_of(rt, alloc, "c"), 2)
        .expect(rt, "memory");
    map.insert(terminal_of(rt, alloc, "b"), 7)
        .expect(rt, "memory");
    map.insert(terminal_of(rt, alloc, "a"), 0)
        .expect(rt, "memory");
    map.insert(terminal_of(rt, alloc, "b"), 1)
        .expect(rt, "memory");
    map
}

/// The texts of the entries, each behind a bar.
fn texts_of(rt: &impl Abort, alloc: Global, map: &Map<TerminalString, usize>) -> String {
    let mut text = String::new(alloc);
    for (terminal, place) in map.iter() {
        write!(text, "|{terminal} {place}").expect(rt, "memory");
    }
    text
}

/// Whether these are the texts of the entries.
fn has_texts(
    rt: &impl Abort,
    alloc: Global,
    map: &Map<TerminalString, usize>,
    texts: &str,
) -> bool {
    let found = texts_of(rt, alloc, map);
    found.as_str() == texts
}

#[test]
fn entries_in_order_each_once(rt: HostRuntime) {
    let map = places(&rt, rt.alloc());
    check(&rt, (map.len() == 3) & !map.is_empty());
    let copy = map.try_clone(rt.alloc()).expect(&rt, "memory");
    let texts = "|\"a\" 0|\"b\" 1|\"c\" 2";
    check(&rt, has_texts(&rt, rt.alloc(), &copy, texts));
}

/// The place of the quoted terminal, where it is a key.
fn place_of(
    rt: &impl Abort,
    alloc: Global,
    map: &Map<TerminalString, usize>,
    text: &str,
) -> Option<usize> {
    let terminal = terminal_of(rt, alloc, text);
    map.get(&terminal).copied()
}

#[test]
fn values_at_keys(rt: HostRuntime) {
    let alloc = rt.alloc();
    let map = places(&rt, alloc);
    check(&rt, place_of(&rt, alloc, &map, "b") == Some(1));
    check(&rt, place_of(&rt, alloc, &map, "d").is_none());
}

/// That a copy, made as maps make them, equals the value.
fn copies<T: TryClone + PartialEq + Drop>(rt: &impl Abort, alloc: Global, value: &T) {
    let copy = value.try_clone_in(alloc).expect(rt, "memory");
    check(rt, copy == *value);
}

#[test]
fn a_copy_of_a_nonterminal_without_productions(rt: HostRuntime) {
    let alloc = rt.alloc();
    let data = NonterminalData {
        name: name_of(&rt, alloc, "S"),
        attributes: List::new(alloc),
        span: Span(1, 2),
        productions: List::new(alloc),
    };
    copies(&rt, alloc, &data);
}
