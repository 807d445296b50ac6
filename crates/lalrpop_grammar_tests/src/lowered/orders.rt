//! Orders and hashes of productions and their symbols.

use crate::check::check;
use crate::lowered::parts::production_of;
use lalrpop_grammar_repr::{ActionFn, Production};
use lalrpop_grammar_symbols::Span;
use std::alloc::Global;
use std::collections::HashSet;
use std::process::Abort;

/// Productions in their order: each differs from the first in one field, the last in the first field.
fn ascending(rt: &impl Abort, alloc: Global) -> [Production; 4] {
    [
        production_of(rt, alloc, "A", "A", ActionFn::new(0), Span(0, 9)),
        production_of(rt, alloc, "A", "A", ActionFn::new(1), Span(0, 9)),
        production_of(rt, alloc, "A", "B", ActionFn::new(0), Span(0, 9)),
        production_of(rt, alloc, "B", "A", ActionFn::new(0), Span(0, 9)),
    ]
}

/// Whether each of the four is before the next.
fn are_ascending(productions: &[Production]) -> bool {
    match productions {
        [first, second, third, fourth] => { (first < second) & (second < third) & (third < fourth) }
        _ => false,
    }
}

#[test]
fn productions_are_ordered_by_their_fields(rt: HostRuntime) {
    let productions = ascending(&rt, rt.alloc());
    check(&rt, are_ascending(&productions));
}

#[test]
fn equal_productions_are_one(rt: HostRuntime) {
    let alloc = rt.alloc();
    let mut seen = HashSet::new(alloc);
    let production = production_of(&rt, alloc, "A", "B", ActionFn::new(0), Span(0, 9));
    let copy = production.try_clone(alloc).expect(&rt, "memory");
    check(&rt, seen.insert(production).expect(&rt, "memory"));
    check(&rt, !seen.insert(copy).expect(&rt, "memory"));
}
