//! Patterns and sets of characters: copies and printed faults.

use crate::check::{boxed, check, debug_text, is_debug};
use lalrpop_lexer::re::{CharacterSet, Range, Regex};
use lalrpop_lexer_regex::{RegexError, parse_regex};
use std::alloc::Global;
use std::process::Abort;

/// The text of a copy of the tree.
fn copied_text(rt: &impl Abort, alloc: Global, tree: &Regex) -> String {
    let copy = boxed(rt, alloc, tree.try_clone(alloc).expect(rt, "memory"));
    debug_text(rt, alloc, &*copy)
}

/// A pattern with each kind of tree.
const PATTERN: &str = "(?<n>a){1,2}?^[b-c]|(b)*c\\.|(?i)";

#[test]
fn a_copy_of_a_tree_is_the_same(rt: HostRuntime) {
    let tree = boxed(
        &rt,
        rt.alloc(),
        parse_regex(rt.alloc(), PATTERN).expect(&rt, "a pattern"),
    );
    let copied = copied_text(&rt, rt.alloc(), &tree);
    check(&rt, is_debug(&rt, rt.alloc(), &*tree, copied.as_str()));
}

/// That copies of the set and of its class have these ranges.
fn copies_have(rt: &impl Abort, alloc: Global, set: &CharacterSet, wanted: &[Range]) {
    let copy = set.try_clone(alloc).expect(rt, "memory").into_class();
    check(rt, copy.ranges.as_slice() == wanted);
    let again = copy.try_clone(alloc).expect(rt, "memory");
    check(rt, again.ranges.as_slice() == wanted);
}

/// That all characters have these ranges.
fn all_have(rt: &impl Abort, alloc: Global, wanted: &[Range]) {
    let all = CharacterSet::empty(alloc).complement().expect(rt, "memory");
    check(rt, all.ranges.as_slice() == wanted);
}

/// Ranges in no order, of which some touch and one is empty.
#[test]
fn copies_of_sets_have_their_ranges(rt: HostRuntime) {
    let alloc = rt.alloc();
    let ranges = vec![in alloc;
        Range { start: 8, end: 9 },
        Range { start: 1, end: 3 },
        Range { start: 4, end: 6 },
        Range { start: 5, end: 2 },
    ]
    .expect(&rt, "memory");
    let wanted = [Range { start: 1, end: 6 }, Range { start: 8, end: 9 }];
    let set = CharacterSet::from_ranges(ranges).expect(&rt, "memory");
    check(&rt, set.contains(6) & !set.contains(7));
    copies_have(&rt, alloc, &set, &wanted);
    let wanted = [
        Range {
            start: 0,
            end: 0xD7FF,
        },
        Range {
            start: 0xE000,
            end: 0x10_FFFF,
        },
    ];
    all_have(&rt, alloc, &wanted);
}

/// The texts of all other faults are in cases.
#[test]
fn want_of_memory_is_printed(rt: HostRuntime) {
    let shown = format!(in rt.alloc(); "{}", RegexError::Memory).expect(&rt, "memory");
    check(&rt, shown.as_str() == "out of memory");
}
