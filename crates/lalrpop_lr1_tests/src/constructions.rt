//! The construction by lane tables itself: how many states it makes with so many copies, and how many conflicts it tells.

ghost use Rattle.lalrpop_lr1_first.specs.NumberedGrammars.{HasItsTerminals};

use crate::check::check;
use crate::grammars::{PAIRS, grammar_of, name_of};
use lalrpop_grammar_repr::Grammar;
use lalrpop_lane::{LaneTableConstruct, Method, build_lane_table_states};
use lalrpop_lr1_build::build_lr1_states_canonical;
use lalrpop_lr1_core::{Lr1Result, TableFault};
use std::alloc::Global;
use std::process::Abort;

/// What is behind `"e"` depends on what is before it: `"a" E "a"`, `"b" E "b"`, `"a" F "b"`, `"b" F "a"`.
const APART: &str =
    "__S: S\nS: \"a\" E \"a\"\nS: \"b\" E \"b\"\nS: \"a\" F \"b\"\nS: \"b\" F \"a\"\nE: \"e\"\nF: \"e\"\n";

/// The same with the alternative `C C`, whose states needn't be apart.
const APART_BESIDE_PAIRS: &str =
    "__S: S\nS: \"a\" E \"a\"\nS: \"b\" E \"b\"\nS: \"a\" F \"b\"\nS: \"b\" F \"a\"\nS: C C\nE: \"e\"\nF: \"e\"\nC: \"c\" C\nC: \"d\"\n";

/// `"e"` comes behind `"f"` itself, and behind an `"x"` that comes behind `"p"` or `"q"`.
const BEHIND_ONE: &str =
    "__S: S\nS: \"f\" E \"b\"\nS: \"f\" F \"a\"\nS: \"p\" X \"a\"\nS: \"p\" Y \"b\"\nS: \"q\" X \"b\"\nS: \"q\" Y \"a\"\nX: \"x\" E\nY: \"x\" F\nE: \"e\"\nF: \"e\"\n";

/// `"e"` comes behind any number of `"x"`.
const BEHIND_MANY: &str =
    "__S: S\nS: \"c\" X \"p\"\nS: \"c\" Y \"q\"\nS: \"d\" X \"q\"\nS: \"d\" Y \"p\"\nX: \"x\" X\nX: \"e\"\nY: \"x\" Y\nY: \"e\"\n";

/// `"a" E "a"`, `"b" E`, `"a" F`, `"b" F "a"`: the end comes behind both from state 0 itself, which no copy keeps apart.
const BEFORE_THE_END: &str =
    "__S: S\nS: \"a\" E \"a\"\nS: \"b\" E\nS: \"a\" F\nS: \"b\" F \"a\"\nE: \"e\"\nF: \"e\"\n";

/// Of each grammar how many states it has by a method, and how many conflicts are told of them. By lanes there are as many states as
/// without lookaheads, and one more for each copy; where a conflict stays, no copy is left.
static ROWS: [(&str, Method, usize, usize); 17] = [
    (PAIRS, Method::Lane { copies: 0 }, 7, 0),
    (PAIRS, Method::Canonical, 10, 0),
    (APART, Method::Lane { copies: 0 }, 13, 1),
    (APART, Method::Lane { copies: 1 }, 14, 0),
    (APART, Method::Lane { copies: usize::MAX }, 14, 0),
    (APART, Method::Canonical, 14, 0),
    (APART_BESIDE_PAIRS, Method::Lane { copies: 0 }, 18, 1),
    (APART_BESIDE_PAIRS, Method::Lane { copies: 1 }, 19, 0),
    (APART_BESIDE_PAIRS, Method::Canonical, 22, 0),
    (BEHIND_ONE, Method::Lane { copies: 1 }, 21, 1),
    (BEHIND_ONE, Method::Lane { copies: 2 }, 23, 0),
    (BEHIND_ONE, Method::Canonical, 25, 0),
    (BEHIND_MANY, Method::Lane { copies: 1 }, 16, 1),
    (BEHIND_MANY, Method::Lane { copies: 2 }, 18, 0),
    (BEHIND_MANY, Method::Canonical, 20, 0),
    (BEFORE_THE_END, Method::Lane { copies: 9 }, 11, 1),
    (BEFORE_THE_END, Method::Canonical, 12, 0),
];

/// How many states there are, and how many conflicts are told of them. The tables are dropped here.
fn counts_of(rt: &impl Abort, tables: Lr1Result<'_>) -> (usize, usize) {
    match &tables {
        Ok(states) => (states.len(), 0),
        Err(TableFault::Conflicts(error)) => (error.states.len(), error.conflicts.len()),
        Err(TableFault::Memory) => panic!(rt; "memory"),
    }
}

/// The counts by lanes, which both calls tell alike.
fn lane_counts(rt: &impl Abort, alloc: Global, grammar: &Grammar, copies: usize) -> (usize, usize)
    requires { HasItsTerminals grammar.now }
{
    let construct = LaneTableConstruct::new(alloc, grammar, name_of(rt, alloc, "__S"));
    let made = counts_of(rt, construct.construct(copies));
    let start = name_of(rt, alloc, "__S");
    let built = counts_of(rt, build_lane_table_states(alloc, grammar, start, copies));
    check(rt, made == built);
    made
}

/// The counts by the method.
fn counts_by(rt: &impl Abort, alloc: Global, grammar: &Grammar, method: Method) -> (usize, usize)
    requires { HasItsTerminals grammar.now }
{
    match method {
        Method::Lane { copies } => lane_counts(rt, alloc, grammar, copies),
        Method::Canonical => {
            let start = name_of(rt, alloc, "__S");
            counts_of(rt, build_lr1_states_canonical(alloc, grammar, start))
        }
    }
}

/// That the grammar has so many states by the method, of which so many conflicts are told.
fn has(rt: &impl Abort, alloc: Global, lines: &str, method: Method, wanted: (usize, usize)) {
    let grammar = grammar_of(rt, alloc, lines);
    let counts = counts_by(rt, alloc, &grammar, method);
    assert!(rt; counts == wanted, "{lines}{counts:?} by {method:?}");
}

#[test]
fn states_and_conflicts_with_so_many_copies(rt: HostRuntime) {
    for (lines, method, states, conflicts) in ROWS.iter() {
        has(&rt, rt.alloc(), lines, *method, (*states, *conflicts));
    }
}
