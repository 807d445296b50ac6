//! States by either method, in the order in which they are made and in that in which they are written out.

ghost use Rattle.lalrpop_lr1_first.specs.NumberedGrammars.{HasItsTerminals};

use crate::check::{check, text_is};
use crate::grammars::{PAIRS, grammar_of, name_of};
use lalrpop_grammar_repr::{Grammar, Map};
use lalrpop_grammar_symbols::NonterminalString;
use lalrpop_lane::{Method, build_lalr_states, build_lr1_states, build_states};
use lalrpop_lr1_check::check_states;
use lalrpop_lr1_core::{Lr1State, StateIndex};
use lalrpop_plain_tables::answers::has_its_terminals;
use std::alloc::Global;
use std::fmt::Display;
use std::process::Abort;

/// The number of each canonical state, and where it leads.
const CANONICAL: &str =
    r#"0 C 1 S 2 "c" 3 "d" 4; 1 C 5 "c" 6 "d" 7; 2; 3 C 8 "c" 3 "d" 4; 4; 5; 6 C 9 "c" 6 "d" 7; 7; 8; 9; "#;

/// The same with states 3 and 6, 4 and 7, 8 and 9 put together.
const COLLAPSED: &str =
    r#"0 C 1 S 2 "c" 3 "d" 4; 1 C 5 "c" 3 "d" 4; 2; 3 C 6 "c" 3 "d" 4; 4; 5; 6; "#;

/// The canonical states with 0, 1, 3 and 6 before the others.
const CANONICAL_IN_ORDER: &str =
    r#"0 C 1 S 4 "c" 2 "d" 5; 1 C 6 "c" 3 "d" 7; 2 C 8 "c" 2 "d" 5; 3 C 9 "c" 3 "d" 7; 4; 5; 6; 7; 8; 9; "#;

/// Those put together with 0, 1 and 3 before the others.
const COLLAPSED_IN_ORDER: &str =
    r#"0 C 1 S 3 "c" 2 "d" 4; 1 C 5 "c" 2 "d" 4; 2 C 6 "c" 2 "d" 4; 3; 4; 5; 6; "#;

/// By lanes, with so many copies.
const LANES: Method = Method::Lane { copies: 9 };

/// Which states are made.
#[derive(Clone, Copy)]
enum Kind {
    Lr1,
    Lalr,
    Ordered,
}

/// The states of that kind.
fn states_of<'g>(
    rt: &impl Abort,
    alloc: Global,
    grammar: &'g Grammar,
    kind: Kind,
    method: Method,
) -> Vec<Lr1State<'g>>
    requires { HasItsTerminals grammar.now }
{
    let start = name_of(rt, alloc, "__S");
    let states = match kind {
        Kind::Lr1 => build_lr1_states(alloc, grammar, start, method),
        Kind::Lalr => build_lalr_states(alloc, grammar, start, method),
        Kind::Ordered => build_states(alloc, grammar, start, method),
    };
    states.expect(rt, "states")
}

/// Adds where the symbol leads.
fn push_edge<K: Display>(rt: &impl Abort, symbol: &K, to: StateIndex, text: &mut String) {
    write!(text, " {symbol} {to}").expect(rt, "memory");
}

/// Adds where the symbols lead.
fn push_edges<K: Ord + Display>(rt: &impl Abort, edges: &Map<K, StateIndex>, text: &mut String) {
    for (symbol, to) in edges.iter() {
        push_edge(rt, symbol, *to, text);
    }
}

/// Adds the number of the state, and where it leads.
fn push_state(rt: &impl Abort, state: &Lr1State<'_>, text: &mut String) {
    write!(text, "{}", state.index).expect(rt, "memory");
    push_edges(rt, &state.gotos, text);
    push_edges(rt, &state.shifts, text);
    text.push_str("; ").expect(rt, "memory");
}

/// Adds that of all states.
fn push_states(rt: &impl Abort, states: &[Lr1State<'_>], text: &mut String) {
    for state in states {
        push_state(rt, state, text);
    }
}

/// That the states of that kind lead so, and may be parsed with.
fn lead(
    rt: &impl Abort,
    alloc: Global,
    grammar: &Grammar,
    start: &NonterminalString,
    kind: Kind,
    method: Method,
    wanted: &str,
)
    requires { HasItsTerminals grammar.now }
{
    let states = states_of(rt, alloc, grammar, kind, method);
    let mut text = String::new(alloc);
    push_states(rt, states.as_slice(), &mut text);
    check(rt, text_is(text, wanted));
    let may = check_states(alloc, grammar, start, states.as_slice());
    check(rt, may.expect(rt, "memory"));
}

/// The states of the canonical way are these; those by lanes are the ones put together, whatever the grammar asks for.
fn lead_in_order(
    rt: &impl Abort,
    alloc: Global,
    grammar: &Grammar,
    start: &NonterminalString,
    canonical: &str,
)
    requires { HasItsTerminals grammar.now }
{
    let kind = Kind::Ordered;
    lead(
        rt,
        alloc,
        grammar,
        start,
        kind,
        Method::Canonical,
        canonical,
    );
    lead(rt, alloc, grammar, start, kind, LANES, COLLAPSED_IN_ORDER);
}

fn lead_by_either_method(
    rt: &impl Abort,
    alloc: Global,
    grammar: &Grammar,
    start: &NonterminalString,
)
    requires { HasItsTerminals grammar.now }
{
    let canonical = Method::Canonical;
    lead(rt, alloc, grammar, start, Kind::Lr1, canonical, CANONICAL);
    lead(rt, alloc, grammar, start, Kind::Lr1, LANES, COLLAPSED);
    lead(rt, alloc, grammar, start, Kind::Lalr, canonical, COLLAPSED);
    lead(rt, alloc, grammar, start, Kind::Lalr, LANES, COLLAPSED);
    lead_in_order(rt, alloc, grammar, start, CANONICAL_IN_ORDER);
}

// States with gotos come first.
#[test]
fn states_by_either_method_and_in_order(rt: HostRuntime) {
    let alloc = rt.alloc();
    let start = name_of(&rt, alloc, "__S");
    let mut grammar = grammar_of(&rt, alloc, PAIRS);
    lead_by_either_method(&rt, alloc, &grammar, &start);
    grammar.algorithm.lalr = true;
    check(&rt, has_its_terminals(&grammar));
    lead_in_order(&rt, alloc, &grammar, &start, COLLAPSED_IN_ORDER);
}
