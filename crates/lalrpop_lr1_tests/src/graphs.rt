//! The graph of states without lookaheads, and what one of them says of its items.

ghost use Rattle.lalrpop_lr1_first.specs.NumberedGrammars.{HasItsTerminals};

use crate::check::check;
use crate::grammars::{PAIRS, grammar_of, name_of, production_at};
use lalrpop_grammar_repr::{Grammar, Production, Symbol};
use lalrpop_lr1_build::build_lr0_states;
use lalrpop_lr1_core::{Lr0State, StateGraph, StateIndex};
use std::alloc::Global;
use std::process::Abort;

/// Whether a copy of that state has its items, and leads by C to 5.
fn copy_answers(rt: &impl Abort, alloc: Global, state: &Lr0State<'_>, more: &Production) -> bool {
    let copy = state.try_clone(alloc).expect(rt, "memory");
    let to = copy.gotos.get(&more.nonterminal) == Some(&StateIndex(5));
    to & (copy.items == state.items)
}

/// What the state behind the first C says: one symbol stands before a dot that isn't in front, one behind it, on a right side of S.
fn state_behind_one_answers(
    rt: &impl Abort,
    alloc: Global,
    state: &Lr0State<'_>,
    pair: &Production,
    more: &Production,
) {
    check(
        rt,
        (state.max_prefix().len() == 1) & (state.will_pop().len() == 1),
    );
    check(rt, state.will_push().len() == 1);
    check(rt, state.will_produce() == Some(&pair.nonterminal));
    check(rt, copy_answers(rt, alloc, state, more));
}

/// That the symbols lead to the state from these, and from no other.
fn lead_from(
    rt: &impl Abort,
    alloc: Global,
    graph: &StateGraph,
    symbols: &[Symbol],
    state: usize,
    wanted: &[StateIndex],
) {
    let found = graph.trace_back(alloc, StateIndex(state), symbols);
    check(rt, found.expect(rt, "memory").as_slice() == wanted);
}

/// That it is the state of this number.
fn is_state(rt: &impl Abort, found: Option<StateIndex>, wanted: usize) {
    check(rt, found == Some(StateIndex(wanted)));
}

/// Where edges lead, the newest first: gotos are newer than shifts, and those of a later state than those of an earlier one.
fn edges_are_given(rt: &impl Abort, graph: &StateGraph, c: &Symbol) {
    let mut after = graph.successors(StateIndex(3));
    is_state(rt, after.next(), 6);
    is_state(rt, after.next(), 4);
    is_state(rt, after.next(), 3);
    check(rt, after.next().is_none());
    let mut before = graph.predecessors(StateIndex(3), c);
    is_state(rt, before.next(), 3);
    is_state(rt, before.next(), 1);
    is_state(rt, before.next(), 0);
    check(rt, before.next().is_none());
}

/// `C = "c" C` is the production `more`. To state 6 lead "c" and `C` from each state with a "c"; to state 5 two `C` from state 0.
fn graph_answers(
    rt: &impl Abort,
    alloc: Global,
    states: &[Lr0State<'_>],
    pair: &Production,
    more: &Production,
) {
    let graph = StateGraph::new(alloc, states).expect(rt, "memory");
    let one = [StateIndex(0)];
    lead_from(rt, alloc, &graph, pair.symbols.as_slice(), 5, &one);
    let three = [StateIndex(0), StateIndex(1), StateIndex(3)];
    lead_from(rt, alloc, &graph, more.symbols.as_slice(), 6, &three);
    lead_from(rt, alloc, &graph, &[], 5, &[StateIndex(5)]);
    let c = more.symbols.as_slice().first().expect(rt, "a symbol");
    edges_are_given(rt, &graph, c);
}

// State 0 leads by C to 1, by S to 2, by "c" to 3 and by "d" to 4, state 1 by C to 5 and state 3 by C to 6; both lead by "c" and "d" as 0
// does.
fn states_answer(rt: &impl Abort, alloc: Global, grammar: &Grammar)
    requires { HasItsTerminals grammar.now }
{
    let start = name_of(rt, alloc, "__S");
    let states = build_lr0_states(alloc, grammar, start).expect(rt, "states");
    check(rt, states.len() == 7);
    let pair = production_at(rt, alloc, grammar, "S", 0);
    let more = production_at(rt, alloc, grammar, "C", 0);
    graph_answers(rt, alloc, states.as_slice(), pair, more);
    let behind = states.as_slice().get(1).expect(rt, "a state");
    state_behind_one_answers(rt, alloc, behind, pair, more);
}

#[test]
fn a_graph_of_states_and_one_of_them(rt: HostRuntime) {
    let alloc = rt.alloc();
    let grammar = grammar_of(&rt, alloc, PAIRS);
    states_answer(&rt, alloc, &grammar);
}
