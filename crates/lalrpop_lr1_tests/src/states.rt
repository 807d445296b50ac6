//! States of the construction: their conflicts, what they do before tokens, and their copies.

ghost use Rattle.lalrpop_lr1_first.specs.NumberedGrammars.{HasItsTerminals};

use crate::check::check;
use crate::grammars::{grammar_of, name_of, token_of};
use lalrpop_grammar_repr::{Grammar, TerminalSet};
use lalrpop_lr1_build::build_lr0_states;
use lalrpop_lr1_core::{Lookahead, LookaheadInterpret, Lr1Conflict, Lr1State, TableFault};
use lalrpop_plain_tables::answers::canonical_states;
use lalrpop_sets::Token;
use std::alloc::Global;
use std::process::Abort;

/// The canonical state 5, behind "a", shifts y and reduces by A before x and y, by B before y, and by C before x and the end.
const LINES: &str =
    "__S: S\nS: A \"x\"\nS: A \"y\"\nS: B \"y\"\nS: C \"x\"\nS: C\nS: \"a\" \"y\"\nA: \"a\"\nB: \"a\"\nC: \"a\"\n";

/// That a copy of the conflict equals it.
fn equals_its_copy(rt: &impl Abort, conflict: &Lr1Conflict<'_>) {
    check(rt, conflict.try_clone().expect(rt, "memory") == *conflict);
}

/// That copies of the conflicts equal them.
fn equal_their_copies(rt: &impl Abort, conflicts: &[Lr1Conflict<'_>]) {
    for conflict in conflicts {
        equals_its_copy(rt, conflict);
    }
}

/// That the state has four conflicts, which copies of them equal. The table of conflicts has which.
fn has_four_conflicts(
    rt: &impl Abort,
    alloc: Global,
    state: &Lr1State<'_>,
    terminals: &TerminalSet,
) {
    let conflicts = Lookahead::conflicts(alloc, terminals, state).expect(rt, "memory");
    check(rt, conflicts.len() == 4);
    equal_their_copies(rt, conflicts.as_slice());
}

/// Whether before the token the state reduces this nonterminal; the empty name stands for none.
fn reduces_before(
    state: &Lr1State<'_>,
    token: Token,
    terminals: &TerminalSet,
    wanted: &str,
) -> bool {
    match LookaheadInterpret::reduction(state, &token, terminals) {
        Some(production) => production.nonterminal.0.as_str() == wanted,
        None => wanted.is_empty(),
    }
}

/// By which production the state reduces before tokens: by the first that may.
fn reduces(rt: &impl Abort, alloc: Global, state: &Lr1State<'_>, terminals: &TerminalSet) {
    check(rt, reduces_before(state, Token::Eof, terminals, "C"));
    let y = token_of(rt, alloc, "y");
    check(rt, reduces_before(state, y, terminals, "A"));
    let a = token_of(rt, alloc, "a");
    check(rt, reduces_before(state, a, terminals, ""));
}

/// That a copy of the state does what the state does, and has its items.
fn copy_of_state_answers(
    rt: &impl Abort,
    alloc: Global,
    state: &Lr1State<'_>,
    terminals: &TerminalSet,
) {
    let copy = state.try_clone(alloc).expect(rt, "memory");
    has_four_conflicts(rt, alloc, &copy, terminals);
    reduces(rt, alloc, &copy, terminals);
    check(rt, copy.items == state.items);
}

fn canonical_states_answer(rt: &impl Abort, alloc: Global, grammar: &Grammar)
    requires { HasItsTerminals grammar.now }
{
    let start = name_of(rt, alloc, "__S");
    let canonical = canonical_states(alloc, grammar, &start).expect(rt, "memory");
    let state = canonical.states.as_slice().get(5).expect(rt, "a state");
    has_four_conflicts(rt, alloc, state, &grammar.terminals);
    reduces(rt, alloc, state, &grammar.terminals);
    copy_of_state_answers(rt, alloc, state, &grammar.terminals);
}

// Behind C a reduction stands beside a shift. Behind "a" three stand beside one, and the second and the third beside the first.
fn states_without_lookaheads_conflict(rt: &impl Abort, alloc: Global, grammar: &Grammar)
    requires { HasItsTerminals grammar.now }
{
    let start = name_of(rt, alloc, "__S");
    match build_lr0_states(alloc, grammar, start) {
        Err(TableFault::Conflicts(error)) => check(rt, error.conflicts.len() == 1 + (3 + 2)),
        _ => panic!(rt; "no conflicts"),
    }
}

#[test]
fn conflicts_reductions_and_copies_of_states(rt: HostRuntime) {
    let alloc = rt.alloc();
    let grammar = grammar_of(&rt, alloc, LINES);
    canonical_states_answer(&rt, alloc, &grammar);
    states_without_lookaheads_conflict(&rt, alloc, &grammar);
}
