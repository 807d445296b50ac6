//! Lane tables of the actions of states, and the classes with which merges by them begin.

ghost use Rattle.std.specs.Prelude.{◌≡◌, ◌<◌, IfOk, length};
ghost use Rattle.lalrpop_lr1_core.specs.Edges.{edges_of};
ghost use Rattle.lalrpop_lr1_first.specs.FirstSetsOf.{AreFirstSetsOf};
ghost use Rattle.lalrpop_lane_tables.specs.MergeViews.{AreClasses};
ghost use Rattle.lalrpop_lane.specs.Merges.{HaveColumns};

use lalrpop_grammar_repr::{Grammar, Map};
use lalrpop_grammar_symbols::NonterminalString;
use lalrpop_lane_tables::{ConflictIndex, ContextSet, LaneTable, LaneTracer, StateSet, UnifyTable};
use lalrpop_lr1_core::{Action, Lr1State, StateGraph, StateIndex};
use lalrpop_lr1_first::FirstSets;
use lalrpop_sets::TokenSet;
use std::alloc::{AllocError, Global};

/// The actions of the state: its shifts, and then its reductions.
fn actions_of<'g>(alloc: Global, state: &Lr1State<'g>) -> Result<Vec<Action<'g>>, AllocError> {
    let mut actions = Vec::new(alloc);
    for (terminal, target) in state.shifts.iter() {
        actions.push(Action::Shift(terminal.try_clone()?, *target))?;
    }
    for reduction in state.reductions.as_slice() {
        actions.push(Action::Reduce(reduction.1))?;
    }
    Ok(actions)
}

/// Traces the actions of the state, each into the column at its place.
fn trace_actions<'g>(
    tracer: &mut LaneTracer<'_, 'g, TokenSet>,
    state: usize,
    actions: &[Action<'g>],
) -> Result<(), AllocError>
    requires { tracer.old.table.conflicts ≡ length actions.now }
{
    for column in 0..actions.len() {
        let action = actions[column].try_clone()?;
        tracer.start_trace(StateIndex(state), ConflictIndex::new(column), action)?;
    }
    Ok(())
}

/// The table of the lanes of all actions of a state over the states as they stand, a column for each action.
pub(crate) fn table_of_actions<'g>(
    alloc: Global,
    grammar: &'g Grammar,
    start: &NonterminalString,
    first_sets: &FirstSets,
    state_graph: &StateGraph,
    states: &[Lr1State<'g>],
    state: usize,
) -> Result<LaneTable<'g>, AllocError>
    requires firsts { AreFirstSetsOf grammar.now first_sets.now }
    requires graph { state_graph.now ≡ edges_of states.now }
    requires state { state < length states.now }
{
    let actions = actions_of(alloc, &states[state])?;
    let mut tracer = LaneTracer::new(
        alloc,
        grammar,
        start.try_clone()?,
        &*states,
        &*first_sets,
        &*state_graph,
        actions.len(),
    );
    trace_actions(&mut tracer, state, actions.as_slice())?;
    Ok(tracer.into_table())
}

/// A class of its own for each state with a row.
pub(crate) fn classes_of_rows(
    alloc: Global,
    rows: &Map<StateIndex, ContextSet>,
) -> Result<(UnifyTable, Map<StateIndex, StateSet>), AllocError>
    ensures { IfOk result (λ made. (count : _) → HaveColumns count rows.now → AreClasses count made.1 made.0) }
{
    let mut unify = UnifyTable::new(alloc);
    let mut sets = Map::new(alloc);
    for (state, columns) in rows.iter() {
        let key = unify.new_key(columns.try_clone(alloc)?)?;
        sets.insert(*state, key)?;
    }
    Ok((unify, sets))
}
