//! Merges for the states that conflict, one after the other.

ghost use Rattle.std.specs.Prelude.{◌≡◌, ◌<◌, IfOk, IfSome, IsTrue, length};
ghost use Rattle.lalrpop_lr1_core.specs.Edges.{edges_of};
ghost use Rattle.lalrpop_lr1_first.specs.FirstSetsOf.{AreFirstSetsOf};
ghost use Rattle.lalrpop_lane_tables.specs.MergeViews.{AreClasses, MergeKeeps};
ghost use Rattle.lalrpop_lane.specs.Merges.{HaveColumns, MergesKeep, Resolves, ResolvesAll};

use crate::conflict_tables::{classes_of_rows, table_of_actions};
use lalrpop_grammar_repr::{Grammar, Map, TerminalSet};
use lalrpop_grammar_symbols::NonterminalString;
use lalrpop_lane_tables::{
    ContextFault, ContextSet, LaneTable, Merge, MergeFault, RowsFault, StateSet, UnifyTable,
};
use lalrpop_lr1_check_lookaheads::parts::have_no_conflict;
use lalrpop_lr1_core::{Lr1State, StateGraph, StateIndex};
use lalrpop_lr1_first::FirstSets;
use std::alloc::{AllocError, Global};
use std::collections::BTreeSet;
use std::mem;

/// What became of a state that conflicts.
#[derive(Clone, Copy)]
pub(crate) enum Resolved {
    /// Its columns don't meet: copies that were made before keep them apart.
    Apart,
    /// A merge was made, and so many copies may still be.
    Merged(usize),
    /// No merge keeps them apart, or not so few copies.
    GivenUp,
}

/// Whether no two columns of the table meet.
fn are_apart(table: &LaneTable<'_>) -> Result<bool, AllocError> {
    match table.columns() {
        Ok(_columns) => Ok(true),
        Err(ContextFault::Overlap(_)) => Ok(false),
        Err(ContextFault::Memory) => Err(AllocError),
    }
}

/// The rows of the table; none where columns meet in one.
fn rows_of(table: &LaneTable<'_>) -> Result<Option<Map<StateIndex, ContextSet>>, AllocError>
    ensures { IfOk result (λ found. IfSome found (λ rows. HaveColumns table.now.conflicts rows)) }
{
    match table.rows() {
        Ok(rows) => Ok(Some(rows)),
        Err(RowsFault::Overlap(_)) => Ok(None),
        Err(RowsFault::Memory) => Err(AllocError),
    }
}

/// Lets the merge walk from the beachhead: whether it could.
fn walk_from<'g>(
    merge: &mut Merge,
    table: &LaneTable<'g>,
    unify: &mut UnifyTable,
    states: &mut Vec<Lr1State<'g>>,
    sets: &mut Map<StateIndex, StateSet>,
    beachhead: StateIndex,
) -> Result<bool, AllocError>
    requires { AreClasses table.now.conflicts sets.old unify.old }
    ensures classes { AreClasses table.now.conflicts sets.new unify.new }
    ensures kept { IfOk result (λ _. MergeKeeps merge.old states.old.items merge.new states.new.items) }
{
    match merge.start(table, unify, states, sets, beachhead) {
        Ok(()) => Ok(true),
        Err(MergeFault::Pair(_, _)) => Ok(false),
        Err(MergeFault::Copies) => Ok(false),
        Err(MergeFault::Memory) => Err(AllocError),
    }
}

/// Lets the merge walk from each of the beachheads: whether it could.
fn walk_from_all<'g>(
    merge: &mut Merge,
    table: &LaneTable<'g>,
    unify: &mut UnifyTable,
    states: &mut Vec<Lr1State<'g>>,
    sets: &mut Map<StateIndex, StateSet>,
    beachheads: &BTreeSet<StateIndex>,
) -> Result<bool, AllocError>
    requires { AreClasses table.now.conflicts sets.old unify.old }
    ensures { IfOk result (λ _. MergeKeeps merge.old states.old.items merge.new states.new.items) }
{
    for beachhead in beachheads.iter() {
        let done = walk_from(merge, table, unify, states, sets, *beachhead)?;
        if !done {
            return Ok(false);
        }
    }
    Ok(true)
}

/// A merge for the state, where no row of the table overlaps.
fn merge_rows<'g>(
    alloc: Global,
    table: &LaneTable<'g>,
    rows: &Map<StateIndex, ContextSet>,
    states: &mut Vec<Lr1State<'g>>,
    state: StateIndex,
    left: usize,
) -> Result<Resolved, AllocError>
    requires { HaveColumns table.now.conflicts rows.now }
    ensures { IfOk result (Resolves states.old.items left states.new.items) }
{
    let (mut unify, mut sets) = classes_of_rows(alloc, rows)?;
    let beachheads = table.beachhead_states()?;
    let mut merge = Merge::new(alloc, state, left);
    let done = walk_from_all(
        &mut merge,
        table,
        &mut unify,
        states,
        &mut sets,
        &beachheads,
    )?;
    if done {
        Ok(Resolved::Merged(merge.copies_left()))
    } else {
        Ok(Resolved::GivenUp)
    }
}

/// A merge for the state by the table of its actions, where columns of it meet.
fn merge_by<'g>(
    alloc: Global,
    table: &LaneTable<'g>,
    states: &mut Vec<Lr1State<'g>>,
    state: StateIndex,
    left: usize,
) -> Result<Resolved, AllocError>
    ensures { IfOk result (Resolves states.old.items left states.new.items) }
{
    let apart = are_apart(table)?;
    if apart {
        return Ok(Resolved::Apart);
    }
    let found = rows_of(table)?;
    match found {
        Some(rows) => merge_rows(alloc, table, &rows, states, state, left),
        None => Ok(Resolved::GivenUp),
    }
}

/// Resolves what conflicts in the state. The first sets are the grammar's, and the graph is that of the states.
fn resolve<'g>(
    alloc: Global,
    grammar: &'g Grammar,
    start: &NonterminalString,
    first_sets: &FirstSets,
    state_graph: &StateGraph,
    states: &mut Vec<Lr1State<'g>>,
    state: usize,
    left: usize,
) -> Result<Resolved, AllocError>
    requires firsts { AreFirstSetsOf grammar.now first_sets.now }
    requires graph { state_graph.now ≡ edges_of states.old.items }
    requires state { state < length states.old.items }
    ensures { IfOk result (Resolves states.old.items left states.new.items) }
{
    let table = table_of_actions(
        alloc,
        grammar,
        start,
        first_sets,
        state_graph,
        states.as_slice(),
        state,
    )?;
    merge_by(alloc, &table, states, StateIndex(state), left)
}

/// Whether the state conflicts.
fn has_conflict(
    alloc: Global,
    terminals: &TerminalSet,
    states: &[Lr1State<'_>],
    state: usize,
) -> Result<bool, AllocError>
    requires { state < length states.now }
{
    let none = have_no_conflict(alloc, terminals, &states[state..state + 1])?;
    Ok(!none)
}

/// Resolves what conflicts in the state, if something does.
fn resolve_if_conflicting<'g>(
    alloc: Global,
    grammar: &'g Grammar,
    start: &NonterminalString,
    first_sets: &FirstSets,
    state_graph: &StateGraph,
    states: &mut Vec<Lr1State<'g>>,
    state: usize,
    left: usize,
) -> Result<Resolved, AllocError>
    requires firsts { AreFirstSetsOf grammar.now first_sets.now }
    requires graph { state_graph.now ≡ edges_of states.old.items }
    requires state { state < length states.old.items }
    ensures { IfOk result (Resolves states.old.items left states.new.items) }
{
    let conflicts = has_conflict(alloc, &grammar.terminals, states.as_slice(), state)?;
    if conflicts {
        resolve(
            alloc,
            grammar,
            start,
            first_sets,
            state_graph,
            states,
            state,
            left,
        )
    } else {
        Ok(Resolved::Apart)
    }
}

/// Resolves what conflicts in the state, if something does, and makes the graph anew after a merge: whether it was not given up. The first
/// sets are the grammar's, and the graph is that of the states.
fn resolve_next<'g>(
    alloc: Global,
    grammar: &'g Grammar,
    start: &NonterminalString,
    first_sets: &FirstSets,
    graph: &mut StateGraph,
    states: &mut Vec<Lr1State<'g>>,
    state: usize,
    left: &mut usize,
) -> Result<bool, AllocError>
    requires firsts { AreFirstSetsOf grammar.now first_sets.now }
    requires graph { graph.old ≡ edges_of states.old.items }
    requires state { state < length states.old.items }
    ensures kept { IfOk result (λ done. IsTrue done → MergesKeep states.old.items left.old states.new.items left.new) }
    ensures graph { IfOk result (λ done. IsTrue done → graph.new ≡ edges_of states.new.items) }
{
    let resolved = resolve_if_conflicting(
        alloc, grammar, start, first_sets, graph, states, state, *left,
    )?;
    match resolved {
        Resolved::Apart => Ok(true),
        Resolved::Merged(now) => {
            let made = StateGraph::new(alloc, states.as_slice())?;
            let _old = mem::replace(graph, made);
            *left = now;
            Ok(true)
        }
        Resolved::GivenUp => Ok(false),
    }
}

/// Resolves what conflicts in the states, one after the other, over the states as they then stand: how many copies may still be made, or
/// none where a state can't be resolved by so many. The first sets are the grammar's.
pub(crate) fn resolve_all<'g>(
    alloc: Global,
    grammar: &'g Grammar,
    start: &NonterminalString,
    first_sets: &FirstSets,
    states: &mut Vec<Lr1State<'g>>,
    copies: usize,
) -> Result<Option<usize>, AllocError>
    requires { AreFirstSetsOf grammar.now first_sets.now }
    ensures { IfOk result (ResolvesAll states.old.items copies states.new.items) }
{
    let mut left = copies;
    let mut graph = StateGraph::new(alloc, states.as_slice())?;
    for state in 0..states.len() {
        let done = resolve_next(
            alloc, grammar, start, first_sets, &mut graph, states, state, &mut left,
        )?;
        if !done {
            return Ok(None);
        }
    }
    Ok(Some(left))
}
