//! The walk of a merge, depth first, each state once.

ghost use Rattle.std.specs.Prelude.{◌≡◌, ◌+◌, ◌++◌, ◌<◌, ◌≤◌, ◌^◌, IfOk, OnOk, length, reverse};
ghost use Rattle.lalrpop_lane_tables.specs.CopiedStates.{CopyingKeeps};
ghost use Rattle.lalrpop_lane_tables.specs.MergeViews.{AreClasses, UnlessMemory};
ghost use Rattle.lalrpop_lane_tables.specs.MergeWalks.{NotesVisit, steps_to, walk_left};

use crate::context_sets::ContextSet;
use crate::lane_tables::LaneTable;
use crate::merge_classes::{MergeFault, fitting_row, give_class, join, join_first_fitting};
use crate::merged_states::Copying;
use crate::unify_tables::{StateSet, UnifyTable};
use lalrpop_grammar_repr::Map;
use lalrpop_lr1_core::{Lr1State, StateIndex};
use std::alloc::{AllocError, Global};
use std::collections::BTreeSet;

/// A step that is still to be taken: from a visited state, which is the original or a copy of it, to a successor of the original.
#[derive(Clone, Copy)]
struct Step {
    state: StateIndex,
    original: StateIndex,
    successor: StateIndex,
}

/// Edges of the state to the original lead to its copy at the place, if there is such a state.
fn lead(
    copying: &mut Copying,
    states: &mut [Lr1State<'_>],
    state: StateIndex,
    place: usize,
) -> Result<(), AllocError>
    requires { place < length copying.old.copies.items }
    ensures kept { OnOk result (CopyingKeeps copying.old states.old copying.new states.new) }
    ensures copies { OnOk result (copying.new.copies.items ≡ copying.old.copies.items) }
{
    if state.0 < states.len() {
        copying.lead_to_copy(states, state, place)?;
    }
    Ok(())
}

/// Makes a copy of the successor, whose row is given and fits, and lets the state's edges lead to it.
fn add_copy<'g>(
    unify: &mut UnifyTable,
    states: &mut Vec<Lr1State<'g>>,
    sets: &mut Map<StateIndex, StateSet>,
    copying: &mut Copying,
    step: Step,
    row: ContextSet,
) -> Result<StateIndex, MergeFault>
    requires there { step.successor.0 < length states.old.items }
    requires classes { AreClasses (length row) sets.old unify.old }
    ensures classes { AreClasses (length row) sets.new unify.new }
    ensures kept { UnlessMemory result (CopyingKeeps copying.old states.old.items copying.new states.new.items) }
{
    if copying.left == 0 {
        return Err(MergeFault::Copies);
    }
    let place = copying.copies.len();
    let copy = StateIndex(states.len());
    give_class(unify, sets, copy, row)?;
    let _joined = join(unify, sets, step.state, copy)?;
    copying.push_copy(states, step.successor)?;
    lead(copying, states.as_mut_slice(), step.state, place)?;
    Ok(copy)
}

/// Makes a copy of the successor, where its row fits beside the class of the state.
fn make_copy<'g>(
    table: &LaneTable<'g>,
    unify: &mut UnifyTable,
    states: &mut Vec<Lr1State<'g>>,
    sets: &mut Map<StateIndex, StateSet>,
    copying: &mut Copying,
    step: Step,
) -> Result<StateIndex, MergeFault>
    requires { AreClasses table.now.conflicts sets.old unify.old }
    ensures classes { AreClasses table.now.conflicts sets.new unify.new }
    ensures kept { UnlessMemory result (CopyingKeeps copying.old states.old.items copying.new states.new.items) }
{
    if step.successor.0 >= states.len() {
        return Err(MergeFault::Pair(step.original, step.successor));
    }
    match fitting_row(table, unify, sets, step.state, step.successor)? {
        Some(row) => add_copy(unify, states, sets, copying, step, row),
        None => Err(MergeFault::Pair(step.original, step.successor)),
    }
}

/// Resolves to which state the step leads: to the successor where the classes fit, else to the first copy of it that fits, else to a
/// new one.
fn resolve<'g>(
    table: &LaneTable<'g>,
    unify: &mut UnifyTable,
    states: &mut Vec<Lr1State<'g>>,
    sets: &mut Map<StateIndex, StateSet>,
    copying: &mut Copying,
    step: Step,
) -> Result<StateIndex, MergeFault>
    requires { AreClasses table.now.conflicts sets.old unify.old }
    ensures classes { AreClasses table.now.conflicts sets.new unify.new }
    ensures kept { UnlessMemory result (CopyingKeeps copying.old states.old.items copying.new states.new.items) }
{
    if join(unify, sets, step.state, step.successor)? {
        return Ok(step.successor);
    }
    let found = join_first_fitting(
        unify,
        sets,
        copying.copies.as_slice(),
        step.state,
        step.successor,
    )?;
    match found {
        Some(place) => {
            lead(copying, states.as_mut_slice(), step.state, place)?;
            Ok(copying.copies[place].0)
        }
        None => make_copy(table, unify, states, sets, copying, step),
    }
}

/// Puts the steps to the successors on the others, the first one on top.
fn push_steps(
    steps: &mut Vec<Step>,
    state: StateIndex,
    original: StateIndex,
    successors: &BTreeSet<StateIndex>,
) -> Result<(), AllocError>
    ensures pushed { OnOk result (steps.new.items ≡ steps.old.items ++ reverse (steps_to state original successors.now.keys)) }
    ensures few { OnOk result (length steps.new.items < length steps.old.items + 2 ^ 63) }
{
    for successor in successors.iter().rev() {
        steps.push(Step {
            state,
            original,
            successor: *successor,
        })?;
    }
    Ok(())
}

/// Puts the steps from the state, which is the original or a copy of it, on the others.
fn push_steps_from(
    table: &LaneTable<'_>,
    steps: &mut Vec<Step>,
    state: StateIndex,
    original: StateIndex,
) -> Result<(), AllocError>
    ensures { OnOk result (length steps.new.items < length steps.old.items + 2 ^ 63) }
{
    if let Some(successors) = table.successors(original) {
        push_steps(steps, state, original, successors)?;
    }
    Ok(())
}

/// Notes that the state is visited: whether it is so for the first time.
fn note(visited: &mut BTreeSet<StateIndex>, state: StateIndex) -> Result<bool, AllocError>
    ensures { IfOk result (NotesVisit visited.old visited.new) }
{
    let came = visited.insert(state)?;
    let _shown = visited.iter();
    Ok(came)
}

/// Visits the state, which is the original or a copy of it, if it wasn't visited.
fn visit(
    table: &LaneTable<'_>,
    visited: &mut BTreeSet<StateIndex>,
    steps: &mut Vec<Step>,
    state: StateIndex,
    original: StateIndex,
) -> Result<(), AllocError>
    ensures { OnOk result (walk_left visited.new steps.new.items ≤ walk_left visited.old steps.old.items) }
{
    if note(visited, state)? {
        push_steps_from(table, steps, state, original)?;
    }
    Ok(())
}

/// Walks from the state, if it wasn't visited.
pub(crate) fn walk<'g>(
    alloc: Global,
    table: &LaneTable<'g>,
    unify: &mut UnifyTable,
    states: &mut Vec<Lr1State<'g>>,
    sets: &mut Map<StateIndex, StateSet>,
    copying: &mut Copying,
    visited: &mut BTreeSet<StateIndex>,
    from: StateIndex,
) -> Result<(), MergeFault>
    requires { AreClasses table.now.conflicts sets.old unify.old }
    ensures classes { AreClasses table.now.conflicts sets.new unify.new }
    ensures kept { UnlessMemory result (CopyingKeeps copying.old states.old.items copying.new states.new.items) }
{
    let mut steps = Vec::new(alloc);
    visit(table, visited, &mut steps, from, from)?;
    while let Some(step) = steps.pop() {
        let target = resolve(table, unify, states, sets, copying, step)?;
        visit(table, visited, &mut steps, target, step.successor)?;
    }
    Ok(())
}
