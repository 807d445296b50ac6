//! Classes of states while a merge goes on: which fit, and which are joined.

ghost use Rattle.std.specs.Prelude.{◌≡◌, ◌↔◌, ◌<◌, ℕ, IfOk, IfSome, IsTrue, OnOk, length, map};
ghost use Rattle.lalrpop_lane_tables.specs.MergeClasses.{
  AreClassesOfSome,
  FittingAnswer,
  FittingRowAnswer,
  GivesClass,
  JoinAnswer,
  KeysAnswer,
  RowAnswer,
  RowFits,
  class_key_of,
};
ghost use Rattle.lalrpop_lane_tables.specs.MergeViews.{AreClasses};
ghost use Rattle.lalrpop_lane_tables.specs.UnifiedClasses.{HaveSameCount};

use crate::context_sets::{ContextFault, ContextSet};
use crate::lane_tables::LaneTable;
use crate::unify_tables::{StateSet, UnifyTable};
use lalrpop_grammar_repr::Map;
use lalrpop_lr1_core::StateIndex;
use std::alloc::{AllocError, Global};

/// Why a merge gave up.
#[derive(Clone, Copy, Debug, PartialEq, Eq)]
pub enum MergeFault {
    /// The first state leads on to the second, whose row doesn't fit beside the first one's class.
    Pair(StateIndex, StateIndex),
    /// No more copies may be made.
    Copies,
    /// Memory is refused.
    Memory,
}

impl From<AllocError> for MergeFault {
    ghost use Rattle.lalrpop_lane_tables.specs.declared.merge_classes.MergeFault.TheVariants.{Memory};

    ghost from_gives = { λ _ fault. fault ≡ Memory };

    fn from(_: AllocError) -> MergeFault {
        MergeFault::Memory
    }
}

/// The class of the state, if it has one.
pub(crate) fn class_of(sets: &Map<StateIndex, StateSet>, state: StateIndex) -> Option<StateSet>
    ensures { result ≡ class_key_of sets.now state }
{
    sets.get(&state).copied()
}

/// Joins the classes of two keys if they fit: whether they do.
fn join_keys(unify: &mut UnifyTable, one: StateSet, other: StateSet) -> Result<bool, MergeFault>
    requires one { one.index < length unify.old }
    requires other { other.index < length unify.old }
    requires lengths { HaveSameCount unify.old one.index other.index }
    ensures { KeysAnswer unify.old one other unify.new result }
{
    match unify.unify_var_var(one, other) {
        Ok(()) => Ok(true),
        Err(ContextFault::Overlap(_)) => Ok(false),
        Err(ContextFault::Memory) => Err(MergeFault::Memory),
    }
}

/// Joins the classes of two states if both have one and these fit: whether they do.
pub(crate) fn join(
    unify: &mut UnifyTable,
    sets: &Map<StateIndex, StateSet>,
    state: StateIndex,
    successor: StateIndex,
) -> Result<bool, MergeFault>
    requires { AreClassesOfSome sets.now unify.old }
    ensures { JoinAnswer sets.now unify.old state successor unify.new result }
{
    match class_of(sets, state) {
        Some(one) => match class_of(sets, successor) {
            Some(other) => join_keys(unify, one, other),
            None => Ok(false),
        },
        None => Ok(false),
    }
}

/// The place of the first copy of the original whose class fits that of the state, and is joined to it.
pub(crate) fn join_first_fitting(
    unify: &mut UnifyTable,
    sets: &Map<StateIndex, StateSet>,
    copies: &[(StateIndex, StateIndex)],
    state: StateIndex,
    original: StateIndex,
) -> Result<Option<usize>, MergeFault>
    requires { AreClassesOfSome sets.now unify.old }
    ensures { FittingAnswer sets.now unify.old state original copies.now unify.new result }
{
    for place in 0..copies.len() {
        let (copy, of) = copies[place];
        if of == original && join(unify, sets, state, copy)? {
            return Ok(Some(place));
        }
    }
    Ok(None)
}

/// The row of the state, where no two of its columns meet.
fn row_of(table: &LaneTable<'_>, state: StateIndex) -> Result<Option<ContextSet>, MergeFault>
    ensures { RowAnswer table.now state result }
{
    match table.context_set(state) {
        Ok(row) => Ok(Some(row)),
        Err(ContextFault::Overlap(_)) => Ok(None),
        Err(ContextFault::Memory) => Err(MergeFault::Memory),
    }
}

/// Whether the state has a class, and the row fits beside it.
fn fits(
    unify: &UnifyTable,
    sets: &Map<StateIndex, StateSet>,
    state: StateIndex,
    row: &ContextSet,
) -> bool
    requires { AreClassesOfSome sets.now unify.now }
    ensures { IsTrue result ↔ RowFits sets.now unify.now state row.now }
{
    match class_of(sets, state) {
        Some(key) => !unify.probe_value(key).meets(row),
        None => false,
    }
}

/// The successor's row, where it fits beside the class of the state.
pub(crate) fn fitting_row(
    table: &LaneTable<'_>,
    unify: &UnifyTable,
    sets: &Map<StateIndex, StateSet>,
    state: StateIndex,
    successor: StateIndex,
) -> Result<Option<ContextSet>, MergeFault>
    requires { AreClassesOfSome sets.now unify.now }
    ensures { FittingRowAnswer sets.now unify.now state table.now successor result }
{
    match row_of(table, successor)? {
        Some(row) => {
            if fits(unify, sets, state, &row) {
                Ok(Some(row))
            } else {
                Ok(None)
            }
        }
        None => Ok(None),
    }
}

/// Gives the state a new class with the row.
pub(crate) fn give_class(
    unify: &mut UnifyTable,
    sets: &mut Map<StateIndex, StateSet>,
    state: StateIndex,
    row: ContextSet,
) -> Result<(), AllocError>
    ensures gives { OnOk result (GivesClass sets.old unify.old state row sets.new unify.new) }
    ensures classes { (count : ℕ) → length row ≡ count → AreClasses count sets.old unify.old → AreClasses count sets.new unify.new }
{
    let key = unify.new_key(row)?;
    sets.insert(state, key)?;
    Ok(())
}
