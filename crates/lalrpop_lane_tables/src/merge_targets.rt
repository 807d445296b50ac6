//! The state of a merge with the conflicts, and copies of it: their reductions get the sets of their classes.

ghost use Rattle.std.specs.Prelude.{◌≡◌, ◌<◌, [], Contains, IfOk, OnOk, Some, length, slice_get, slice_set};
ghost use Rattle.lalrpop_lane_tables.specs.AppliedSets.{HaveActions};
ghost use Rattle.lalrpop_lane_tables.specs.MergeViews.{AreClasses};
ghost use Rattle.lalrpop_lane_tables.specs.PatchedTargets.{AddsPatch, ArePatches, ArePut, HaveTargetActions, IsTarget};

use crate::merge_classes::class_of;
use crate::unify_tables::{StateSet, UnifyTable};
use lalrpop_grammar_repr::{Map, Production};
use lalrpop_grammar_symbols::List;
use lalrpop_lr1_core::{Action, Lr1State, StateIndex};
use lalrpop_sets::TokenSet;
use std::alloc::{AllocError, Global};
use std::collections::BTreeSet;
use std::mem;

/// The reductions that a state is to have.
#[derive(Drop)]
pub(crate) struct Patch<'g> {
    state: StateIndex,
    reductions: List<(TokenSet, &'g Production)>,
}

/// Notes the state's reductions with the sets of its class, if it is one of the states and has a class.
fn add_patch<'g>(
    alloc: Global,
    unify: &UnifyTable,
    states: &[Lr1State<'g>],
    sets: &Map<StateIndex, StateSet>,
    actions: &BTreeSet<Action<'g>>,
    state: StateIndex,
    patches: &mut Vec<Patch<'g>>,
) -> Result<(), AllocError>
    requires classes { AreClasses (length actions.now.keys) sets.now unify.now }
    requires actions { (own : _) → slice_get states.now state.0 ≡ Some own → HaveActions actions.now.keys own.reductions }
    ensures { OnOk result (AddsPatch actions.now.keys sets.now unify.now states.now state patches.old.items patches.new.items) }
{
    if state.0 >= states.len() {
        return Ok(());
    }
    match class_of(sets, state) {
        Some(key) => {
            let columns = unify.probe_value(key);
            let reductions = columns.applied(
                alloc,
                states[state.0].reductions.as_slice(),
                actions,
            )?;
            patches.push(Patch { state, reductions })?;
            Ok(())
        }
        None => Ok(()),
    }
}

/// The reductions of the state and of its copies, each with the sets of its class.
pub(crate) fn patches_of<'g>(
    alloc: Global,
    unify: &UnifyTable,
    states: &[Lr1State<'g>],
    sets: &Map<StateIndex, StateSet>,
    actions: &BTreeSet<Action<'g>>,
    target: StateIndex,
    copies: &[(StateIndex, StateIndex)],
) -> Result<Vec<Patch<'g>>, AllocError>
    requires classes { AreClasses (length actions.now.keys) sets.now unify.now }
    requires actions { HaveTargetActions target copies.now actions.now.keys states.now }
    ensures { IfOk result (λ patches. ArePatches actions.now.keys sets.now unify.now states.now (IsTarget target copies.now) patches.items) }
{
    let mut patches = Vec::new(alloc);
    add_patch(alloc, unify, states, sets, actions, target, &mut patches)?;
    for place in 0..copies.len() {
        let (copy, original) = copies[place];
        if original == target {
            add_patch(alloc, unify, states, sets, actions, copy, &mut patches)?;
        }
    }
    Ok(patches)
}

/// Gives the state these reductions.
fn give_reductions<'g>(state: &mut Lr1State<'g>, reductions: List<(TokenSet, &'g Production)>)
    ensures { state.new ≡ record state.old { reductions = reductions.entry } }
{
    let _before = mem::replace(&mut state.reductions, reductions);
}

/// Gives the state of the patch its reductions.
fn put_patch<'g>(states: &mut [Lr1State<'g>], patch: Patch<'g>)
    requires { patch.state.0 < length states.old }
    ensures { (own : _) → slice_get states.old patch.entry.state.0 ≡ Some own
        → states.new ≡ slice_set states.old patch.entry.state.0 (record own { reductions = patch.entry.reductions }) }
{
    let Patch { state, reductions } = patch;
    give_reductions(&mut states[state.0], reductions);
}

/// Gives the states the reductions that were noted.
pub(crate) fn put_patches<'g>(states: &mut [Lr1State<'g>], patches: Vec<Patch<'g>>)
    requires { (p : _) → Contains patches.items p → p.state.0 < length states.old }
    ensures { ArePut patches.entry.items [] states.old states.new }
{
    let mut left = patches;
    while let Some(patch) = left.pop() {
        put_patch(states, patch);
    }
}
