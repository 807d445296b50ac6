//! States while a merge goes on: copies of them, and edges that lead to copies.

ghost use Rattle.std.specs.Prelude.{◌≡◌, ◌<◌, ◌↔◌, [], IfOk, IsTrue, OnOk, length};
ghost use Rattle.std.specs.Option.{option_copied};
ghost use Rattle.lalrpop_lane_tables.specs.MergedStates.{redirected_state};
ghost use Rattle.lalrpop_lane_tables.specs.CopiedStates.{
  AddsCopy,
  AddsFirst,
  AddsMissingFirst,
  AreEdgesOfState,
  IsCopyOf,
  LeadsToCopy,
  has_edges,
  with_first_edges,
};
ghost use Rattle.lalrpop_lane_tables.specs.TableViews.{IsStateKey};

use lalrpop_grammar_repr::Map;
use lalrpop_grammar_symbols::{NonterminalString, TerminalString};
use lalrpop_lr1_core::{Lr1State, StateIndex};
use std::alloc::{AllocError, Global};
use std::mem;

/// The edges that a state had when a merge began.
#[derive(Drop)]
pub(crate) struct FirstEdges {
    shifts: Map<TerminalString, StateIndex>,
    gotos: Map<NonterminalString, StateIndex>,
}

/// What a merge keeps of the states that it changes.
#[derive(Drop)]
pub(crate) struct Copying {
    alloc: Global,
    /// Each copy, with what it is a copy of, in order.
    pub(crate) copies: Vec<(StateIndex, StateIndex)>,
    /// The first edges of states that have others by now.
    firsts: Map<StateIndex, FirstEdges>,
    /// How many copies may still be made.
    pub(crate) left: usize,
}

/// Edges of the state to one state lead to a copy of it.
fn redirect_edges(state: &mut Lr1State<'_>, from: StateIndex, to: StateIndex)
    ensures { state.new ≡ redirected_state from to state.old }
{
    state.shifts.redirect(from, to);
    state.gotos.redirect(from, to);
}

impl FirstEdges {
    /// The edges that the state has now.
    fn of(alloc: Global, state: &Lr1State<'_>) -> Result<FirstEdges, AllocError>
        ensures { IfOk result (AreEdgesOfState state.now) }
    {
        let shifts = state.shifts.try_clone(alloc)?;
        let gotos = state.gotos.try_clone(alloc)?;
        Ok(FirstEdges { shifts, gotos })
    }

    /// A copy that equals it.
    fn try_clone(&self, alloc: Global) -> Result<FirstEdges, AllocError>
        ensures { IfOk result (λ copy. copy ≡ self.now) }
    {
        let shifts = self.shifts.try_clone(alloc)?;
        let gotos = self.gotos.try_clone(alloc)?;
        Ok(FirstEdges { shifts, gotos })
    }
}

/// Puts the edges in place of those of the state.
fn give_edges(state: &mut Lr1State<'_>, edges: FirstEdges)
    ensures { state.new ≡ has_edges edges state.old }
{
    let FirstEdges { shifts, gotos } = edges;
    let _shifts = mem::replace(&mut state.shifts, shifts);
    let _gotos = mem::replace(&mut state.gotos, gotos);
}

/// Puts a copy of the edges, if there are such, in place of those of the state.
fn restore_edges(
    alloc: Global,
    state: &mut Lr1State<'_>,
    first: Option<&FirstEdges>,
) -> Result<(), AllocError>
    ensures { OnOk result (state.new ≡ with_first_edges (option_copied first.entry) state.old) }
{
    if let Some(edges) = first {
        let copy = edges.try_clone(alloc)?;
        give_edges(state, copy);
    }
    Ok(())
}

/// Adds the edges that the state has now.
fn add_first(
    alloc: Global,
    firsts: &mut Map<StateIndex, FirstEdges>,
    states: &[Lr1State<'_>],
    state: StateIndex,
) -> Result<(), AllocError>
    requires { state.0 < length states.now }
    ensures { OnOk result (AddsFirst states.now state firsts.old firsts.new) }
{
    let edges = FirstEdges::of(alloc, &states[state.0])?;
    firsts.insert(state, edges)?;
    Ok(())
}

/// Whether edges are noted of the state.
fn has_first(firsts: &Map<StateIndex, FirstEdges>, state: StateIndex) -> bool
    ensures { IsTrue result ↔ IsStateKey firsts.now state }
{
    firsts.get(&state).is_some()
}

/// Adds the edges that the state has now, if none are noted of it.
fn add_missing_first(
    alloc: Global,
    firsts: &mut Map<StateIndex, FirstEdges>,
    states: &[Lr1State<'_>],
    state: StateIndex,
) -> Result<(), AllocError>
    requires { state.0 < length states.now }
    ensures { OnOk result (AddsMissingFirst states.now state firsts.old firsts.new) }
{
    if has_first(firsts, state) {
        return Ok(());
    }
    add_first(alloc, firsts, states, state)?;
    Ok(())
}

/// A copy of the state, numbered as the next one, with the edges that it had first.
fn copy_of<'g>(
    alloc: Global,
    firsts: &Map<StateIndex, FirstEdges>,
    states: &[Lr1State<'g>],
    original: StateIndex,
) -> Result<Lr1State<'g>, AllocError>
    requires { original.0 < length states.now }
    ensures { IfOk result (IsCopyOf firsts.now states.now original) }
{
    let mut copy = states[original.0].try_clone(alloc)?;
    copy.index = StateIndex(states.len());
    restore_edges(alloc, &mut copy, firsts.get(&original))?;
    Ok(copy)
}

impl Copying {
    /// Nothing was done yet, and so many copies may be made.
    pub(crate) fn new(alloc: Global, left: usize) -> Copying
        ensures copies { result.copies.items ≡ [] }
        ensures firsts { result.firsts ≡ [] }
        ensures left { result.left ≡ left }
    {
        Copying {
            alloc,
            copies: Vec::new(alloc),
            firsts: Map::new(alloc),
            left,
        }
    }

    /// Puts a copy of the state behind the states, and notes of what it is one.
    pub(crate) fn push_copy<'g>(
        &mut self,
        states: &mut Vec<Lr1State<'g>>,
        original: StateIndex,
    ) -> Result<(), AllocError>
        requires there { original.0 < length states.old.items }
        requires left { 0 < self.old.left }
        ensures { OnOk result (AddsCopy original self.old states.old.items self.new states.new.items) }
    {
        let number = StateIndex(states.len());
        let copy = copy_of(self.alloc, &self.firsts, states.as_slice(), original)?;
        states.push(copy)?;
        self.copies.push((number, original))?;
        self.left -= 1;
        Ok(())
    }

    /// Edges of the state, which is one of those of which a copy may be made or a copy itself, lead to the copy at the place in
    /// place of its original.
    pub(crate) fn lead_to_copy(
        &mut self,
        states: &mut [Lr1State<'_>],
        state: StateIndex,
        place: usize,
    ) -> Result<(), AllocError>
        requires state { state.0 < length states.old }
        requires place { place < length self.old.copies.items }
        ensures { OnOk result (LeadsToCopy state place self.old states.old self.new states.new) }
    {
        add_missing_first(self.alloc, &mut self.firsts, states, state)?;
        let (copy, original) = self.copies[place];
        redirect_edges(&mut states[state.0], original, copy);
        Ok(())
    }
}
