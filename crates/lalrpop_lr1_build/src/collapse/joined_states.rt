//! One state for all that have the same core.

ghost use Rattle.std.specs.Prelude.{◌≡◌, ◌<◌, IfOk, length, map};
ghost use Rattle.lalrpop_lr1_build.specs.PublicStates.{finished_entries};
ghost use Rattle.lalrpop_lr1_theory.specs.JoinedStates.{AreNumbersAsSeen};
ghost use Rattle.lalrpop_lr1_build.specs.StateCores.{core_in_state};
ghost use Rattle.lalrpop_lr1_build.specs.JoinedStates.{AreJoinedByNumbers, IsJoinedWith};
ghost use Rattle.lalrpop_lr1_build.specs.Renumbering.{HaveTargetsWithin};

use crate::collapse::edges::renumber_edges;
use crate::collapse::joining::join_alike;
use lalrpop_grammar_repr::Production;
use lalrpop_grammar_symbols::List;
use lalrpop_lr1_core::{Items, Lr1Item, Lr1State, State, StateIndex};
use lalrpop_sets::TokenSet;
use std::alloc::{AllocError, Global};

/// The reductions by the finished items, in order.
fn reductions_of<'g>(
    alloc: Global,
    items: &[Lr1Item<'g>],
) -> Result<List<(TokenSet, &'g Production)>, AllocError>
    ensures { IfOk result (λ reductions. reductions ≡ finished_entries items.now) }
{
    let mut reductions = List::new(alloc);
    for item in items {
        if item.can_reduce() {
            reductions.push((item.lookahead.try_clone()?, item.production))?;
        }
    }
    Ok(reductions)
}

/// The state at the place, joined with all that have its number.
fn join_state<'g>(
    alloc: Global,
    states: &[Lr1State<'g>],
    numbers: &[usize],
    place: usize,
) -> Result<Lr1State<'g>, AllocError>
    requires numbers { AreNumbersAsSeen (map core_in_state states.now) numbers.now }
    requires targets { HaveTargetsWithin (length numbers.now) states.now }
    requires place { place < length states.now }
    ensures { IfOk result (λ joined. IsJoinedWith states.now numbers.now place joined) }
{
    let state = &states[place];
    let shifts = renumber_edges(alloc, &state.shifts, numbers)?;
    let gotos = renumber_edges(alloc, &state.gotos, numbers)?;
    let vec = join_alike(alloc, states, numbers, place)?;
    let reductions = reductions_of(alloc, vec.as_slice())?;
    Ok(State {
        index: StateIndex(numbers[place]),
        items: Items { vec },
        shifts,
        reductions,
        gotos,
    })
}

/// One state for each number, joined from all states that have it.
pub(crate) fn join_states<'g>(
    alloc: Global,
    states: &[Lr1State<'g>],
    numbers: &[usize],
) -> Result<Vec<Lr1State<'g>>, AllocError>
    requires numbers { AreNumbersAsSeen (map core_in_state states.now) numbers.now }
    requires targets { HaveTargetsWithin (length numbers.now) states.now }
    ensures { IfOk result (λ joined. AreJoinedByNumbers states.now numbers.now (length states.now) joined.items) }
{
    let mut joined = Vec::new(alloc);
    for place in 0..states.len() {
        if numbers[place] == joined.len() {
            joined.push(join_state(alloc, states, numbers, place)?)?;
        }
    }
    Ok(joined)
}
