//! States that reduce before just what is carried over them.

ghost use Rattle.std.specs.Prelude.{◌≡◌, IfOk, length, map};
ghost use Rattle.lalrpop_lr1_check_lookaheads.specs.LookaheadFlows.{HaveKnownItems};
ghost use Rattle.lalrpop_lr1_first.specs.NumberedGrammars.{HasItsTerminals, IsNumberTableOf};
ghost use Rattle.lalrpop_lane.specs.LaneStates.{
  AreBeforeSets,
  AreStatesBeforeSets,
  HaveSetEach,
  ReduceBeforeCarried,
};

use lalrpop_grammar_repr::{Grammar, Production};
use lalrpop_grammar_symbols::{List, NonterminalString};
use lalrpop_lr1_check_lookaheads::lookaheads::carried_lookaheads;
use lalrpop_lr1_core::Lr1State;
use lalrpop_lr1_first::Numbered;
use lalrpop_sets::TokenSet;
use std::alloc::{AllocError, Global};
use std::mem;

/// The reductions, each before the set at its place.
fn put_reductions_before<'g>(
    alloc: Global,
    sets: &[TokenSet],
    reductions: &[(TokenSet, &'g Production)],
) -> Result<List<(TokenSet, &'g Production)>, AllocError>
    requires { length sets.now ≡ length reductions.now }
    ensures { IfOk result (λ new. AreBeforeSets sets.now reductions.now new) }
{
    let mut new = List::new(alloc);
    for reduction in reductions {
        let place = new.len();
        new.push((sets[place].try_clone()?, reduction.1))?;
    }
    Ok(new)
}

/// The state with its reductions before the sets.
fn put_state_before<'g>(
    alloc: Global,
    sets: &[TokenSet],
    mut state: Lr1State<'g>,
) -> Result<Lr1State<'g>, AllocError>
    requires { length sets.now ≡ length state.reductions }
    ensures sets { IfOk result (λ new. AreBeforeSets sets.now state.entry.reductions new.reductions) }
    ensures rest { IfOk result (λ new. new ≡ record state.entry { reductions = new.reductions }) }
{
    let reductions = put_reductions_before(alloc, sets, state.reductions.as_slice())?;
    let _before = mem::replace(&mut state.reductions, reductions);
    Ok(state)
}

/// The states, each with its reductions before the sets at its place.
fn put_states_before<'g>(
    alloc: Global,
    sets: &[Vec<TokenSet>],
    states: Vec<Lr1State<'g>>,
) -> Result<Vec<Lr1State<'g>>, AllocError>
    requires { HaveSetEach states.items (map (λ own. own.items) sets.now) }
    ensures { IfOk result (λ new. AreStatesBeforeSets (map (λ own. own.items) sets.now) states.entry.items new.items) }
{
    let mut new = Vec::new(alloc);
    // each state is taken over, since its items may be long
    let mut rest = states.into_iter();
    while let Some(state) = rest.next() {
        let own = sets[new.len()].as_slice();
        new.push(put_state_before(alloc, own, state)?)?;
    }
    Ok(new)
}

/// The states, each reduction before just what is carried over them to its item. The table is the grammar's, and in the items of the states
/// stand terminals of the grammar alone.
pub(crate) fn reduce_before_carried<'g>(
    alloc: Global,
    grammar: &'g Grammar,
    table: &Numbered<'g>,
    start: &NonterminalString,
    states: Vec<Lr1State<'g>>,
) -> Result<Vec<Lr1State<'g>>, AllocError>
    requires grammar { HasItsTerminals grammar.now }
    requires table { IsNumberTableOf grammar.now table.now }
    requires known { HaveKnownItems grammar.now.terminals states.items }
    ensures { IfOk result (λ new. ReduceBeforeCarried grammar.now start.now.0 states.entry.items new.items) }
{
    let sets = carried_lookaheads(alloc, grammar, &*table, start, states.as_slice())?;
    put_states_before(alloc, sets.as_slice(), states)
}
