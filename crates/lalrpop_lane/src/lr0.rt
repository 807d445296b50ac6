//! LR(0) states, whatever their conflicts, as states with lookaheads: each item and each reduction is before all tokens.

ghost use Rattle.std.specs.Prelude.{◌≡◌, IfOk, map};
ghost use Rattle.lalrpop_lr1_first.specs.NumberedGrammars.{HasItsTerminals};
ghost use Rattle.lalrpop_lane.specs.LaneStates.{AreSpreadOverLr0, item_before, reduction_before, state_before};

use lalrpop_grammar_repr::{Grammar, Production};
use lalrpop_grammar_symbols::{List, NonterminalString};
use lalrpop_lr1_build::all_states;
use lalrpop_lr1_core::{Items, Lr0Item, Lr0State, Lr1Item, Lr1State};
use lalrpop_sets::{Nil, TokenSet};
use std::alloc::{AllocError, Global};

/// The item before the tokens of the set.
fn put_before<'g>(item: &Lr0Item<'g>, set: &TokenSet) -> Result<Lr1Item<'g>, AllocError>
    ensures { IfOk result (λ new. new ≡ item_before set.now item.now) }
{
    Ok(Lr1Item {
        production: item.production,
        index: item.index,
        lookahead: set.try_clone()?,
    })
}

/// The items before the tokens of the set.
fn put_items_before<'g>(
    alloc: Global,
    items: &[Lr0Item<'g>],
    set: &TokenSet,
) -> Result<List<Lr1Item<'g>>, AllocError>
    ensures { IfOk result (λ new. new ≡ map (item_before set.now) items.now) }
{
    let mut new = List::new(alloc);
    for item in items {
        new.push(put_before(item, set)?)?;
    }
    Ok(new)
}

/// The reductions before the tokens of the set.
fn put_reductions_before<'g>(
    alloc: Global,
    reductions: &[(Nil, &'g Production)],
    set: &TokenSet,
) -> Result<List<(TokenSet, &'g Production)>, AllocError>
    ensures { IfOk result (λ new. new ≡ map (reduction_before set.now) reductions.now) }
{
    let mut new = List::new(alloc);
    for reduction in reductions {
        new.push((set.try_clone()?, reduction.1))?;
    }
    Ok(new)
}

/// The state with all of its items and reductions before the tokens of the set.
fn put_state_before<'g>(
    alloc: Global,
    state: &Lr0State<'g>,
    set: &TokenSet,
) -> Result<Lr1State<'g>, AllocError>
    ensures { IfOk result (λ new. new ≡ state_before set.now state.now) }
{
    let vec = put_items_before(alloc, state.items.vec.as_slice(), set)?;
    let reductions = put_reductions_before(alloc, state.reductions.as_slice(), set)?;
    Ok(Lr1State {
        index: state.index,
        items: Items { vec },
        shifts: state.shifts.try_clone(alloc)?,
        reductions,
        gotos: state.gotos.try_clone(alloc)?,
    })
}

/// The states with all of their items and reductions before the tokens of the set.
fn put_states_before<'g>(
    alloc: Global,
    states: &[Lr0State<'g>],
    set: &TokenSet,
) -> Result<Vec<Lr1State<'g>>, AllocError>
    ensures { IfOk result (λ new. new.items ≡ map (state_before set.now) states.now) }
{
    let mut new = Vec::new(alloc);
    for state in states {
        new.push(put_state_before(alloc, state, set)?)?;
    }
    Ok(new)
}

/// The states of the grammar for a start without lookaheads, whatever their conflicts, as states that know nothing of what follows: before
/// all tokens.
pub(crate) fn lr0_states<'g>(
    alloc: Global,
    grammar: &'g Grammar,
    start: &NonterminalString,
) -> Result<Vec<Lr1State<'g>>, AllocError>
    requires { HasItsTerminals grammar.now }
    ensures { IfOk result (λ states. AreSpreadOverLr0 grammar.now start.now.0 0 states.items) }
{
    let states = all_states(alloc, grammar, start, &Nil)?;
    let all = TokenSet::all(alloc, &grammar.terminals)?;
    put_states_before(alloc, states.as_slice(), &all)
}
