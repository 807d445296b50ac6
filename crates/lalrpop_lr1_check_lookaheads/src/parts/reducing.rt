//! By what states reduce: finished items alone, without conflicts, and by the start before the end alone.

ghost use Rattle.std.specs.Prelude.{◌≡◌, ◌↔◌, IfOk, IsTrue, Contains, length, map, ℕ, true};
ghost use Rattle.lalrpop_sets.specs.AscendingLists.{has};
ghost use Rattle.lalrpop_sets.specs.Tokens.{eof_number};
ghost use Rattle.lalrpop_lr1_theory.specs.Laws.{HaveNoConflict};
ghost use Rattle.lalrpop_lr1_core.specs.Conflicts.{token_conflicts};
ghost use Rattle.lalrpop_lr1_core.specs.Numbering.{IsNumberedByPlaces, NumbersArePlaces};
ghost use Rattle.lalrpop_lr1_core.specs.Views.{lr_state_view, token_lookahead};
ghost use Rattle.lalrpop_lr1_check_lookaheads.specs.ListTests.{HoldsAtEach};
ghost use Rattle.lalrpop_lr1_check_lookaheads.specs.ListedItems.{item_key, key_at};
ghost use Rattle.lalrpop_lr1_check_lookaheads.specs.Reductions.{DoesEndRightly, EndsAsSeen, IsEndAlone, IsFinishedIn, OverTokens};

use crate::parts::conflicts::has_no_conflict;
use crate::parts::listed::{ListedItem, has_item};
use indexmap::IndexSet;
use lalrpop_grammar_repr::{Production, TerminalSet};
use lalrpop_grammar_symbols::NonterminalString;
use lalrpop_lr1_core::Lr1State;
use lalrpop_sets::TokenSet;
use std::alloc::{AllocError, Global};

/// Whether the state has the production's item with the dot at its end.
fn is_finished<'g>(
    listed: &IndexSet<ListedItem<'g>>,
    state: usize,
    production: &'g Production,
) -> bool
    ensures { IsTrue result ↔ IsFinishedIn (map item_key listed.now.keys) state production.now }
{
    has_item(listed, state, production, production.symbols.len())
}

/// Whether each of the reductions is by a finished item of the state.
fn are_finished<'g>(
    listed: &IndexSet<ListedItem<'g>>,
    state: usize,
    reductions: &[(TokenSet, &'g Production)],
) -> bool
    ensures { IsTrue result ↔ HoldsAtEach (λ _ r. IsFinishedIn (map item_key listed.now.keys) state r.1.now) reductions.now }
{
    for reduction in reductions {
        if !is_finished(listed, state, reduction.1) {
            return false;
        }
    }
    true
}

/// Whether each state reduces by its finished items alone.
pub(crate) fn states_reduce_finished<'g>(
    listed: &IndexSet<ListedItem<'g>>,
    states: &[Lr1State<'g>],
) -> bool
    ensures { IsTrue result ↔ HoldsAtEach (λ n state. HoldsAtEach (λ _ r. IsFinishedIn (map item_key listed.now.keys) n r.1.now)
        state.reductions) states.now }
{
    for state in 0..states.len() {
        if !are_finished(listed, state, states[state].reductions.as_slice()) {
            return false;
        }
    }
    true
}

/// Whether the set is empty.
fn is_empty_set(set: &TokenSet) -> bool
    ensures { IsTrue result ↔ (length set.now ≡ 0) }
{
    set.len() == 0
}

/// Whether the set holds no token but the end.
fn is_end_alone(set: &TokenSet, terminals: &TerminalSet) -> Result<bool, AllocError>
    ensures { IfOk result (λ alone. IsTrue alone ↔ IsEndAlone terminals.now set.now) }
{
    let mut rest = set.try_clone()?;
    rest.take_eof(terminals);
    Ok(is_empty_set(&rest))
}

/// Whether the production is the start's.
fn is_of_start(production: &Production, start: &NonterminalString) -> bool
    ensures { IsTrue result ↔ (production.now.nonterminal ≡ start.now) }
{
    production.nonterminal == *start
}

/// Whether the reduction by the production, where that is the start's, is before the end alone.
fn ends_rightly(
    start: &NonterminalString,
    terminals: &TerminalSet,
    set: &TokenSet,
    production: &Production,
) -> Result<bool, AllocError>
    ensures { IfOk result (λ ends. IsTrue ends ↔ DoesEndRightly start.now terminals.now set.now production.now) }
{
    if is_of_start(production, start) {
        let alone = is_end_alone(set, terminals)?;
        Ok(alone)
    } else {
        Ok(true)
    }
}

/// Whether each of the reductions that is by the start is before the end alone.
fn all_end_rightly(
    start: &NonterminalString,
    terminals: &TerminalSet,
    reductions: &[(TokenSet, &Production)],
) -> Result<bool, AllocError>
    ensures { IfOk result (λ ends. IsTrue ends
        ↔ HoldsAtEach (λ _ r. DoesEndRightly start.now terminals.now r.0 r.1.now) reductions.now) }
{
    for reduction in reductions {
        let ends = ends_rightly(start, terminals, &reduction.0, reduction.1)?;
        if !ends {
            return Ok(false);
        }
    }
    Ok(true)
}

/// Whether each state reduces by the start before the end alone.
fn states_end_rightly(
    start: &NonterminalString,
    terminals: &TerminalSet,
    states: &[Lr1State<'_>],
) -> Result<bool, AllocError>
    ensures { IfOk result (λ ends. IsTrue ends ↔ HoldsAtEach (λ _ state.
        HoldsAtEach (λ _ r. DoesEndRightly start.now terminals.now r.0 r.1.now) state.reductions) states.now) }
{
    for state in states {
        let ends = all_end_rightly(start, terminals, state.reductions.as_slice())?;
        if !ends {
            return Ok(false);
        }
    }
    Ok(true)
}

/// Whether no state has a conflict.
fn states_have_no_conflict(
    alloc: Global,
    terminals: &TerminalSet,
    states: &[Lr1State<'_>],
) -> Result<bool, AllocError>
    ensures { IfOk result (λ none. IsTrue none
        ↔ HoldsAtEach (λ _ state. length (token_conflicts terminals.now state) ≡ 0) states.now) }
{
    for state in states {
        let none = has_no_conflict(alloc, terminals, state)?;
        if !none {
            return Ok(false);
        }
    }
    Ok(true)
}

/// Whether the states reduce by the start's productions before the end alone. The sets of their reductions hold tokens of these
/// terminals alone.
pub fn end_rightly(
    start: &NonterminalString,
    terminals: &TerminalSet,
    states: &[Lr1State<'_>],
) -> Result<bool, AllocError>
    ensures { IfOk result (λ ends. OverTokens terminals.now states.now →
        IsTrue ends ↔ EndsAsSeen start.now.0 (map (lr_state_view (token_lookahead terminals.now)) states.now)) }
{
    let ends = states_end_rightly(start, terminals, states)?;
    Ok(ends)
}

/// Whether no state has a conflict. The terminals are numbered by their places, and the sets of the reductions hold their tokens
/// alone.
pub fn have_no_conflict(
    alloc: Global,
    terminals: &TerminalSet,
    states: &[Lr1State<'_>],
) -> Result<bool, AllocError>
    ensures { IfOk result (λ none. IsNumberedByPlaces terminals.now → NumbersArePlaces terminals.now →
        OverTokens terminals.now states.now →
        IsTrue none ↔ HaveNoConflict (map (lr_state_view (token_lookahead terminals.now)) states.now)) }
{
    let none = states_have_no_conflict(alloc, terminals, states)?;
    Ok(none)
}
