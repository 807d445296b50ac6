//! Rounds: copies of states resolve what conflicts by what is carried, until nothing conflicts or no round helps.

ghost use Rattle.std.specs.Prelude.{◌≡◌, IfOk};
ghost use Rattle.lalrpop_lr1_first.specs.NumberedGrammars.{HasItsTerminals, IsNumberTableOf};
ghost use Rattle.lalrpop_lane.specs.LaneStates.{AreReducedStates};
ghost use Rattle.lalrpop_lane.specs.Merges.{HaveOneEdgeEach};
ghost use Rattle.lalrpop_lane.specs.Rounds.{AreConflicting, CopyAnswer, IsLastRound, RoundAnswer};

use crate::carried::reduce_before_carried;
use crate::lr0::lr0_states;
use crate::merging::resolve_all;
use lalrpop_grammar_repr::Grammar;
use lalrpop_grammar_symbols::NonterminalString;
use lalrpop_lr1_check_lookaheads::parts::have_no_conflict;
use lalrpop_lr1_core::Lr1State;
use lalrpop_lr1_first::{FirstSets, Numbered};
use std::alloc::{AllocError, Global};

/// The states without lookaheads, each reduction before just what is carried over them to its item. The table is the grammar's.
fn carried_lr0_states<'g>(
    alloc: Global,
    grammar: &'g Grammar,
    table: &Numbered<'g>,
    start: &NonterminalString,
) -> Result<Vec<Lr1State<'g>>, AllocError>
    requires grammar { HasItsTerminals grammar.now }
    requires table { IsNumberTableOf grammar.now table.now }
    ensures { IfOk result (λ states. AreReducedStates grammar.now start.now.0 0 states.items) }
{
    let lr0 = lr0_states(alloc, grammar, start)?;
    reduce_before_carried(alloc, grammar, table, start, lr0)
}

/// What is known of states: no two edges of one are by one symbol. A law for proofs.
fn edges_known(states: &[Lr1State<'_>])
    ensures { HaveOneEdgeEach states.now }
{
    for state in states {
        state.shifts.known();
        state.gotos.known();
    }
}

/// Copies of the states, in order.
fn clone_states<'g>(alloc: Global, states: &[Lr1State<'g>]) -> Result<Vec<Lr1State<'g>>, AllocError>
    ensures { IfOk result (λ copy. copy.items ≡ states.now) }
{
    let mut copy = Vec::new(alloc);
    for state in states {
        copy.push(state.try_clone(alloc)?)?;
    }
    Ok(copy)
}

/// The states with copies of some, by which conflicts are resolved, and how many copies may still be made; none where none was made, or not
/// so few are enough.
fn copied_states<'g>(
    alloc: Global,
    grammar: &'g Grammar,
    start: &NonterminalString,
    states: &[Lr1State<'g>],
    left: usize,
) -> Result<Option<(Vec<Lr1State<'g>>, usize)>, AllocError>
    requires { HasItsTerminals grammar.now }
    ensures { IfOk result (CopyAnswer states.now left) }
{
    edges_known(states);
    let first_sets = FirstSets::new(alloc, grammar)?;
    let mut copied = clone_states(alloc, states)?;
    let found = resolve_all(alloc, grammar, start, &first_sets, &mut copied, left)?;
    match found {
        Some(now) => {
            if now < left {
                Ok(Some((copied, now)))
            } else {
                Ok(None)
            }
        }
        None => Ok(None),
    }
}

/// A round: what conflicts in states is resolved by copies of some, and what is carried is read off anew; none where that gives up. The
/// table is the grammar's.
fn next_round<'g>(
    alloc: Global,
    grammar: &'g Grammar,
    table: &Numbered<'g>,
    start: &NonterminalString,
    states: &[Lr1State<'g>],
    left: usize,
) -> Result<Option<(Vec<Lr1State<'g>>, usize)>, AllocError>
    requires grammar { HasItsTerminals grammar.now }
    requires table { IsNumberTableOf grammar.now table.now }
    requires states { AreConflicting grammar.now start.now.0 states.now }
    ensures { IfOk result (RoundAnswer grammar.now start.now.0 states.now left) }
{
    let found = copied_states(alloc, grammar, start, states, left)?;
    match found {
        Some((copied, now)) => {
            let reduced = reduce_before_carried(alloc, grammar, table, start, copied)?;
            Ok(Some((reduced, now)))
        }
        None => Ok(None),
    }
}

/// The states of the last round, at most so many more than those without lookaheads, and whether they have no conflict. The table is the
/// grammar's.
fn rounds_over<'g>(
    alloc: Global,
    grammar: &'g Grammar,
    table: &Numbered<'g>,
    start: &NonterminalString,
    copies: usize,
) -> Result<(Vec<Lr1State<'g>>, bool), AllocError>
    requires grammar { HasItsTerminals grammar.now }
    requires table { IsNumberTableOf grammar.now table.now }
    ensures { IfOk result (IsLastRound grammar.now start.now.0 copies) }
{
    let mut left = copies;
    let mut states = carried_lr0_states(alloc, grammar, table, start)?;
    let mut none = have_no_conflict(alloc, &grammar.terminals, states.as_slice())?;
    'rounds: while !none {
        let round = next_round(alloc, grammar, table, start, states.as_slice(), left)?;
        let Some((reduced, now)) = round else {
            return Ok((states, none));
        };
        states = reduced;
        left = now;
        none = have_no_conflict(alloc, &grammar.terminals, states.as_slice())?;
    }
    Ok((states, none))
}

/// The states of the last round, at most so many more than those without lookaheads, and whether they have no conflict.
pub(crate) fn last_round<'g>(
    alloc: Global,
    grammar: &'g Grammar,
    start: &NonterminalString,
    copies: usize,
) -> Result<(Vec<Lr1State<'g>>, bool), AllocError>
    requires { HasItsTerminals grammar.now }
    ensures { IfOk result (IsLastRound grammar.now start.now.0 copies) }
{
    let table = Numbered::new(alloc, grammar)?;
    rounds_over(alloc, grammar, &table, start, copies)
}
