//! The room for the leaves and nodes of all certificates, which is asked for before the first is made: so none is made in vain where
//! memory lacks for those of all.

ghost use Rattle.std.specs.Prelude.{◌≡◌, ◌+◌, ◌<◌, ◌≤◌, ◌^◌, IfOk, MatchResult, length};
ghost use Rattle.lalrpop_lr1_paths.specs.CompletionSearches.{IsAnyCompletion};
ghost use Rattle.lalrpop_lr1_counterexamples.specs.ShownMoves.{IsNextCompletion};
ghost use Rattle.lalrpop_lr1_counterexamples.specs.ShownStates.{AreShownConflicts};

use crate::certificates::shown::ShownConflicts;
use crate::certificates::slots::is_same_token;
use crate::shift_positions::shift_position;
use crate::shown_laws::{
    AnyCompletion, EndCompletion, NextCompletion, WantedCompletion, WantedSteps, rest_count,
};
use lalrpop_grammar_repr::Production;
use lalrpop_grammar_symbols::TerminalString;
use lalrpop_lr1_core::{Action, State};
use lalrpop_lr1_interpret::parse::TreeEntry;
use lalrpop_sets::{TokenRef, TokenSet};
use std::alloc::{AllocError, Global};

/// The sum.
///
/// # Errors
///
/// It is no number: so many moves fit in no memory.
fn sum(count: u64, more: u64) -> Result<u64, AllocError>
    ensures { MatchResult result (λ both. both ≡ count + more) (λ _. 2 ^ 64 ≤ count + more) }
{
    match count.checked_add(more) {
        Some(both) => Ok(both),
        None => Err(AllocError),
    }
}

/// How many moves there are from a reduction in the state on, before what comes next, out to a whole tree.
fn reduction_count(
    next: &NextCompletion<'_, '_, '_, '_>,
    any: &AnyCompletion<'_, '_, '_>,
    state: usize,
    production: &Production,
) -> Result<u64, AllocError>
    requires { IsNextCompletion next.now }
{
    let before = any.ways().paths().back(state, production.symbols.len());
    match next.count(before, &production.nonterminal)? {
        Some(count) => sum(count, 1),
        None => Ok(0),
    }
}

/// How many moves there are from the shift of the terminal in the state with the number on, out to a whole tree.
fn shift_count(
    any: &AnyCompletion<'_, '_, '_>,
    number: usize,
    state: &State<'_, TokenSet>,
    terminal: &TerminalString,
) -> Result<u64, AllocError>
    requires { IsAnyCompletion any.now }
{
    let Some(place) = shift_position(state, terminal) else {
        return Ok(0);
    };
    let paths = any.ways().paths();
    let Some(inner) = rest_count(paths.trees(), place.rest) else {
        return Ok(0);
    };
    let before = paths.back(number, place.index);
    match any.count(before, &place.production.nonterminal)? {
        Some(count) => sum(sum(inner as u64, count)?, 2),
        None => Ok(0),
    }
}

/// How many moves there are from the action in the state with the number on, out to a whole tree.
fn action_count(
    next: &NextCompletion<'_, '_, '_, '_>,
    any: &AnyCompletion<'_, '_, '_>,
    number: usize,
    state: &State<'_, TokenSet>,
    action: &Action<'_>,
) -> Result<u64, AllocError>
    requires next { IsNextCompletion next.now }
    requires any { IsAnyCompletion any.now }
{
    match action {
        Action::Reduce(production) => reduction_count(next, any, number, production),
        Action::Shift(terminal, _) => shift_count(any, number, state, terminal),
    }
}

/// How many moves show the conflict with the number: those along the path to its state, once for the shared trees and once for each of both
/// trees, and those from the reduction and from the other action on.
fn conflict_count(
    alloc: Global,
    shown: &ShownConflicts<'_, '_>,
    any: &AnyCompletion<'_, '_, '_>,
    next: &NextCompletion<'_, '_, '_, '_>,
    number: usize,
) -> Result<u64, AllocError>
    requires shown { AreShownConflicts shown.now }
    requires any { IsAnyCompletion any.now }
    requires next { IsNextCompletion next.now }
    requires number { number < length shown.now.conflicts.now }
{
    let conflict = shown.conflict(number);
    let place = conflict.state.0;
    let front = any.ways().paths().count(alloc, place)?;
    let reducing = reduction_count(next, any, place, conflict.production)?;
    let other = action_count(next, any, place, shown.state(place), &conflict.action)?;
    let path = sum(sum(front, front)?, front)?;
    sum(path, sum(reducing, other)?)
}

/// How many moves show the conflicts with this least token, which are marked as counted.
fn count_conflicts(
    alloc: Global,
    shown: &ShownConflicts<'_, '_>,
    any: &AnyCompletion<'_, '_, '_>,
    next: &NextCompletion<'_, '_, '_, '_>,
    tokens: &[TokenRef<'_>],
    token: TokenRef<'_>,
    counted: &mut Vec<bool>,
) -> Result<u64, AllocError>
    requires shown { AreShownConflicts shown.now }
    requires any { IsAnyCompletion any.now }
    requires next { IsNextCompletion next.now }
    requires tokens { length tokens.now ≡ length shown.now.conflicts.now }
    requires marks { length counted.old.items ≡ length tokens.now }
    ensures { length counted.new.items ≡ length tokens.now }
{
    let mut count = 0u64;
    for number in 0..tokens.len() {
        if is_same_token(tokens[number], token) {
            count = sum(count, conflict_count(alloc, shown, any, next, number)?)?;
            counted[number] = true;
        }
    }
    Ok(count)
}

/// Searches the completions before the token's terminal. How many moves show the conflicts with this least token, which are marked as
/// counted.
fn count_for_terminal(
    alloc: Global,
    shown: &ShownConflicts<'_, '_>,
    any: &AnyCompletion<'_, '_, '_>,
    tokens: &[TokenRef<'_>],
    terminal: &TerminalString,
    token: TokenRef<'_>,
    counted: &mut Vec<bool>,
) -> Result<u64, AllocError>
    requires shown { AreShownConflicts shown.now }
    requires any { IsAnyCompletion any.now }
    requires tokens { length tokens.now ≡ length shown.now.conflicts.now }
    requires marks { length counted.old.items ≡ length tokens.now }
    ensures { length counted.new.items ≡ length tokens.now }
{
    let steps = WantedSteps::new(alloc, any, terminal)?;
    let next = NextCompletion::Terminal(WantedCompletion::new(alloc, &steps)?);
    count_conflicts(alloc, shown, any, &next, tokens, token, counted)
}

/// Searches the completions before the token. How many moves show the conflicts with this least token, which are marked as counted.
fn count_for_token(
    alloc: Global,
    shown: &ShownConflicts<'_, '_>,
    any: &AnyCompletion<'_, '_, '_>,
    tokens: &[TokenRef<'_>],
    token: TokenRef<'_>,
    counted: &mut Vec<bool>,
) -> Result<u64, AllocError>
    requires shown { AreShownConflicts shown.now }
    requires any { IsAnyCompletion any.now }
    requires tokens { length tokens.now ≡ length shown.now.conflicts.now }
    requires marks { length counted.old.items ≡ length tokens.now }
    ensures { length counted.new.items ≡ length tokens.now }
{
    match token {
        TokenRef::Terminal(terminal) => {
            count_for_terminal(alloc, shown, any, tokens, terminal, token, counted)
        }
        TokenRef::Eof | TokenRef::Error => {
            let next = NextCompletion::End(EndCompletion::new(alloc, any.ways())?);
            count_conflicts(alloc, shown, any, &next, tokens, token, counted)
        }
    }
}

/// As many marks, none of them set.
fn no_marks(alloc: Global, count: usize) -> Result<Vec<bool>, AllocError>
    ensures { IfOk result (λ marks. length marks.items ≡ count) }
{
    let mut marks = Vec::with_capacity(alloc, count)?;
    for _ in 0..count {
        marks.push(false)?;
    }
    Ok(marks)
}

/// How many moves show all of the conflicts, whose least tokens these are.
fn count_all(
    alloc: Global,
    shown: &ShownConflicts<'_, '_>,
    any: &AnyCompletion<'_, '_, '_>,
    tokens: &[TokenRef<'_>],
) -> Result<u64, AllocError>
    requires shown { AreShownConflicts shown.now }
    requires any { IsAnyCompletion any.now }
    requires tokens { length tokens.now ≡ length shown.now.conflicts.now }
{
    let mut counted = no_marks(alloc, tokens.len())?;
    let mut count = 0u64;
    for number in 0..tokens.len() {
        if !counted[number] {
            let more = count_for_token(alloc, shown, any, tokens, tokens[number], &mut counted)?;
            count = sum(count, more)?;
        }
    }
    Ok(count)
}

/// Asks for the room for the leaves and nodes that the moves which show the conflicts build, and gives it back.
///
/// # Errors
///
/// Memory is refused.
pub(crate) fn ask_for_room(
    alloc: Global,
    shown: &ShownConflicts<'_, '_>,
    any: &AnyCompletion<'_, '_, '_>,
    tokens: &[TokenRef<'_>],
) -> Result<(), AllocError>
    requires shown { AreShownConflicts shown.now }
    requires any { IsAnyCompletion any.now }
    requires tokens { length tokens.now ≡ length shown.now.conflicts.now }
{
    let count = count_all(alloc, shown, any, tokens)?;
    let _room: Vec<TreeEntry<'_>> = Vec::with_capacity(alloc, count as usize)?;
    Ok(())
}
