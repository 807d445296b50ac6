//! Whether a state has no conflict, found by looking at each reduction and each shift once.

ghost use Rattle.std.specs.Prelude.{◌≡◌, ◌||◌, ◌↔◌, [], IfOk, IsTrue, length, ℕ};
ghost use Rattle.lalrpop_sets.specs.AscendingLists.{has};
ghost use Rattle.lalrpop_lr1_core.specs.Conflicts.{token_conflicts};
ghost use Rattle.lalrpop_lr1_check_lookaheads.specs.ApartSets.{ShareNone, AreReductionsApart, are_free, has_any, is_free};

use lalrpop_grammar_repr::{Map, Production, TerminalSet};
use lalrpop_grammar_symbols::TerminalString;
use lalrpop_lr1_core::{Lr1State, StateIndex};
use lalrpop_sets::{Token, TokenSet};
use std::alloc::{AllocError, Global};

/// Puts the tokens of the set in, where none of them is there, and says whether that is so.
fn join_apart(joined: &mut TokenSet, set: &TokenSet) -> Result<bool, AllocError>
    ensures apart { IfOk result (λ apart. IsTrue apart ↔ ShareNone (has joined.old) set.now) }
    ensures joined { IfOk result (λ apart. IsTrue apart → (k : ℕ) → has joined.new k ≡ (has joined.old k || has set.now k)) }
{
    if !joined.is_disjoint(set) {
        return Ok(false);
    }
    joined.union_with(set)?;
    Ok(true)
}

/// Puts the tokens of all reductions into an empty set, and says whether no two reductions share one. Where they do, it stops.
fn join_reductions(
    reductions: &[(TokenSet, &Production)],
    joined: &mut TokenSet,
) -> Result<bool, AllocError>
    requires { joined.old ≡ [] }
    ensures apart { IfOk result (λ apart. IsTrue apart ↔ AreReductionsApart reductions.now) }
    ensures joined { IfOk result (λ apart. IsTrue apart → (k : ℕ) → has joined.new k ≡ has_any reductions.now k) }
{
    for reduction in reductions {
        let apart = join_apart(joined, &reduction.0)?;
        if !apart {
            return Ok(false);
        }
    }
    Ok(true)
}

/// Whether the set lacks the terminal.
fn lacks_terminal(
    terminal: &TerminalString,
    terminals: &TerminalSet,
    set: &TokenSet,
) -> Result<bool, AllocError>
    ensures { IfOk result (λ free. free ≡ is_free terminals.now set.now terminal.now) }
{
    let token = Token::Terminal(terminal.try_clone()?);
    Ok(!set.contains(&token, terminals))
}

/// Whether the set lacks each terminal that is shifted.
fn lacks_shifts(
    shifts: &Map<TerminalString, StateIndex>,
    terminals: &TerminalSet,
    set: &TokenSet,
) -> Result<bool, AllocError>
    ensures { IfOk result (λ free. free ≡ are_free terminals.now set.now shifts.now) }
{
    for (terminal, _) in shifts.iter() {
        let free = lacks_terminal(terminal, terminals, set)?;
        if !free {
            return Ok(false);
        }
    }
    Ok(true)
}

/// Whether the state has no conflict.
pub(crate) fn has_no_conflict(
    alloc: Global,
    terminals: &TerminalSet,
    state: &Lr1State<'_>,
) -> Result<bool, AllocError>
    ensures { IfOk result (λ none. IsTrue none ↔ (length (token_conflicts terminals.now state.now) ≡ 0)) }
{
    let mut joined = TokenSet::new(alloc, terminals)?;
    let apart = join_reductions(state.reductions.as_slice(), &mut joined)?;
    if apart {
        let free = lacks_shifts(&state.shifts, terminals, &joined)?;
        Ok(free)
    } else {
        Ok(false)
    }
}
