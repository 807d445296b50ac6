//! The construction of states, for both lookaheads by one body.

ghost use Rattle.std.specs.Prelude.{◌≡◌, ◌≤◌, ℕ, true, IfErr, IfOk, MatchResult, Contains, map};
ghost use Rattle.lalrpop_lr1_theory.specs.Answers.{IsLr1};
ghost use Rattle.lalrpop_lr1_theory.specs.CheckedStates.{AreCheckedStates, IsStartAlone};
ghost use Rattle.lalrpop_lr1_theory.specs.ValidItems.{NoneBarren};
ghost use Rattle.lalrpop_lr1_core.specs.Views.{lr_state_view, token_lookahead};
ghost use Rattle.lalrpop_sets.specs.AscendingLists.{has};
ghost use Rattle.lalrpop_sets.specs.Tokens.{eof_number};
ghost use Rattle.lalrpop_lr1_first.specs.ClosureTables.{IsClosureTableOf};
ghost use Rattle.lalrpop_lr1_first.specs.NumberedGrammars.{HasItsTerminals};
ghost use Rattle.lalrpop_lr1_build.specs.Nexts.{IsNextIn};
ghost use Rattle.lalrpop_lr1_build.specs.BuiltStates.{AreBuiltStates, AreCanonicalWithout, AreLr0Without, HaveNoConflictBuilt, IsCanonicalFault, IsFaultBuilt, IsLr0Fault, TellsNoLr1};
ghost use Rattle.lalrpop_lr1_core.specs.TheoryGrammars.{theory_grammar};

use crate::conflicts::conflicts_of;
use crate::public_states::states_at;
use crate::start::start_kernel;
use crate::states::{KernelLookahead, states_by_numbers};
use lalrpop_grammar_repr::Grammar;
use lalrpop_grammar_symbols::NonterminalString;
use lalrpop_lr1_core::{Lr1Result, LrResult, State, TableConstructionError, TableFault};
use lalrpop_lr1_first::Closures;
use lalrpop_sets::{Nil, TokenSet};
use std::alloc::{AllocError, Global};

/// The states of the grammar for a start that the lookahead follows, by the grammar's closures.
fn states_by_closures<'g, L: KernelLookahead>(
    alloc: Global,
    grammar: &'g Grammar,
    closures: &Closures<'g>,
    start: &NonterminalString,
    lookahead: &L,
) -> Result<Vec<State<'g, L>>, AllocError>
    requires closures { IsClosureTableOf grammar.now closures.now }
    requires ordered { L.in_order lookahead.now }
    requires tokens { (k : ℕ) → has (L.marks lookahead.now) k ≡ true → k ≤ eof_number grammar.now.terminals }
    ensures { IfOk result (λ states. AreBuiltStates L.marks (L.look grammar.now.terminals) L.firsts
        (IsNextIn grammar.now.terminals (L.marks lookahead.now)) grammar.now start.now states.items) }
{
    let table = closures.table();
    let kernel = start_kernel(alloc, table, start, lookahead)?;
    let numbered = states_by_numbers(alloc, closures, kernel)?;
    states_at(alloc, table, numbered)
}

/// The states of the grammar for a start that the lookahead follows, whatever their conflicts. The terminals of the grammar are
/// numbered by their places, and each terminal on a right side is one of them; the lookahead is in order and holds only tokens of
/// the grammar and the end.
///
/// # Errors
///
/// Memory is refused.
pub fn all_states<'g, L: KernelLookahead>(
    alloc: Global,
    grammar: &'g Grammar,
    start: &NonterminalString,
    lookahead: &L,
) -> Result<Vec<State<'g, L>>, AllocError>
    requires grammar { HasItsTerminals grammar.now }
    requires ordered { L.in_order lookahead.now }
    requires tokens { (k : ℕ) → has (L.marks lookahead.now) k ≡ true → k ≤ eof_number grammar.now.terminals }
    ensures { IfOk result (λ states. AreBuiltStates L.marks (L.look grammar.now.terminals) L.firsts
        (IsNextIn grammar.now.terminals (L.marks lookahead.now)) grammar.now start.now states.items) }
{
    let closures = Closures::new(alloc, grammar)?;
    states_by_closures(alloc, grammar, &closures, start, lookahead)
}

/// The states of the grammar for a start that the lookahead follows; or these with all their conflicts. The terminals of the grammar
/// are numbered by their places, and each terminal on a right side is one of them; the lookahead is in order and holds only tokens
/// of the grammar and the end.
///
/// # Errors
///
/// Some states conflict, or memory is refused.
pub fn build_states<'g, L: KernelLookahead>(
    alloc: Global,
    grammar: &'g Grammar,
    start: &NonterminalString,
    lookahead: &L,
) -> LrResult<'g, L>
    requires grammar { HasItsTerminals grammar.now }
    requires ordered { L.in_order lookahead.now }
    requires tokens { (k : ℕ) → has (L.marks lookahead.now) k ≡ true → k ≤ eof_number grammar.now.terminals }
    ensures states { IfOk result (λ states. HaveNoConflictBuilt L.marks (L.look grammar.now.terminals) L.firsts
        (IsNextIn grammar.now.terminals (L.marks lookahead.now)) grammar.now start.now
        (L.conflicts_in grammar.now.terminals) states.items) }
    ensures fault { IfErr result (λ fault. IsFaultBuilt L.marks (L.look grammar.now.terminals) L.firsts
        (IsNextIn grammar.now.terminals (L.marks lookahead.now)) grammar.now start.now
        (L.conflicts_in grammar.now.terminals) fault) }
{
    let states = all_states(alloc, grammar, start, lookahead)?;
    let conflicts = conflicts_of(alloc, &grammar.terminals, states.as_slice())?;
    if conflicts.is_empty() {
        Ok(states)
    } else {
        Err(TableFault::Conflicts(TableConstructionError { states, conflicts }))
    }
}

/// The canonical LR(1) states of the grammar for a start, which the end follows; or these with all their conflicts. The terminals
/// of the grammar are numbered by their places, and each terminal on a right side is one of them.
pub fn build_lr1_states_canonical<'g>(
    alloc: Global,
    grammar: &'g Grammar,
    start: NonterminalString,
) -> Lr1Result<'g>
    requires { HasItsTerminals grammar.now }
    ensures states { IfOk result (λ states. AreCanonicalWithout grammar.now start states.items) }
    ensures fault { IfErr result (λ fault. IsCanonicalFault grammar.now start fault) }
    ensures lr1 { NoneBarren (Contains (theory_grammar grammar.now)) start.0 → MatchResult result
        (λ _. IsLr1 (Contains (theory_grammar grammar.now)) start.0) (λ fault. TellsNoLr1 grammar.now start fault) }
    ensures checked { NoneBarren (Contains (theory_grammar grammar.now)) start.0 → IsStartAlone (theory_grammar grammar.now) start.0
        → IfOk result (λ states. AreCheckedStates (theory_grammar grammar.now) start.0
        (map (lr_state_view (token_lookahead grammar.now.terminals)) states.items)) }
{
    let end = TokenSet::eof(alloc, &grammar.terminals)?;
    build_states(alloc, grammar, &start, &end)
}

/// The LR(0) states of the grammar for a start; or these with all their conflicts. The terminals of the grammar are numbered by
/// their places, and each terminal on a right side is one of them.
pub fn build_lr0_states<'g>(
    alloc: Global,
    grammar: &'g Grammar,
    start: NonterminalString,
) -> LrResult<'g, Nil>
    requires { HasItsTerminals grammar.now }
    ensures states { IfOk result (λ states. AreLr0Without grammar.now start states.items) }
    ensures fault { IfErr result (λ fault. IsLr0Fault grammar.now start fault) }
{
    build_states(alloc, grammar, &start, &Nil)
}
