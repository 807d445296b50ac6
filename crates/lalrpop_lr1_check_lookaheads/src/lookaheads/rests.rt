//! What stands behind a nonterminal, and what can come first there.

ghost use Rattle.std.specs.Prelude.{◌≡◌, ◌↔◌, ◌<◌, ℕ, IfOk, IsTrue, None, map, true};
ghost use Rattle.lalrpop_sets.specs.AscendingLists.{has};
ghost use Rattle.lalrpop_sets.specs.Tokens.{eof_number};
ghost use Rattle.lalrpop_lr1_theory.specs.FirstSets.{First0};
ghost use Rattle.lalrpop_lr1_core.specs.Views.{next_of_number, production_symbol_view};
ghost use Rattle.lalrpop_lr1_first.specs.FirstSetsOf.{AreFirstSetsOf, IsProductionOf};
ghost use Rattle.lalrpop_lr1_check_lookaheads.specs.Brought.{IsNameAtDot};

use lalrpop_grammar_repr::{Grammar, Symbol};
use lalrpop_grammar_symbols::NonterminalString;
use lalrpop_lr1_first::FirstSets;
use lalrpop_sets::TokenSet;
use std::alloc::{AllocError, Global};

/// The nonterminal behind the dot with what stands behind it, if one stands there.
pub(crate) fn name_at(symbols: &[Symbol], dot: usize) -> Option<(&NonterminalString, &[Symbol])>
    ensures { IsNameAtDot symbols.now dot result }
{
    if dot < symbols.len() {
        match &symbols[dot] {
            Symbol::Nonterminal(name) => Some((name, &symbols[dot + 1..])),
            Symbol::Terminal(_) => None,
        }
    } else {
        None
    }
}

/// The terminals that can come first in the rest.
pub(crate) fn tokens_of(
    alloc: Global,
    grammar: &Grammar,
    firsts: &FirstSets,
    rest: &[Symbol],
) -> Result<TokenSet, AllocError>
    requires { AreFirstSetsOf grammar.now firsts.now }
    ensures { IfOk result (λ set. (k : ℕ) → (has set k ≡ true) ↔ ((k < eof_number grammar.now.terminals)
        × First0 (IsProductionOf grammar.now) (map production_symbol_view rest.now) (next_of_number grammar.now.terminals k))) }
{
    let mut set = firsts.first0(alloc, &grammar.terminals, rest)?;
    set.take_eof(&grammar.terminals);
    Ok(set)
}

/// Whether the rest derives nothing.
pub(crate) fn is_nothing(
    alloc: Global,
    grammar: &Grammar,
    firsts: &FirstSets,
    rest: &[Symbol],
) -> Result<bool, AllocError>
    requires { AreFirstSetsOf grammar.now firsts.now }
    ensures { IfOk result (λ is. IsTrue is ↔ First0 (IsProductionOf grammar.now) (map production_symbol_view rest.now) None) }
{
    let set = firsts.first0(alloc, &grammar.terminals, rest)?;
    Ok(set.contains_eof(&grammar.terminals))
}
