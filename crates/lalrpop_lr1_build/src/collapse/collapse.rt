//! The collapse of canonical states.

ghost use Rattle.std.specs.Prelude.{◌≡◌, IfErr, IfOk, MatchResult, Contains, map};
ghost use Rattle.lalrpop_grammar_symbols.specs.declared.names.NonterminalString.{NonterminalString};
ghost use Rattle.lalrpop_grammar_repr.specs.declared.grammar.Grammar.{Grammar};
ghost use Rattle.lalrpop_lr1_theory.specs.CheckedStates.{AreCheckedStates, IsStartAlone};
ghost use Rattle.lalrpop_lr1_theory.specs.ValidItems.{NoneBarren};
ghost use Rattle.lalrpop_lr1_core.specs.Views.{lr_state_view, token_lookahead};
ghost use Rattle.lalrpop_lr1_core.specs.TheoryGrammars.{theory_grammar};
ghost use Rattle.lalrpop_lr1_build.specs.CollapseAnswers.{
  AreCanonicalOf,
  AreCanonicalOfSome,
  AreLalrStates,
  IsCollapseFault,
  IsCollapseWithout,
  TellsLalrStates,
};

use crate::collapse::cores::core_numbers;
use crate::collapse::joined_states::join_states;
use crate::conflicts::conflicts_of;
use lalrpop_grammar_repr::TerminalSet;
use lalrpop_lr1_core::{Lr1Result, Lr1State, TableConstructionError, TableFault};
use std::alloc::Global;

/// The canonical states of a grammar with these terminals, put together where they have the same items, whatever may follow, and
/// numbered as they are first seen; or these with all their conflicts. What may follow an item is what may in any of them. So they
/// are the states without lookaheads, each item with what is carried to it.
pub fn collapse_to_lalr_states<'g>(
    alloc: Global,
    terminals: &TerminalSet,
    states: &[Lr1State<'g>],
) -> Lr1Result<'g>
    requires { AreCanonicalOfSome terminals.now states.now }
    ensures states { IfOk result (λ collapsed. IsCollapseWithout terminals.now states.now collapsed.items) }
    ensures fault { IfErr result (λ fault. IsCollapseFault terminals.now states.now fault) }
    ensures lalr { (g : Grammar) (start : NonterminalString) → AreCanonicalOf g start terminals.now states.now → MatchResult result
        (λ collapsed. AreLalrStates g start collapsed.items) (λ fault. TellsLalrStates g start fault) }
    ensures checked { (g : Grammar) (start : NonterminalString) → AreCanonicalOf g start terminals.now states.now
        → NoneBarren (Contains (theory_grammar g)) start.0 → IsStartAlone (theory_grammar g) start.0
        → IfOk result (λ collapsed. AreCheckedStates (theory_grammar g) start.0
        (map (lr_state_view (token_lookahead g.terminals)) collapsed.items)) }
{
    let numbers = core_numbers(alloc, states)?;
    let collapsed = join_states(alloc, states, numbers.as_slice())?;
    let conflicts = conflicts_of(alloc, terminals, collapsed.as_slice())?;
    if conflicts.is_empty() {
        Ok(collapsed)
    } else {
        Err(TableFault::Conflicts(TableConstructionError {
            states: collapsed,
            conflicts,
        }))
    }
}
