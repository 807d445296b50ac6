//! States that may be parsed with.

ghost use Rattle.std.specs.Prelude.{◌↔◌, IfOk, IsTrue, Contains};
ghost use Rattle.lalrpop_lr1_theory.specs.CheckedStates.{AreCheckedStates, IsStartAlone};
ghost use Rattle.lalrpop_lr1_theory.specs.ValidItems.{NoneBarren};
ghost use Rattle.lalrpop_lr1_first.specs.NumberedGrammars.{HasItsTerminals};
ghost use Rattle.lalrpop_lr1_core.specs.TheoryGrammars.{theory_grammar};
ghost use Rattle.lalrpop_lr1_interpret.specs.Parses.{AreParsable};

use crate::answers::fault::AnswerFault;
use lalrpop_grammar_repr::Grammar;
use lalrpop_grammar_repr::methods::Method;
use lalrpop_grammar_symbols::NonterminalString;
use lalrpop_lane::build_lr1_states;
use lalrpop_lr1_barren::none_is_barren;
use lalrpop_lr1_core::{Lr1State, TableFault};
use lalrpop_lr1_first::Numbered;
use std::alloc::{AllocError, Global};

/// Whether the nonterminal stands on no right side.
fn is_alone(grammar: &Grammar, start: &NonterminalString) -> bool
    ensures { IsTrue result → IsStartAlone (theory_grammar grammar.now) start.now.0 }
{
    grammar.start_is_alone(start)
}

/// Whether the start reaches nothing barren.
fn reaches_trees(
    alloc: Global,
    grammar: &Grammar,
    start: &NonterminalString,
) -> Result<bool, AllocError>
    requires { HasItsTerminals grammar.now }
    ensures { IfOk result (λ none. IsTrue none ↔ NoneBarren (Contains (theory_grammar grammar.now)) start.now.0) }
{
    let table = Numbered::new(alloc, grammar)?;
    let none = none_is_barren(alloc, &table, start)?;
    Ok(none)
}

/// The states of the grammar for a start by the method, where they may be parsed with.
///
/// # Errors
///
/// The start isn't alone, or it reaches a nonterminal without a tree, or the states have conflicts, or memory runs out.
pub fn parsable_states<'g>(
    alloc: Global,
    grammar: &'g Grammar,
    start: &NonterminalString,
    method: Method,
) -> Result<Vec<Lr1State<'g>>, AnswerFault>
    requires { HasItsTerminals grammar.now }
    ensures { IfOk result (λ states. AreParsable grammar.now.terminals states.items) }
{
    if !is_alone(grammar, start) {
        return Err(AnswerFault::NotAlone);
    }
    if !reaches_trees(alloc, grammar, start)? {
        return Err(AnswerFault::Barren);
    }
    match build_lr1_states(alloc, grammar, start.try_clone()?, method) {
        Ok(states) => Ok(states),
        Err(TableFault::Conflicts(_)) => Err(AnswerFault::Conflicts),
        Err(TableFault::Memory) => Err(AnswerFault::Memory),
    }
}
