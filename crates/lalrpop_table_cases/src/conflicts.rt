//! Conflicts, as text.

ghost use Rattle.lalrpop_lr1_first.specs.NumberedGrammars.{HasItsTerminals};
ghost use Rattle.lalrpop_lr1_build.specs.CollapseAnswers.{AreCanonicalOfSome};

use lalrpop_grammar_repr::{Grammar, TerminalSet};
use lalrpop_grammar_symbols::NonterminalString;
use lalrpop_lr1_build::build_lr1_states_canonical;
use lalrpop_lr1_build::collapse::collapse_to_lalr_states;
use lalrpop_lr1_core::{Action, Lr1Conflict, Lr1State, TableFault};
use lalrpop_plain_tables::answers::canonical_states;
use std::alloc::{AllocError, Global};

/// Puts the action behind the text: the terminal and the state to which it leads, or the nonterminal to which it reduces.
fn push_action(action: &Action<'_>, text: &mut String) -> Result<(), AllocError> {
    match action {
        Action::Shift(terminal, to) => write!(text, "{terminal} {to};"),
        Action::Reduce(production) => write!(text, "{};", production.nonterminal),
    }
}

/// Puts the conflict behind the text: its state, the nonterminal to which is reduced, what may follow, the other action.
fn push_conflict(
    alloc: Global,
    conflict: &Lr1Conflict<'_>,
    terminals: &TerminalSet,
    text: &mut String,
) -> Result<(), AllocError> {
    let shared = conflict.lookahead.shown(alloc, terminals)?;
    let name = &conflict.production.nonterminal;
    write!(text, "{} {name} {shared} ", conflict.state)?;
    push_action(&conflict.action, text)
}

/// The texts of the conflicts.
fn conflict_texts(
    alloc: Global,
    conflicts: &[Lr1Conflict<'_>],
    terminals: &TerminalSet,
) -> Result<String, AllocError> {
    let mut text = String::new(alloc);
    for conflict in conflicts {
        push_conflict(alloc, conflict, terminals, &mut text)?;
    }
    Ok(text)
}

/// The conflicts of the canonical states, none where there are none.
pub(crate) fn canonical_conflicts(
    alloc: Global,
    grammar: &Grammar,
    start: &NonterminalString,
) -> Result<String, AllocError>
    requires { HasItsTerminals grammar.now }
{
    match build_lr1_states_canonical(alloc, grammar, start.try_clone()?) {
        Ok(_) => String::from_str(alloc, "none"),
        Err(TableFault::Conflicts(error)) => {
            conflict_texts(alloc, error.conflicts.as_slice(), &grammar.terminals)
        }
        Err(TableFault::Memory) => Err(AllocError),
    }
}

/// The conflicts of what canonical states collapse to.
fn conflicts_behind(
    alloc: Global,
    terminals: &TerminalSet,
    states: &[Lr1State<'_>],
) -> Result<String, AllocError>
    requires { AreCanonicalOfSome terminals.now states.now }
{
    match collapse_to_lalr_states(alloc, terminals, states) {
        Ok(_) => String::from_str(alloc, "none"),
        Err(TableFault::Conflicts(error)) => {
            conflict_texts(alloc, error.conflicts.as_slice(), terminals)
        }
        Err(TableFault::Memory) => Err(AllocError),
    }
}

/// The conflicts of the states into which the canonical ones collapse, none where there are none.
pub(crate) fn collapsed_conflicts(
    alloc: Global,
    grammar: &Grammar,
    start: &NonterminalString,
) -> Result<String, AllocError>
    requires { HasItsTerminals grammar.now }
{
    let canonical = canonical_states(alloc, grammar, start)?;
    conflicts_behind(alloc, &grammar.terminals, canonical.states.as_slice())
}
