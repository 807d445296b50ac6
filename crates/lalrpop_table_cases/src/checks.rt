//! Tests of states, as the tables make them or as a case writes them, as text.

ghost use Rattle.lalrpop_lr1_first.specs.NumberedGrammars.{HasItsTerminals};

use crate::states::states_of;
use anyhow::Result;
use lalrpop_grammar_repr::Grammar;
use lalrpop_grammar_symbols::NonterminalString;
use lalrpop_lr1_check::check_states;
use lalrpop_lr1_core::Lr1State;
use lalrpop_plain_tables::answers::canonical_states;
use serde_json::Value;
use std::alloc::{AllocError, Global};

/// Whether the canonical states may be parsed with.
pub(crate) fn check_text(
    alloc: Global,
    grammar: &Grammar,
    start: &NonterminalString,
) -> Result<String, AllocError>
    requires { HasItsTerminals grammar.now }
{
    let canonical = canonical_states(alloc, grammar, start)?;
    checked_text(alloc, grammar, start, canonical.states.as_slice())
}

/// Whether the states that a case writes may be parsed with; or what is wrong with how they are written.
pub(crate) fn text_of_written(
    alloc: Global,
    grammar: &Grammar,
    others: &Grammar,
    start: &NonterminalString,
    written: &[Value],
) -> Result<String>
    requires { HasItsTerminals grammar.now }
{
    match states_of(alloc, grammar, others, written) {
        Ok(states) => Ok(checked_text(alloc, grammar, start, states.as_slice())?),
        Err(error) => Ok(format!(in alloc; "{error}")?),
    }
}

/// Whether the states may be parsed with.
fn checked_text(
    alloc: Global,
    grammar: &Grammar,
    start: &NonterminalString,
    states: &[Lr1State<'_>],
) -> Result<String, AllocError>
    requires { HasItsTerminals grammar.now }
{
    let passes = check_states(alloc, grammar, start, states)?;
    verdict_text(alloc, passes)
}

/// What the test says.
fn verdict_text(alloc: Global, passes: bool) -> Result<String, AllocError> {
    String::from_str(alloc, if passes { "right" } else { "wrong" })
}
