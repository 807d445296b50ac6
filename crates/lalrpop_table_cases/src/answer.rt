//! What a case's productions answer.

ghost use Rattle.lalrpop_lr1_first.specs.NumberedGrammars.{HasItsTerminals};

use crate::call::Call;
use crate::case::{Case, Question};
use crate::checks::{check_text, text_of_written};
use crate::conflicts::{canonical_conflicts, collapsed_conflicts};
use crate::firsts::first_text;
use crate::lanes::{both_ways_text, fewest_text, lane_text};
use crate::leasts::{begin_text, empty_text, least_text};
use crate::onto::onto_text;
use crate::parses::parse_text;
use anyhow::{Error, Result};
use lalrpop_case_kinds::files::fields;
use lalrpop_grammar_repr::Grammar;
use lalrpop_grammar_repr::methods::Method;
use lalrpop_grammar_symbols::NonterminalString;
use lalrpop_plain_tables::answers::{
    AnswerFault, answer_tokens, canonical_states, counts_of, parsable_states, read_productions,
    start_of,
};
use serde_json::Value;
use std::alloc::{AllocError, Global};

/// The answer to the case; or the text of the fault, if it isn't want of memory.
pub(crate) fn answer_of(alloc: Global, case: &Case<'_>) -> Result<String> {
    let lines = text_of(alloc, case.grammar)?;
    match read_productions(alloc, lines.as_str()) {
        Ok(grammar) => answer_under(alloc, case, &grammar),
        Err(fault) => fault_text(alloc, fault),
    }
}

/// The text of the fault.
pub(crate) fn fault_text(alloc: Global, fault: AnswerFault) -> Result<String> {
    match fault {
        AnswerFault::Memory => Err(Error::from(AllocError)),
        fault => Ok(format!(in alloc; "{fault}")?),
    }
}

/// The lines as one text.
fn text_of(alloc: Global, lines: &[Value]) -> Result<String> {
    let mut text = String::new(alloc);
    for line in lines {
        text.push_str(fields::text_of(line)?)?;
        text.push_str("\n")?;
    }
    Ok(text)
}

/// What the case asks of the grammar.
fn answer_under(alloc: Global, case: &Case<'_>, grammar: &Grammar) -> Result<String>
    requires { HasItsTerminals grammar.now }
{
    let question = &case.question;
    let start = start_of(alloc, question.start)?;
    if let Call::BothWays = question.call {
        return both_ways_text(alloc, grammar, &start, question.copies, question.texts);
    }
    if let Some(states) = question.checked.states {
        return check_written(alloc, question.checked.others, grammar, &start, states);
    }
    match answer_call(alloc, question, grammar, &start) {
        Ok(text) => Ok(text),
        Err(fault) => fault_text(alloc, fault),
    }
}

/// Whether the states that the case writes may be parsed with, as text.
fn check_written(
    alloc: Global,
    others: &[Value],
    grammar: &Grammar,
    start: &NonterminalString,
    states: &[Value],
) -> Result<String>
    requires { HasItsTerminals grammar.now }
{
    let lines = text_of(alloc, others)?;
    match read_productions(alloc, lines.as_str()) {
        Ok(others) => text_of_written(alloc, grammar, &others, start, states),
        Err(fault) => fault_text(alloc, fault),
    }
}

/// The answer to the question; what is asked of states is asked of the grammar's own.
fn answer_call(
    alloc: Global,
    question: &Question<'_>,
    grammar: &Grammar,
    start: &NonterminalString,
) -> Result<String, AnswerFault>
    requires { HasItsTerminals grammar.now }
{
    let Question { tokens, limit, .. } = *question;
    let text = match question.call {
        Call::Tree => return tree_text(alloc, grammar, start, tokens),
        Call::Parse => return parse_text(alloc, grammar, start, tokens, limit),
        Call::Onto => return onto_text(alloc, grammar, start, tokens, limit),
        Call::Begin => return begin_text(alloc, grammar, start, tokens),
        Call::Lanes | Call::BothWays => return lane_text(alloc, grammar, start, question.copies),
        Call::Fewest => return fewest_text(alloc, grammar, start, question.copies),
        Call::Counts => counts_text(alloc, grammar, start),
        Call::Check => check_text(alloc, grammar, start),
        Call::Conflicts => canonical_conflicts(alloc, grammar, start),
        Call::CollapsedConflicts => collapsed_conflicts(alloc, grammar, start),
        Call::First => first_text(alloc, grammar, question.names),
        Call::Least => least_text(alloc, grammar, start),
        Call::Empty => empty_text(alloc, grammar, start),
    };
    Ok(text?)
}

/// How many states and conflicts there are, as text.
fn counts_text(
    alloc: Global,
    grammar: &Grammar,
    start: &NonterminalString,
) -> Result<String, AllocError>
    requires { HasItsTerminals grammar.now }
{
    let canonical = canonical_states(alloc, grammar, start)?;
    let counts = counts_of(alloc, grammar, start, &canonical)?;
    Ok(format!(in alloc; "{counts}")?)
}

/// The tree of the tokens, or where they are stuck, as text.
pub fn tree_text(
    alloc: Global,
    grammar: &Grammar,
    start: &NonterminalString,
    tokens: &str,
) -> Result<String, AnswerFault>
    requires { HasItsTerminals grammar.now }
{
    let states = parsable_states(alloc, grammar, start, Method::Canonical)?;
    answer_tokens(alloc, states.as_slice(), &grammar.terminals, tokens)
}
