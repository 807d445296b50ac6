//! States by lanes, and what both methods answer of texts, as text.

ghost use Rattle.lalrpop_lr1_first.specs.NumberedGrammars.{HasItsTerminals};
ghost use Rattle.lalrpop_lr1_interpret.specs.Parses.{AreParsable};

use crate::answer::fault_text;
use crate::parses::{stop_text, tokens_of};
use anyhow::Result;
use lalrpop_case_kinds::files::fields;
use lalrpop_grammar_repr::methods::Method;
use lalrpop_grammar_repr::{Grammar, TerminalSet};
use lalrpop_grammar_symbols::NonterminalString;
use lalrpop_lr1_build::build_lr0_states;
use lalrpop_lr1_check::check_states;
use lalrpop_lr1_core::{Lr1State, TableFault};
use lalrpop_lr1_interpret::parse::parse_limited;
use lalrpop_plain_tables::answers::{AnswerFault, answer_tokens, parsable_states};
use serde_json::Value;
use std::alloc::{AllocError, Global};

/// By lanes, with so many copies.
fn by_lanes(copies: u64) -> Method {
    Method::Lane {
        copies: copies as usize,
    }
}

/// How many states there are by lanes with so many copies, and whether these may be parsed with.
pub(crate) fn lane_text(
    alloc: Global,
    grammar: &Grammar,
    start: &NonterminalString,
    copies: u64,
) -> Result<String, AnswerFault>
    requires { HasItsTerminals grammar.now }
{
    let states = parsable_states(alloc, grammar, start, by_lanes(copies))?;
    Ok(count_text(alloc, grammar, start, states.as_slice())?)
}

/// How many states there are by lanes with so many copies, and how many without lookaheads.
pub(crate) fn fewest_text(
    alloc: Global,
    grammar: &Grammar,
    start: &NonterminalString,
    copies: u64,
) -> Result<String, AnswerFault>
    requires { HasItsTerminals grammar.now }
{
    let states = parsable_states(alloc, grammar, start, by_lanes(copies))?;
    let fewest = lr0_count(alloc, grammar, start)?;
    Ok(format!(in alloc; "{} states, {fewest} without lookaheads", states.len())?)
}

/// How many states without lookaheads there are, whatever their conflicts.
fn lr0_count(
    alloc: Global,
    grammar: &Grammar,
    start: &NonterminalString,
) -> Result<usize, AllocError>
    requires { HasItsTerminals grammar.now }
{
    match build_lr0_states(alloc, grammar, start.try_clone()?) {
        Ok(states) => Ok(states.len()),
        Err(TableFault::Conflicts(error)) => Ok(error.states.len()),
        Err(TableFault::Memory) => Err(AllocError),
    }
}

/// How many states these are, and whether they may be parsed with.
fn count_text(
    alloc: Global,
    grammar: &Grammar,
    start: &NonterminalString,
    states: &[Lr1State<'_>],
) -> Result<String, AllocError>
    requires { HasItsTerminals grammar.now }
{
    let is_right = check_states(alloc, grammar, start, states)?;
    let verdict = if is_right { "right" } else { "wrong" };
    Ok(format!(in alloc; "{} states, {verdict}", states.len())?)
}

/// Of how many texts both methods say the same, lanes making so many copies; or the first of which they don't.
pub(crate) fn both_ways_text(
    alloc: Global,
    grammar: &Grammar,
    start: &NonterminalString,
    copies: u64,
    texts: &[Value],
) -> Result<String>
    requires { HasItsTerminals grammar.now }
{
    match parsable_states(alloc, grammar, start, by_lanes(copies)) {
        Ok(states) => beside_canonical(alloc, grammar, start, states.as_slice(), texts),
        Err(fault) => fault_text(alloc, fault),
    }
}

/// The same where these are the states by lanes.
fn beside_canonical(
    alloc: Global,
    grammar: &Grammar,
    start: &NonterminalString,
    lanes: &[Lr1State<'_>],
    texts: &[Value],
) -> Result<String>
    requires numbered { HasItsTerminals grammar.now }
    requires parsable { AreParsable grammar.now.terminals lanes.now }
{
    match parsable_states(alloc, grammar, start, Method::Canonical) {
        Ok(states) => Ok(alike_text(alloc, &grammar.terminals, lanes, states.as_slice(), texts)?),
        Err(fault) => fault_text(alloc, fault),
    }
}

/// Of how many texts, sentences and others, these states say the same; or the first of which they don't.
fn alike_text(
    alloc: Global,
    terminals: &TerminalSet,
    lanes: &[Lr1State<'_>],
    canonical: &[Lr1State<'_>],
    texts: &[Value],
) -> Result<String>
    requires lanes_parsable { AreParsable terminals.now lanes.now }
    requires canonical_parsable { AreParsable terminals.now canonical.now }
{
    let mut sentences = 0u64;
    let mut others = 0u64;
    for text in texts {
        let text = fields::text_of(text)?;
        match same_answer(alloc, terminals, lanes, canonical, text)? {
            Some(true) => sentences = sentences.saturating_add(1),
            Some(false) => others = others.saturating_add(1),
            None => return Ok(format!(in alloc; "not alike: {text}")?),
        }
    }
    Ok(format!(in alloc; "alike: {sentences} sentences, {others} others")?)
}

/// Whether the text is a sentence, where both say the same of it.
fn same_answer(
    alloc: Global,
    terminals: &TerminalSet,
    lanes: &[Lr1State<'_>],
    canonical: &[Lr1State<'_>],
    text: &str,
) -> Result<Option<bool>, AllocError>
    requires lanes_parsable { AreParsable terminals.now lanes.now }
    requires canonical_parsable { AreParsable terminals.now canonical.now }
{
    let by_lanes = said_of(alloc, lanes, terminals, text)?;
    let by_canonical = said_of(alloc, canonical, terminals, text)?;
    if by_lanes.as_str() != by_canonical.as_str() {
        return Ok(None);
    }
    Ok(Some(by_lanes.as_str().starts_with("[")))
}

/// The tree of the text's tokens, or where they stop beginning a sentence.
fn said_of(
    alloc: Global,
    states: &[Lr1State<'_>],
    terminals: &TerminalSet,
    text: &str,
) -> Result<String, AllocError>
    requires { AreParsable terminals.now states.now }
{
    let tokens = tokens_of(alloc, text)?;
    match parse_limited(alloc, states, terminals, tokens.as_slice(), u64::MAX) {
        Ok(_) => tree_of(alloc, states, terminals, text),
        Err(stop) => stop_text(alloc, stop),
    }
}

/// The tree of the text's tokens, which are a sentence.
fn tree_of(
    alloc: Global,
    states: &[Lr1State<'_>],
    terminals: &TerminalSet,
    text: &str,
) -> Result<String, AllocError>
    requires { AreParsable terminals.now states.now }
{
    match answer_tokens(alloc, states, terminals, text) {
        Ok(tree) => Ok(tree),
        Err(AnswerFault::Memory) => Err(AllocError),
        Err(fault) => Ok(format!(in alloc; "{fault}")?),
    }
}
