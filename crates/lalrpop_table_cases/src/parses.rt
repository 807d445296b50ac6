//! Parses within limits, as text.

ghost use Rattle.lalrpop_lr1_first.specs.NumberedGrammars.{HasItsTerminals};
ghost use Rattle.lalrpop_lr1_interpret.specs.Parses.{AreParsable};

use lalrpop_grammar::ScanToken;
use lalrpop_grammar_repr::methods::Method;
use lalrpop_grammar_repr::{Grammar, TerminalSet};
use lalrpop_grammar_symbols::{NonterminalString, Span};
use lalrpop_lr1_core::Lr1State;
use lalrpop_lr1_interpret::parse::{Stop, parse_limited};
use lalrpop_plain_tables::answers::{AnswerFault, parsable_states};
use lalrpop_plain_tables::lines::read_tokens;
use std::alloc::{AllocError, Global};

/// The tokens whose terminals stand in the text between blanks.
pub fn tokens_of(alloc: Global, text: &str) -> Result<Vec<ScanToken<'static>>, AllocError> {
    let mut tokens = Vec::new(alloc);
    for terminal in read_tokens(alloc, text)? {
        tokens.push(ScanToken {
            terminal,
            text: "",
            span: Span(0, 0),
        })?;
    }
    Ok(tokens)
}

/// Why there is no tree, as text.
pub fn stop_text(alloc: Global, stop: Stop) -> Result<String, AllocError> {
    match stop {
        Stop::Token(place) => Ok(format!(in alloc; "token {place}")?),
        Stop::End => String::from_str(alloc, "end"),
        Stop::Limit => String::from_str(alloc, "limit"),
        Stop::Memory => Err(AllocError),
    }
}

/// How many leaves and nodes the tree of the tokens has within the limit, or why there is none.
fn count_text(
    alloc: Global,
    states: &[Lr1State<'_>],
    terminals: &TerminalSet,
    tokens: &[ScanToken<'_>],
    limit: u64,
) -> Result<String, AllocError>
    requires { AreParsable terminals.now states.now }
{
    match parse_limited(alloc, states, terminals, tokens, limit) {
        Ok(tree) => Ok(format!(in alloc; "{}", tree.node_count())?),
        Err(stop) => stop_text(alloc, stop),
    }
}

/// The same by the grammar's own states.
pub(crate) fn parse_text(
    alloc: Global,
    grammar: &Grammar,
    start: &NonterminalString,
    tokens: &str,
    limit: u64,
) -> Result<String, AnswerFault>
    requires { HasItsTerminals grammar.now }
{
    let states = parsable_states(alloc, grammar, start, Method::Canonical)?;
    let tokens = tokens_of(alloc, tokens)?;
    let terminals = &grammar.terminals;
    Ok(count_text(
        alloc,
        states.as_slice(),
        terminals,
        tokens.as_slice(),
        limit,
    )?)
}
