//! Parses onto a stack of the cases' own, as text.

ghost use Rattle.lalrpop_lr1_first.specs.NumberedGrammars.{HasItsTerminals};
ghost use Rattle.lalrpop_lr1_interpret.specs.Parses.{AreParsable};

use crate::parses::{stop_text, tokens_of};
use lalrpop_grammar::ScanToken;
use lalrpop_grammar_repr::methods::Method;
use lalrpop_grammar_repr::{Grammar, Production, TerminalSet};
use lalrpop_grammar_symbols::NonterminalString;
use lalrpop_lr1_core::Lr1State;
use lalrpop_lr1_interpret::parse::{ActionTable, TreeStack};
use lalrpop_plain_tables::answers::{AnswerFault, parsable_states};
use std::alloc::{AllocError, Global};

/// What is made, each leaf and each node as a word, in the order in which they are made.
#[derive(Drop)]
struct Made {
    alloc: Global,
    text: String,
}

impl Made {
    /// Puts the word behind the others.
    fn push_word(&mut self, word: &str) -> Result<(), AllocError> {
        if !self.text.is_empty() {
            self.text.push_str(" ")?;
        }
        self.text.push_str(word)?;
        Ok(())
    }
}

impl<'g> TreeStack<'g> for Made {
    ghost given = { λ _. tt };

    ghost stands = { λ _ _ _. Unit {0} };

    fn leaf(&mut self, token: &ScanToken<'_>) -> Result<(), AllocError> {
        let word = format!(in self.alloc; "{}", token.terminal)?;
        self.push_word(word.as_str())
    }

    fn node(&mut self, production: &'g Production) -> Result<(), AllocError> {
        self.push_word(production.nonterminal.0.as_str())
    }
}

/// What is made of the tokens by the states within the limit, or why that ends.
fn made_text(
    alloc: Global,
    states: &[Lr1State<'_>],
    terminals: &TerminalSet,
    tokens: &[ScanToken<'_>],
    limit: u64,
) -> Result<String, AllocError>
    requires { AreParsable terminals.now states.now }
{
    let table = ActionTable::new(alloc, states, terminals)?;
    let mut made = Made {
        alloc,
        text: String::new(alloc),
    };
    match table.parse_onto(alloc, tokens, limit, &mut made) {
        Ok(()) => Ok(made.text),
        Err(stop) => stop_text(alloc, stop),
    }
}

/// The same by the grammar's own states.
pub(crate) fn onto_text(
    alloc: Global,
    grammar: &Grammar,
    start: &NonterminalString,
    tokens: &str,
    limit: u64,
) -> Result<String, AnswerFault>
    requires { HasItsTerminals grammar.now }
{
    let states = parsable_states(alloc, grammar, start, Method::Canonical)?;
    let tokens = tokens_of(alloc, tokens)?;
    let terminals = &grammar.terminals;
    Ok(made_text(
        alloc,
        states.as_slice(),
        terminals,
        tokens.as_slice(),
        limit,
    )?)
}
