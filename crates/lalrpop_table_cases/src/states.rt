//! States as cases write them.

use crate::case::WrittenState;
use anyhow::{Result, bail};
use lalrpop_case_kinds::files::fields::{count_of, list_of, text_of};
use lalrpop_grammar_repr::{Grammar, Map, Production, TerminalSet};
use lalrpop_grammar_symbols::{Atom, List, NonterminalString, TerminalString};
use lalrpop_lr1_core::{Item, Items, Lr1Item, Lr1State, State, StateIndex};
use lalrpop_plain_tables::answers::start_of;
use lalrpop_sets::{Token, TokenSet};
use serde_json::Value;
use std::alloc::{AllocError, Global};

/// A reduction of a state, with what may follow.
type Reduction<'g> = (TokenSet, &'g Production);

/// Where productions are looked up: in the grammar, and then among those that aren't its own.
#[derive(Clone, Copy)]
struct Lookup<'g> {
    alloc: Global,
    grammar: &'g Grammar,
    others: &'g Grammar,
}

/// The terminal of this text.
fn terminal_of(alloc: Global, text: &str) -> Result<TerminalString, AllocError> {
    Ok(TerminalString::quoted(Atom::new(alloc, text)?))
}

/// The token of the word: the end, the token of errors, or a terminal.
fn token_of(alloc: Global, word: &str) -> Result<Token, AllocError> {
    match word {
        "Eof" => Ok(Token::Eof),
        "Error" => Ok(Token::Error),
        _ => Ok(Token::Terminal(terminal_of(alloc, word)?)),
    }
}

/// The set of the tokens whose words stand in the text between blanks.
fn set_of(alloc: Global, terminals: &TerminalSet, words: &str) -> Result<TokenSet, AllocError> {
    let mut set = TokenSet::new(alloc, terminals)?;
    for word in words.split_whitespace() {
        set.insert(&token_of(alloc, word)?, terminals)?;
    }
    Ok(set)
}

/// The word and the state of an edge.
fn edge_of(value: &Value) -> Result<(&str, StateIndex)> {
    match list_of(value)? {
        [word, to] => Ok((text_of(word)?, StateIndex(count_of(to)?))),
        _ => bail!("no word with a state"),
    }
}

/// Where terminals lead.
fn shifts_of(alloc: Global, written: &[Value]) -> Result<Map<TerminalString, StateIndex>> {
    let mut shifts = Map::new(alloc);
    for value in written {
        let (text, to) = edge_of(value)?;
        shifts.insert(terminal_of(alloc, text)?, to)?;
    }
    Ok(shifts)
}

/// Where nonterminals lead.
fn gotos_of(alloc: Global, written: &[Value]) -> Result<Map<NonterminalString, StateIndex>> {
    let mut gotos = Map::new(alloc);
    for value in written {
        let (name, to) = edge_of(value)?;
        gotos.insert(start_of(alloc, name)?, to)?;
    }
    Ok(gotos)
}

impl<'g> Lookup<'g> {
    /// The production of the nonterminal at the place.
    fn production(&self, name: &str, place: usize) -> Result<&'g Production> {
        let name = start_of(self.alloc, name)?;
        let others = self.others.productions_for(&name);
        match self.grammar.productions_for(&name).get(place) {
            Some(production) => Ok(production),
            None => production_of(others.get(place)),
        }
    }

    /// The production that is told by its nonterminal and its place.
    fn told_production(&self, name: &Value, place: &Value) -> Result<&'g Production> {
        self.production(text_of(name)?, count_of(place)?)
    }

    /// The set of the tokens whose words stand in the text between blanks.
    fn tokens(&self, words: &str) -> Result<TokenSet> {
        Ok(set_of(self.alloc, &self.grammar.terminals, words)?)
    }

    /// The item, before the end where nothing else is told.
    fn item(&self, value: &Value) -> Result<Lr1Item<'g>> {
        match list_of(value)? {
            [name, place, dot] => {
                let production = self.told_production(name, place)?;
                self.item_before(production, dot, "Eof")
            }
            [name, place, dot, words] => {
                let production = self.told_production(name, place)?;
                self.item_before(production, dot, text_of(words)?)
            }
            _ => bail!("no item"),
        }
    }

    /// The item of the production with the dot there, before these tokens.
    fn item_before(
        &self,
        production: &'g Production,
        dot: &Value,
        words: &str,
    ) -> Result<Lr1Item<'g>> {
        let dot = count_of(dot)?;
        let tokens = self.tokens(words)?;
        Ok(Item::lr0(production, dot).with_lookahead(tokens))
    }

    /// The items.
    fn items(&self, written: &[Value]) -> Result<List<Lr1Item<'g>>> {
        let mut items = List::new(self.alloc);
        for value in written {
            items.push(self.item(value)?)?;
        }
        Ok(items)
    }

    /// The reduction.
    fn reduction(&self, value: &Value) -> Result<Reduction<'g>> {
        match list_of(value)? {
            [name, place, words] => {
                let production = self.told_production(name, place)?;
                Ok((self.tokens(text_of(words)?)?, production))
            }
            _ => bail!("no reduction"),
        }
    }

    /// The reductions.
    fn reductions(&self, written: &[Value]) -> Result<List<Reduction<'g>>> {
        let mut reductions = List::new(self.alloc);
        for value in written {
            reductions.push(self.reduction(value)?)?;
        }
        Ok(reductions)
    }

    /// The state at this place.
    fn state(&self, place: usize, written: &WrittenState<'_>) -> Result<Lr1State<'g>> {
        Ok(State {
            index: StateIndex(number_of(place, written)?),
            items: Items {
                vec: self.items(written.items)?,
            },
            reductions: self.reductions(written.reductions)?,
            shifts: shifts_of(self.alloc, written.shifts)?,
            gotos: gotos_of(self.alloc, written.gotos)?,
        })
    }

    /// The states in order.
    fn states(&self, written: &[Value]) -> Result<Vec<Lr1State<'g>>> {
        let mut states = Vec::new(self.alloc);
        for (place, value) in written.iter().enumerate() {
            states.push(self.state(place, &WrittenState::of(value)?)?)?;
        }
        Ok(states)
    }
}

/// The number that the state at this place says to have.
fn number_of(place: usize, written: &WrittenState<'_>) -> Result<usize> {
    match written.number {
        Some(number) => Ok(usize::try_from(number)?),
        None => Ok(place),
    }
}

/// The production that was found.
fn production_of<'g>(found: Option<&'g Production>) -> Result<&'g Production> {
    match found {
        Some(production) => Ok(production),
        None => bail!("no such production"),
    }
}

/// The states that a case writes, over productions of the grammar and others.
///
/// # Errors
///
/// A production isn't there, or a state isn't written as it has to be.
pub(crate) fn states_of<'g>(
    alloc: Global,
    grammar: &'g Grammar,
    others: &'g Grammar,
    written: &[Value],
) -> Result<Vec<Lr1State<'g>>> {
    let lookup = Lookup {
        alloc,
        grammar,
        others,
    };
    lookup.states(written)
}
