//! What grammars are normalized to.

use crate::files::values::{text, triple};
use crate::normalizing::case::Case;
use crate::normalizing::passes::{fault_value, grammar_of_case, session_of};
use anyhow::{Result, bail};
use lalrpop_grammar::{Origin, Symbol as WrittenSymbol};
use lalrpop_grammar_repr::{NonterminalData, NormFault, NormResult, Production, Symbol};
use lalrpop_norm::{Normalized, normalize};
use serde_json::Value;
use std::alloc::{AllocError, Global};

/// The fault of normalizing, with its span, `null` where there is none.
pub(crate) fn fault(alloc: Global, case: &Case<'_>) -> Result<Value> {
    match normal(alloc, case)? {
        Ok(_) => Ok(Value::Null),
        Err(fault) => fault_value(alloc, &fault),
    }
}

/// The names of the nonterminals, in order; or the fault.
pub(crate) fn nonterminals(alloc: Global, case: &Case<'_>) -> Result<Value> {
    match normal(alloc, case)? {
        Ok(made) => names_value(alloc, &made),
        Err(fault) => fault_value(alloc, &fault),
    }
}

/// The productions, each by its nonterminal, its symbols and its written choice; or the fault.
pub(crate) fn productions(alloc: Global, case: &Case<'_>) -> Result<Value> {
    match normal(alloc, case)? {
        Ok(made) => productions_value(alloc, &made),
        Err(fault) => fault_value(alloc, &fault),
    }
}

/// What the case's grammar is normalized to.
fn normal(alloc: Global, case: &Case<'_>) -> Result<NormResult<Normalized>> {
    let grammar = grammar_of_case(alloc, case)?;
    let session = session_of(alloc, case)?;
    Ok(normalize(alloc, &session, grammar))
}

fn names_value(alloc: Global, made: &Normalized) -> Result<Value> {
    let mut names = Vec::new(alloc);
    for (name, _) in made.grammar.nonterminals.iter() {
        names.push(Value::from(name.to_string(alloc)?))?;
    }
    Ok(Value::Array(names))
}

fn productions_value(alloc: Global, made: &Normalized) -> Result<Value> {
    let mut productions = Vec::new(alloc);
    for (_, data) in made.grammar.nonterminals.iter() {
        add_productions(alloc, made, data, &mut productions)?;
    }
    Ok(Value::Array(productions))
}

/// Puts the nonterminal's productions behind the others.
fn add_productions(
    alloc: Global,
    made: &Normalized,
    data: &NonterminalData,
    productions: &mut Vec<Value>,
) -> Result<()> {
    for production in data.productions.as_slice() {
        productions.push(production_value(alloc, made, production)?)?;
    }
    Ok(())
}

fn production_value(alloc: Global, made: &Normalized, production: &Production) -> Result<Value> {
    let Some(origin) = made.origins.as_slice().get(production.action.index()) else {
        bail!("a production without an origin");
    };
    Ok(production_of(alloc, production, origin)?)
}

/// The production with its written choice.
fn production_of(
    alloc: Global,
    production: &Production,
    origin: &Origin,
) -> Result<Value, AllocError> {
    let name = Value::from(production.nonterminal.to_string(alloc)?);
    let symbols = symbols_value(alloc, production.symbols.as_slice())?;
    triple(alloc, name, symbols, origin_value(alloc, origin)?)
}

/// The texts of the symbols.
fn symbols_value(alloc: Global, symbols: &[Symbol]) -> Result<Value, AllocError> {
    let mut texts = Vec::new(alloc);
    for symbol in symbols {
        texts.push(Value::from(symbol_text(alloc, symbol)?))?;
    }
    Ok(Value::Array(texts))
}

fn symbol_text(alloc: Global, symbol: &Symbol) -> Result<String, AllocError> {
    match symbol {
        Symbol::Nonterminal(name) => name.to_string(alloc),
        Symbol::Terminal(terminal) => terminal.to_string(alloc),
    }
}

/// A written alternative by its rule, the texts of its arguments and its place, another choice by its word.
fn origin_value(alloc: Global, origin: &Origin) -> Result<Value, AllocError> {
    let word = match origin {
        Origin::Alternative { rule, args, place } => {
            let args = arguments_value(alloc, args.as_slice())?;
            let rule = Value::from(rule.to_string(alloc)?);
            return triple(alloc, rule, args, Value::from(*place));
        }
        Origin::Start => "Start",
        Origin::PassDown => "PassDown",
        Origin::PlusOne => "PlusOne",
        Origin::PlusMore => "PlusMore",
        Origin::StarNone => "StarNone",
        Origin::StarSome => "StarSome",
        Origin::OptNone => "OptNone",
        Origin::OptSome => "OptSome",
        Origin::Group => "Group",
        Origin::Look => "Look",
    };
    text(alloc, word)
}

/// The texts of the arguments.
fn arguments_value(alloc: Global, arguments: &[WrittenSymbol]) -> Result<Value, AllocError> {
    let mut texts = Vec::new(alloc);
    for argument in arguments {
        texts.push(Value::from(argument.to_string(alloc)?))?;
    }
    Ok(Value::Array(texts))
}
