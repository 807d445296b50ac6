//! What the passes of the normalizer say of grammars, up to some pass.

use crate::files::fields::text_of;
use crate::files::values::triple;
use crate::normalizing::case::Case;
use anyhow::{Result, bail};
use lalrpop_grammar::{Atom, Grammar, NonterminalData, Symbol};
use lalrpop_grammar_repr::{NormError, NormFault, NormResult, Session};
use lalrpop_json_grammar::read_grammar;
use lalrpop_norm_precedence::levels::{expand_precedence, level_fault};
use lalrpop_norm_prevalidate::prevalidate::validate;
use lalrpop_norm_resolve::names::resolve;
use lalrpop_norm_resolve::remove_disabled_decls;
use lalrpop_norm_token_check::{LiteralPlaces, token_check};
use serde_json::Value;
use std::alloc::{AllocError, Global};

/// The first fault that a pass tells, up to the levels, with its span, `null` where none does.
pub(crate) fn first_fault(alloc: Global, case: &Case<'_>) -> Result<Value> {
    match resolved_case(alloc, case)? {
        Ok(_) => Ok(Value::Null),
        Err(fault) => fault_value(alloc, &fault),
    }
}

/// The same up to the token check, of a grammar without levels and macros.
pub(crate) fn token_fault(alloc: Global, case: &Case<'_>) -> Result<Value> {
    match checked_tokens(alloc, case)? {
        Ok(()) => Ok(Value::Null),
        Err(fault) => fault_value(alloc, &fault),
    }
}

/// The rules of the grammar in which each level has a rule of its own, each by its name and the texts of its symbols,
/// alternative by alternative; or the fault.
pub(crate) fn leveled_rules(alloc: Global, case: &Case<'_>) -> Result<Value> {
    match leveled_case(alloc, case)? {
        Ok(grammar) => rules_value(alloc, &grammar),
        Err(fault) => fault_value(alloc, &fault),
    }
}

/// The grammar, with the prefix of the case where it has one.
pub(crate) fn grammar_of_case(alloc: Global, case: &Case<'_>) -> Result<Grammar> {
    let written = case.fields.value("grammar")?;
    let Ok(mut grammar) = read_grammar(alloc, written) else {
        bail!("no grammar");
    };
    if let Some(prefix) = case.fields.text_if("prefix") {
        grammar.prefix = Atom::new(alloc, prefix)?;
    }
    Ok(grammar)
}

/// The text of the fault behind its span.
pub(crate) fn fault_value(alloc: Global, fault: &NormFault) -> Result<Value> {
    match fault {
        NormFault::Norm(error) => Ok(error_value(alloc, error)?),
        NormFault::ConditionLimit => bail!("condition limit"),
        NormFault::Memory => Err(AllocError.into()),
    }
}

/// The text of the error behind its span.
fn error_value(alloc: Global, error: &NormError) -> Result<Value, AllocError> {
    let text = format!(in alloc; "{}..{}: {error}", error.span.0, error.span.1)?;
    Ok(Value::from(text))
}

/// The features that are on, and how deep macros may stand in macros.
pub(crate) fn session_of(alloc: Global, case: &Case<'_>) -> Result<Session> {
    let macro_recursion_limit = case.macro_limit()?;
    Ok(Session {
        features: features_of(alloc, case.fields.list("features"))?,
        macro_recursion_limit,
    })
}

fn features_of(alloc: Global, texts: &[Value]) -> Result<Vec<Atom>> {
    let mut features = Vec::new(alloc);
    for text in texts {
        features.push(Atom::new(alloc, text_of(text)?)?)?;
    }
    Ok(features)
}

/// The grammar without what is disabled and with names resolved, where the passes up to the levels take it.
fn check_and_resolve(alloc: Global, session: &Session, grammar: Grammar) -> NormResult<Grammar> {
    validate(alloc, &grammar)?;
    let enabled = remove_disabled_decls(alloc, session, grammar)?;
    let resolved = resolve(alloc, enabled)?;
    match level_fault(&resolved) {
        Some(error) => Err(NormFault::Norm(error)),
        None => Ok(resolved),
    }
}

/// What the passes up to the levels make of the case's grammar.
fn resolved_case(alloc: Global, case: &Case<'_>) -> Result<NormResult<Grammar>> {
    let grammar = grammar_of_case(alloc, case)?;
    let session = session_of(alloc, case)?;
    Ok(check_and_resolve(alloc, &session, grammar))
}

/// The case's grammar in which each level has a rule of its own, where the passes up to that take it.
fn leveled_case(alloc: Global, case: &Case<'_>) -> Result<NormResult<Grammar>> {
    match resolved_case(alloc, case)? {
        Ok(resolved) => Ok(expand_precedence(alloc, resolved)),
        Err(fault) => Ok(Err(fault)),
    }
}

/// Whether the passes up to the token check take the case's grammar.
fn checked_tokens(alloc: Global, case: &Case<'_>) -> Result<NormResult<()>> {
    match resolved_case(alloc, case)? {
        Ok(resolved) => Ok(check_tokens(alloc, resolved)),
        Err(fault) => Ok(Err(fault)),
    }
}

/// Whether the token check takes the grammar.
fn check_tokens(alloc: Global, resolved: Grammar) -> NormResult<()> {
    let places = LiteralPlaces::new(alloc, &resolved)?;
    token_check::validate(alloc, resolved, &places)?;
    Ok(())
}

/// The rules, each by its name and its alternatives.
fn rules_value(alloc: Global, grammar: &Grammar) -> Result<Value> {
    let mut rules = Vec::new(alloc);
    for rule in grammar.rules() {
        rules.push(rule_value(alloc, rule)?)?;
    }
    Ok(Value::Array(rules))
}

fn rule_value(alloc: Global, rule: &NonterminalData) -> Result<Value, AllocError> {
    let mut alternatives = Vec::new(alloc);
    for alternative in rule.alternatives.as_slice() {
        alternatives.push(symbols_value(alloc, alternative.expr.as_slice())?)?;
    }
    let name = Value::from(rule.name.to_string(alloc)?);
    let public = Value::from(rule.visibility.is_pub());
    triple(alloc, name, public, Value::Array(alternatives))
}

/// The texts of the symbols.
fn symbols_value(alloc: Global, symbols: &[Symbol]) -> Result<Value, AllocError> {
    let mut texts = Vec::new(alloc);
    for symbol in symbols {
        texts.push(Value::from(symbol.canonical_form(alloc)?))?;
    }
    Ok(Value::Array(texts))
}
