//! One step of inlining: a nonterminal is inlined in all rules.

ghost use Rattle.std.specs.Prelude.{◌≡◌, ◌+◌, ◌<◌, ◌≤◌, ◌^◌, ◌++◌, All, IfOk, OnOk, length, vec_len};
ghost use Rattle.std.specs.List.{list_any};
ghost use Rattle.lalrpop_lr1_inline.specs.InliningSteps.{AddsDefinitions, all_records_after, data_after, entries_after};
ghost use Rattle.lalrpop_lr1_inline.specs.InliningSteps.{IsInlineStep, is_place, productions_after, productions_named, records_after};

use crate::made::replace_all;
use crate::records::has_named;
use lalrpop_grammar_repr::{ActionFnDefn, NonterminalData, Production};
use lalrpop_grammar_symbols::{List, NonterminalString};
use std::alloc::{AllocError, Global};
use std::mem;

/// A rule of a lowered grammar, with its name.
pub(crate) type NamedRule = (NonterminalString, NonterminalData);

/// Whether one of the productions names the nonterminal.
fn name_it(productions: &[Production], name: &NonterminalString) -> bool
    ensures { result ≡ list_any (λ p. list_any (is_place name.now.0) p.symbols) productions.now }
{
    for production in productions {
        if has_named(production.symbols.as_slice(), name) {
            return true;
        }
    }
    false
}

/// The rule once the nonterminal is inlined in it by those sources.
fn replace_in_rule(
    alloc: Global,
    name: &NonterminalString,
    sources: &[Production],
    actions: &[ActionFnDefn],
    mut rule: NonterminalData,
    definitions: &mut Vec<ActionFnDefn>,
) -> Result<NonterminalData, AllocError>
    requires known { All (λ p. p.action.0 < length actions.now) rule.productions }
    requires room { length actions.now + vec_len definitions.old
        + length (records_after name.now.0 sources.now rule.productions) ≤ 2 ^ 32 }
    ensures rule { IfOk result (λ made. made ≡ data_after rule
        (productions_after name.now.0 sources.now rule.productions (length actions.now + vec_len definitions.old))) }
    ensures definitions { OnOk result (AddsDefinitions actions.now (records_after name.now.0 sources.now rule.productions)
        definitions.old.items definitions.new.items) }
    ensures count { OnOk result (vec_len definitions.new
        ≡ vec_len definitions.old + length (records_after name.now.0 sources.now rule.productions)) }
{
    // most rules don't name it: these are handed on as they are
    if !name_it(rule.productions.as_slice(), name) {
        return Ok(rule);
    }
    let productions = mem::replace(&mut rule.productions, List::new(alloc));
    rule.productions = replace_all(alloc, name, sources, actions, productions, definitions)?;
    Ok(rule)
}

/// The rules once the nonterminal is inlined in all of them by those sources.
fn replace_in_rules(
    alloc: Global,
    name: &NonterminalString,
    sources: &[Production],
    actions: &[ActionFnDefn],
    rules: Vec<NamedRule>,
    definitions: &mut Vec<ActionFnDefn>,
) -> Result<Vec<NamedRule>, AllocError>
    requires known { All (λ e. All (λ p. p.action.0 < length actions.now) e.1.productions) rules.items }
    requires room { length actions.now + vec_len definitions.old
        + length (all_records_after name.now.0 sources.now rules.items) ≤ 2 ^ 32 }
    ensures rules { IfOk result (λ made. made.items
        ≡ entries_after name.now.0 sources.now rules.items (length actions.now + vec_len definitions.old)) }
    ensures definitions { OnOk result (AddsDefinitions actions.now (all_records_after name.now.0 sources.now rules.items)
        definitions.old.items definitions.new.items) }
{
    let mut made = Vec::new(alloc);
    for entry in rules {
        let (key, rule) = entry;
        let rule = replace_in_rule(alloc, name, sources, actions, rule, definitions)?;
        made.push((key, rule))?;
    }
    Ok(made)
}

/// Puts the actions behind the others.
fn add_actions(
    definitions: Vec<ActionFnDefn>,
    actions: &mut List<ActionFnDefn>,
) -> Result<(), AllocError>
    ensures { OnOk result (actions.new ≡ actions.old ++ definitions.items) }
{
    for definition in definitions {
        actions.push(definition)?;
    }
    Ok(())
}

/// Inlines the nonterminal, whose productions the sources are, in all rules, and adds the actions of what it makes.
pub(crate) fn step(
    alloc: Global,
    name: &NonterminalString,
    sources: &[Production],
    rules: Vec<NamedRule>,
    actions: &mut List<ActionFnDefn>,
) -> Result<Vec<NamedRule>, AllocError>
    requires sources { sources.now ≡ productions_named rules.items name.now.0 }
    requires known { All (λ e. All (λ p. p.action.0 < length actions.old) e.1.productions) rules.items }
    requires room { length actions.old + length (all_records_after name.now.0 sources.now rules.items) ≤ 2 ^ 32 }
    ensures { IfOk result (λ made. IsInlineStep name.now.0 rules.items actions.old made.items actions.new) }
{
    let mut definitions = Vec::new(alloc);
    let made = replace_in_rules(
        alloc,
        name,
        sources,
        actions.as_slice(),
        rules,
        &mut definitions,
    )?;
    add_actions(definitions, actions)?;
    Ok(made)
}
