//! Nonterminals with their productions: those of starts, and those of rules.

ghost use Rattle.std.specs.Prelude.{◌≡◌, ◌+◌, ◌++◌, ◌<◌, ◌≤◌, ◌^◌, IfOk, OnOk, length, map};
ghost use Rattle.lalrpop_grammar.specs.Views.{alternative_view, grammar_view, nonterminal_view};
ghost use Rattle.lalrpop_grammar.specs.WrittenGrammar.{rules_of};
ghost use Rattle.lalrpop_norm_lower.specs.LoweredLists.{
  alternative_production,
  alternative_productions,
  count_alternatives,
  lowered_entry_view,
  lowered_production_view,
  rule_entries,
  entry_of_rule,
  start_entries,
  entry_of_start,
  start_production,
};
ghost use Rattle.lalrpop_norm_lower.specs.RuleLists.{rules_at};

use crate::starts::start_name;
use crate::symbols::lower_symbols;
use lalrpop_grammar::types::clone_attributes;
use lalrpop_grammar::{Alternative, Grammar, NonterminalData};
use lalrpop_grammar_repr::{
    ActionFn, NonterminalData as LoweredData, Production, Symbol as LoweredSymbol,
};
use lalrpop_grammar_symbols::{Atom, List, NonterminalString};
use std::alloc::{AllocError, Global};

/// A nonterminal by its name.
pub(crate) type LoweredEntry = (NonterminalString, LoweredData);

/// The production of a rule's start: the rule alone.
fn start_of_rule(
    alloc: Global,
    prefix: &Atom,
    rule: &NonterminalData,
    number: usize,
) -> Result<Production, AllocError>
    requires { number < 2 ^ 32 }
    ensures { IfOk result (λ made.
        lowered_production_view made ≡ start_production prefix.now number (nonterminal_view rule.now)) }
{
    let nonterminal = start_name(alloc, prefix, &rule.name)?;
    let mut symbols = List::new(alloc);
    symbols.push(LoweredSymbol::Nonterminal(rule.name.try_clone()?))?;
    Ok(Production {
        nonterminal,
        symbols,
        action: ActionFn::new(number),
        span: rule.span,
    })
}

/// A rule's start with its production, which has the action of that number.
fn lower_start(
    alloc: Global,
    prefix: &Atom,
    rule: &NonterminalData,
    number: usize,
) -> Result<LoweredEntry, AllocError>
    requires { number < 2 ^ 32 }
    ensures { IfOk result (λ made. lowered_entry_view made ≡ entry_of_start prefix.now number (nonterminal_view rule.now)) }
{
    let mut productions = List::new(alloc);
    productions.push(start_of_rule(alloc, prefix, rule, number)?)?;
    let key = start_name(alloc, prefix, &rule.name)?;
    let data = LoweredData {
        name: key.try_clone()?,
        attributes: List::new(alloc),
        span: rule.span,
        productions,
    };
    Ok((key, data))
}

/// Adds the starts of the rules, whose actions are numbered from 0 on.
pub(crate) fn add_starts(
    alloc: Global,
    prefix: &Atom,
    rules: &[&NonterminalData],
    made: &mut Vec<LoweredEntry>,
) -> Result<(), AllocError>
    requires { length rules.now ≤ 2 ^ 32 }
    ensures { OnOk result (map lowered_entry_view made.new.items
        ≡ map lowered_entry_view made.old.items ++ start_entries prefix.now 0 (rules_at rules.now)) }
{
    let mut number: usize = 0;
    for rule in rules {
        made.push(lower_start(alloc, prefix, rule, number)?)?;
        number += 1;
    }
    Ok(())
}

/// The production of an alternative of that rule.
fn lower_alternative(
    alloc: Global,
    alternative: &Alternative,
    name: &NonterminalString,
    number: usize,
) -> Result<Production, AllocError>
    requires { number < 2 ^ 32 }
    ensures { IfOk result (λ made.
        lowered_production_view made ≡ alternative_production name.now.0 number (alternative_view alternative.now)) }
{
    Ok(Production {
        nonterminal: name.try_clone()?,
        symbols: lower_symbols(alloc, alternative.expr.as_slice())?,
        action: ActionFn::new(number),
        span: alternative.span,
    })
}

/// The productions of the rule's alternatives, in order, whose actions are numbered from there on.
fn lower_alternatives(
    alloc: Global,
    rule: &NonterminalData,
    first: usize,
) -> Result<List<Production>, AllocError>
    requires { first + length rule.now.alternatives ≤ 2 ^ 32 }
    ensures { IfOk result (λ made. let r = nonterminal_view rule.now in
        map lowered_production_view made ≡ alternative_productions r.name first r.alternatives) }
{
    let mut productions = List::new(alloc);
    let mut number = first;
    for alternative in rule.alternatives.as_slice() {
        productions.push(lower_alternative(alloc, alternative, &rule.name, number)?)?;
        number += 1;
    }
    Ok(productions)
}

/// A rule with its productions, whose actions are numbered from there on.
fn lower_rule(
    alloc: Global,
    rule: &NonterminalData,
    first: usize,
) -> Result<LoweredEntry, AllocError>
    requires { first + length rule.now.alternatives ≤ 2 ^ 32 }
    ensures { IfOk result (λ made. lowered_entry_view made ≡ entry_of_rule first (nonterminal_view rule.now)) }
{
    let productions = lower_alternatives(alloc, rule, first)?;
    let key = rule.name.try_clone()?;
    let data = LoweredData {
        name: rule.name.try_clone()?,
        attributes: clone_attributes(alloc, rule.attributes.as_slice())?,
        span: rule.span,
        productions,
    };
    Ok((key, data))
}

/// Adds the grammar's rules, whose actions are numbered from there on.
pub(crate) fn add_rules(
    alloc: Global,
    grammar: &Grammar,
    first: usize,
    made: &mut Vec<LoweredEntry>,
) -> Result<(), AllocError>
    requires { first + count_alternatives (rules_of (grammar_view grammar.now).items) ≤ 2 ^ 32 }
    ensures { OnOk result (map lowered_entry_view made.new.items
        ≡ map lowered_entry_view made.old.items ++ rule_entries first (rules_of (grammar_view grammar.now).items)) }
{
    let mut next = first;
    for rule in grammar.rules() {
        made.push(lower_rule(alloc, rule, next)?)?;
        next += rule.alternatives.len();
    }
    Ok(())
}
