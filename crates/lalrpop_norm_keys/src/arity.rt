//! The numbers of arguments that macros are given.

ghost use Rattle.std.specs.Prelude.{flat_map, length, map};
ghost use Rattle.lalrpop_grammar_symbols.specs.SymbolWalks.{symbols_view};
ghost use Rattle.lalrpop_grammar_symbols.specs.Symbols.{list_of};
ghost use Rattle.lalrpop_grammar_symbols.specs.Subsymbols.{subsymbols_of};
ghost use Rattle.lalrpop_grammar_symbols.specs.Views.{span_view, symbol_view};
ghost use Rattle.lalrpop_grammar.specs.Views.{alternative_view, grammar_view, nonterminal_view};
ghost use Rattle.lalrpop_grammar.specs.WrittenGrammar.{rules_of};
ghost use Rattle.lalrpop_grammar_language.specs.Enabled.{rules_named};
ghost use Rattle.lalrpop_grammar_rules.specs.RuleTable.{IsTable, rules_view};
ghost use Rattle.lalrpop_norm_keys.specs.Arity.{
  ChecksArity,
  arity_fault,
  arity_fault_of,
  arity_faults,
  arity_faults_at,
  arity_faults_in,
  arity_faults_of,
};

use lalrpop_grammar::{Alternative, Grammar, NonterminalData};
use lalrpop_grammar_repr::{NormError, NormErrorKind, NormFault};
use lalrpop_grammar_rules::Rules;
use lalrpop_grammar_symbols::{Atom, Span, Symbol, SymbolKind, subsymbols_of};
use std::alloc::Global;

/// Sees that the macro is given as many arguments as it has parameters.
fn check_count(rules: &Rules<'_>, span: Span, name: &Atom, args: &[Symbol]) -> Result<(), NormFault>
    requires { IsTable rules.now }
    ensures { ChecksArity (arity_fault_of (rules_named (rules_view rules.now) name.now)
        (length (list_of (symbols_view args.now))) (span_view span)) result }
{
    let Some(rule) = rules.find(name) else {
        return Ok(());
    };
    if rule.written.args.len() == args.len() {
        return Ok(());
    }
    Err(NormFault::Norm(NormError {
        kind: NormErrorKind::WrongNumberOfArguments,
        span,
    }))
}

/// Sees that the symbol itself is no call with another number of arguments than parameters.
fn check_symbol(rules: &Rules<'_>, symbol: &Symbol) -> Result<(), NormFault>
    requires { IsTable rules.now }
    ensures { ChecksArity (arity_fault (rules_view rules.now) (symbol_view symbol.now)) result }
{
    match &symbol.kind {
        SymbolKind::Macro(call) => {
            check_count(rules, symbol.span, &call.name.0, call.args.as_slice())
        }
        SymbolKind::AmbiguousId(_)
        | SymbolKind::Nonterminal(_)
        | SymbolKind::Terminal(_)
        | SymbolKind::Expr(_)
        | SymbolKind::Repeat(_)
        | SymbolKind::Choose(_)
        | SymbolKind::Name(_, _)
        | SymbolKind::Lookahead
        | SymbolKind::Lookbehind
        | SymbolKind::Error => Ok(()),
    }
}

/// Sees that no call in the symbols has another number of arguments than parameters.
fn check_symbols(alloc: Global, rules: &Rules<'_>, symbols: &[Symbol]) -> Result<(), NormFault>
    requires { IsTable rules.now }
    ensures { ChecksArity (arity_faults_of (rules_view rules.now) (subsymbols_of (symbols_view symbols.now))) result }
{
    for symbol in subsymbols_of(alloc, symbols)? {
        check_symbol(rules, symbol)?;
    }
    Ok(())
}

/// Sees that no call in the alternatives has another number of arguments than parameters.
fn check_alternatives(
    alloc: Global,
    rules: &Rules<'_>,
    alternatives: &[Alternative],
) -> Result<(), NormFault>
    requires { IsTable rules.now }
    ensures { ChecksArity (flat_map (arity_faults_at (rules_view rules.now)) (map alternative_view alternatives.now)) result }
{
    for alternative in alternatives {
        check_symbols(alloc, rules, alternative.expr.as_slice())?;
    }
    Ok(())
}

/// Sees that no call in the rule has another number of arguments than parameters.
fn check_rule(alloc: Global, rules: &Rules<'_>, rule: &NonterminalData) -> Result<(), NormFault>
    requires { IsTable rules.now }
    ensures { ChecksArity (arity_faults_in (rules_view rules.now) (nonterminal_view rule.now)) result }
{
    check_alternatives(alloc, rules, rule.alternatives.as_slice())
}

/// Sees that each call of a macro in the grammar's alternatives has as many arguments as the macro has parameters.
///
/// # Errors
///
/// One hasn't, with its place; or memory runs out.
pub fn check_arity(alloc: Global, grammar: &Grammar, rules: &Rules<'_>) -> Result<(), NormFault>
    requires { IsTable rules.now }
    ensures { ChecksArity (arity_faults (rules_view rules.now) (rules_of (grammar_view grammar.now).items)) result }
{
    for rule in grammar.rules() {
        check_rule(alloc, rules, rule)?;
    }
    Ok(())
}
