//! What a grammar may hold that isn't carried: an extern block, and the symbol of error recovery.

ghost use Rattle.std.specs.Prelude.{◌≡◌, ◌⊎◌, Bool, IfErr, IfOk, List, Option, map};
ghost use Rattle.std.specs.List.{list_any};
ghost use Rattle.lalrpop_grammar_symbols.specs.Symbols.{Text};
ghost use Rattle.lalrpop_grammar_symbols.specs.Subsymbols.{subsymbols_of};
ghost use Rattle.lalrpop_grammar_symbols.specs.SymbolWalks.{symbols_view};
ghost use Rattle.lalrpop_grammar_symbols.specs.Views.{symbol_view, terminal_view};
ghost use Rattle.lalrpop_grammar.specs.Views.{alternative_view, grammar_view, nonterminal_view};
ghost use Rattle.lalrpop_grammar.specs.WrittenGrammar.{rules_of};
ghost use Rattle.lalrpop_run_prepare.specs.Carried.{IsCarried, is_error as is_error_terminal, is_recovery as is_recovery_symbol};
ghost use Rattle.lalrpop_run_prepare.specs.RecoverySearch.{
  alternative_recovers as pure_alternative,
  grammar_recovers as pure_grammar,
  rule_recovers as pure_rule,
};
ghost use Rattle.lalrpop_run_prepare.specs.Refused.{IsUncarried};

use crate::refusals::GenerateError;
use lalrpop_grammar::{Alternative, Atom, Grammar, NonterminalData};
use lalrpop_grammar_rules::cfg_active;
use lalrpop_grammar_symbols::{Symbol, SymbolKind, TerminalString, subsymbols_of};
use std::alloc::{AllocError, Global};

/// Refuses a grammar with an extern block, then one with error recovery in an enabled alternative.
pub(crate) fn refuse_uncarried(
    alloc: Global,
    features: &[Atom],
    grammar: &Grammar,
) -> Result<(), GenerateError<'static>>
    ensures carried { IfOk result (λ _. (finds : Text → Text → Option Bool)
        → IsCarried finds features.now (grammar_view grammar.now)) }
    ensures refused { IfErr result (λ error. (error ≡ GenerateError.Memory) ⊎ ((finds : Text → Text → Option Bool)
        → IsUncarried finds features.now (grammar_view grammar.now) error)) }
{
    if grammar.extern_token().is_some() {
        return Err(GenerateError::Extern);
    }
    if grammar_recovers(alloc, features, grammar)? {
        return Err(GenerateError::Recovery);
    }
    Ok(())
}

/// Whether an enabled alternative of an enabled rule has the symbol of error recovery.
fn grammar_recovers(alloc: Global, features: &[Atom], grammar: &Grammar) -> Result<bool, AllocError>
    ensures { IfOk result (λ found. found ≡ pure_grammar features.now (grammar_view grammar.now)) }
{
    for rule in grammar.rules() {
        if rule_recovers(alloc, features, rule)? {
            return Ok(true);
        }
    }
    Ok(false)
}

fn rule_recovers(
    alloc: Global,
    features: &[Atom],
    rule: &NonterminalData,
) -> Result<bool, AllocError>
    ensures { IfOk result (λ found. found ≡ pure_rule features.now (nonterminal_view rule.now)) }
{
    if !cfg_active(features, rule.attributes.as_slice()) {
        return Ok(false);
    }
    let found = some_recovers(alloc, features, rule.alternatives.as_slice())?;
    Ok(found)
}

/// Whether an enabled one of the alternatives has the symbol of error recovery.
fn some_recovers(
    alloc: Global,
    features: &[Atom],
    alternatives: &[Alternative],
) -> Result<bool, AllocError>
    ensures { IfOk result (λ found.
        found ≡ list_any (pure_alternative features.now) (map alternative_view alternatives.now)) }
{
    for alternative in alternatives {
        if alternative_recovers(alloc, features, alternative)? {
            return Ok(true);
        }
    }
    Ok(false)
}

fn alternative_recovers(
    alloc: Global,
    features: &[Atom],
    alternative: &Alternative,
) -> Result<bool, AllocError>
    ensures { IfOk result (λ found. found ≡ pure_alternative features.now (alternative_view alternative.now)) }
{
    if !cfg_active(features, alternative.attributes.as_slice()) {
        return Ok(false);
    }
    let found = symbols_recover(alloc, alternative.expr.as_slice())?;
    Ok(found)
}

/// Whether the symbol of error recovery stands in the symbols, at any depth.
fn symbols_recover(alloc: Global, symbols: &[Symbol]) -> Result<bool, AllocError>
    ensures { IfOk result (λ found.
        found ≡ list_any is_recovery_symbol (subsymbols_of (symbols_view symbols.now))) }
{
    for symbol in subsymbols_of(alloc, symbols)? {
        if is_recovery(symbol) {
            return Ok(true);
        }
    }
    Ok(false)
}

fn is_recovery(symbol: &Symbol) -> bool
    ensures { result ≡ is_recovery_symbol (symbol_view symbol.now) }
{
    match &symbol.kind {
        SymbolKind::Error => true,
        SymbolKind::Terminal(terminal) => is_error(terminal),
        SymbolKind::Expr(_)
        | SymbolKind::AmbiguousId(_)
        | SymbolKind::Nonterminal(_)
        | SymbolKind::Macro(_)
        | SymbolKind::Repeat(_)
        | SymbolKind::Choose(_)
        | SymbolKind::Name(_, _)
        | SymbolKind::Lookahead
        | SymbolKind::Lookbehind => false,
    }
}

fn is_error(terminal: &TerminalString) -> bool
    ensures { result ≡ is_error_terminal (terminal_view terminal.now) }
{
    match terminal {
        TerminalString::Error => true,
        TerminalString::Literal(_) => false,
        TerminalString::Bare(_) => false,
    }
}
