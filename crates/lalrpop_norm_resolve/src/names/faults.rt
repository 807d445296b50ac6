//! Names that stand for nothing, or for what has no place there.

ghost use Rattle.std.specs.Prelude.{◌≡◌, [], ◌∷◌, flat_map, map, option_map};
ghost use Rattle.lalrpop_grammar_symbols.specs.SymbolWalks.{symbols_view};
ghost use Rattle.lalrpop_grammar_symbols.specs.Subsymbols.{subsymbols_of};
ghost use Rattle.lalrpop_grammar_symbols.specs.Views.{span_view, symbol_view, terminal_view};
ghost use Rattle.lalrpop_grammar.specs.Views.{alternative_view, condition_view, nonterminal_view};
ghost use Rattle.lalrpop_norm_theory.specs.NameFaults.{
  NameFault,
  fault_of_name,
  fault_of_nonterminal,
  fault_of_call,
  fault_of_terminal,
  own_name_fault,
  name_faults_in,
  name_fault_of_condition,
  name_faults_in_alternative,
  name_faults_in_rule,
};
ghost use Rattle.lalrpop_norm_resolve.specs.FoundFaults.{AmongFaults, ChecksNames, TellsOneOf};
ghost use Rattle.lalrpop_norm_resolve.specs.NameViews.{definition_names, name_use_view, scope_names, scope_parameters};

use crate::names::definitions::{Definitions, NameUse, Scope};
use crate::names::types::check_declared;
use lalrpop_grammar::{Alternative, Condition};
use lalrpop_grammar_repr::{NormError, NormErrorKind, NormFault};
use lalrpop_grammar_symbols::{Atom, Span, Symbol, SymbolKind, TerminalString, subsymbols_of};
use std::alloc::Global;

/// The fault that the name names nothing.
fn unknown_name(span: Span, name: &Atom) -> NormFault
    ensures { TellsOneOf (AmongFaults (NameFault.unknown name.now (span_view span) ∷ [])) result }
{
    match name.try_clone() {
        Ok(name) => NormFault::Norm(NormError {
            kind: NormErrorKind::NoDefinition(name),
            span,
        }),
        Err(_) => NormFault::Memory,
    }
}

/// The fault of a macro without arguments, or of arguments for what is no macro.
fn misused_name(span: Span) -> NormFault
    ensures { TellsOneOf (AmongFaults (NameFault.misused (span_view span) ∷ [])) result }
{
    NormFault::Norm(NormError {
        kind: NormErrorKind::MacroAsRule,
        span,
    })
}

/// Sees that a name alone isn't that of a macro.
fn check_name(meaning: NameUse, span: Span, name: &Atom) -> Result<(), NormFault>
    ensures { ChecksNames (fault_of_name (name_use_view meaning) (span_view span) name.now) result }
{
    match meaning {
        NameUse::Parameter => Ok(()),
        NameUse::PlainRule => Ok(()),
        NameUse::MacroRule => Err(misused_name(span)),
        NameUse::Mapped => Ok(()),
        NameUse::Nothing => Err(unknown_name(span, name)),
    }
}

/// Sees that a nonterminal is a rule that is no macro.
fn check_nonterminal(meaning: NameUse, span: Span, name: &Atom) -> Result<(), NormFault>
    ensures { ChecksNames (fault_of_nonterminal (name_use_view meaning) (span_view span) name.now) result }
{
    match meaning {
        NameUse::Parameter => Ok(()),
        NameUse::PlainRule => Ok(()),
        NameUse::MacroRule => Err(misused_name(span)),
        NameUse::Mapped => Err(unknown_name(span, name)),
        NameUse::Nothing => Err(unknown_name(span, name)),
    }
}

/// Sees that a call is of a macro, with arguments.
fn check_call(meaning: NameUse, span: Span, name: &Atom, args: &[Symbol]) -> Result<(), NormFault>
    ensures { ChecksNames (fault_of_call (name_use_view meaning) (span_view span) name.now (symbols_view args.now)) result }
{
    match (meaning, args) {
        (NameUse::MacroRule, [_, ..]) => Ok(()),
        (NameUse::MacroRule, []) => Err(misused_name(span)),
        (NameUse::Parameter, _) => Err(misused_name(span)),
        (NameUse::PlainRule, _) => Err(misused_name(span)),
        (NameUse::Mapped, _) => Err(misused_name(span)),
        (NameUse::Nothing, _) => Err(unknown_name(span, name)),
    }
}

/// Sees that a bare name is a mapped one.
fn check_terminal(
    definitions: &Definitions<'_>,
    span: Span,
    terminal: &TerminalString,
) -> Result<(), NormFault>
    ensures { ChecksNames
        (fault_of_terminal (definition_names definitions.now) (span_view span) (terminal_view terminal.now)) result }
{
    match terminal {
        TerminalString::Bare(name) => {
            if definitions.is_bare(name) {
                Ok(())
            } else {
                Err(unknown_name(span, name))
            }
        }
        TerminalString::Literal(_) => Ok(()),
        TerminalString::Error => Ok(()),
    }
}

/// Sees that nothing is wrong with the symbol's own name.
fn check_symbol(scope: &Scope<'_, '_>, symbol: &Symbol) -> Result<(), NormFault>
    ensures { ChecksNames (own_name_fault (scope_names scope.now) (scope_parameters scope.now) (symbol_view symbol.now)) result }
{
    let span = symbol.span;
    match &symbol.kind {
        SymbolKind::AmbiguousId(name) => check_name(scope.use_of(name), span, name),
        SymbolKind::Nonterminal(name) => {
            check_nonterminal(scope.definitions.use_of(&name.0), span, &name.0)
        }
        SymbolKind::Macro(call) => {
            let name = &call.name.0;
            check_call(scope.use_of(name), span, name, call.args.as_slice())
        }
        SymbolKind::Terminal(terminal) => check_terminal(scope.definitions, span, terminal),
        SymbolKind::Expr(_)
        | SymbolKind::Repeat(_)
        | SymbolKind::Choose(_)
        | SymbolKind::Name(_, _)
        | SymbolKind::Lookahead
        | SymbolKind::Lookbehind
        | SymbolKind::Error => Ok(()),
    }
}

/// Sees that nothing is wrong with the names in the symbols, at any depth.
pub(crate) fn check_symbols(
    alloc: Global,
    scope: &Scope<'_, '_>,
    symbols: &[Symbol],
) -> Result<(), NormFault>
    ensures { ChecksNames (name_faults_in (scope_names scope.now) (scope_parameters scope.now)
        (subsymbols_of (symbols_view symbols.now))) result }
{
    for symbol in subsymbols_of(alloc, symbols)? {
        check_symbol(scope, symbol)?;
    }
    Ok(())
}

/// Sees that a condition is on a parameter.
fn check_condition(scope: &Scope<'_, '_>, condition: &Option<Condition>) -> Result<(), NormFault>
    ensures { ChecksNames (name_fault_of_condition (scope_parameters scope.now) (option_map condition_view condition.now)) result }
{
    match condition {
        None => Ok(()),
        Some(condition) => {
            if scope.is_parameter(&condition.lhs.0) {
                Ok(())
            } else {
                Err(unknown_name(condition.span, &condition.lhs.0))
            }
        }
    }
}

/// Sees that nothing is wrong with the names in the alternative.
fn check_alternative(
    alloc: Global,
    scope: &Scope<'_, '_>,
    alternative: &Alternative,
) -> Result<(), NormFault>
    ensures { ChecksNames (name_faults_in_alternative (scope_names scope.now) (scope_parameters scope.now)
        (alternative_view alternative.now)) result }
{
    check_symbols(alloc, scope, alternative.expr.as_slice())?;
    check_condition(scope, &alternative.condition)
}

/// Sees that nothing is wrong with the names in the alternatives.
fn check_alternatives(
    alloc: Global,
    scope: &Scope<'_, '_>,
    alternatives: &[Alternative],
) -> Result<(), NormFault>
    ensures { ChecksNames (flat_map (name_faults_in_alternative (scope_names scope.now) (scope_parameters scope.now))
        (map alternative_view alternatives.now)) result }
{
    for alternative in alternatives {
        check_alternative(alloc, scope, alternative)?;
    }
    Ok(())
}

/// Sees that nothing is wrong with the names in the scope's rule.
pub(crate) fn check_rule(alloc: Global, scope: &Scope<'_, '_>) -> Result<(), NormFault>
    ensures { ChecksNames (name_faults_in_rule (scope_names scope.now) (nonterminal_view scope.now.rule.now)) result }
{
    check_declared(alloc, scope, &scope.rule.type_decl)?;
    check_alternatives(alloc, scope, scope.rule.alternatives.as_slice())
}
