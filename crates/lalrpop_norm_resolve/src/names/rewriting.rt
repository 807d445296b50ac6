//! Rules with each of their names resolved.

ghost use Rattle.std.specs.Prelude.{◌≡◌, IfOk, map};
ghost use Rattle.lalrpop_grammar_symbols.specs.Views.{symbol_view};
ghost use Rattle.lalrpop_grammar.specs.Views.{alternative_view, nonterminal_view};
ghost use Rattle.lalrpop_norm_theory.specs.Resolving.{resolved_symbol, resolved_alternative, resolved_rule};
ghost use Rattle.lalrpop_norm_resolve.specs.NameViews.{scope_names, scope_parameters};

use crate::names::definitions::Scope;
use crate::names::resolver::Resolver;
use crate::names::types::resolved_declared;
use lalrpop_grammar::types::clone_attributes;
use lalrpop_grammar::{ActionKind, Alternative, Condition, NonterminalData};
use lalrpop_grammar_symbols::{List, NonterminalString, Symbol};
use std::alloc::{AllocError, Global};

/// The symbol with each name in it resolved.
pub(crate) fn resolved_symbol(
    alloc: Global,
    scope: &Scope<'_, '_>,
    symbol: &Symbol,
) -> Result<Symbol, AllocError>
    ensures { IfOk result (λ made. symbol_view made
        ≡ resolved_symbol (scope_names scope.now) (scope_parameters scope.now) (symbol_view symbol.now)) }
{
    let mut resolver = Resolver { scope };
    symbol.map(alloc, &mut resolver)
}

/// The symbols, in order, with each name in them resolved.
fn resolved_symbols(
    alloc: Global,
    scope: &Scope<'_, '_>,
    symbols: &[Symbol],
) -> Result<List<Symbol>, AllocError>
    ensures { IfOk result (λ made. map symbol_view made
        ≡ map (resolved_symbol (scope_names scope.now) (scope_parameters scope.now)) (map symbol_view symbols.now)) }
{
    let mut made = List::new(alloc);
    for symbol in symbols {
        made.push(resolved_symbol(alloc, scope, symbol)?)?;
    }
    Ok(made)
}

fn clone_condition(condition: &Option<Condition>) -> Result<Option<Condition>, AllocError>
    ensures { IfOk result (λ copy. copy ≡ condition.now) }
{
    match condition {
        None => Ok(None),
        Some(condition) => Ok(Some(condition.try_clone()?)),
    }
}

fn clone_action(action: &Option<ActionKind>) -> Result<Option<ActionKind>, AllocError>
    ensures { IfOk result (λ copy. copy ≡ action.now) }
{
    match action {
        None => Ok(None),
        Some(action) => Ok(Some(action.try_clone()?)),
    }
}

/// The alternative with each name in its symbols resolved.
fn resolved_alternative(
    alloc: Global,
    scope: &Scope<'_, '_>,
    alternative: &Alternative,
) -> Result<Alternative, AllocError>
    ensures { IfOk result (λ made. alternative_view made
        ≡ resolved_alternative (scope_names scope.now) (scope_parameters scope.now) (alternative_view alternative.now)) }
{
    let expr = resolved_symbols(alloc, scope, alternative.expr.as_slice())?;
    let attributes = clone_attributes(alloc, alternative.attributes.as_slice())?;
    let action = clone_action(&alternative.action)?;
    let condition = clone_condition(&alternative.condition)?;
    let origin = alternative.origin.try_clone(alloc)?;
    Ok(Alternative {
        span: alternative.span,
        expr,
        condition,
        action,
        attributes,
        origin,
    })
}

/// The alternatives, in order, with each name in their symbols resolved.
fn resolved_alternatives(
    alloc: Global,
    scope: &Scope<'_, '_>,
    alternatives: &[Alternative],
) -> Result<List<Alternative>, AllocError>
    ensures { IfOk result (λ made. map alternative_view made
        ≡ map (resolved_alternative (scope_names scope.now) (scope_parameters scope.now)) (map alternative_view alternatives.now)) }
{
    let mut made = List::new(alloc);
    for alternative in alternatives {
        made.push(resolved_alternative(alloc, scope, alternative)?)?;
    }
    Ok(made)
}

fn clone_names(
    alloc: Global,
    names: &[NonterminalString],
) -> Result<List<NonterminalString>, AllocError>
    ensures { IfOk result (λ copy. copy ≡ names.now) }
{
    let mut copy = List::new(alloc);
    for name in names {
        copy.push(name.try_clone()?)?;
    }
    Ok(copy)
}

/// The scope's rule with each name in its alternatives and its declared type resolved.
pub(crate) fn rewritten_rule(
    alloc: Global,
    scope: &Scope<'_, '_>,
) -> Result<NonterminalData, AllocError>
    ensures { IfOk result (λ made.
        nonterminal_view made ≡ resolved_rule (scope_names scope.now) (nonterminal_view scope.now.rule.now)) }
{
    let rule = scope.rule;
    let name = rule.name.try_clone()?;
    let attributes = clone_attributes(alloc, rule.attributes.as_slice())?;
    let args = clone_names(alloc, rule.args.as_slice())?;
    let alternatives = resolved_alternatives(alloc, scope, rule.alternatives.as_slice())?;
    let visibility = rule.visibility.try_clone()?;
    let type_decl = resolved_declared(alloc, scope, &rule.type_decl)?;
    Ok(NonterminalData {
        visibility,
        name,
        attributes,
        span: rule.span,
        args,
        type_decl,
        alternatives,
    })
}
