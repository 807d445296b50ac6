//! Named symbols where none may stand.
#![tactic(auto, using(crate::proofs::FirstLemmas::first_of_both))]

ghost use Rattle.std.specs.Prelude.{◌≡◌, IfOk, flat_map, map, option_map};
ghost use Rattle.std.specs.List.{list_any};
ghost use Rattle.lalrpop_grammar_symbols.specs.SymbolWalks.{symbols_view};
ghost use Rattle.lalrpop_grammar_symbols.specs.Views.{span_view, symbol_view};
ghost use Rattle.lalrpop_grammar.specs.WrittenGrammar.{rules_of};
ghost use Rattle.lalrpop_grammar.specs.Views.{action_view, alternative_view, nonterminal_view, item_view};
ghost use Rattle.lalrpop_norm_prevalidate.specs.Firsts.{first_of};
ghost use Rattle.lalrpop_norm_prevalidate.specs.Labels.{
  label_span,
  labels_in,
  labels_in_group,
  labels_in_groups,
  is_choice as choice_kind,
  labels_beside_choice,
  has_user_code as user_code_kind,
  misplaced_in_alternative,
  misplaced_in_rule,
  misplaced_labels,
  labels_without_code,
};

use lalrpop_grammar::{ActionKind, Alternative, Grammar, NonterminalData};
use lalrpop_grammar_symbols::{Span, Symbol, SymbolKind, subsymbols_of};
use std::alloc::{AllocError, Global};

/// Where the symbol stands, if it is a named one.
fn label_at(symbol: &Symbol) -> Option<Span>
    ensures { option_map span_view result ≡ first_of (label_span (symbol_view symbol.now)) }
{
    match &symbol.kind {
        SymbolKind::Name(_, _) => Some(symbol.span),
        SymbolKind::Expr(_)
        | SymbolKind::AmbiguousId(_)
        | SymbolKind::Nonterminal(_)
        | SymbolKind::Terminal(_)
        | SymbolKind::Macro(_)
        | SymbolKind::Repeat(_)
        | SymbolKind::Choose(_)
        | SymbolKind::Lookahead
        | SymbolKind::Lookbehind
        | SymbolKind::Error => None,
    }
}

/// The first named symbol, at any depth.
fn first_label(alloc: Global, symbols: &[Symbol]) -> Result<Option<Span>, AllocError>
    ensures { IfOk result (λ span. option_map span_view span ≡ first_of (labels_in (symbols_view symbols.now))) }
{
    for symbol in subsymbols_of(alloc, symbols)? {
        if let Some(span) = label_at(symbol) {
            return Ok(Some(span));
        }
    }
    Ok(None)
}

/// The first named symbol inside, if the symbol is a group.
fn first_label_in_group(alloc: Global, symbol: &Symbol) -> Result<Option<Span>, AllocError>
    ensures { IfOk result (λ span. option_map span_view span ≡ first_of (labels_in_group (symbol_view symbol.now))) }
{
    match &symbol.kind {
        SymbolKind::Expr(group) => first_label(alloc, group.symbols.as_slice()),
        SymbolKind::Name(_, _)
        | SymbolKind::AmbiguousId(_)
        | SymbolKind::Nonterminal(_)
        | SymbolKind::Terminal(_)
        | SymbolKind::Macro(_)
        | SymbolKind::Repeat(_)
        | SymbolKind::Choose(_)
        | SymbolKind::Lookahead
        | SymbolKind::Lookbehind
        | SymbolKind::Error => Ok(None),
    }
}

/// The first named symbol in a group.
fn first_label_in_groups(alloc: Global, symbols: &[Symbol]) -> Result<Option<Span>, AllocError>
    ensures { IfOk result (λ span. option_map span_view span
        ≡ first_of (labels_in_groups (symbols_view symbols.now))) }
{
    for symbol in subsymbols_of(alloc, symbols)? {
        if let Some(span) = first_label_in_group(alloc, symbol)? {
            return Ok(Some(span));
        }
    }
    Ok(None)
}

fn is_choice(symbol: &Symbol) -> bool
    ensures { result ≡ choice_kind (symbol_view symbol.now) }
{
    matches!(&symbol.kind, SymbolKind::Choose(_))
}

fn has_choice(symbols: &[Symbol]) -> bool
    ensures { result ≡ list_any choice_kind (map symbol_view symbols.now) }
{
    for symbol in symbols {
        if is_choice(symbol) {
            return true;
        }
    }
    false
}

/// The first named symbol of the list itself.
fn first_own_label(symbols: &[Symbol]) -> Option<Span>
    ensures { option_map span_view result ≡ first_of (flat_map label_span (map symbol_view symbols.now)) }
{
    for symbol in symbols {
        if let Some(span) = label_at(symbol) {
            return Some(span);
        }
    }
    None
}

/// The first named symbol of the list itself, where it has a chosen one.
fn first_label_beside_choice(symbols: &[Symbol]) -> Option<Span>
    ensures { option_map span_view result ≡ first_of (labels_beside_choice (map symbol_view symbols.now)) }
{
    if has_choice(symbols) {
        first_own_label(symbols)
    } else {
        None
    }
}

fn has_user_code(action: &Option<ActionKind>) -> bool
    ensures { result ≡ user_code_kind (action_view action.now) }
{
    match action {
        None => false,
        Some(ActionKind::User(_)) => true,
        Some(ActionKind::Fallible(_)) => true,
        Some(ActionKind::Lookahead) => false,
        Some(ActionKind::Lookbehind) => false,
    }
}

/// The first named symbol of an alternative without user code.
fn first_label_without_code(
    alloc: Global,
    alternative: &Alternative,
) -> Result<Option<Span>, AllocError>
    ensures { IfOk result (λ span. option_map span_view span
        ≡ first_of (labels_without_code (alternative_view alternative.now))) }
{
    if has_user_code(&alternative.action) {
        return Ok(None);
    }
    first_label(alloc, alternative.expr.as_slice())
}

/// The first named symbol of the alternative that may not stand there: beside a chosen one, else in a group, else any.
#[tactic(auto, using(crate::proofs::FirstLemmas::first_of_both), unfolding(crate::specs::Labels::misplaced_in_alternative))]
fn misplaced_label_in(alloc: Global, alternative: &Alternative) -> Result<Option<Span>, AllocError>
    ensures { IfOk result (λ span. option_map span_view span
        ≡ first_of (misplaced_in_alternative (alternative_view alternative.now))) }
{
    if let Some(span) = first_label_beside_choice(alternative.expr.as_slice()) {
        return Ok(Some(span));
    }
    if let Some(span) = first_label_in_groups(alloc, alternative.expr.as_slice())? {
        return Ok(Some(span));
    }
    first_label_without_code(alloc, alternative)
}

fn misplaced_label_of(
    alloc: Global,
    alternatives: &[Alternative],
) -> Result<Option<Span>, AllocError>
    ensures { IfOk result (λ span. option_map span_view span
        ≡ first_of (flat_map misplaced_in_alternative (map alternative_view alternatives.now))) }
{
    for alternative in alternatives {
        if let Some(span) = misplaced_label_in(alloc, alternative)? {
            return Ok(Some(span));
        }
    }
    Ok(None)
}

#[tactic(auto, unfolding(crate::specs::Labels::misplaced_in_rule))]
fn misplaced_label_in_rule(
    alloc: Global,
    rule: &NonterminalData,
) -> Result<Option<Span>, AllocError>
    ensures { IfOk result (λ span. option_map span_view span
        ≡ first_of (misplaced_in_rule (nonterminal_view rule.now))) }
{
    misplaced_label_of(alloc, rule.alternatives.as_slice())
}

/// Where a named symbol stands that may not stand there, in the first rule that has one.
pub(crate) fn misplaced_label(alloc: Global, grammar: &Grammar) -> Result<Option<Span>, AllocError>
    ensures { IfOk result (λ span. option_map span_view span
        ≡ first_of (misplaced_labels (map item_view grammar.now.items))) }
{
    for rule in grammar.rules() {
        if let Some(span) = misplaced_label_in_rule(alloc, rule)? {
            return Ok(Some(span));
        }
    }
    Ok(None)
}
