//! Names that begin with the grammar's prefix.
#![tactic(auto, using(crate::proofs::NameLemmas::first_reserved_of_both))]

ghost use Rattle.std.specs.Prelude.{◌≡◌, ◌∷◌, [], IfOk, flat_map, map, option_map};
ghost use Rattle.lalrpop_grammar_symbols.specs.SymbolWalks.{symbols_view};
ghost use Rattle.lalrpop_grammar_symbols.specs.Views.{span_view, symbol_view, terminal_view};
ghost use Rattle.lalrpop_grammar.specs.Views.{
  type_view,
  tys,
  condition_view,
  alternative_view,
  nonterminal_view,
  match_item_view,
  conversion_view,
  enum_token_view,
  item_view,
};
ghost use Rattle.lalrpop_norm_prevalidate.specs.Names.{
  at_span,
  name_in_terminal,
  own_name,
  names_in_symbols,
  names_in_type,
  names_in_types,
  names_in_declared,
  name_in_condition,
  names_in_alternative,
  names_in_rule,
  name_in_entry,
  names_in_group,
  names_in_conversions,
  names_in_enum,
  names_in_item,
  has_prefix,
  first_reserved,
};

use lalrpop_grammar::{
    Alternative, Condition, Conversion, EnumToken, Grammar, GrammarItem, MatchContents, MatchItem,
    MatchMapping, NonterminalData, TypeRef,
};
use lalrpop_grammar_symbols::{
    Atom, NonterminalString, Span, Symbol, SymbolKind, TerminalString, subsymbols_of,
};
use std::alloc::{AllocError, Global};
use std::slice;

fn is_reserved(prefix: &str, name: &Atom) -> bool
    ensures { result ≡ has_prefix prefix.now name.now }
{
    name.as_str().as_bytes().starts_with(prefix.as_bytes())
}

/// The span, where the name begins with the prefix.
fn reserved_name_at(prefix: &str, name: &Atom, span: Span) -> Option<Span>
    ensures { option_map span_view result ≡ first_reserved prefix.now ((name.now, span_view span) ∷ []) }
{
    if is_reserved(prefix, name) {
        Some(span)
    } else {
        None
    }
}

fn reserved_in_terminal(prefix: &str, terminal: &TerminalString, span: Span) -> Option<Span>
    ensures { option_map span_view result
        ≡ first_reserved prefix.now (at_span (span_view span) (name_in_terminal (terminal_view terminal.now))) }
{
    match terminal {
        TerminalString::Bare(name) => reserved_name_at(prefix, name, span),
        TerminalString::Literal(_) => None,
        TerminalString::Error => None,
    }
}

/// Where the symbol itself has a reserved name.
fn reserved_at(prefix: &str, symbol: &Symbol) -> Option<Span>
    ensures { option_map span_view result ≡ first_reserved prefix.now (own_name (symbol_view symbol.now)) }
{
    match &symbol.kind {
        SymbolKind::AmbiguousId(name) => reserved_name_at(prefix, name, symbol.span),
        SymbolKind::Nonterminal(name) => reserved_name_at(prefix, &name.0, symbol.span),
        SymbolKind::Terminal(terminal) => reserved_in_terminal(prefix, terminal, symbol.span),
        SymbolKind::Macro(call) => reserved_name_at(prefix, &call.name.0, symbol.span),
        SymbolKind::Name(name, _) => reserved_name_at(prefix, &name.name, symbol.span),
        SymbolKind::Expr(_)
        | SymbolKind::Repeat(_)
        | SymbolKind::Choose(_)
        | SymbolKind::Lookahead
        | SymbolKind::Lookbehind
        | SymbolKind::Error => None,
    }
}

fn reserved_in_symbols(
    alloc: Global,
    prefix: &str,
    symbols: &[Symbol],
) -> Result<Option<Span>, AllocError>
    ensures { IfOk result (λ span. option_map span_view span
        ≡ first_reserved prefix.now (names_in_symbols (symbols_view symbols.now))) }
{
    for symbol in subsymbols_of(alloc, symbols)? {
        if let Some(span) = reserved_at(prefix, symbol) {
            return Ok(Some(span));
        }
    }
    Ok(None)
}

/// In a declared type of a rule that stands at that span.
#[cycle(types)]
fn reserved_in_type(
    alloc: Global,
    prefix: &str,
    span: Span,
    type_ref: &TypeRef,
) -> Result<Option<Span>, AllocError>
    ensures { IfOk result (λ found. option_map span_view found
        ≡ first_reserved prefix.now (names_in_type (span_view span) (type_view type_ref.now))) }
{
    match type_ref {
        TypeRef::Tuple(types) => reserved_in_types(alloc, prefix, span, types.as_slice()),
        TypeRef::Nominal { path: _, types } => {
            reserved_in_types(alloc, prefix, span, types.as_slice())
        }
        TypeRef::Id(name) => Ok(reserved_name_at(prefix, name, span)),
        TypeRef::OfSymbol(symbol) => reserved_in_symbols(alloc, prefix, slice::from_ref(symbol)),
        TypeRef::Ref {
            lifetime: _,
            mutable: _,
            referent,
        } => reserved_in_type(alloc, prefix, span, referent.get()),
        TypeRef::Opaque(_) => Ok(None),
    }
}

#[cycle(types)]
fn reserved_in_types(
    alloc: Global,
    prefix: &str,
    span: Span,
    types: &[TypeRef],
) -> Result<Option<Span>, AllocError>
    ensures { IfOk result (λ found. option_map span_view found
        ≡ first_reserved prefix.now (names_in_types (span_view span) (tys (map type_view types.now)))) }
{
    for type_ref in types {
        if let Some(found) = reserved_in_type(alloc, prefix, span, type_ref)? {
            return Ok(Some(found));
        }
    }
    Ok(None)
}

fn reserved_in_declared(
    alloc: Global,
    prefix: &str,
    span: Span,
    declared: &Option<TypeRef>,
) -> Result<Option<Span>, AllocError>
    ensures { IfOk result (λ found. option_map span_view found
        ≡ first_reserved prefix.now (names_in_declared (span_view span) (option_map type_view declared.now))) }
{
    match declared {
        None => Ok(None),
        Some(type_ref) => reserved_in_type(alloc, prefix, span, type_ref),
    }
}

fn reserved_in_condition(prefix: &str, condition: &Option<Condition>) -> Option<Span>
    ensures { option_map span_view result
        ≡ first_reserved prefix.now (name_in_condition (option_map condition_view condition.now)) }
{
    match condition {
        None => None,
        Some(condition) => reserved_name_at(prefix, &condition.lhs.0, condition.span),
    }
}

#[tactic(auto, using(crate::proofs::NameLemmas::first_reserved_of_both), unfolding(crate::specs::Names::names_in_alternative))]
fn reserved_in_alternative(
    alloc: Global,
    prefix: &str,
    alternative: &Alternative,
) -> Result<Option<Span>, AllocError>
    ensures { IfOk result (λ found. option_map span_view found
        ≡ first_reserved prefix.now (names_in_alternative (alternative_view alternative.now))) }
{
    if let Some(found) = reserved_in_symbols(alloc, prefix, alternative.expr.as_slice())? {
        return Ok(Some(found));
    }
    Ok(reserved_in_condition(prefix, &alternative.condition))
}

fn reserved_in_alternatives(
    alloc: Global,
    prefix: &str,
    alternatives: &[Alternative],
) -> Result<Option<Span>, AllocError>
    ensures { IfOk result (λ found. option_map span_view found
        ≡ first_reserved prefix.now (flat_map names_in_alternative (map alternative_view alternatives.now))) }
{
    for alternative in alternatives {
        if let Some(found) = reserved_in_alternative(alloc, prefix, alternative)? {
            return Ok(Some(found));
        }
    }
    Ok(None)
}

fn reserved_in_parameters(
    prefix: &str,
    span: Span,
    parameters: &[NonterminalString],
) -> Option<Span>
    ensures { option_map span_view result
        ≡ first_reserved prefix.now (at_span (span_view span) (map (λ n. n.0) parameters.now)) }
{
    for parameter in parameters {
        if is_reserved(prefix, &parameter.0) {
            return Some(span);
        }
    }
    None
}

#[tactic(auto, using(crate::proofs::NameLemmas::first_reserved_of_both), unfolding(crate::specs::Names::names_in_rule))]
fn reserved_in_rule(
    alloc: Global,
    prefix: &str,
    rule: &NonterminalData,
) -> Result<Option<Span>, AllocError>
    ensures { IfOk result (λ found. option_map span_view found
        ≡ first_reserved prefix.now (names_in_rule (nonterminal_view rule.now))) }
{
    if is_reserved(prefix, &rule.name.0) {
        return Ok(Some(rule.span));
    }
    if let Some(found) = reserved_in_parameters(prefix, rule.span, rule.args.as_slice()) {
        return Ok(Some(found));
    }
    if let Some(found) = reserved_in_declared(alloc, prefix, rule.span, &rule.type_decl)? {
        return Ok(Some(found));
    }
    reserved_in_alternatives(alloc, prefix, rule.alternatives.as_slice())
}

fn reserved_in_entry(prefix: &str, entry: &MatchItem) -> Option<Span>
    ensures { option_map span_view result
        ≡ first_reserved prefix.now (name_in_entry (match_item_view entry.now)) }
{
    match entry {
        MatchItem::Mapped(_, mapping, span) => match mapping {
            MatchMapping::Terminal(terminal) => reserved_in_terminal(prefix, terminal, *span),
            MatchMapping::Skip => None,
        },
        MatchItem::CatchAll(_) => None,
        MatchItem::Unmapped(_, _) => None,
    }
}

fn reserved_in_entries(prefix: &str, entries: &[MatchItem]) -> Option<Span>
    ensures { option_map span_view result
        ≡ first_reserved prefix.now (flat_map name_in_entry (map match_item_view entries.now)) }
{
    for entry in entries {
        if let Some(found) = reserved_in_entry(prefix, entry) {
            return Some(found);
        }
    }
    None
}

#[tactic(auto, unfolding(crate::specs::Names::names_in_group))]
fn reserved_in_group(prefix: &str, group: &MatchContents) -> Option<Span>
    ensures { option_map span_view result
        ≡ first_reserved prefix.now (names_in_group (map match_item_view group.now.items)) }
{
    reserved_in_entries(prefix, group.items.as_slice())
}

fn reserved_in_groups(prefix: &str, groups: &[MatchContents]) -> Option<Span>
    ensures { option_map span_view result
        ≡ first_reserved prefix.now (flat_map names_in_group (map (λ c. map match_item_view c.items) groups.now)) }
{
    for group in groups {
        if let Some(found) = reserved_in_group(prefix, group) {
            return Some(found);
        }
    }
    None
}

fn reserved_in_conversions(prefix: &str, span: Span, conversions: &[Conversion]) -> Option<Span>
    ensures { option_map span_view result
        ≡ first_reserved prefix.now (names_in_conversions (span_view span) (map conversion_view conversions.now)) }
{
    for conversion in conversions {
        if let Some(found) = reserved_in_terminal(prefix, &conversion.from, span) {
            return Some(found);
        }
    }
    None
}

fn reserved_in_enum(prefix: &str, span: Span, token: &Option<EnumToken>) -> Option<Span>
    ensures { option_map span_view result
        ≡ first_reserved prefix.now (names_in_enum (span_view span) (option_map enum_token_view token.now)) }
{
    match token {
        None => None,
        Some(token) => reserved_in_conversions(prefix, span, token.conversions.as_slice()),
    }
}

#[tactic(auto, using(crate::proofs::NameLemmas::first_reserved_of_both), unfolding(crate::specs::Names::names_in_item))]
fn reserved_in_item(
    alloc: Global,
    prefix: &str,
    item: &GrammarItem,
) -> Result<Option<Span>, AllocError>
    ensures { IfOk result (λ found. option_map span_view found
        ≡ first_reserved prefix.now (names_in_item (item_view item.now))) }
{
    match item {
        GrammarItem::Nonterminal(rule) => reserved_in_rule(alloc, prefix, rule),
        GrammarItem::MatchToken(block) => Ok(reserved_in_groups(prefix, block.contents.as_slice())),
        GrammarItem::ExternToken(block) => {
            Ok(reserved_in_enum(prefix, block.span, &block.enum_token))
        }
        GrammarItem::InternToken(_) => Ok(None),
        GrammarItem::Use(_) => Ok(None),
    }
}

fn reserved_in_items(
    alloc: Global,
    prefix: &str,
    items: &[GrammarItem],
) -> Result<Option<Span>, AllocError>
    ensures { IfOk result (λ found. option_map span_view found
        ≡ first_reserved prefix.now (flat_map names_in_item (map item_view items.now))) }
{
    for item in items {
        if let Some(found) = reserved_in_item(alloc, prefix, item)? {
            return Ok(Some(found));
        }
    }
    Ok(None)
}

/// Where the first name, in reading order, begins with the grammar's prefix.
pub(crate) fn reserved_name(alloc: Global, grammar: &Grammar) -> Result<Option<Span>, AllocError>
    ensures { IfOk result (λ found. option_map span_view found
        ≡ first_reserved grammar.now.prefix (flat_map names_in_item (map item_view grammar.now.items))) }
{
    reserved_in_items(alloc, grammar.prefix.as_str(), grammar.items.as_slice())
}
