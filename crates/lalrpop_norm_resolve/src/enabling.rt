//! What is left of a grammar under the features.
#![tactic(auto, using(crate::proofs::LeftLemmas::pushed_on))]

ghost use Rattle.std.specs.Prelude.{◌≡◌, ◌∷◌, ◌++◌, [], IfOk, OnOk, filter, filter_map, map};
ghost use Rattle.lalrpop_grammar.specs.Views.{alternative_view, attribute_view, grammar_view, item_view, nonterminal_view};
ghost use Rattle.lalrpop_grammar_language.specs.Enabled.{is_active};
ghost use Rattle.lalrpop_norm_theory.specs.Between.{
  is_cfg as has_cfg_name,
  without_cfg,
  alternative_without_cfg as pure_alternative,
  enabled_part,
  enabled_item,
  without_disabled,
};
ghost use Rattle.lalrpop_grammar.specs.WrittenGrammar.{WrittenItem};
ghost use Rattle.lalrpop_norm_resolve.specs.Left.{enabled_alternatives as pure_alternatives};

use lalrpop_grammar::types::{Attribute, AttributeArg};
use lalrpop_grammar::{Alternative, Grammar, GrammarItem, NonterminalData};
use lalrpop_grammar_repr::Session;
use lalrpop_grammar_symbols::List;
use std::alloc::{AllocError, Global};
use std::mem;

/// Whether the attributes leave what they stand on enabled: each `cfg` attribute holds under the session's features. It
/// takes no memory.
pub fn cfg_active(session: &Session, attributes: &[Attribute]) -> bool
    ensures { result ≡ is_active session.now.features.items (map attribute_view attributes.now) }
{
    lalrpop_grammar_rules::cfg_active(session.features.as_slice(), attributes)
}

fn is_cfg(attribute: &Attribute) -> bool
    ensures { result ≡ has_cfg_name (attribute_view attribute.now) }
{
    match &attribute.arg {
        AttributeArg::Empty => attribute.id.as_str() == "cfg",
        AttributeArg::Paren(_) => attribute.id.as_str() == "cfg",
        AttributeArg::Equal(_) => attribute.id.as_str() == "cfg",
    }
}

/// Puts the attribute behind the others, unless it is `cfg`.
fn keep_attribute(attribute: Attribute, kept: &mut List<Attribute>) -> Result<(), AllocError>
    ensures { OnOk result (map attribute_view kept.new
        ≡ map attribute_view kept.old ++ without_cfg (attribute_view attribute ∷ [])) }
{
    if is_cfg(&attribute) {
        return Ok(());
    }
    kept.push(attribute)
}

/// The attributes without `cfg`.
fn attributes_without_cfg(
    alloc: Global,
    attributes: List<Attribute>,
) -> Result<List<Attribute>, AllocError>
    ensures { IfOk result (λ kept. map attribute_view kept ≡ without_cfg (map attribute_view attributes)) }
{
    let mut kept = List::new(alloc);
    for attribute in attributes.into_vec() {
        keep_attribute(attribute, &mut kept)?;
    }
    Ok(kept)
}

/// The alternative without its `cfg` attributes.
fn alternative_without_cfg(
    alloc: Global,
    mut alternative: Alternative,
) -> Result<Alternative, AllocError>
    ensures { IfOk result (λ kept. alternative_view kept ≡ pure_alternative (alternative_view alternative)) }
{
    let attributes = mem::replace(&mut alternative.attributes, List::new(alloc));
    alternative.attributes = attributes_without_cfg(alloc, attributes)?;
    Ok(alternative)
}

/// Puts the alternative behind the others, where it is enabled, without its `cfg` attributes.
fn keep_alternative(
    alloc: Global,
    session: &Session,
    alternative: Alternative,
    kept: &mut List<Alternative>,
) -> Result<(), AllocError>
    ensures { OnOk result (map alternative_view kept.new ≡ map alternative_view kept.old
        ++ pure_alternatives session.now.features.items (alternative_view alternative ∷ [])) }
{
    if !cfg_active(session, alternative.attributes.as_slice()) {
        return Ok(());
    }
    kept.push(alternative_without_cfg(alloc, alternative)?)
}

/// The enabled alternatives, without their `cfg` attributes.
fn enabled_alternatives(
    alloc: Global,
    session: &Session,
    alternatives: List<Alternative>,
) -> Result<List<Alternative>, AllocError>
    ensures { IfOk result (λ kept. map alternative_view kept
        ≡ pure_alternatives session.now.features.items (map alternative_view alternatives)) }
{
    let mut kept = List::new(alloc);
    for alternative in alternatives.into_vec() {
        keep_alternative(alloc, session, alternative, &mut kept)?;
    }
    Ok(kept)
}

/// What is left of an enabled rule.
fn enabled_rule(
    alloc: Global,
    session: &Session,
    mut rule: NonterminalData,
) -> Result<NonterminalData, AllocError>
    ensures { IfOk result (λ kept.
        nonterminal_view kept ≡ enabled_part session.now.features.items (nonterminal_view rule)) }
{
    let attributes = mem::replace(&mut rule.attributes, List::new(alloc));
    rule.attributes = attributes_without_cfg(alloc, attributes)?;
    let alternatives = mem::replace(&mut rule.alternatives, List::new(alloc));
    rule.alternatives = enabled_alternatives(alloc, session, alternatives)?;
    Ok(rule)
}

/// Puts what is left of the enabled rule behind the other items.
fn keep_enabled_rule(
    alloc: Global,
    session: &Session,
    rule: NonterminalData,
    kept: &mut List<GrammarItem>,
) -> Result<(), AllocError>
    ensures { OnOk result (map item_view kept.new ≡ map item_view kept.old
        ++ WrittenItem.nonterminal (enabled_part session.now.features.items (nonterminal_view rule)) ∷ []) }
{
    let rule = enabled_rule(alloc, session, rule)?;
    kept.push(GrammarItem::Nonterminal(rule))
}

/// Puts the rule behind the other items, where it is enabled.
fn keep_rule(
    alloc: Global,
    session: &Session,
    rule: NonterminalData,
    kept: &mut List<GrammarItem>,
) -> Result<(), AllocError>
    ensures { OnOk result (map item_view kept.new ≡ map item_view kept.old
        ++ filter_map (enabled_item session.now.features.items) (WrittenItem.nonterminal (nonterminal_view rule) ∷ [])) }
{
    if !cfg_active(session, rule.attributes.as_slice()) {
        return Ok(());
    }
    keep_enabled_rule(alloc, session, rule, kept)
}

/// Puts the item behind the others, unless it is a disabled rule.
fn keep_item(
    alloc: Global,
    session: &Session,
    item: GrammarItem,
    kept: &mut List<GrammarItem>,
) -> Result<(), AllocError>
    ensures { OnOk result (map item_view kept.new ≡ map item_view kept.old
        ++ filter_map (enabled_item session.now.features.items) (item_view item ∷ [])) }
{
    match item {
        GrammarItem::Nonterminal(rule) => keep_rule(alloc, session, rule, kept),
        GrammarItem::MatchToken(block) => kept.push(GrammarItem::MatchToken(block)),
        GrammarItem::ExternToken(block) => kept.push(GrammarItem::ExternToken(block)),
        GrammarItem::InternToken(entries) => kept.push(GrammarItem::InternToken(entries)),
        GrammarItem::Use(text) => kept.push(GrammarItem::Use(text)),
    }
}

/// What is left of the items.
fn enabled_items(
    alloc: Global,
    session: &Session,
    items: List<GrammarItem>,
) -> Result<List<GrammarItem>, AllocError>
    ensures { IfOk result (λ kept. map item_view kept
        ≡ filter_map (enabled_item session.now.features.items) (map item_view items)) }
{
    let mut kept = List::new(alloc);
    for item in items.into_vec() {
        keep_item(alloc, session, item, &mut kept)?;
    }
    Ok(kept)
}

/// The grammar without what is disabled under the session's features: without disabled rules and alternatives, and without
/// the `cfg` attributes of those that are left. All else stays as it is, in its order.
///
/// # Errors
///
/// Only that memory runs out.
pub fn remove_disabled_decls(
    alloc: Global,
    session: &Session,
    grammar: Grammar,
) -> Result<Grammar, AllocError>
    ensures { IfOk result (λ copy.
        grammar_view copy ≡ without_disabled session.now.features.items (grammar_view grammar)) }
{
    let Grammar {
        prefix,
        span,
        parameters,
        type_parameters,
        where_clauses,
        attributes,
        items,
    } = grammar;
    let items = enabled_items(alloc, session, items)?;
    Ok(Grammar {
        prefix,
        span,
        parameters,
        type_parameters,
        where_clauses,
        attributes,
        items,
    })
}
