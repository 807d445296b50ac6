//! Match blocks behind the first one, and public rules that are marked `inline`.
#![tactic(auto, using(crate::proofs::FirstLemmas::first_of_both))]

ghost use Rattle.std.specs.Prelude.{◌≡◌, flat_map, map, option_map};
ghost use Rattle.std.specs.Str.{bytes_eq};
ghost use Rattle.lalrpop_grammar_symbols.specs.Views.{span_view};
ghost use Rattle.lalrpop_grammar.specs.WrittenGrammar.{attr_id};
ghost use Rattle.lalrpop_grammar.specs.Views.{attribute_view, is_public as public_kind, nonterminal_view, item_view};
ghost use Rattle.lalrpop_grammar_language.specs.Enabled.{has_attr};
ghost use Rattle.lalrpop_norm_prevalidate.specs.Firsts.{first_of};
ghost use Rattle.lalrpop_norm_prevalidate.specs.Blocks.{block_span, later_blocks, public_inline_span, public_inlines};

use lalrpop_grammar::{Attribute, Grammar, GrammarItem, NonterminalData, Visibility};
use lalrpop_grammar_symbols::Span;

/// Where the item stands, if it is a match block.
fn block_at(item: &GrammarItem) -> Option<Span>
    ensures { option_map span_view result ≡ first_of (block_span (item_view item.now)) }
{
    match item {
        GrammarItem::MatchToken(block) => Some(block.span),
        GrammarItem::ExternToken(_) => None,
        GrammarItem::InternToken(_) => None,
        GrammarItem::Nonterminal(_) => None,
        GrammarItem::Use(_) => None,
    }
}

/// The first match block of the items.
fn first_block(items: &[GrammarItem]) -> Option<Span>
    ensures { option_map span_view result ≡ first_of (flat_map block_span (map item_view items.now)) }
{
    for item in items {
        if let Some(span) = block_at(item) {
            return Some(span);
        }
    }
    None
}

/// Where a second match block stands.
pub(crate) fn second_block(grammar: &Grammar) -> Option<Span>
    ensures { option_map span_view result ≡ first_of (later_blocks (map item_view grammar.now.items)) }
{
    let mut items = grammar.items.as_slice();
    while let Some((item, others)) = items.split_first() {
        items = others;
        if let GrammarItem::MatchToken(_) = item {
            return first_block(items);
        }
    }
    None
}

fn is_named(attribute: &Attribute, id: &str) -> bool
    ensures { result ≡ bytes_eq (attr_id (attribute_view attribute.now)) id.now }
{
    attribute.id.as_str() == id
}

/// Whether one of the attributes has that name.
fn has_attribute(id: &str, attributes: &[Attribute]) -> bool
    ensures { result ≡ has_attr id.now (map attribute_view attributes.now) }
{
    for attribute in attributes {
        if is_named(attribute, id) {
            return true;
        }
    }
    false
}

fn is_public(visibility: &Visibility) -> bool
    ensures { result ≡ public_kind visibility.now }
{
    match visibility {
        Visibility::Pub => true,
        Visibility::PubIn(_) => true,
        Visibility::Priv => false,
    }
}

fn public_inline_at(rule: &NonterminalData) -> Option<Span>
    ensures { option_map span_view result ≡ first_of (public_inline_span (nonterminal_view rule.now)) }
{
    if is_public(&rule.visibility) && has_attribute("inline", rule.attributes.as_slice()) {
        Some(rule.span)
    } else {
        None
    }
}

/// Where the first public rule stands that is marked `inline`.
pub(crate) fn public_inline(grammar: &Grammar) -> Option<Span>
    ensures { option_map span_view result ≡ first_of (public_inlines (map item_view grammar.now.items)) }
{
    for rule in grammar.rules() {
        if let Some(span) = public_inline_at(rule) {
            return Some(span);
        }
    }
    None
}
