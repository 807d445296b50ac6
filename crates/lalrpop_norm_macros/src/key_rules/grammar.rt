//! A grammar with other rules in place of its own.

ghost use Rattle.std.specs.Prelude.{◌≡◌, ◌++◌, [], ◌∷◌, IfOk, OnOk, if◌then◌else◌, map};
ghost use Rattle.lalrpop_grammar.specs.Views.{grammar_view, item_view, nonterminal_view};
ghost use Rattle.lalrpop_grammar.specs.WrittenGrammar.{WrittenItem};
ghost use Rattle.lalrpop_norm_macros.specs.RuleItems.{grammar_with_rules, other_items};

use lalrpop_grammar::{Grammar, GrammarItem, NonterminalData};
use lalrpop_grammar_symbols::List;
use std::alloc::{AllocError, Global};

/// Whether the item is a rule.
fn is_rule(item: &GrammarItem) -> bool
    ensures { other_items (item_view item.now ∷ []) ≡ (if result then [] else item_view item.now ∷ []) }
{
    match item {
        GrammarItem::Nonterminal(_) => true,
        GrammarItem::MatchToken(_) | GrammarItem::ExternToken(_) => false,
        GrammarItem::InternToken(_) | GrammarItem::Use(_) => false,
    }
}

/// Puts the item behind the others, unless it is a rule.
fn keep_item(item: GrammarItem, items: &mut List<GrammarItem>) -> Result<(), AllocError>
    ensures { OnOk result (map item_view items.new ≡ map item_view items.old ++ other_items (item_view item ∷ [])) }
{
    if is_rule(&item) {
        return Ok(());
    }
    items.push(item)
}

/// The items that are no rules, in order.
fn other_items(alloc: Global, items: List<GrammarItem>) -> Result<List<GrammarItem>, AllocError>
    ensures { IfOk result (λ kept. map item_view kept ≡ other_items (map item_view items)) }
{
    let mut kept = List::new(alloc);
    for item in items.into_vec() {
        keep_item(item, &mut kept)?;
    }
    Ok(kept)
}

/// Puts the rules behind the items, in order.
fn put_rules(rules: List<NonterminalData>, items: &mut List<GrammarItem>) -> Result<(), AllocError>
    ensures { OnOk result (map item_view items.new
        ≡ map item_view items.old ++ map WrittenItem.nonterminal (map nonterminal_view rules)) }
{
    for rule in rules.into_vec() {
        items.push(GrammarItem::Nonterminal(rule))?;
    }
    Ok(())
}

/// The grammar with these rules in place of its own, behind its other items, which stay as they are and in order.
pub fn with_rules(
    alloc: Global,
    grammar: Grammar,
    rules: List<NonterminalData>,
) -> Result<Grammar, AllocError>
    ensures { IfOk result (λ made. grammar_view made
        ≡ grammar_with_rules (grammar_view grammar) (map nonterminal_view rules)) }
{
    let Grammar {
        prefix,
        span,
        parameters,
        type_parameters,
        where_clauses,
        attributes,
        items,
    } = grammar;
    let mut items = other_items(alloc, items)?;
    put_rules(rules, &mut items)?;
    Ok(Grammar {
        prefix,
        span,
        parameters,
        type_parameters,
        where_clauses,
        attributes,
        items,
    })
}
