//! A grammar in which each level of a rule has a rule of its own.

ghost use Rattle.std.specs.Prelude.{◌≡◌, [], ◌∷◌, ◌++◌, ℕ, Bool, true, IfErr, IfOk, OnOk, Option, flat_map, map};
ghost use Rattle.lalrpop_grammar_symbols.specs.Symbols.{Text};
ghost use Rattle.lalrpop_grammar.specs.Views.{grammar_view, item_view, nonterminal_view};
ghost use Rattle.lalrpop_grammar.specs.WrittenGrammar.{WrittenItem, rules_of};
ghost use Rattle.lalrpop_grammar_language.specs.Levels.{has_levels};
ghost use Rattle.lalrpop_norm_theory.specs.Between.{rule_between};
ghost use Rattle.lalrpop_norm_theory.specs.LeveledGrammar.{
  leveled_grammar,
  leveled_item,
  leveled_rules as leveled_rules_of,
  levels_in_order,
};
ghost use Rattle.lalrpop_norm_theory.specs.LevelFaults.{HasRightLevels};
ghost use Rattle.lalrpop_norm_precedence.specs.LevelTables.{
  AreNamedLevels,
  HoldLevelNames,
  levels_alone,
  named_level_view,
  named_levels,
  rule_levels_view,
};
ghost use Rattle.lalrpop_norm_precedence.specs.LevelExpansions.{
  HasPlainNames,
  IsLevelExpansion,
  IsLevelFault,
  StaysWithoutLevels,
};
ghost use Rattle.lalrpop_norm_precedence.specs.PutItems.{PutsLeveled};

use crate::level_faults::{has_prec_attr, level_fault};
use crate::level_names::{NamedLevel, RuleLevels, level_names};
use crate::levels::rules::leveled_rules;
use lalrpop_grammar::{Grammar, GrammarItem, NonterminalData};
use lalrpop_grammar_repr::NormFault;
use lalrpop_grammar_symbols::List;
use std::alloc::{AllocError, Global};

/// Puts the rules behind the items, in order.
fn put_rules(rules: List<NonterminalData>, items: &mut List<GrammarItem>) -> Result<(), AllocError>
    ensures { OnOk result (map item_view items.new
        ≡ map item_view items.old ++ map WrittenItem.nonterminal (map nonterminal_view rules)) }
{
    for rule in rules.into_vec() {
        items.push(GrammarItem::Nonterminal(rule))?;
    }
    Ok(())
}

/// The rules into which a rule with these levels is parted, in its place.
fn level_rules(
    alloc: Global,
    rule: NonterminalData,
    levels: &[NamedLevel],
) -> Result<List<NonterminalData>, AllocError>
    ensures { IfOk result (λ made. (f : Text → ℕ → Text) → has_levels (rule_between (nonterminal_view rule)) ≡ true
        → map named_level_view levels.now ≡ named_levels f (nonterminal_view rule)
        → map nonterminal_view made ≡ leveled_rules_of f (nonterminal_view rule)) }
{
    leveled_rules(alloc, &rule, levels)
}

/// Puts the rule behind the items, one with levels as the rules of its levels.
fn put_leveled_rule(
    alloc: Global,
    rule: NonterminalData,
    levels: &RuleLevels,
    items: &mut List<GrammarItem>,
) -> Result<(), AllocError>
    ensures { OnOk result ((f : Text → ℕ → Text) → rule_levels_view levels.now ≡ named_levels f (nonterminal_view rule)
        → map item_view items.new
        ≡ map item_view items.old ++ leveled_item f (WrittenItem.nonterminal (nonterminal_view rule))) }
{
    if !has_prec_attr(&rule) {
        return items.push(GrammarItem::Nonterminal(rule));
    }
    let rules = level_rules(alloc, rule, levels.levels.as_slice())?;
    put_rules(rules, items)
}

/// Puts the rule behind the items, by the first of the tables, and gives the others.
fn put_rule<'t>(
    alloc: Global,
    rule: NonterminalData,
    tables: &'t [RuleLevels],
    items: &mut List<GrammarItem>,
) -> Result<&'t [RuleLevels], AllocError>
    ensures { IfOk result (λ left. PutsLeveled (WrittenItem.nonterminal (nonterminal_view rule)) tables.now left.now
        (map item_view items.old) (map item_view items.new)) }
{
    let Some((levels, left)) = tables.split_first() else {
        items.push(GrammarItem::Nonterminal(rule))?;
        return Ok(tables);
    };
    put_leveled_rule(alloc, rule, levels, items)?;
    Ok(left)
}

/// Puts an item that is no rule behind the others, and gives all of the tables.
fn keep_item<'t>(
    item: GrammarItem,
    tables: &'t [RuleLevels],
    items: &mut List<GrammarItem>,
) -> Result<&'t [RuleLevels], AllocError>
    ensures pushed { OnOk result (map item_view items.new ≡ map item_view items.old ++ item_view item ∷ []) }
    ensures left { IfOk result (λ left. left.now ≡ tables.now) }
{
    items.push(item)?;
    Ok(tables)
}

/// Puts the item behind the others, a rule by the first of the tables, and gives the tables of the rules to come.
fn put_item<'t>(
    alloc: Global,
    item: GrammarItem,
    tables: &'t [RuleLevels],
    items: &mut List<GrammarItem>,
) -> Result<&'t [RuleLevels], AllocError>
    ensures { IfOk result (λ left. PutsLeveled (item_view item) tables.now left.now
        (map item_view items.old) (map item_view items.new)) }
{
    match item {
        GrammarItem::Nonterminal(rule) => put_rule(alloc, rule, tables, items),
        GrammarItem::MatchToken(block) => keep_item(GrammarItem::MatchToken(block), tables, items),
        GrammarItem::ExternToken(block) => keep_item(
            GrammarItem::ExternToken(block),
            tables,
            items,
        ),
        GrammarItem::InternToken(entries) => keep_item(
            GrammarItem::InternToken(entries),
            tables,
            items,
        ),
        GrammarItem::Use(text) => keep_item(GrammarItem::Use(text), tables, items),
    }
}

/// The items, in order, with each level of a rule as a rule of its own.
fn leveled_items(
    alloc: Global,
    items: List<GrammarItem>,
    tables: &[RuleLevels],
) -> Result<List<GrammarItem>, AllocError>
    ensures { IfOk result (λ made. (f : Text → ℕ → Text) → AreNamedLevels f (rules_of (map item_view items)) tables.now
        → map item_view made ≡ flat_map (leveled_item f) (map item_view items)) }
{
    let mut made = List::new(alloc);
    let mut left = tables;
    for item in items.into_vec() {
        left = put_item(alloc, item, left, &mut made)?;
    }
    Ok(made)
}

/// The grammar in which each level of a rule has a rule of its own, under the names of the tables, of which each rule has one.
fn with_levels(
    alloc: Global,
    grammar: Grammar,
    tables: &[RuleLevels],
) -> Result<Grammar, AllocError>
    ensures { IfOk result (λ made. (f : Text → ℕ → Text)
        → AreNamedLevels f (rules_of (grammar_view grammar).items) tables.now
        → grammar_view made ≡ leveled_grammar f (grammar_view grammar)) }
{
    let Grammar {
        prefix,
        span,
        parameters,
        type_parameters,
        where_clauses,
        attributes,
        items,
    } = grammar;
    let items = leveled_items(alloc, items, tables)?;
    Ok(Grammar {
        prefix,
        span,
        parameters,
        type_parameters,
        where_clauses,
        attributes,
        items,
    })
}

/// The grammar in which each level of a rule has a rule of its own, by tables of its levels in order, with names that they may
/// have.
fn expanded_by_tables(
    alloc: Global,
    grammar: Grammar,
    tables: &[RuleLevels],
) -> Result<Grammar, AllocError>
    requires right { HasRightLevels (grammar_view grammar) }
    requires order { map levels_alone tables.now
        ≡ map (λ r. levels_in_order (rule_between r)) (rules_of (grammar_view grammar).items) }
    requires names { (finds : Text → Text → Option Bool) → HasPlainNames finds (grammar_view grammar)
        → HoldLevelNames (grammar_view grammar) tables.now }
    ensures value { IfOk result (λ made. (finds : Text → Text → Option Bool) → HasPlainNames finds (grammar_view grammar)
        → IsLevelExpansion finds (grammar_view grammar) (grammar_view made)) }
    ensures stays { IfOk result (λ made. StaysWithoutLevels (grammar_view grammar) (grammar_view made)) }
{
    with_levels(alloc, grammar, tables)
}

/// The grammar in which each level of a rule has a rule of its own: the loosest under the rule's name, each other one under the
/// rule's name and the number of the level, with one more number where that is taken. An alternative names its rule by the level
/// that the occurrence may have; the last one of each level passes to the next tighter level. What is disabled is gone before, and
/// names are resolved.
///
/// # Errors
///
/// The first fault of levels, with its place: a rule with levels whose first alternative says none, a level that is no number below
/// 2^32, a side on the tightest level, or a side that is none of the four. And memory runs out.
pub fn expand_precedence(alloc: Global, grammar: Grammar) -> Result<Grammar, NormFault>
    ensures fault { IfErr result (IsLevelFault (grammar_view grammar)) }
    ensures right { IfOk result (λ made. HasRightLevels (grammar_view grammar)) }
    ensures value { IfOk result (λ made. (finds : Text → Text → Option Bool) → HasPlainNames finds (grammar_view grammar)
        → IsLevelExpansion finds (grammar_view grammar) (grammar_view made)) }
    ensures stays { IfOk result (λ made. StaysWithoutLevels (grammar_view grammar) (grammar_view made)) }
{
    if let Some(error) = level_fault(&grammar) {
        return Err(NormFault::Norm(error));
    }
    let tables = level_names(alloc, &grammar)?;
    Ok(expanded_by_tables(alloc, grammar, tables.as_slice())?)
}
