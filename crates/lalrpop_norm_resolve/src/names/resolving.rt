//! A grammar with each of its names resolved.

ghost use Rattle.std.specs.Prelude.{◌≡◌, [], ◌∷◌, Bool, IfErr, IfOk, Option, map};
ghost use Rattle.lalrpop_grammar_symbols.specs.Symbols.{Text};
ghost use Rattle.lalrpop_grammar.specs.Views.{grammar_view, item_view, nonterminal_view};
ghost use Rattle.lalrpop_grammar.specs.WrittenGrammar.{rules_of};
ghost use Rattle.lalrpop_norm_theory.specs.Between.{grammar_between};
ghost use Rattle.lalrpop_norm_theory.specs.Premises.{IsResolved};
ghost use Rattle.lalrpop_norm_theory.specs.Same.{SameExpansion};
ghost use Rattle.lalrpop_norm_theory.specs.Inlined.{SameInlined};
ghost use Rattle.lalrpop_norm_theory.specs.Resolving.{defined_names, resolved_grammar, resolved_item, resolved_rule};
ghost use Rattle.lalrpop_norm_theory.specs.NameFaults.{HasRightNames};
ghost use Rattle.lalrpop_norm_resolve.specs.FoundFaults.{
  HasRightRule,
  HasRightRules,
  IsNameFault,
  TellsOneOf,
  IsResolvedFrom,
  StandsInRule,
  StandsInRules,
};
ghost use Rattle.lalrpop_norm_resolve.specs.NameViews.{definition_names};

use crate::names::definitions::{Definitions, Scope};
use crate::names::duplicates::check_rule_names;
use crate::names::faults::check_rule;
use crate::names::rewriting::rewritten_rule;
use lalrpop_grammar::{Grammar, GrammarItem, NonterminalData};
use lalrpop_grammar_repr::NormFault;
use lalrpop_grammar_symbols::List;
use std::alloc::Global;

/// The rule with each of its names resolved, where nothing is wrong with them.
fn resolved_rule(
    alloc: Global,
    definitions: &Definitions<'_>,
    rule: &NonterminalData,
) -> Result<NonterminalData, NormFault>
    ensures value { IfOk result (λ made. nonterminal_view made
        ≡ resolved_rule (definition_names definitions.now) (nonterminal_view rule.now)) }
    ensures right { IfOk result (λ made. HasRightRule (definition_names definitions.now) (nonterminal_view rule.now)) }
    ensures fault { IfErr result (TellsOneOf (StandsInRule (definition_names definitions.now) (nonterminal_view rule.now))) }
{
    let scope = Scope::new(alloc, definitions, rule)?;
    check_rule(alloc, &scope)?;
    Ok(rewritten_rule(alloc, &scope)?)
}

/// The item with each of its names resolved, where nothing is wrong with them.
fn resolved_item(
    alloc: Global,
    definitions: &Definitions<'_>,
    item: &GrammarItem,
) -> Result<GrammarItem, NormFault>
    ensures value { IfOk result (λ made. item_view made ≡ resolved_item (definition_names definitions.now) (item_view item.now)) }
    ensures right { IfOk result (λ made. HasRightRules (definition_names definitions.now) (rules_of (item_view item.now ∷ []))) }
    ensures fault { IfErr result (TellsOneOf (StandsInRules (definition_names definitions.now) (rules_of (item_view item.now ∷ [])))) }
{
    match item {
        GrammarItem::Nonterminal(rule) => {
            Ok(GrammarItem::Nonterminal(resolved_rule(alloc, definitions, rule)?))
        }
        GrammarItem::MatchToken(_)
        | GrammarItem::ExternToken(_)
        | GrammarItem::InternToken(_)
        | GrammarItem::Use(_) => Ok(item.try_clone(alloc)?),
    }
}

/// The items, in order, with each of their names resolved, where nothing is wrong with them.
fn resolved_items(
    alloc: Global,
    definitions: &Definitions<'_>,
    items: &[GrammarItem],
) -> Result<List<GrammarItem>, NormFault>
    ensures value { IfOk result (λ made. map item_view made
        ≡ map (resolved_item (definition_names definitions.now)) (map item_view items.now)) }
    ensures right { IfOk result (λ made. HasRightRules (definition_names definitions.now) (rules_of (map item_view items.now))) }
    ensures fault { IfErr result (TellsOneOf (StandsInRules (definition_names definitions.now) (rules_of (map item_view items.now)))) }
{
    let mut made = List::new(alloc);
    for item in items {
        made.push(resolved_item(alloc, definitions, item)?)?;
    }
    Ok(made)
}

/// The grammar's items with each of their names resolved, where nothing is wrong with the grammar's names.
fn resolved_items_of(alloc: Global, grammar: &Grammar) -> Result<List<GrammarItem>, NormFault>
    ensures value { IfOk result (λ made. map item_view made
        ≡ map (resolved_item (defined_names (grammar_view grammar.now))) (grammar_view grammar.now).items) }
    ensures right { IfOk result (λ made. HasRightNames (grammar_view grammar.now)) }
    ensures fault { IfErr result (IsNameFault (grammar_view grammar.now)) }
{
    let definitions = Definitions::new(alloc, grammar)?;
    check_rule_names(alloc, &definitions)?;
    resolved_items(alloc, &definitions, grammar.items.as_slice())
}

/// The grammar with each of its names resolved, where nothing is wrong with them.
fn resolved_grammar(alloc: Global, grammar: Grammar) -> Result<Grammar, NormFault>
    ensures made { IfOk result (λ made. IsResolvedFrom (grammar_view grammar) (grammar_view made)) }
    ensures fault { IfErr result (IsNameFault (grammar_view grammar)) }
{
    let items = resolved_items_of(alloc, &grammar)?;
    let Grammar {
        prefix,
        span,
        parameters,
        type_parameters,
        where_clauses,
        attributes,
        items: _,
    } = grammar;
    Ok(Grammar {
        prefix,
        span,
        parameters,
        type_parameters,
        where_clauses,
        attributes,
        items,
    })
}

/// The grammar with each of its names resolved, in alternatives and in declared types: a name is a parameter of its rule, a
/// nonterminal, or a mapped bare name as a terminal. All else stays as it is. What is disabled is gone before.
///
/// # Errors
///
/// Two rules, a rule and a mapped bare name, or two parameters of a rule share a name; a name stands for nothing; a macro
/// stands without arguments, or arguments for what is no macro; each with its place. And memory runs out.
pub fn resolve(alloc: Global, grammar: Grammar) -> Result<Grammar, NormFault>
    ensures value { IfOk result (λ made. grammar_view made ≡ resolved_grammar (grammar_view grammar)) }
    ensures right { IfOk result (λ made. HasRightNames (grammar_view grammar)) }
    ensures fault { IfErr result (IsNameFault (grammar_view grammar)) }
    ensures resolved { IfOk result (λ made.
        (finds : Text → Text → Option Bool) → IsResolved (grammar_between finds (grammar_view made))) }
    ensures right_still { IfOk result (λ made. HasRightNames (grammar_view made)) }
    ensures expansion { IfOk result (λ made. (finds : Text → Text → Option Bool)
        → SameExpansion (grammar_between finds (grammar_view grammar)) (grammar_between finds (grammar_view made)) (λ x. x)) }
    ensures inlined { IfOk result (λ made. (finds : Text → Text → Option Bool)
        → SameInlined (grammar_between finds (grammar_view grammar)) (grammar_between finds (grammar_view made)) (λ x. x)) }
    ensures stays { IfOk result (λ made. (finds : Text → Text → Option Bool)
        → IsResolved (grammar_between finds (grammar_view grammar)) → grammar_view made ≡ grammar_view grammar) }
{
    resolved_grammar(alloc, grammar)
}
